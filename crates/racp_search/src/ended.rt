ghost use Rattle.std.specs.Prelude.{◌≡◌, [], true, false, Option, Some, None};

use racp_model::{Starts, Window};
use std::alloc::Global;

/// How a search ended: with starts that answer, or with the windows that are left.
#[derive(Drop)]
pub(crate) struct Ended {
    pub(crate) found: Option<Starts>,
    pub(crate) rest: Vec<Window>,
    pub(crate) stopped: bool,
}

impl Ended {
    /// These starts answer, and nothing is left. Takes no memory.
    pub(crate) fn found(alloc: Global, starts: Starts) -> Self
        ensures found { result.found ≡ Some starts }
        ensures rest { result.rest.items ≡ [] }
        ensures stopped { result.stopped ≡ false }
    {
        Ended {
            found: Some(starts),
            rest: Vec::new(alloc),
            stopped: false,
        }
    }

    /// These windows are left, since the search was stopped, or since its quantum is spent. Takes no memory.
    pub(crate) fn left(rest: Vec<Window>, stopped: bool) -> Self
        ensures { result ≡ record { found = None; rest = rest; stopped = stopped } }
    {
        Ended {
            found: None,
            rest,
            stopped,
        }
    }

    /// Nothing answers, and nothing is left. Takes no memory.
    pub(crate) fn nothing(alloc: Global) -> Self
        ensures found { result.found ≡ None }
        ensures rest { result.rest.items ≡ [] }
        ensures stopped { result.stopped ≡ false }
    {
        Ended {
            found: None,
            rest: Vec::new(alloc),
            stopped: false,
        }
    }

    /// The starts that were found.
    pub(crate) fn into_found(self) -> Option<Starts>
        ensures { result ≡ self.found }
    {
        self.found
    }
}
