//! When a search stops before its end.

ghost use Rattle.std.specs.Prelude.{IsTrue, IsFalse};

use std::alloc::{AllocError, AllocFailed};

/// Whether a search, of alternatives, of windows or of capacities, is to stop. A quiet value never says so; another one
/// may answer anything at any time.
pub trait Stop {
    ghost use Rattle.std.specs.Prelude.{Bool};

    ghost QUIET: { Bool };

    ghost is_quiet: { Self → Bool };

    /// Whether each value of the type is quiet.
    const QUIET: bool;

    /// Whether the search is to stop now.
    fn asked(&self) -> bool
        ensures { IsTrue (is_quiet self.now) → IsFalse result };

    ghost all_quiet: { (stop : Self) → IsTrue QUIET → IsTrue (is_quiet stop) };
}

/// Never stops a search.
#[derive(Clone, Copy)]
pub struct Never;

impl Stop for Never {
    ghost use Rattle.std.specs.Prelude.{true};
    ghost use Rattle.std.proofs.Common.{rules};

    ghost QUIET = { true };

    ghost is_quiet = { λ _. true };

    ghost all_quiet = { Prim.search rules };

    const QUIET: bool = true;

    fn asked(&self) -> bool {
        false
    }
}

/// Why a search has no answer.
#[derive(Clone, Copy)]
pub enum Unfound {
    /// Memory was refused.
    Memory,
    /// The search was stopped.
    Stopped,
}

impl From<AllocError> for Unfound {
    ghost use Rattle.std.specs.Prelude.{◌≡◌};
    ghost use Rattle.racp_model.specs.declared.stop.Unfound.TheVariants.{Memory};

    ghost from_gives = { λ _ e. e ≡ Memory };

    fn from(_error: AllocError) -> Unfound {
        Unfound::Memory
    }
}

impl<T: Drop> From<AllocFailed<T>> for Unfound {
    ghost use Rattle.std.specs.Prelude.{◌≡◌};
    ghost use Rattle.racp_model.specs.declared.stop.Unfound.TheVariants.{Memory};

    ghost from_gives = { λ _ e. e ≡ Memory };

    fn from(_error: AllocFailed<T>) -> Unfound {
        Unfound::Memory
    }
}
