//! How long a reader searches for the next child of a node.

ghost use Rattle.std.specs.Prelude.{◌≡◌, All, IfOk, IsErrOf, IsFalse, IsTrue, length};
ghost use Rattle.racp_model.specs.Project.{IsNumber};
ghost use Rattle.racp_delay.specs.Alternatives.{IsFollowing};

use racp_delay::{ActiveJobs, Alternative, Steps};
use racp_model::{Capacities, JobSet, Network, Stop, Unfound};

/// How many steps a search takes at most where a tree is made.
const MOST_STEPS: u32 = 1_000_000;

/// How long a reader reads, and searches for the next alternative of a node.
pub(crate) trait Patience {
    ghost use Rattle.std.specs.Prelude.{Bool};

    ghost is_quiet: { Self → Bool };

    /// Whether the reader is to stop now.
    fn asked(&self) -> bool
        ensures { IsTrue (is_quiet self.now) → IsFalse result };

    /// Finds the next alternative of some jobs after a list of them, as `Alternative::find_behind` does.
    fn find_behind(
        &self,
        next: &mut Alternative,
        net: &Network,
        capacities: &Capacities,
        active: &JobSet,
        last: &[u32],
    ) -> Result<bool, Unfound>
        requires capacities { length capacities.now ≡ net.now.resources }
        requires active { All (IsNumber (length net.now.jobs)) active.now }
        ensures found { IfOk result (λ more. IsFollowing net.now capacities.now active.now active.now last.now more next.new) }
        ensures quiet { IsTrue (is_quiet self.now) → IsErrOf result Unfound.Stopped → ⊥ };
}

/// As long as a stop does not say otherwise.
#[derive(Drop)]
pub(crate) struct UntilStopped<'a, S: Stop> {
    pub(crate) stop: &'a S,
}

impl<'a, S: Stop> Patience for UntilStopped<'a, S> {
    ghost is_quiet = { λ until. S.is_quiet until.stop.now };

    fn asked(&self) -> bool {
        self.stop.asked()
    }

    fn find_behind(
        &self,
        next: &mut Alternative,
        net: &Network,
        capacities: &Capacities,
        active: &JobSet,
        last: &[u32],
    ) -> Result<bool, Unfound> {
        let active = ActiveJobs {
            all: active,
            free: active,
        };
        next.find_behind(net, capacities, &active, last, self.stop)
    }
}

/// Stops a search after so many steps, or when some patience is over.
#[derive(Drop)]
struct StepsUntil<P: Patience + Drop> {
    steps: Steps,
    patience: P,
}

impl<P: Patience + Drop> Stop for StepsUntil<P> {
    ghost use Rattle.std.specs.Prelude.{false};

    ghost QUIET = { false };

    ghost is_quiet = { λ _. false };

    ghost all_quiet = { λ _ quiet. quiet };

    const QUIET: bool = false;

    fn asked(&self) -> bool {
        self.steps.asked() || self.patience.asked()
    }
}

/// As long as a stop does not say otherwise, and each search takes 1,000,000 steps at most.
#[derive(Drop)]
pub(crate) struct Brief<'a, S: Stop> {
    pub(crate) stop: &'a S,
}

impl<'a, S: Stop> Patience for Brief<'a, S> {
    ghost use Rattle.std.specs.Prelude.{false};

    ghost is_quiet = { λ _. false };

    fn asked(&self) -> bool {
        self.stop.asked()
    }

    fn find_behind(
        &self,
        next: &mut Alternative,
        net: &Network,
        capacities: &Capacities,
        active: &JobSet,
        last: &[u32],
    ) -> Result<bool, Unfound> {
        let stop = StepsUntil {
            steps: Steps::new(MOST_STEPS),
            patience: UntilStopped { stop: self.stop },
        };
        let active = ActiveJobs {
            all: active,
            free: active,
        };
        next.find_behind(net, capacities, &active, last, &stop)
    }
}
