//! Why a plan is not known.

ghost use Rattle.std.specs.Prelude.{◌≡◌};
ghost use Rattle.racp_by_questions.specs.Stops.{given_up, stopped_at};

use racp_model::Capacities;
use racp_questions::AskStop;
use std::alloc::AllocError;
use thiserror::Error;

/// Why a plan is not known.
#[derive(Debug, Drop, Error)]
pub enum PlanStop {
    /// The search was stopped. No capacities that are enough stand before these: the floors so far, those that the
    /// asker reached, or the plan's own.
    #[error("the search was stopped")]
    Stopped {
        /// How many units there are of each resource, by place from 0.
        not_before: Capacities,
    },
    /// Memory was refused.
    #[error("out of memory")]
    Memory,
    /// No thread could be started.
    #[error("no thread could be started")]
    NoThread,
}

impl From<AllocError> for PlanStop {
    ghost use Rattle.std.specs.Prelude.{◌≡◌};
    ghost use Rattle.racp_by_questions.specs.declared.stop.PlanStop.TheVariants.{Memory};

    ghost from_gives = { λ _ stop. stop ≡ Memory };

    fn from(_error: AllocError) -> PlanStop {
        PlanStop::Memory
    }
}

impl PlanStop {
    /// Why planning ends where an asker gives up, with capacities before which none are enough.
    pub fn given_up(stop: AskStop, not_before: Capacities) -> Self
        ensures { result ≡ given_up stop not_before }
    {
        match stop {
            AskStop::Stopped { .. } => PlanStop::Stopped { not_before },
            AskStop::Memory => PlanStop::Memory,
            AskStop::NoThread => PlanStop::NoThread,
        }
    }

    /// Why planning ends where an asker gives up, with the capacities that it reached where there are such, and else with
    /// these floors.
    pub(crate) fn stopped_at(stop: AskStop, floors: Capacities) -> Self
        ensures { result ≡ stopped_at stop floors }
    {
        match stop {
            AskStop::Stopped {
                reached: Some(not_before),
            } => PlanStop::Stopped { not_before },
            AskStop::Stopped { reached: None } => PlanStop::Stopped { not_before: floors },
            AskStop::Memory => PlanStop::Memory,
            AskStop::NoThread => PlanStop::NoThread,
        }
    }
}
