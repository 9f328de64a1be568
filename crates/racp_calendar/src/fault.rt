//! Why there is no calendar.

use std::alloc::{AllocError, AllocFailed};
use thiserror::Error;

/// Why there is no calendar of working days.
#[derive(Debug, Clone, Copy, PartialEq, Eq, Drop, Error)]
pub enum WorkdaysFault {
    /// No day of a week is worked on.
    #[error("no day of a week is worked on")]
    NoWorkday,
    /// More than 4,000 days are free by holidays.
    #[error("more than 4,000 days are free by holidays")]
    TooMany,
    /// Memory ran out.
    #[error("out of memory")]
    Memory,
}

impl From<AllocError> for WorkdaysFault {
    ghost use Rattle.std.specs.Prelude.{◌≡◌};
    ghost use Rattle.racp_calendar.specs.declared.fault.WorkdaysFault.TheVariants.{Memory};

    ghost from_gives = { λ _ fault. fault ≡ Memory };

    fn from(_error: AllocError) -> WorkdaysFault {
        WorkdaysFault::Memory
    }
}

impl<T: Drop> From<AllocFailed<T>> for WorkdaysFault {
    ghost use Rattle.std.specs.Prelude.{◌≡◌};
    ghost use Rattle.racp_calendar.specs.declared.fault.WorkdaysFault.TheVariants.{Memory};

    ghost from_gives = { λ _ fault. fault ≡ Memory };

    fn from(_error: AllocFailed<T>) -> WorkdaysFault {
        WorkdaysFault::Memory
    }
}
