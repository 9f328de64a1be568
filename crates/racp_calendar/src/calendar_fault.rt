//! Why a text is no calendar.

use crate::fault::WorkdaysFault;
use std::alloc::{AllocError, AllocFailed};
use thiserror::Error;

/// Why a text is no calendar: the first rule that it breaks, in the order in which the rules are tested.
#[derive(Debug, Clone, Copy, PartialEq, Eq, Drop, Error)]
pub enum CalendarFault {
    /// The text has more than 65,536 bytes.
    #[error("a calendar has at most 65,536 bytes")]
    TooLong,
    /// The text is not UTF-8, or not TOML.
    #[error("the text is not TOML")]
    NotToml,
    /// There is a key that calendars do not have.
    #[error("a calendar has the keys start, workdays, unit and holidays alone")]
    Unknown,
    /// There is no first day.
    #[error("the key start is missing, as in start = 2026-03-02")]
    NoStart,
    /// The first day is no date.
    #[error("start has to be a date such as 2026-03-02")]
    Start,
    /// The days of a week that are worked on are told in no way that is known.
    #[error("workdays has to be days of the week such as \"mon-fri\" or \"mon-thu,sat\"")]
    Workdays,
    /// The length of a time unit is none that is known.
    #[error("unit has to be \"day\" or \"week\"")]
    Unit,
    /// Something else stands where holidays have to.
    #[error("a holiday has to be a date, or a first and a last one: [2026-12-24, 2027-01-01]")]
    Holiday,
    /// Some holidays end before they begin.
    #[error("these holidays end before they begin")]
    Backwards,
    /// No day of a week is worked on.
    #[error("no day of a week is worked on")]
    NoWorkday,
    /// More than 4,000 days are free by holidays.
    #[error("more than 4,000 days are free by holidays")]
    TooMany,
    /// Memory ran out.
    #[error("out of memory")]
    Memory,
}

impl From<AllocError> for CalendarFault {
    ghost use Rattle.std.specs.Prelude.{◌≡◌};
    ghost use Rattle.racp_calendar.specs.declared.calendar_fault.CalendarFault.TheVariants.{Memory};

    ghost from_gives = { λ _ fault. fault ≡ Memory };

    fn from(_error: AllocError) -> CalendarFault {
        CalendarFault::Memory
    }
}

impl<T: Drop> From<AllocFailed<T>> for CalendarFault {
    ghost use Rattle.std.specs.Prelude.{◌≡◌};
    ghost use Rattle.racp_calendar.specs.declared.calendar_fault.CalendarFault.TheVariants.{Memory};

    ghost from_gives = { λ _ fault. fault ≡ Memory };

    fn from(_error: AllocFailed<T>) -> CalendarFault {
        CalendarFault::Memory
    }
}

/// What a fault of a calendar of working days is in the text of one.
pub(crate) fn of_workdays(fault: WorkdaysFault) -> CalendarFault {
    match fault {
        WorkdaysFault::NoWorkday => CalendarFault::NoWorkday,
        WorkdaysFault::TooMany => CalendarFault::TooMany,
        WorkdaysFault::Memory => CalendarFault::Memory,
    }
}

/// Why a text is no calendar, and where that shows, as `3:1: ..` in words: the line and the column, both from 1.
#[derive(Debug, Clone, Copy, PartialEq, Eq, Drop, Error)]
#[error("{line}:{column}: {fault}")]
pub struct CalendarError {
    /// The rule that is broken.
    pub fault: CalendarFault,
    /// The line where that shows, from 1.
    pub line: usize,
    /// The character of the line, from 1.
    pub column: usize,
}
