//! How a table is to be read.

use crate::format::Format;
use racp_calendar::{Calendar, DateForm};

/// How a table is to be read, as far as the table does not say it.
#[derive(Clone, Copy)]
pub struct Reading<'a> {
    /// The kind of its text, if that is told.
    pub format: Option<Format>,
    /// The titles of the columns of resources, between commas, if they are told.
    pub resources: Option<&'a str>,
    /// The titles of columns that are passed over, between commas, if some are told.
    pub ignored: Option<&'a str>,
    /// What durations and times are counted in.
    pub scale: Scale,
    /// How dates are times.
    pub dating: Dating<'a>,
}

/// How dates are times.
#[derive(Clone, Copy)]
pub struct Dating<'a> {
    /// The calendar whose days dates are; none is a time if it tells times by their numbers.
    pub calendar: Calendar<'a>,
    /// How dates are written.
    pub form: DateForm,
}

/// What durations and times are counted in.
#[derive(Clone, Copy)]
pub struct Scale {
    /// How many hours make a day, if that is told.
    pub hours_a_day: Option<u32>,
    /// Whether a time unit is half a day.
    pub is_half_day: bool,
}

impl Scale {
    ghost use Rattle.std.specs.Prelude.{◌≡◌};
    ghost use Rattle.racp_tables.specs.Times.{units_a_day};

    /// How many time units a day has.
    pub(crate) fn units_a_day(&self) -> u64
        ensures { result ≡ units_a_day self.now }
    {
        if self.is_half_day { 2 } else { 1 }
    }
}
