//! How long a time unit is.

ghost use Rattle.std.specs.Prelude.{◌≡◌, ◌≤◌};
ghost use Rattle.racp_calendar.specs.Units.{unit_days};

/// How long a time unit is.
#[derive(Clone, Copy)]
pub enum Unit {
    /// A day.
    Day,
    /// A week of seven days.
    Week,
}

/// How many days a time unit has.
pub(crate) fn days_of(unit: Unit) -> u64
    ensures value { result ≡ unit_days unit }
    ensures some { 1 ≤ result }
    ensures few { result ≤ 7 }
{
    match unit {
        Unit::Day => 1,
        Unit::Week => 7,
    }
}
