//! Laws of working days. Each function does nothing; its contract is the law.

ghost use Rattle.racp_calendar.specs.Laws.{BlocksAreCounted, DaysRise, EndsOnWorkdays, StartsOnWorkdays, WorkIsCounted};

/// The time t is the beginning of the block that has work and t blocks before it that have.
pub fn blocks_are_counted()
    ensures { BlocksAreCounted }
{}

/// What starts is begun on a day that is worked on.
pub fn starts_on_workdays()
    ensures { StartsOnWorkdays }
{}

/// What ends is done on a day that is worked on.
pub fn ends_on_workdays()
    ensures { EndsOnWorkdays }
{}

/// Days rise with times.
pub fn days_rise()
    ensures { DaysRise }
{}

/// Between two starts as many days are worked on as there are time units, if these are days.
pub fn work_is_counted()
    ensures { WorkIsCounted }
{}
