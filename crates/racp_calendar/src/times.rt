//! The times of dates.

ghost use Rattle.std.specs.Prelude.{◌≡◌, ◌+◌, ◌<◌, ◌≤◌, IfNone, IfSome};
ghost use Rattle.racp_calendar.specs.Dates.{end_of, most_days, work_of};
ghost use Rattle.racp_calendar.specs.Holidays.{day_number};
ghost use Rattle.racp_calendar.specs.Times.{IsBy, IsFrom, IsTimeBy, IsTimeFrom, end_number};
ghost use Rattle.racp_calendar.specs.Units.{unit_days};

use crate::building::number_of;
use crate::unit::days_of;
use crate::workdays::Workdays;
use jiff_core::civil::Date;

/// The greatest time of which the last day is not after a date: what is to be done by the evening of the date ends at this
/// time or sooner. `None` if the date is before the first day that is worked on, so that there is no such time.
pub fn time_by(calendar: &Workdays, date: Date) -> Option<u32>
    ensures time { IfSome result (λ time. IsTimeBy calendar.now date time) }
    ensures none { IfNone result (day_number date < end_number calendar.now 0) }
    ensures small { IfSome result (λ time. time ≤ most_days) }
{
    let first = number_of(calendar.first);
    let number = number_of(date);
    if number < first {
        return None;
    }
    let day = number - first;
    if (day as u64) < calendar.end_day(0) {
        return None;
    }
    Some(last_time(calendar, day))
}

/// The least time of which the first day is not before a date: what may not begin before the date starts at this time or later.
pub fn time_from(calendar: &Workdays, date: Date) -> u32
    ensures time { IsTimeFrom calendar.now date result }
    ensures small { result ≤ most_days }
{
    let first = number_of(calendar.first);
    let number = number_of(date);
    if number < first {
        return 0;
    }
    first_time(calendar, number - first)
}

/// The greatest time of which the last day is not after a day, which is counted from the first one.
fn last_time(calendar: &Workdays, day: u32) -> u32
    requires few { day < most_days }
    requires begun { end_of calendar.now 0 ≤ day }
    ensures time { IsBy (work_of calendar.now) (unit_days calendar.now.unit) most_days day result }
    ensures small { result ≤ most_days }
{
    let day = day as u64;
    let block = day / days_of(calendar.unit);
    let time = calendar.blocks.below(block) as u32;
    if !calendar.blocks.works(block) {
        return time;
    }
    if calendar.last_in(block) <= day {
        time + 1
    } else {
        time
    }
}

/// The least time of which the first day is not before a day, which is counted from the first one.
pub(crate) fn first_time(calendar: &Workdays, day: u32) -> u32
    requires few { day < most_days }
    ensures time { IsFrom (work_of calendar.now) (unit_days calendar.now.unit) most_days day result }
    ensures small { result ≤ most_days }
{
    let day = day as u64;
    let block = day / days_of(calendar.unit);
    let time = calendar.blocks.below(block) as u32;
    if !calendar.blocks.works(block) {
        return time;
    }
    if calendar.first_in(block) < day {
        time + 1
    } else {
        time
    }
}
