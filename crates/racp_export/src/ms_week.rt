//! The calendar of a project of MS Project.

ghost use Rattle.std.specs.Prelude.{◌≡◌, ◌++◌, ◌<◌, IfOk, OnOk, flat_map, string_bytes};
ghost use Rattle.racp_calendar.specs.Told.{counted_text, free_days};
ghost use Rattle.racp_export.specs.MsProject.{day_lines, exception, exception_line, exceptions_text, free_day, free_line, hours_of, week_before, week_day, week_text};

use racp_calendar::{Calendar, free_days, is_workday, push_counted};
use std::alloc::{AllocError, Global};

/// When a day is worked on.
const HOURS: &str =
    "1</DayWorking><WorkingTimes><WorkingTime><FromTime>08:00:00</FromTime><ToTime>12:00:00</ToTime></WorkingTime><WorkingTime><FromTime>13:00:00</FromTime><ToTime>17:00:00</ToTime></WorkingTime></WorkingTimes>";

/// Adds the calendar up to its free days, as MS Project up to 2003 has these.
#[tactic(auto, unfolding(crate::specs::MsProject::week_text), using(crate::proofs::Pieces::in_three))]
pub(crate) fn push_week(
    alloc: Global,
    text: &mut String,
    calendar: Calendar<'_>,
) -> Result<(), AllocError>
    ensures { OnOk result (string_bytes text.new ≡ string_bytes text.old ++ week_text calendar.entry) }
{
    text.push_str(
        " <Calendars>\n  <Calendar>\n   <UID>1</UID>\n   <Name>Standard</Name>\n   <IsBaseCalendar>1</IsBaseCalendar>\n   <BaseCalendarUID>-1</BaseCalendarUID>\n   <WeekDays>\n",
    )?;
    push_days(text, calendar)?;
    push_free_days(alloc, text, calendar)?;
    Ok(())
}

/// Adds the days of the week, of which the first is Sunday.
fn push_days(text: &mut String, calendar: Calendar<'_>) -> Result<(), AllocError>
    ensures { OnOk result (string_bytes text.new ≡ string_bytes text.old ++ week_before calendar.entry 7) }
{
    for day in 0..7u8 {
        push_day_of(text, calendar, day)?;
    }
    Ok(())
}

/// Adds a day of the week, from 0 for Sunday.
fn push_day_of(text: &mut String, calendar: Calendar<'_>, day: u8) -> Result<(), AllocError>
    requires { day < 7 }
    ensures { OnOk result (string_bytes text.new ≡ string_bytes text.old ++ day_lines calendar.entry day) }
{
    push_day(text, day + 1, hours_of(is_workday(calendar, (day + 6) % 7)))
}

/// Adds a day of the week with its hours.
#[tactic(auto, unfolding(crate::specs::MsProject::week_day))]
fn push_day(text: &mut String, day: u8, hours: &str) -> Result<(), AllocError>
    ensures { OnOk result (string_bytes text.new ≡ string_bytes text.old ++ week_day day hours.now) }
{
    write!(
        text,
        "    <WeekDay><DayType>{day}</DayType><DayWorking>{hours}</WeekDay>\n"
    )
}

/// The hours of a day that is worked on, or that it is not.
fn hours_of(works: bool) -> &'static str
    ensures { result.now ≡ hours_of works }
{
    if works { HOURS } else { "0</DayWorking>" }
}

/// Adds each free day.
fn push_free_days(
    alloc: Global,
    text: &mut String,
    calendar: Calendar<'_>,
) -> Result<(), AllocError>
    ensures { OnOk result (string_bytes text.new ≡ string_bytes text.old ++ flat_map (free_line calendar.entry) (free_days calendar.entry)) }
{
    for day in free_days(calendar) {
        let date = date_of(alloc, calendar, *day)?;
        push_free_day(text, date.as_str())?;
    }
    Ok(())
}

/// The day so many days after the first one.
fn date_of(alloc: Global, calendar: Calendar<'_>, day: u32) -> Result<String, AllocError>
    ensures { IfOk result (λ date. string_bytes date ≡ counted_text calendar.entry day) }
{
    let mut date = String::new(alloc);
    push_counted(&mut date, calendar, day)?;
    Ok(date)
}

/// Adds a free day.
#[tactic(auto, unfolding(crate::specs::MsProject::free_day))]
fn push_free_day(text: &mut String, day: &str) -> Result<(), AllocError>
    ensures { OnOk result (string_bytes text.new ≡ string_bytes text.old ++ free_day day.now) }
{
    write!(
        text,
        "    <WeekDay><DayType>0</DayType><DayWorking>0</DayWorking><TimePeriod><FromDate>{day}T00:00:00</FromDate><ToDate>{day}T23:59:00</ToDate></TimePeriod></WeekDay>\n"
    )
}

/// Adds the free days once more, as MS Project from 2007 on has them, and the end of the calendar.
#[tactic(auto, unfolding(crate::specs::MsProject::exceptions_text), using(crate::proofs::Pieces::in_three))]
pub(crate) fn push_exceptions(
    alloc: Global,
    text: &mut String,
    calendar: Calendar<'_>,
) -> Result<(), AllocError>
    ensures { OnOk result (string_bytes text.new ≡ string_bytes text.old ++ exceptions_text calendar.entry) }
{
    text.push_str("   </WeekDays>\n   <Exceptions>\n")?;
    push_each_exception(alloc, text, calendar)?;
    text.push_str("   </Exceptions>\n  </Calendar>\n </Calendars>\n")?;
    Ok(())
}

/// Adds each free day once more.
fn push_each_exception(
    alloc: Global,
    text: &mut String,
    calendar: Calendar<'_>,
) -> Result<(), AllocError>
    ensures { OnOk result (string_bytes text.new ≡ string_bytes text.old ++ flat_map (exception_line calendar.entry) (free_days calendar.entry)) }
{
    for day in free_days(calendar) {
        let date = date_of(alloc, calendar, *day)?;
        push_exception(text, date.as_str())?;
    }
    Ok(())
}

/// Adds a free day once more.
#[tactic(auto, unfolding(crate::specs::MsProject::exception))]
fn push_exception(text: &mut String, day: &str) -> Result<(), AllocError>
    ensures { OnOk result (string_bytes text.new ≡ string_bytes text.old ++ exception day.now) }
{
    write!(
        text,
        "    <Exception><EnteredByOccurrences>0</EnteredByOccurrences><TimePeriod><FromDate>{day}T00:00:00</FromDate><ToDate>{day}T23:59:00</ToDate></TimePeriod><Occurrences>1</Occurrences><Name>{day}</Name><Type>1</Type><DayWorking>0</DayWorking></Exception>\n"
    )
}
