//! When something runs, in words.

ghost use Rattle.std.specs.Prelude.{◌≡◌, ◌<◌, ◌^◌, ◌++◌, OnOk, string_bytes};
ghost use Rattle.racp_charts.specs.Drawings.{evening_text, run_text, times_text};

use racp_calendar::{Calendar, push_first, push_last};
use std::alloc::AllocError;

/// Adds when something runs: from its start to its end, or from its first day to its last; what takes no time is done in the
/// evening of a day.
pub(crate) fn push_times(
    text: &mut String,
    calendar: Calendar<'_>,
    start: u128,
    duration: u128,
) -> Result<(), AllocError>
    requires start { start < 2 ^ 32 }
    requires duration { duration < 2 ^ 32 }
    ensures { OnOk result (string_bytes text.new ≡ string_bytes text.old ++ times_text calendar.entry start duration) }
{
    if duration == 0 && calendar.has_dates() {
        push_evening(text, calendar, start)
    } else {
        push_run(text, calendar, start, duration)
    }
}

/// Adds the evening of a day on which something is done.
fn push_evening(text: &mut String, calendar: Calendar<'_>, end: u128) -> Result<(), AllocError>
    ensures { OnOk result (string_bytes text.new ≡ string_bytes text.old ++ evening_text calendar.entry end) }
{
    text.push_str("by the evening of ")?;
    push_last(text, calendar, end)?;
    Ok(())
}

/// Adds from when to when something runs.
fn push_run(
    text: &mut String,
    calendar: Calendar<'_>,
    start: u128,
    duration: u128,
) -> Result<(), AllocError>
    requires start { start < 2 ^ 32 }
    requires duration { duration < 2 ^ 32 }
    ensures { OnOk result (string_bytes text.new ≡ string_bytes text.old ++ run_text calendar.entry start duration) }
{
    text.push_str("from ")?;
    push_first(text, calendar, start, duration)?;
    text.push_str(" to ")?;
    push_last(text, calendar, start + duration)?;
    Ok(())
}
