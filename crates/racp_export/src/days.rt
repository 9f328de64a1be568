//! The days of tasks.

ghost use Rattle.std.specs.Prelude.{◌≡◌, ◌+◌, IfOk, string_bytes};
ghost use Rattle.racp_calendar.specs.Dates.{first_text, last_text};

use racp_calendar::{Calendar, push_first, push_last};
use racp_show::Task;
use std::alloc::{AllocError, Global};

/// The first day of a task.
pub(crate) fn first_of(
    alloc: Global,
    calendar: Calendar<'_>,
    task: &Task<'_>,
) -> Result<String, AllocError>
    ensures { IfOk result (λ day. string_bytes day ≡ first_text calendar.entry task.now.start task.now.duration) }
{
    let mut day = String::new(alloc);
    push_first(
        &mut day,
        calendar,
        task.start as u128,
        task.duration as u128,
    )?;
    Ok(day)
}

/// The last day of a task.
pub(crate) fn last_of(
    alloc: Global,
    calendar: Calendar<'_>,
    task: &Task<'_>,
) -> Result<String, AllocError>
    ensures { IfOk result (λ day. string_bytes day ≡ last_text calendar.entry (task.now.start + task.now.duration)) }
{
    let mut day = String::new(alloc);
    push_last(
        &mut day,
        calendar,
        task.start as u128 + task.duration as u128,
    )?;
    Ok(day)
}
