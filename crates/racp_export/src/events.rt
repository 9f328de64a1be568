//! A plan as a calendar of events, in the format iCalendar.

ghost use Rattle.std.specs.Prelude.{◌≡◌, ◌++◌, IfOk, OnOk, flat_map, string_bytes};
ghost use Rattle.racp_calendar.specs.Dates.{first_text, last_text};
ghost use Rattle.racp_export.specs.Days.{day_behind};
ghost use Rattle.racp_model.specs.Project.{place};
ghost use Rattle.racp_export.specs.Letters.{spelled};
ghost use Rattle.racp_export.specs.Words.{needs_text};
ghost use Rattle.racp_export.specs.declared.letters.Letters.TheVariants.{Events};
ghost use Rattle.racp_export.specs.Events.{content_line, days_lines, days_text, description_lines, description_text, digits, event_text, events_text, row_event, stamp_of, summary_text, uid_text};

use crate::behind::day_behind;
use crate::folding::push_content;
use crate::ground::Ground;
use crate::letters::{Letters, spelled};
use crate::words::{spelled_needs, spelled_title};
use racp_calendar::{Calendar, push_first};
use racp_show::{Row, Task};
use std::alloc::{AllocError, Global};

/// The tasks of a plan as events.
#[tactic(auto, unfolding(crate::specs::Events::events_text), using(crate::proofs::Pieces::in_three))]
pub(crate) fn events_text(
    alloc: Global,
    ground: &Ground<'_>,
    rows: &[Row<'_>],
) -> Result<String, AllocError>
    ensures { IfOk result (λ text. string_bytes text ≡ events_text ground.now.calendar ground.now.net.now ground.now.names.now rows.now) }
{
    let mut text = String::from_str(
        alloc,
        "BEGIN:VCALENDAR\r\nVERSION:2.0\r\nPRODID:-//racp//racp//EN\r\nCALSCALE:GREGORIAN\r\n",
    )?;
    push_rows(alloc, &mut text, ground, rows)?;
    text.push_str("END:VCALENDAR\r\n")?;
    Ok(text)
}

/// Adds the event of each row that is a task.
fn push_rows(
    alloc: Global,
    text: &mut String,
    ground: &Ground<'_>,
    rows: &[Row<'_>],
) -> Result<(), AllocError>
    ensures { OnOk result (string_bytes text.new ≡ string_bytes text.old
        ++ flat_map (row_event ground.now.calendar ground.now.net.now ground.now.names.now) rows.now) }
{
    let stamp = stamp_of(alloc, ground.calendar)?;
    for row in rows {
        push_row(alloc, text, ground, stamp.as_str(), row)?;
    }
    Ok(())
}

/// Adds the event of a row, if it is a task.
fn push_row(
    alloc: Global,
    text: &mut String,
    ground: &Ground<'_>,
    stamp: &str,
    row: &Row<'_>,
) -> Result<(), AllocError>
    requires { stamp.now ≡ stamp_of ground.now.calendar }
    ensures { OnOk result (string_bytes text.new ≡ string_bytes text.old
        ++ row_event ground.now.calendar ground.now.net.now ground.now.names.now row.now) }
{
    match row {
        Row::Heading { .. } => Ok(()),
        Row::Bar { task, .. } => push_event(alloc, text, ground, stamp, task),
    }
}

/// Adds the event of a task.
fn push_event(
    alloc: Global,
    text: &mut String,
    ground: &Ground<'_>,
    stamp: &str,
    task: &Task<'_>,
) -> Result<(), AllocError>
    requires { stamp.now ≡ stamp_of ground.now.calendar }
    ensures { OnOk result (string_bytes text.new ≡ string_bytes text.old
        ++ event_text ground.now.calendar ground.now.net.now ground.now.names.now task.now) }
{
    text.push_str("BEGIN:VEVENT\r\n")?;
    push_uid(alloc, text, stamp, task)?;
    push_days(alloc, text, ground.calendar, stamp, task)?;
    push_summary(alloc, text, task)?;
    push_description(alloc, text, ground, task)?;
    text.push_str("TRANSP:TRANSPARENT\r\nEND:VEVENT\r\n")?;
    Ok(())
}

/// Adds by what an event is known again: a later plan of the project has the same.
fn push_uid(
    alloc: Global,
    text: &mut String,
    stamp: &str,
    task: &Task<'_>,
) -> Result<(), AllocError>
    ensures { OnOk result (string_bytes text.new ≡ string_bytes text.old ++ content_line (uid_text stamp.now task.now)) }
{
    let line = uid_of(alloc, stamp, task)?;
    push_content(alloc, text, line.as_str())
}

/// By what an event is known again.
#[tactic(auto, unfolding(crate::specs::Events::uid_text))]
fn uid_of(alloc: Global, stamp: &str, task: &Task<'_>) -> Result<String, AllocError>
    ensures { IfOk result (λ line. string_bytes line ≡ uid_text stamp.now task.now) }
{
    let job = task.job;
    let title = spelled_title(alloc, Letters::Events, task)?;
    format!(in alloc; "UID:{job}.{stamp}.{title}@racp")
}

/// Adds the days of an event.
fn push_days(
    alloc: Global,
    text: &mut String,
    calendar: Calendar<'_>,
    stamp: &str,
    task: &Task<'_>,
) -> Result<(), AllocError>
    ensures { OnOk result (string_bytes text.new ≡ string_bytes text.old ++ days_text calendar.entry stamp.now task.now) }
{
    let (start, duration) = (task.start as u128, task.duration as u128);
    let first = first_digits(alloc, calendar, start, duration)?;
    let behind = behind_digits(alloc, calendar, start + duration)?;
    push_days_between(text, stamp, first.as_str(), behind.as_str())
}

/// Adds the days of an event, which are told by these words.
#[tactic(auto, unfolding(crate::specs::Events::days_lines))]
fn push_days_between(
    text: &mut String,
    stamp: &str,
    first: &str,
    behind: &str,
) -> Result<(), AllocError>
    ensures { OnOk result (string_bytes text.new ≡ string_bytes text.old ++ days_lines stamp.now first.now behind.now) }
{
    write!(
        text,
        "DTSTAMP:{stamp}T000000Z\r\nDTSTART;VALUE=DATE:{first}\r\nDTEND;VALUE=DATE:{behind}\r\n"
    )
}

/// The day behind the last day of what ends at a time, as iCalendar writes it.
fn behind_digits(alloc: Global, calendar: Calendar<'_>, end: u128) -> Result<String, AllocError>
    ensures { IfOk result (λ day. string_bytes day ≡ digits (day_behind (last_text calendar.entry end))) }
{
    let behind = day_behind(alloc, calendar, end)?;
    spelled(alloc, Letters::Digits, behind.as_str())
}

/// The first day of what runs so long from a time on, as iCalendar writes it.
fn first_digits(
    alloc: Global,
    calendar: Calendar<'_>,
    start: u128,
    duration: u128,
) -> Result<String, AllocError>
    ensures { IfOk result (λ day. string_bytes day ≡ digits (first_text calendar.entry start duration)) }
{
    let mut first = String::new(alloc);
    push_first(&mut first, calendar, start, duration)?;
    spelled(alloc, Letters::Digits, first.as_str())
}

/// The first day of a calendar that is worked on, as iCalendar writes it.
fn stamp_of(alloc: Global, calendar: Calendar<'_>) -> Result<String, AllocError>
    ensures { IfOk result (λ stamp. string_bytes stamp ≡ stamp_of calendar.entry) }
{
    first_digits(alloc, calendar, 0, 1)
}

/// Adds what an event is called.
fn push_summary(alloc: Global, text: &mut String, task: &Task<'_>) -> Result<(), AllocError>
    ensures { OnOk result (string_bytes text.new ≡ string_bytes text.old ++ content_line (summary_text task.now)) }
{
    let line = summary_of(alloc, task)?;
    push_content(alloc, text, line.as_str())
}

/// What an event is called.
#[tactic(auto, unfolding(crate::specs::Events::summary_text))]
fn summary_of(alloc: Global, task: &Task<'_>) -> Result<String, AllocError>
    ensures { IfOk result (λ line. string_bytes line ≡ summary_text task.now) }
{
    let title = spelled_title(alloc, Letters::Events, task)?;
    format!(in alloc; "SUMMARY:{title}")
}

/// Adds what the task of an event needs, if it needs something.
fn push_description(
    alloc: Global,
    text: &mut String,
    ground: &Ground<'_>,
    task: &Task<'_>,
) -> Result<(), AllocError>
    ensures { OnOk result (string_bytes text.new ≡ string_bytes text.old
        ++ description_lines (spelled Events (needs_text ground.now.net.now ground.now.names.now (place task.now.job)))) }
{
    let place = task.job.saturating_sub(1);
    let needs = spelled_needs(alloc, Letters::Events, ground.net, ground.names, place)?;
    push_needs(alloc, text, needs.as_str())
}

/// Adds needs, if there are some.
fn push_needs(alloc: Global, text: &mut String, needs: &str) -> Result<(), AllocError>
    ensures { OnOk result (string_bytes text.new ≡ string_bytes text.old ++ description_lines needs.now) }
{
    if needs.is_empty() {
        return Ok(());
    }
    let line = description_of(alloc, needs)?;
    push_content(alloc, text, line.as_str())
}

/// The line of needs.
#[tactic(auto, unfolding(crate::specs::Events::description_text))]
fn description_of(alloc: Global, needs: &str) -> Result<String, AllocError>
    ensures { IfOk result (λ line. string_bytes line ≡ description_text needs.now) }
{
    format!(in alloc; "DESCRIPTION:{needs}")
}
