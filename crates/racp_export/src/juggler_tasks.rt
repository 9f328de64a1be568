//! The tasks of a project of TaskJuggler.

ghost use Rattle.std.specs.Prelude.{◌≡◌, ◌++◌, OnOk, flat_map, string_bytes};
ghost use Rattle.racp_export.specs.Letters.{spelled};
ghost use Rattle.racp_export.specs.TaskJuggler.{all_bookings, booking_if, booking_line, bookings_from, days_between, job_line, job_text, milestone_lines, run_lines, span_lines, wait_line, wait_text};
ghost use Rattle.racp_export.specs.Told.{told_by};
ghost use Rattle.racp_export.specs.Words.{task_title};
ghost use Rattle.racp_export.specs.declared.letters.Letters.TheVariants.{TaskJuggler};

use crate::book::{Book, Turns};
use crate::booking::serves;
use crate::days::{first_of, last_of};
use crate::ground::Ground;
use crate::letters::Letters;
use crate::words::spelled_title;
use crate::work::{link_end, link_start};
use racp_calendar::{Calendar, work_between};
use racp_show::{Predecessor, Task};
use std::alloc::{AllocError, Global};

/// Adds a task.
#[tactic(auto, unfolding(crate::specs::TaskJuggler::job_text), using(crate::proofs::Pieces::in_five))]
pub(crate) fn push_task(
    alloc: Global,
    text: &mut String,
    ground: &Ground<'_>,
    books: &[Book],
    task: &Task<'_>,
) -> Result<(), AllocError>
    ensures { OnOk result (string_bytes text.new ≡ string_bytes text.old ++ job_text (told_by ground.now) books.now task.now) }
{
    push_job(alloc, text, task)?;
    push_run(alloc, text, ground.calendar, task)?;
    push_bookings(text, books, task.job.saturating_sub(1))?;
    push_waits(text, ground, task.predecessors.as_slice())?;
    text.push_str("}\n")?;
    Ok(())
}

/// Adds the first line of a task.
#[tactic(auto, unfolding(crate::specs::TaskJuggler::job_line))]
fn push_job(alloc: Global, text: &mut String, task: &Task<'_>) -> Result<(), AllocError>
    ensures { OnOk result (string_bytes text.new ≡ string_bytes text.old ++ job_line task.now.job (spelled TaskJuggler (task_title task.now))) }
{
    let job = task.job;
    let title = spelled_title(alloc, Letters::TaskJuggler, task)?;
    write!(text, "task t{job} \"{title}\" {{\n")
}

/// Adds when a task runs.
#[tactic(auto, unfolding(crate::specs::TaskJuggler::run_lines))]
fn push_run(
    alloc: Global,
    text: &mut String,
    calendar: Calendar<'_>,
    task: &Task<'_>,
) -> Result<(), AllocError>
    ensures { OnOk result (string_bytes text.new ≡ string_bytes text.old ++ run_lines calendar.entry task.now) }
{
    let last = last_of(alloc, calendar, task)?;
    if task.duration == 0 {
        push_milestone(text, last.as_str(), task.start == 0)
    } else {
        let first = first_of(alloc, calendar, task)?;
        push_span(text, first.as_str(), last.as_str())
    }
}

/// Adds that a task is done on a day, before its work or behind it.
#[tactic(auto, unfolding(crate::specs::TaskJuggler::milestone_lines))]
fn push_milestone(text: &mut String, day: &str, early: bool) -> Result<(), AllocError>
    ensures { OnOk result (string_bytes text.new ≡ string_bytes text.old ++ milestone_lines day.now early) }
{
    if early {
        write!(text, "  milestone\n  start {day}-08:00\n")
    } else {
        write!(text, "  milestone\n  start {day}-17:00\n")
    }
}

/// Adds that a task runs from a first day to a last one.
#[tactic(auto, unfolding(crate::specs::TaskJuggler::span_lines))]
fn push_span(text: &mut String, first: &str, last: &str) -> Result<(), AllocError>
    ensures { OnOk result (string_bytes text.new ≡ string_bytes text.old ++ span_lines first.now last.now) }
{
    write!(text, "  start {first}-08:00\n  end {last}-17:00\n")
}

/// Adds the units of all resources that serve the job at place `i`.
fn push_bookings(text: &mut String, books: &[Book], i: usize) -> Result<(), AllocError>
    ensures { OnOk result (string_bytes text.new ≡ string_bytes text.old ++ all_bookings i 0 books.now) }
{
    for (k, book) in books.iter().enumerate() {
        push_units(text, book.units(), i, k)?;
    }
    Ok(())
}

/// Adds the units of the resource at place `k` that serve the job at place `i`.
fn push_units(text: &mut String, units: &[Turns], i: usize, k: usize) -> Result<(), AllocError>
    ensures { OnOk result (string_bytes text.new ≡ string_bytes text.old ++ bookings_from i k 0 units.now) }
{
    for (unit, turns) in units.iter().enumerate() {
        push_unit_if(text, serves(turns.places(), i), k, unit)?;
    }
    Ok(())
}

/// Adds the unit at a place of the resource at place `k`, if it serves.
fn push_unit_if(text: &mut String, serving: bool, k: usize, unit: usize) -> Result<(), AllocError>
    ensures { OnOk result (string_bytes text.new ≡ string_bytes text.old ++ booking_if serving k unit) }
{
    if serving {
        push_unit(text, k as u128 + 1, unit as u128 + 1)
    } else {
        Ok(())
    }
}

/// Adds a unit that serves.
#[tactic(auto, unfolding(crate::specs::TaskJuggler::booking_line))]
fn push_unit(text: &mut String, resource: u128, unit: u128) -> Result<(), AllocError>
    ensures { OnOk result (string_bytes text.new ≡ string_bytes text.old ++ booking_line resource unit) }
{
    write!(text, "  allocate r{resource}_{unit}\n")
}

/// Adds what a task waits for.
fn push_waits(
    text: &mut String,
    ground: &Ground<'_>,
    links: &[Predecessor],
) -> Result<(), AllocError>
    ensures { OnOk result (string_bytes text.new ≡ string_bytes text.old ++ flat_map (wait_text (told_by ground.now)) links.now) }
{
    for link in links {
        push_wait(text, link.job, link.lag, days_between(ground, *link))?;
    }
    Ok(())
}

/// How many days are worked on during the lag of a link.
fn days_between(ground: &Ground<'_>, link: Predecessor) -> u128
    ensures { result ≡ days_between (told_by ground.now) link }
{
    let start = link_start(ground.net, ground.starts, link);
    let end = link_end(ground.net, ground.starts, link);
    work_between(ground.calendar, start, end)
}

/// Adds that a task waits for a job, and for so many days behind it if there is a lag.
#[tactic(auto, unfolding(crate::specs::TaskJuggler::wait_line))]
fn push_wait(text: &mut String, job: u32, lag: u32, days: u128) -> Result<(), AllocError>
    ensures { OnOk result (string_bytes text.new ≡ string_bytes text.old ++ wait_line job lag days) }
{
    if lag == 0 {
        write!(text, "  depends !t{job}\n")
    } else {
        write!(text, "  depends !t{job} {{ gaplength {days}d }}\n")
    }
}
