//! What is said of the tasks of a project of MS Project.

ghost use Rattle.std.specs.Prelude.{◌≡◌, ◌++◌, IfOk, OnOk, flat_map, string_bytes};
ghost use Rattle.racp_calendar.specs.Dates.{last_text};
ghost use Rattle.racp_export.specs.MsProject.{clock, deadline_lines, end_moment, kind_lines, lag_of, link_lines, link_text, milestone, start_moment, task_lines, task_ties, task_times, tie_lines, time_lines};
ghost use Rattle.racp_export.specs.Told.{told_by};

use crate::days::{first_of, last_of};
use crate::ground::Ground;
use crate::work::{begins_early, is_followed, is_tied, link_end, link_start, task_hours, units_of};
use racp_calendar::{Calendar, push_last, work_between};
use racp_show::{Predecessor, Task};
use std::alloc::{AllocError, Global};

/// The last lines of a row.
pub(crate) const ROW_END: &str = "   <Active>1</Active>\n   <Manual>0</Manual>\n  </Task>\n";

/// Adds what is said of a task.
#[tactic(auto, unfolding(crate::specs::MsProject::task_lines), using(crate::proofs::Pieces::in_five))]
pub(crate) fn push_task(
    alloc: Global,
    text: &mut String,
    ground: &Ground<'_>,
    task: &Task<'_>,
) -> Result<(), AllocError>
    ensures { OnOk result (string_bytes text.new ≡ string_bytes text.old ++ task_lines (told_by ground.now) task.now) }
{
    push_times(alloc, text, ground, task)?;
    push_kind(text, milestone(task), 0)?;
    push_ties(alloc, text, ground, task)?;
    push_links(text, ground, task.predecessors.as_slice())?;
    text.push_str(ROW_END)?;
    Ok(())
}

/// Adds when a task runs, and how much work it is.
#[tactic(auto, unfolding(crate::specs::MsProject::task_times))]
fn push_times(
    alloc: Global,
    text: &mut String,
    ground: &Ground<'_>,
    task: &Task<'_>,
) -> Result<(), AllocError>
    ensures { OnOk result (string_bytes text.new ≡ string_bytes text.old ++ task_times (told_by ground.now) task.now) }
{
    let start = start_moment(alloc, ground.calendar, task)?;
    let finish = end_moment(alloc, ground.calendar, task)?;
    let hours = task_hours(ground.calendar, task);
    let units = units_of(ground.net, task.job.saturating_sub(1));
    push_time_lines(
        text,
        start.as_str(),
        finish.as_str(),
        hours,
        hours * units as u128,
    )
}

/// Adds when a task runs, and how much work it is, by these words and numbers.
#[tactic(auto, unfolding(crate::specs::MsProject::time_lines))]
fn push_time_lines(
    text: &mut String,
    start: &str,
    finish: &str,
    hours: u128,
    work: u128,
) -> Result<(), AllocError>
    ensures { OnOk result (string_bytes text.new ≡ string_bytes text.old ++ time_lines start.now finish.now hours work) }
{
    write!(
        text,
        "   <Start>{start}</Start>\n   <Finish>{finish}</Finish>\n   <Duration>PT{hours}H0M0S</Duration>\n   <DurationFormat>7</DurationFormat>\n   <Work>PT{work}H0M0S</Work>\n   <EffortDriven>0</EffortDriven>\n   <Estimated>0</Estimated>\n"
    )
}

/// When a task begins.
#[tactic(auto, unfolding(crate::specs::MsProject::start_moment))]
pub(crate) fn start_moment(
    alloc: Global,
    calendar: Calendar<'_>,
    task: &Task<'_>,
) -> Result<String, AllocError>
    ensures { IfOk result (λ moment. string_bytes moment ≡ start_moment calendar.entry task.now) }
{
    let mut moment = first_of(alloc, calendar, task)?;
    moment.push_str(clock(begins_early(task)))?;
    Ok(moment)
}

/// When a task ends.
#[tactic(auto, unfolding(crate::specs::MsProject::end_moment))]
pub(crate) fn end_moment(
    alloc: Global,
    calendar: Calendar<'_>,
    task: &Task<'_>,
) -> Result<String, AllocError>
    ensures { IfOk result (λ moment. string_bytes moment ≡ end_moment calendar.entry task.now) }
{
    let mut moment = last_of(alloc, calendar, task)?;
    moment.push_str(clock(task.start as u64 + task.duration as u64 == 0))?;
    Ok(moment)
}

/// The clock time at which the work of a day begins, or ends.
fn clock(early: bool) -> &'static str
    ensures { result.now ≡ clock early }
{
    if early { "T08:00:00" } else { "T17:00:00" }
}

/// 1 if a task takes no time, else 0.
fn milestone(task: &Task<'_>) -> u32
    ensures { result ≡ milestone task.now }
{
    if task.duration == 0 { 1 } else { 0 }
}

/// Adds whether a row is a milestone, and whether it is a phase.
#[tactic(auto, unfolding(crate::specs::MsProject::kind_lines))]
pub(crate) fn push_kind(text: &mut String, milestone: u32, summary: u32) -> Result<(), AllocError>
    ensures { OnOk result (string_bytes text.new ≡ string_bytes text.old ++ kind_lines milestone summary) }
{
    write!(
        text,
        "   <Milestone>{milestone}</Milestone>\n   <Summary>{summary}</Summary>\n   <PercentComplete>0</PercentComplete>\n"
    )
}

/// Adds whether a task is tied to its start, and to the deadline.
#[tactic(auto, unfolding(crate::specs::MsProject::task_ties), using(crate::proofs::Pieces::in_two))]
fn push_ties(
    alloc: Global,
    text: &mut String,
    ground: &Ground<'_>,
    task: &Task<'_>,
) -> Result<(), AllocError>
    ensures { OnOk result (string_bytes text.new ≡ string_bytes text.old ++ task_ties (told_by ground.now) task.now) }
{
    let start = start_moment(alloc, ground.calendar, task)?;
    let mut last = String::new(alloc);
    push_last(&mut last, ground.calendar, ground.deadline as u128)?;
    push_tie(
        text,
        is_tied(ground.net, ground.starts, task),
        start.as_str(),
    )?;
    push_deadline(text, is_followed(ground.net, task.job), last.as_str())
}

/// Adds that a task starts no earlier than it does, if it is tied to that.
#[tactic(auto, unfolding(crate::specs::MsProject::tie_lines))]
fn push_tie(text: &mut String, tied: bool, start: &str) -> Result<(), AllocError>
    ensures { OnOk result (string_bytes text.new ≡ string_bytes text.old ++ tie_lines tied start.now) }
{
    if tied {
        write!(
            text,
            "   <ConstraintType>4</ConstraintType>\n   <CalendarUID>-1</CalendarUID>\n   <ConstraintDate>{start}</ConstraintDate>\n"
        )
    } else {
        text.push_str("   <ConstraintType>0</ConstraintType>\n   <CalendarUID>-1</CalendarUID>\n")
    }
}

/// Adds the deadline, unless something comes after a task.
#[tactic(auto, unfolding(crate::specs::MsProject::deadline_lines))]
fn push_deadline(text: &mut String, followed: bool, last: &str) -> Result<(), AllocError>
    ensures { OnOk result (string_bytes text.new ≡ string_bytes text.old ++ deadline_lines followed last.now) }
{
    if followed {
        return Ok(());
    }
    write!(text, "   <Deadline>{last}T17:00:00</Deadline>\n")
}

/// Adds each link.
fn push_links(
    text: &mut String,
    ground: &Ground<'_>,
    links: &[Predecessor],
) -> Result<(), AllocError>
    ensures { OnOk result (string_bytes text.new ≡ string_bytes text.old ++ flat_map (link_text (told_by ground.now)) links.now) }
{
    for link in links {
        push_link(text, link.job, lag_of(ground, *link))?;
    }
    Ok(())
}

/// The lag of a link, in tenths of minutes.
fn lag_of(ground: &Ground<'_>, link: Predecessor) -> u128
    ensures { result ≡ lag_of ground.now.calendar ground.now.net.now ground.now.starts.now link }
{
    let start = link_start(ground.net, ground.starts, link);
    let end = link_end(ground.net, ground.starts, link);
    work_between(ground.calendar, start, end) * 4800
}

/// Adds a link from the end of a job, with a lag.
#[tactic(auto, unfolding(crate::specs::MsProject::link_lines))]
fn push_link(text: &mut String, job: u32, lag: u128) -> Result<(), AllocError>
    ensures { OnOk result (string_bytes text.new ≡ string_bytes text.old ++ link_lines job lag) }
{
    write!(
        text,
        "   <PredecessorLink>\n    <PredecessorUID>{job}</PredecessorUID>\n    <Type>1</Type>\n    <CrossProject>0</CrossProject>\n    <LinkLag>{lag}</LinkLag>\n    <LagFormat>7</LagFormat>\n   </PredecessorLink>\n"
    )
}
