//! Links of phases, spread over their leaves.

ghost use Rattle.std.specs.Prelude.{◌≡◌, ◌++◌, length, IfOk, OnOk};
ghost use Rattle.racp_links.specs.Links.{NamesTasks};
ghost use Rattle.racp_links.specs.Phases.{IsOutline, MarksPhases, ties_phase, leaves, links_to, links_between, leaf_links_of, all_leaf_links};
ghost use Rattle.racp_links.specs.PhaseFaults.{AreSpreadable, is_finish_to_start, AreLooked, IsLooked, IsSpread};

use crate::fault::PhaseFault;
use crate::link::{Link, LinkKind, names_tasks};
use crate::outline::{check_outline, is_in, is_phase, leaves, phases, those_in};
use std::alloc::{AllocError, Global};

/// Whether a link goes from finish to start.
fn is_finish_to_start(kind: LinkKind) -> bool
    ensures { result ≡ is_finish_to_start kind }
{
    match kind {
        LinkKind::FinishToStart => true,
        LinkKind::StartToStart => false,
        LinkKind::FinishToFinish => false,
        LinkKind::StartToFinish => false,
    }
}

/// Whether a link ties a phase.
fn ties_phase(parents: &[u32], link: &Link) -> bool
    ensures { result ≡ ties_phase parents.now link.now }
{
    is_phase(parents, link.before) || is_phase(parents, link.after)
}

/// Finds the first link that is wrong.
pub(crate) fn check_links(parents: &[u32], links: &[Link]) -> Result<(), PhaseFault>
    requires { IsOutline parents.now }
    ensures { AreLooked parents.now links.now result }
{
    for (place, link) in links.iter().enumerate() {
        check_link(parents, link, place)?;
    }
    Ok(())
}

/// Looks at the link at a place.
fn check_link(parents: &[u32], link: &Link, place: usize) -> Result<(), PhaseFault>
    requires { IsOutline parents.now }
    ensures { IsLooked parents.now link.now place result }
{
    if !names_tasks(link, parents.len()) {
        return Err(PhaseFault::NoTask(place));
    }
    if is_in(parents, link.before, link.after) || is_in(parents, link.after, link.before) {
        return Err(PhaseFault::Inside(place));
    }
    if !is_finish_to_start(link.kind) && ties_phase(parents, link) {
        return Err(PhaseFault::Kind(place));
    }
    Ok(())
}

/// Adds the links from one task to each of others.
fn push_links_to(
    made: &mut Vec<Link>,
    lag: u32,
    seconds: &[u32],
    before: u32,
) -> Result<(), AllocError>
    ensures { OnOk result (made.new.items ≡ made.old.items ++ links_to lag seconds.now before) }
{
    for after in seconds {
        made.push(Link {
            before,
            after: *after,
            kind: LinkKind::FinishToStart,
            lag,
        })?;
    }
    Ok(())
}

/// Adds the links from each of some tasks to each of others.
fn push_links_between(
    made: &mut Vec<Link>,
    lag: u32,
    firsts: &[u32],
    seconds: &[u32],
) -> Result<(), AllocError>
    ensures { OnOk result (made.new.items ≡ made.old.items ++ links_between lag firsts.now seconds.now) }
{
    for before in firsts {
        push_links_to(made, lag, seconds, *before)?;
    }
    Ok(())
}

/// Adds the links between leaves that a link stands for; `marks` tell the phases, and `tasks` are all leaves.
fn push_leaf_links(
    alloc: Global,
    made: &mut Vec<Link>,
    parents: &[u32],
    marks: &[bool],
    tasks: &[u32],
    link: &Link,
) -> Result<(), AllocError>
    requires outline { IsOutline parents.now }
    requires marks { MarksPhases parents.now marks.now }
    requires names { NamesTasks (length parents.now) link.now }
    requires leaves { tasks.now ≡ leaves parents.now }
    ensures { OnOk result (made.new.items ≡ made.old.items ++ leaf_links_of parents.now link.now) }
{
    if !marks[link.before as usize - 1] && !marks[link.after as usize - 1] {
        made.push(*link)?;
        return Ok(());
    }
    let firsts = those_in(alloc, parents, link.before, tasks)?;
    let seconds = those_in(alloc, parents, link.after, tasks)?;
    push_links_between(made, link.lag, &firsts, &seconds)
}

/// The links between leaves that links stand for.
pub(crate) fn spread(
    alloc: Global,
    parents: &[u32],
    links: &[Link],
) -> Result<Vec<Link>, AllocError>
    requires outline { IsOutline parents.now }
    requires spreadable { AreSpreadable parents.now links.now }
    ensures { IfOk result (λ made. made.items ≡ all_leaf_links parents.now links.now) }
{
    let marks = phases(alloc, parents)?;
    let tasks = leaves(alloc, parents, &marks)?;
    let mut made = Vec::new(alloc);
    for link in links {
        push_leaf_links(alloc, &mut made, parents, &marks, &tasks, link)?;
    }
    Ok(made)
}

/// Spreads links of phases over their leaves: the links that stay are between tasks that are no phases.
///
/// `parents` has for each task, by place from 0, the number of the task that it is a part of, or 0 if it is a part of
/// none. A phase is a task of which another is a part; its leaves are the tasks in it that are no phases. It starts when
/// the first of these starts, and ends when the last has ended. So a link from finish to start from or to a phase stands
/// for such links, with the same lag, between each leaf of the one task and each leaf of the other. Each other link stays.
///
/// # Errors
///
/// `TooMany`, if there are more than 4,294,967,295 tasks; `Parent`, at the first task that is part of one that does not
/// stand before it; or at the first link that is wrong `NoTask`, if it names no task or one task twice, `Inside`, if one
/// of its tasks is in the other, `Kind`, if it ties a phase and does not go from finish to start. `Memory`, only if
/// nothing is wrong.
pub fn leaf_links(alloc: Global, parents: &[u32], links: &[Link]) -> Result<Vec<Link>, PhaseFault>
    ensures { IsSpread parents.now links.now result }
{
    check_outline(parents)?;
    check_links(parents, links)?;
    Ok(spread(alloc, parents, links)?)
}
