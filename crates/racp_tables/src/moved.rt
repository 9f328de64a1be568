//! The pairs of several tables.

ghost use Rattle.std.specs.Prelude.{◌≡◌, ◌+◌, ◌++◌, map, IfOk, OnOk};
ghost use Rattle.racp_tables.specs.Joined.{all_tasks, moved, moved_pair, pairs_from, task_count, wait_count};

use crate::part::Part;
use std::alloc::{AllocError, Global};
use std::cmp::min;

/// Where the numbers of a table's jobs stand among all: how many tasks it has, and behind how many tasks, and how many jobs if they
/// wait.
#[derive(Clone, Copy)]
struct Shift {
    tasks: usize,
    before: usize,
    behind: usize,
}

/// The pairs of all tables.
pub(crate) fn all_pairs(alloc: Global, parts: &[Part]) -> Result<Vec<(u32, u32)>, AllocError>
    ensures { IfOk result (λ pairs. pairs.items ≡ pairs_from 0 (all_tasks parts.now) parts.now) }
{
    let mut pairs = Vec::new(alloc);
    let mut before = 0;
    let mut behind = all_tasks(parts)?;
    for i in 0..parts.len() {
        let tasks = task_count(&parts[i]);
        let shift = Shift {
            tasks,
            before,
            behind,
        };
        push_pairs(&mut pairs, &parts[i].table.pairs, shift)?;
        before = plus(before, tasks)?;
        behind = plus(behind, wait_count(&parts[i]))?;
    }
    Ok(pairs)
}

/// How many tasks all tables have.
fn all_tasks(parts: &[Part]) -> Result<usize, AllocError>
    ensures { IfOk result (λ count. count ≡ all_tasks parts.now) }
{
    let mut count = 0;
    for i in 0..parts.len() {
        count = plus(count, task_count(&parts[i]))?;
    }
    Ok(count)
}

/// How many tasks a table has.
fn task_count(part: &Part) -> usize
    ensures { result ≡ task_count part.now }
{
    min(part.table.notes.tasks, part.table.jobs.len())
}

/// How many jobs of a table wait.
fn wait_count(part: &Part) -> usize
    ensures { result ≡ wait_count part.now }
{
    part.table.jobs.len().saturating_sub(part.table.notes.tasks)
}

/// Adds the pairs of a table.
fn push_pairs(
    pairs: &mut Vec<(u32, u32)>,
    more: &[(u32, u32)],
    shift: Shift,
) -> Result<(), AllocError>
    ensures { OnOk result (pairs.new.items ≡ pairs.old.items ++
        map (moved_pair shift.tasks shift.before shift.behind) more.now) }
{
    for i in 0..more.len() {
        let first = moved(more[i].0, shift)?;
        let second = moved(more[i].1, shift)?;
        pairs.push((first, second))?;
    }
    Ok(())
}

/// The number, among all jobs, of a job of a table.
fn moved(number: u32, shift: Shift) -> Result<u32, AllocError>
    ensures { IfOk result (λ found. found ≡ moved shift.tasks shift.before shift.behind number) }
{
    let number = number as usize;
    if number <= shift.tasks {
        narrow(plus(shift.before, number)?)
    } else {
        narrow(plus(shift.behind, number - shift.tasks)?)
    }
}

/// A sum; there are far fewer jobs than numbers.
fn plus(a: usize, b: usize) -> Result<usize, AllocError>
    ensures { IfOk result (λ sum. sum ≡ a + b) }
{
    match a.checked_add(b) {
        Some(sum) => Ok(sum),
        None => Err(AllocError),
    }
}

/// The number of a job.
fn narrow(number: usize) -> Result<u32, AllocError>
    ensures { IfOk result (λ found. found ≡ number) }
{
    match u32::try_from(number) {
        Ok(number) => Ok(number),
        Err(_) => Err(AllocError),
    }
}
