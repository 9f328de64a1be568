//! Which tasks are parts of which.

ghost use Rattle.std.specs.Prelude.{◌≡◌, ◌+◌, ◌<◌, ◌≤◌, false, length, filter, if◌then◌else◌, map, replicate, All, IfOk};
ghost use Rattle.std.specs.List.{range_with_len};
ghost use Rattle.racp_links.specs.Faults.{most_number};
ghost use Rattle.racp_links.specs.Phases.{IsOutline, is_in, is_phase, leaf_number, leaves, MarksPhases};
ghost use Rattle.racp_links.specs.PhaseFaults.{IsOutlined};

use crate::check::MOST_NUMBER;
use crate::fault::PhaseFault;
use std::alloc::{AllocError, Global};

/// Finds the first task that is part of one that does not stand before it.
pub(crate) fn check_outline(parents: &[u32]) -> Result<(), PhaseFault>
    ensures { IsOutlined parents.now result }
{
    if parents.len() > MOST_NUMBER {
        return Err(PhaseFault::TooMany);
    }
    for (place, parent) in parents.iter().enumerate() {
        if *parent as usize > place {
            return Err(PhaseFault::Parent(place));
        }
    }
    Ok(())
}

/// Whether a task is the whole, a part of it, a part of a part and so on.
pub(crate) fn is_in(parents: &[u32], whole: u32, task: u32) -> bool
    requires outline { IsOutline parents.now }
    requires known { task ≤ length parents.now }
    ensures { result ≡ is_in parents.now whole task }
{
    let mut at = task;
    while at > whole {
        at = parents[at as usize - 1];
    }
    at == whole
}

/// Whether some task is a part of a task. `parents` has for each task, by place from 0, the number of the task that it is a
/// part of, or 0 if it is a part of none.
pub fn is_phase(parents: &[u32], task: u32) -> bool
    ensures { result ≡ is_phase parents.now task }
{
    parents.contains(&task)
}

/// Marks the tasks that are phases, by places.
pub(crate) fn phases(alloc: Global, parents: &[u32]) -> Result<Vec<bool>, AllocError>
    requires { IsOutline parents.now }
    ensures { IfOk result (λ marks. MarksPhases parents.now marks.items) }
{
    let mut marks = vec![in alloc; false; parents.len()]?;
    mark(&mut marks, parents);
    Ok(marks)
}

/// Marks each task of which one is a part, where none is marked yet.
fn mark(marks: &mut [bool], parents: &[u32])
    requires outline { IsOutline parents.now }
    requires blank { marks.old ≡ replicate (length parents.now) false }
    ensures { MarksPhases parents.now marks.new }
{
    for parent in parents {
        if *parent > 0 {
            marks[*parent as usize - 1] = true;
        }
    }
}

/// The tasks that are not marked as phases, by rising number.
pub(crate) fn leaves(alloc: Global, parents: &[u32], marks: &[bool]) -> Result<Vec<u32>, AllocError>
    requires few { length parents.now ≤ most_number }
    requires marks { MarksPhases parents.now marks.now }
    ensures { IfOk result (λ found. found.items ≡ leaves parents.now) }
{
    let mut found = Vec::new(alloc);
    for place in 0..parents.len() {
        if !marks[place] {
            found.push(place as u32 + 1)?;
        }
    }
    Ok(found)
}

/// The numbers of the tasks among the leaves alone, by places: of each how many leaves have a number up to its own.
pub(crate) fn leaf_numbers(
    alloc: Global,
    parents: &[u32],
    marks: &[bool],
) -> Result<Vec<u32>, AllocError>
    requires few { length parents.now ≤ most_number }
    requires marks { MarksPhases parents.now marks.now }
    ensures { IfOk result (λ numbers. numbers.items ≡ map (leaf_number parents.now) (range_with_len 1 (length parents.now))) }
{
    let mut numbers = Vec::new(alloc);
    let mut count = 0;
    for place in 0..parents.len() {
        count = with_next(count, marks[place]);
        numbers.push(count)?;
    }
    Ok(numbers)
}

/// How many leaves there are with one more task, which may be a phase.
fn with_next(count: u32, is_phase: bool) -> u32
    requires { count < most_number }
    ensures { result ≡ count + (if is_phase then 0 else 1) }
{
    if is_phase { count } else { count + 1 }
}

/// Those of some tasks that are in a whole.
pub(crate) fn those_in(
    alloc: Global,
    parents: &[u32],
    whole: u32,
    tasks: &[u32],
) -> Result<Vec<u32>, AllocError>
    requires outline { IsOutline parents.now }
    requires known { All (λ task. task ≤ length parents.now) tasks.now }
    ensures { IfOk result (λ found. found.items ≡ filter (is_in parents.now whole) tasks.now) }
{
    let mut found = Vec::new(alloc);
    for task in tasks {
        if is_in(parents, whole, *task) {
            found.push(*task)?;
        }
    }
    Ok(found)
}
