//! Jobs that wait for each other.

use crate::faults::head::lines_of_head;
use crate::faults::line_of::{first_word, is_line_feed, is_space, without_return};
use racp_model::limits::MOST_JOBS;
use racp_text::number;
use std::alloc::{AllocError, Global};

/// The numbers of jobs of which each has the next one as a successor, and the last the first, which stands at the end
/// once more. Empty if the precedence part of the text has none.
pub(crate) fn ring_of(alloc: Global, body: &[u8], jobs: u64) -> Result<Vec<u64>, AllocError> {
    let jobs = jobs.min(MOST_JOBS as u64) as usize;
    let pairs = pairs_of(alloc, body)?;
    let waits = waiting(alloc, &pairs, jobs)?;
    walk(alloc, &waits, &pairs, jobs)
}

/// A job, and a successor of it.
#[derive(Drop)]
struct Pair {
    before: u64,
    after: u64,
}

/// The pairs of the precedence part.
fn pairs_of(alloc: Global, body: &[u8]) -> Result<Vec<Pair>, AllocError> {
    let mut pairs = Vec::new(alloc);
    push_pairs(&mut pairs, body)?;
    Ok(pairs)
}

/// Adds the pairs of the precedence part.
fn push_pairs(pairs: &mut Vec<Pair>, body: &[u8]) -> Result<(), AllocError> {
    let Some(lines) = lines_of_head(body) else {
        return Ok(());
    };
    let mut row = Row::Number;
    for line in body.split(is_line_feed).skip(lines.saturating_add(2)) {
        if ends_precedence(line) {
            return Ok(());
        }
        row = push_line(pairs, line, row)?;
    }
    Ok(())
}

/// Whether a line ends the precedence part.
fn ends_precedence(line: &[u8]) -> bool {
    let first = first_word(line);
    first.starts_with(b"*") || first.starts_with(b"REQUESTS")
}

/// Adds the pairs of a line, and says what the next number after it is.
fn push_line(pairs: &mut Vec<Pair>, line: &[u8], row: Row) -> Result<Row, AllocError> {
    let mut row = row;
    for word in without_return(line).split(is_space) {
        if let Some(number) = number(word) {
            push_pair(pairs, row, number)?;
            row = row.behind(number);
        }
    }
    Ok(row)
}

/// Adds the pair that this number makes, if any.
fn push_pair(pairs: &mut Vec<Pair>, row: Row, number: u64) -> Result<(), AllocError> {
    if let Row::Successors(job, _) = row {
        pairs.push(Pair {
            before: job,
            after: number,
        })?;
    }
    Ok(())
}

/// What the next number of the precedence part is.
#[derive(Clone, Copy)]
enum Row {
    /// The number of a job.
    Number,
    /// How many modes the job has.
    Modes(u64),
    /// How many successors it has.
    Count(u64),
    /// A successor of the job, of this many that are still to come.
    Successors(u64, u64),
}

impl Row {
    /// What comes after this number.
    fn behind(self, number: u64) -> Row {
        match self {
            Row::Number => Row::Modes(number),
            Row::Modes(job) => Row::Count(job),
            Row::Count(_) if number == 0 => Row::Number,
            Row::Count(job) => Row::Successors(job, number),
            Row::Successors(_, count) if count <= 1 => Row::Number,
            Row::Successors(job, count) => Row::Successors(job, count - 1),
        }
    }
}

/// Which jobs wait for one that waits, by their numbers: those that are left when, round by round, the jobs that wait
/// for none are let go, up to a round that lets go of none.
fn waiting(alloc: Global, pairs: &[Pair], jobs: usize) -> Result<Vec<bool>, AllocError> {
    let mut waits = vec![in alloc; true; jobs.saturating_add(1)]?;
    for _round in 0..jobs {
        let held = held_jobs(alloc, &waits, pairs)?;
        if !let_go(&mut waits, &held) {
            return Ok(waits);
        }
    }
    Ok(waits)
}

/// Which jobs are held: those with a job before them that waits.
fn held_jobs(alloc: Global, waits: &[bool], pairs: &[Pair]) -> Result<Vec<bool>, AllocError> {
    let mut held = vec![in alloc; false; waits.len()]?;
    for pair in pairs {
        if is_waiting(waits, pair.before) {
            hold(&mut held, pair.after as usize);
        }
    }
    Ok(held)
}

/// Notes that a job is held.
fn hold(held: &mut [bool], job: usize) {
    if job < held.len() {
        held[job] = true;
    }
}

/// Lets go of the jobs that wait and are not held, and answers whether there are any.
fn let_go(waits: &mut [bool], held: &[bool]) -> bool {
    let mut any = false;
    for job in 1..waits.len() {
        if waits[job] && !is_waiting(held, job as u64) {
            waits[job] = false;
            any = true;
        }
    }
    any
}

/// Whether a job is noted to wait, or to be held.
fn is_waiting(waits: &[bool], job: u64) -> bool {
    waits.get(job as usize).copied().unwrap_or(false)
}

/// A ring of jobs that wait, found backwards from one to the next, so it is turned round in the end.
fn walk(
    alloc: Global,
    waits: &[bool],
    pairs: &[Pair],
    jobs: usize,
) -> Result<Vec<u64>, AllocError> {
    let mut path = Vec::new(alloc);
    match push_path(&mut path, waits, pairs, jobs)? {
        Some(place) => turned(alloc, path.get(place..).unwrap_or(&[])),
        None => Ok(Vec::new(alloc)),
    }
}

/// Adds jobs that wait, each after one that has to wait for it, up to one that is there already, and answers the place
/// of that one.
fn push_path(
    path: &mut Vec<u64>,
    waits: &[bool],
    pairs: &[Pair],
    jobs: usize,
) -> Result<Option<usize>, AllocError> {
    let mut next = first_waiting(waits, jobs);
    for _step in 0..=jobs {
        let Some(job) = next else {
            return Ok(None);
        };
        let place = place_in(path, job);
        path.push(job)?;
        if place.is_some() {
            return Ok(place);
        }
        next = before(waits, pairs, job);
    }
    Ok(None)
}

/// The first job that waits.
fn first_waiting(waits: &[bool], jobs: usize) -> Option<u64> {
    for job in 1..=jobs as u64 {
        if is_waiting(waits, job) {
            return Some(job);
        }
    }
    None
}

/// The place of a job on a path.
fn place_in(path: &[u64], job: u64) -> Option<usize> {
    for place in 0..path.len() {
        if path[place] == job {
            return Some(place);
        }
    }
    None
}

/// A path from its end to its beginning.
fn turned(alloc: Global, path: &[u64]) -> Result<Vec<u64>, AllocError> {
    let mut ring = path.to_vec(alloc)?;
    ring.reverse();
    Ok(ring)
}

/// A job that waits, before this one.
fn before(waits: &[bool], pairs: &[Pair], job: u64) -> Option<u64> {
    for pair in pairs {
        if pair.after == job && is_waiting(waits, pair.before) {
            return Some(pair.before);
        }
    }
    None
}
