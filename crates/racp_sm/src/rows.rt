//! The rows of the two parts. What is read is kept in lists. If memory is refused for a list, it is kept no longer,
//! and reading goes on: so a fault of the text is found however little memory there is.

ghost use Rattle.std.specs.Prelude.{◌≤◌};
ghost use Rattle.racp_sm.specs.Parts.{next_numbers, successor_row, request_row, successor_rows, request_rows};
ghost use Rattle.racp_sm.specs.declared.fault.SmFaultKind.TheVariants.{BadSuccessor, Limit};
ghost use Rattle.racp_text.specs.Kept.{Keeps, KeepsMore};
ghost use Rattle.racp_text.specs.Reading.{Gives};
ghost use Rattle.racp_sm.specs.Steps.{IsSameStream, with_each};

use crate::fault::{SmFault, SmFaultKind};
use crate::stream::Stream;
use racp_model::Job;
use racp_model::limits::{MOST_DURATION, MOST_REQUEST};
use racp_text::with_item;
use std::alloc::Global;

/// The most successors that a row may name, repeated ones among them.
const MOST_SUCCESSORS: u32 = 512;

/// The pairs of each job and its successors, or `None` if memory was refused for them.
pub(crate) fn read_arcs(
    alloc: Global,
    words: &mut Stream,
    jobs: u32,
) -> Result<Option<Vec<(u32, u32)>>, SmFault>
    requires { jobs ≤ 512 }
    ensures read { Gives (Keeps (λ arcs. arcs.items)) result words.new.words
        (successor_rows words.old.title jobs 1 jobs words.old.words) }
    ensures same { IsSameStream words.old words.new }
{
    let mut arcs = Some(Vec::new(alloc));
    for i in 0..jobs {
        arcs = read_successor_row(arcs, words, jobs, i + 1)?;
    }
    Ok(arcs)
}

/// Adds the pairs of a job and its successors.
#[tactic(auto, unfolding(crate::specs::Parts::successor_row))]
fn read_successor_row(
    arcs: Option<Vec<(u32, u32)>>,
    words: &mut Stream,
    jobs: u32,
    job: u32,
) -> Result<Option<Vec<(u32, u32)>>, SmFault>
    requires jobs { jobs ≤ 512 }
    requires job { job ≤ 512 }
    ensures read { Gives (KeepsMore (λ arcs. arcs.items) arcs) result words.new.words
        (successor_row words.old.title jobs job words.old.words) }
    ensures same { IsSameStream words.old words.new }
{
    words.next_number(SmFaultKind::BadRow, job, job)?;
    words.next_number(SmFaultKind::NotSingleMode, 1, 1)?;
    let count = words.next_number(SmFaultKind::Limit, 0, MOST_SUCCESSORS)?;
    read_successors(arcs, words, jobs, job, count)
}

/// Adds this many pairs of a job and a successor.
fn read_successors(
    arcs: Option<Vec<(u32, u32)>>,
    words: &mut Stream,
    jobs: u32,
    job: u32,
    count: u32,
) -> Result<Option<Vec<(u32, u32)>>, SmFault>
    requires { jobs ≤ 512 }
    ensures read { Gives (KeepsMore (λ arcs. arcs.items) arcs) result words.new.words
        (with_each job (next_numbers words.old.title BadSuccessor 1 jobs count words.old.words)) }
    ensures same { IsSameStream words.old words.new }
{
    let mut kept = arcs;
    for _ in 0..count {
        let successor = words.next_number(SmFaultKind::BadSuccessor, 1, jobs)?;
        kept = with_item(kept, Some((job, successor)));
    }
    Ok(kept)
}

/// The jobs, or `None` if memory was refused for them.
pub(crate) fn read_jobs(
    alloc: Global,
    words: &mut Stream,
    resources: u32,
    count: u32,
) -> Result<Option<Vec<Job>>, SmFault>
    requires { count ≤ 512 }
    ensures read { Gives (Keeps (λ jobs. jobs.items)) result words.new.words
        (request_rows words.old.title resources 1 count words.old.words) }
    ensures same { IsSameStream words.old words.new }
{
    let mut jobs = Some(Vec::new(alloc));
    for i in 0..count {
        let job = read_job(alloc, words, resources, i + 1)?;
        jobs = with_item(jobs, job);
    }
    Ok(jobs)
}

/// A job of this number, or `None` if memory was refused for its requests.
#[tactic(auto, unfolding(crate::specs::Parts::request_row))]
fn read_job(
    alloc: Global,
    words: &mut Stream,
    resources: u32,
    job: u32,
) -> Result<Option<Job>, SmFault>
    requires { job ≤ 512 }
    ensures read { Gives (Keeps (λ x. x)) result words.new.words
        (request_row words.old.title resources job words.old.words) }
    ensures same { IsSameStream words.old words.new }
{
    words.next_number(SmFaultKind::BadRow, job, job)?;
    words.next_number(SmFaultKind::NotSingleMode, 1, 1)?;
    let duration = words.next_number(SmFaultKind::Limit, 0, MOST_DURATION)?;
    match read_requests(alloc, words, resources)? {
        Some(requests) => Ok(Some(Job::new(duration, requests))),
        None => Ok(None),
    }
}

/// A request for each resource, or `None` if memory was refused for them.
fn read_requests(
    alloc: Global,
    words: &mut Stream,
    resources: u32,
) -> Result<Option<Vec<u32>>, SmFault>
    ensures read { Gives (Keeps (λ requests. requests.items)) result words.new.words
        (next_numbers words.old.title Limit 0 10000 resources words.old.words) }
    ensures same { IsSameStream words.old words.new }
{
    let mut requests = Some(Vec::new(alloc));
    for _ in 0..resources {
        let request = words.next_number(SmFaultKind::Limit, 0, MOST_REQUEST)?;
        requests = with_item(requests, Some(request));
    }
    Ok(requests)
}
