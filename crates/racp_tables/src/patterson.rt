//! Tables in Patterson's format: numbers alone. First how many jobs and resources there are, then how many units of each
//! resource, which no network has, and then of each job its duration, its requests, how many jobs come after it, and
//! these.

use crate::fault::TableFault;
use crate::table::{Notes, Table};
use crate::tokens::Tokens;
use racp_model::Job;
use racp_model::limits::{MOST_DURATION, MOST_JOBS, MOST_REQUEST, MOST_RESOURCES};
use std::alloc::{AllocError, Global};

/// The table of a text in Patterson's format. It has no names, so tasks and resources are called by their numbers.
pub(crate) fn read_numbers(alloc: Global, text: &str) -> Result<Table, TableFault> {
    let mut tokens = Tokens::of(alloc, text)?;
    let jobs = tokens.take(alloc, "the number of jobs", 1, MOST_JOBS as u32)?;
    let resources = tokens.take(alloc, "the number of resources", 1, MOST_RESOURCES as u32)?;
    for _ in 0..resources {
        tokens.take(alloc, "a number of units", 0, u32::MAX)?;
    }
    let table = table_of(alloc, &mut tokens, jobs, resources)?;
    tokens.end(alloc)?;
    Ok(table)
}

/// The table of this many jobs and resources.
fn table_of(
    alloc: Global,
    tokens: &mut Tokens,
    count: u32,
    resources: u32,
) -> Result<Table, TableFault> {
    let mut jobs = Vec::new(alloc);
    let mut pairs = Vec::new(alloc);
    for place in 0..count {
        push_job(alloc, &mut jobs, tokens, resources)?;
        push_successors(alloc, &mut pairs, tokens, (place.saturating_add(1), count))?;
    }
    Ok(Table {
        names: numbered(alloc, "Job", count)?,
        headings: Vec::new(alloc),
        resources: numbered(alloc, "R", resources)?,
        jobs,
        pairs,
        earliest: None,
        due: None,
        notes: Notes {
            tasks: count as usize,
            phases: 0,
            is_half_day: false,
            passed_over: Vec::new(alloc),
            warnings: Vec::new(alloc),
        },
    })
}

/// Adds a job.
fn push_job(
    alloc: Global,
    jobs: &mut Vec<Job>,
    tokens: &mut Tokens,
    resources: u32,
) -> Result<(), TableFault> {
    let duration = tokens.take(alloc, "a duration", 0, MOST_DURATION)?;
    let mut requests = Vec::new(alloc);
    for _ in 0..resources {
        let request = tokens.take(alloc, "a request", 0, MOST_REQUEST)?;
        keep_request(&mut requests, request)?;
    }
    keep_job(jobs, Job::new(duration, requests))?;
    Ok(())
}

/// Adds a request.
fn keep_request(requests: &mut Vec<u32>, request: u32) -> Result<(), AllocError> {
    requests.push(request)?;
    Ok(())
}

/// Adds a job.
fn keep_job(jobs: &mut Vec<Job>, job: Job) -> Result<(), AllocError> {
    jobs.push(job)?;
    Ok(())
}

/// Adds the pairs of a job and the jobs after it. `job` is its number, and how many jobs there are.
fn push_successors(
    alloc: Global,
    pairs: &mut Vec<(u32, u32)>,
    tokens: &mut Tokens,
    job: (u32, u32),
) -> Result<(), TableFault> {
    let (number, count) = job;
    let successors = tokens.take(alloc, "a number of successors", 0, count)?;
    for _ in 0..successors {
        let after = tokens.take(alloc, "a successor", 1, count)?;
        keep_pair(pairs, (number, after))?;
    }
    Ok(())
}

/// Adds a pair.
fn keep_pair(pairs: &mut Vec<(u32, u32)>, pair: (u32, u32)) -> Result<(), AllocError> {
    pairs.push(pair)?;
    Ok(())
}

/// As many names: this word and a number, from 1.
fn numbered(alloc: Global, word: &str, count: u32) -> Result<Vec<String>, AllocError> {
    let mut names = Vec::new(alloc);
    for place in 0..count {
        let number = place.saturating_add(1);
        names.push(format!(in alloc; "{word} {number}")?)?;
    }
    Ok(names)
}
