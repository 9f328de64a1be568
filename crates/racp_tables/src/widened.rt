//! The jobs of several tables.

ghost use Rattle.std.specs.Prelude.{◌≡◌, ◌++◌, ◌∷◌, [], drop, flat_map, map, string_bytes, take, IfOk, OnOk};
ghost use Rattle.racp_tables.specs.Joined.{all_names, place_of, request_at, tasks_of, waits_of, widened};

use crate::part::Part;
use crate::shared::place_of;
use racp_model::Job;
use std::alloc::{AllocError, Global};
use std::cmp::min;

/// The tasks of all tables, and then their jobs that wait; all resources are called so.
pub(crate) fn all_jobs(
    alloc: Global,
    parts: &[Part],
    all: &[String],
) -> Result<Vec<Job>, AllocError>
    ensures { IfOk result (λ jobs. jobs.items ≡
        flat_map (tasks_of (map string_bytes all.now)) parts.now ++ flat_map (waits_of (map string_bytes all.now)) parts.now) }
{
    let mut jobs = Vec::new(alloc);
    for i in 0..parts.len() {
        push_tasks(alloc, &mut jobs, &parts[i], all)?;
    }
    for k in 0..parts.len() {
        push_waits(alloc, &mut jobs, &parts[k], all)?;
    }
    Ok(jobs)
}

/// Adds the tasks of a table.
fn push_tasks(
    alloc: Global,
    jobs: &mut Vec<Job>,
    part: &Part,
    all: &[String],
) -> Result<(), AllocError>
    ensures { OnOk result (jobs.new.items ≡ jobs.old.items ++ tasks_of (map string_bytes all.now) part.now) }
{
    let count = min(part.table.notes.tasks, part.table.jobs.len());
    let tasks = &part.table.jobs[..count];
    push_widened(alloc, jobs, tasks, &part.table.resources, all)
}

/// Adds the jobs of a table that wait.
fn push_waits(
    alloc: Global,
    jobs: &mut Vec<Job>,
    part: &Part,
    all: &[String],
) -> Result<(), AllocError>
    ensures { OnOk result (jobs.new.items ≡ jobs.old.items ++ waits_of (map string_bytes all.now) part.now) }
{
    let count = min(part.table.notes.tasks, part.table.jobs.len());
    let waits = &part.table.jobs[count..];
    push_widened(alloc, jobs, waits, &part.table.resources, all)
}

/// Adds jobs whose requests are of their own resources, each with a request of all.
fn push_widened(
    alloc: Global,
    jobs: &mut Vec<Job>,
    more: &[Job],
    own: &[String],
    all: &[String],
) -> Result<(), AllocError>
    ensures { OnOk result (jobs.new.items ≡ jobs.old.items ++
        map (widened (map string_bytes own.now) (map string_bytes all.now)) more.now) }
{
    for i in 0..more.len() {
        push_job(alloc, jobs, &more[i], own, all)?;
    }
    Ok(())
}

/// Adds a job.
fn push_job(
    alloc: Global,
    jobs: &mut Vec<Job>,
    job: &Job,
    own: &[String],
    all: &[String],
) -> Result<(), AllocError>
    ensures { OnOk result (jobs.new.items ≡ jobs.old.items ++
        widened (map string_bytes own.now) (map string_bytes all.now) job.now ∷ []) }
{
    let requests = widened_requests(alloc, job.requests(), own, all)?;
    jobs.push(Job::new(job.duration(), requests))?;
    Ok(())
}

/// The requests of all resources, by those of a table's own.
fn widened_requests(
    alloc: Global,
    requests: &[u32],
    own: &[String],
    all: &[String],
) -> Result<Vec<u32>, AllocError>
    ensures { IfOk result (λ wide. wide.items ≡
        map (λ name. request_at requests.now (place_of (map string_bytes own.now) name)) (map string_bytes all.now)) }
{
    let mut wide = Vec::new(alloc);
    for i in 0..all.len() {
        let request = request_at(requests, place_of(own, all[i].as_str()));
        wide.push(request)?;
    }
    Ok(wide)
}

/// The request at a place; none where there is no such place.
fn request_at(requests: &[u32], place: Option<usize>) -> u32
    ensures { result ≡ request_at requests.now place }
{
    match place {
        Some(place) => {
            if place < requests.len() {
                requests[place]
            } else {
                0
            }
        }
        None => 0,
    }
}
