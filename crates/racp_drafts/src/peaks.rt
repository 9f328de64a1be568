//! The peaks of a schedule.

use crate::problem::Problem;
use crate::rows::number_at;
use std::alloc::{AllocError, Global};

/// When the jobs of the problem that use something begin (1) and end (0), by time; of a time the ends come first.
pub(crate) fn events_of(
    alloc: Global,
    problem: &Problem,
    starts: &[u32],
) -> Result<Vec<(u32, u32, u32)>, AllocError> {
    let mut events = Vec::new(alloc);
    for job in problem.busy.iter() {
        let start = number_at(starts, *job as usize);
        let end = start.saturating_add(problem.duration(*job as usize));
        events.push((start, 1u32, *job))?;
        events.push((end, 0u32, *job))?;
    }
    events.sort_unstable();
    Ok(events)
}

/// Writes the greatest usage of each resource of the problem down. Starts stand by rank.
pub(crate) fn peaks_of(
    alloc: Global,
    problem: &Problem,
    starts: &[u32],
    peaks: &mut Vec<u32>,
) -> Result<(), AllocError> {
    let events = events_of(alloc, problem, starts)?;
    let mut used = Vec::from_elem(alloc, 0u32, problem.resources.len())?;
    peaks.clear();
    peaks.resize(problem.resources.len(), 0)?;
    for &(_, begins, job) in events.iter() {
        count(&mut used, peaks, problem.requests(job as usize), 0 < begins);
    }
    Ok(())
}

/// Counts a job that begins or ends.
fn count(used: &mut [u32], peaks: &mut [u32], requests: &[u32], begins: bool) {
    for (load, (peak, request)) in used.iter_mut().zip(peaks.iter_mut().zip(requests.iter())) {
        *load = if begins {
            load.wrapping_add(*request)
        } else {
            load.wrapping_sub(*request)
        };
        if *peak < *load {
            *peak = *load;
        }
    }
}
