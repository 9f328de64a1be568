//! Which jobs are free in a neighbourhood: those that run nearest to where the schedule exceeds the aims.

use crate::peaks::events_of;
use crate::problem::Problem;
use crate::random::Random;
use crate::rows::{number_at, set_mark, stored};
use std::alloc::{AllocError, Global};

/// Sizes are counted in so many parts of a job.
const PARTS: u64 = 16;

/// So many jobs that use something are free at first.
const FIRST: u64 = 12;

/// So many are at least.
const FEWEST: u64 = 4;

/// The size grows by one part in so many, since a no takes few conflicts,
const GROWTH: u64 = 20;

/// and shrinks by one in so many, since an open question takes all that it may.
const SHRINKAGE: u64 = 8;

/// Chooses the jobs that are free.
#[derive(Drop)]
pub(crate) struct Around {
    alloc: Global,
    random: Random,
    /// How many jobs that use something are free, in parts of a job.
    size: u64,
    /// From when until when the schedule exceeds the aims.
    spans: Vec<(u32, u32)>,
    /// How far each job that uses something is from these, somewhat by chance, and the job.
    distances: Vec<(u32, u32)>,
    /// By how much a distance is blurred.
    blur: u32,
}

impl Around {
    /// No job is free yet.
    pub(crate) fn new(alloc: Global, problem: &Problem, seed: u64) -> Around {
        let (_, mean_duration) = problem.means();
        Around {
            alloc,
            random: Random::new(seed),
            size: FIRST.saturating_mul(PARTS),
            spans: Vec::new(alloc),
            distances: Vec::new(alloc),
            blur: mean_duration.saturating_add(1),
        }
    }

    /// More jobs are free from now on.
    pub(crate) fn grow(&mut self, problem: &Problem) {
        let most = (problem.busy.len() as u64).saturating_mul(PARTS);
        let more = (self.size / GROWTH).saturating_add(2);
        self.size = self.size.saturating_add(more).min(most);
    }

    /// Fewer jobs are free from now on.
    pub(crate) fn shrink(&mut self) {
        let fewer = self.size.saturating_sub(self.size / SHRINKAGE);
        self.size = fewer.max(FEWEST.saturating_mul(PARTS));
    }

    /// Which jobs are free, by rank: some that use something, and all that use nothing.
    pub(crate) fn free(
        &mut self,
        problem: &Problem,
        starts: &[u32],
        aims: &[u32],
    ) -> Result<Vec<bool>, AllocError> {
        self.find_spans(problem, starts, aims)?;
        self.measure(problem, starts)?;
        let count = (self.size / PARTS) as usize;
        if count < self.distances.len() {
            let _ = self.distances.select_nth_unstable(count);
        }
        let mut is_free = Vec::from_elem(self.alloc, false, problem.jobs())?;
        for (place, &(_, job)) in self.distances.iter().enumerate() {
            if place < count {
                set_mark(&mut is_free, job as usize, true);
            }
        }
        for job in problem.free.iter() {
            set_mark(&mut is_free, *job as usize, true);
        }
        Ok(is_free)
    }

    /// Finds from when until when a schedule exceeds the aims.
    fn find_spans(
        &mut self,
        problem: &Problem,
        starts: &[u32],
        aims: &[u32],
    ) -> Result<(), AllocError> {
        let events = events_of(self.alloc, problem, starts)?;
        let mut used = Vec::from_elem(self.alloc, 0u32, problem.resources.len())?;
        self.spans.clear();
        let mut from = 0;
        for &(time, begins, job) in events.iter() {
            if from < time && is_above(&used, aims) {
                self.spans.push((from, time))?;
            }
            from = time;
            change(&mut used, problem.requests(job as usize), 0 < begins);
        }
        Ok(())
    }

    /// Measures how far each job that uses something is from the spans.
    fn measure(&mut self, problem: &Problem, starts: &[u32]) -> Result<(), AllocError> {
        self.distances.clear();
        for job in problem.busy.iter() {
            let start = number_at(starts, *job as usize);
            let end = start.saturating_add(problem.duration(*job as usize));
            let mut distance = problem.deadline;
            for &(from, until) in self.spans.iter() {
                distance = distance.min(gap(start, end, from, until));
            }
            let blurred = distance.saturating_add(self.random.below(self.blur));
            self.distances.push((blurred, *job))?;
        }
        Ok(())
    }
}

/// How far a run is from a span of time; 0 if they overlap.
fn gap(start: u32, end: u32, from: u32, until: u32) -> u32 {
    if end <= from {
        from.saturating_sub(end).saturating_add(1)
    } else {
        start.saturating_add(1).saturating_sub(until)
    }
}

/// Whether some usage is above its aim.
fn is_above(used: &[u32], aims: &[u32]) -> bool {
    for (load, aim) in used.iter().zip(aims.iter()) {
        if *aim < *load {
            return true;
        }
    }
    false
}

/// Counts a job that begins or ends.
fn change(used: &mut [u32], requests: &[u32], begins: bool) {
    for (load, request) in used.iter_mut().zip(requests.iter()) {
        *load = if begins {
            load.wrapping_add(*request)
        } else {
            load.wrapping_sub(*request)
        };
    }
}
