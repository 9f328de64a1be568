//! A schedule in which the jobs are placed one by one, in the order of their numbers (serial schedule generation, Kelley
//! 1963). Where it keeps the capacities in time, its starts are often the least or close to them.

use crate::task::Task;
use racp_model::{Network, Starts};
use std::alloc::AllocError;

/// So many requests are looked at before it is given up.
const MOST_STEPS: u64 = 50_000_000;

/// The jobs that are placed so far: those of the first numbers.
#[derive(Drop)]
struct Placed<'a, 'b> {
    net: &'a Network,
    capacities: &'b [u32],
    deadline: u64,
    starts: Vec<u32>,
    /// How many steps may still be taken.
    left: u64,
}

/// The starts where each job is placed as early as those before it let it, or `None` where one ends up behind the deadline,
/// or that takes many steps.
pub(crate) fn serial_starts(
    task: Task<'_>,
    capacities: &[u32],
) -> Result<Option<Starts>, AllocError> {
    let order = task.order;
    let mut placed = Placed {
        net: task.net,
        capacities,
        deadline: order.deadline as u64,
        starts: Vec::new(task.alloc),
        left: MOST_STEPS,
    };
    if !placed.place_all(task.window.lower())? {
        return Ok(None);
    }
    Ok(Some(Starts::new(placed.starts)))
}

impl Placed<'_, '_> {
    /// Places all jobs, and says whether each one has a place.
    fn place_all(&mut self, lower: &[u32]) -> Result<bool, AllocError> {
        for job in 0..self.net.job_count() {
            let earliest = self.earliest(lower, job);
            match self.place(job, earliest) {
                Some(time) => self.starts.push(time)?,
                None => return Ok(false),
            }
        }
        Ok(true)
    }

    /// When a job can start by its lower bound and by the placed jobs before it.
    fn earliest(&self, lower: &[u32], job: usize) -> u64 {
        let mut earliest = lower.get(job).copied().unwrap_or(0) as u64;
        for &(before, after) in self.net.arcs() {
            if after as usize == job.saturating_add(1) {
                earliest = earliest.max(self.end((before as usize).saturating_sub(1)));
            }
        }
        earliest
    }

    /// When a job can start at the earliest from a time on.
    fn place(&mut self, job: usize, earliest: u64) -> Option<u32> {
        let mut time = earliest;
        for _i in 0..self.net.job_count() + 1 {
            if self.deadline < time || self.left == 0 {
                return None;
            }
            match self.later(job, time) {
                Some(later) => time = later,
                None => return u32::try_from(time).ok(),
            }
        }
        None
    }

    /// A later time before which a job cannot start, if there is no room for it throughout from a time on.
    fn later(&mut self, job: usize, time: u64) -> Option<u64> {
        let until = time.saturating_add(self.duration(job));
        if until <= time {
            return None;
        }
        if !self.has_room(job, time) {
            return Some(self.first_end(time));
        }
        for i in 0..self.starts.len() {
            let start = self.starts.get(i).copied().unwrap_or(0) as u64;
            if time < start && start < until && !self.has_room(job, start) {
                return Some(self.first_end(start));
            }
        }
        None
    }

    /// Whether there is room for a job at a time.
    fn has_room(&mut self, job: usize, time: u64) -> bool {
        for k in 0..self.net.resource_count() {
            let mut used = self.request(job, k);
            if used == 0 {
                continue;
            }
            for i in 0..self.starts.len() {
                if self.runs(i, time) {
                    used = used.saturating_add(self.request(i, k));
                }
            }
            self.left = self.left.saturating_sub(self.starts.len() as u64);
            if (self.capacities.get(k).copied().unwrap_or(0) as u64) < used {
                return false;
            }
        }
        true
    }

    /// When the first of the placed jobs that run at a time ends.
    fn first_end(&self, time: u64) -> u64 {
        let mut first = u64::MAX;
        for i in 0..self.starts.len() {
            if self.runs(i, time) {
                first = first.min(self.end(i));
            }
        }
        first
    }

    /// Whether a placed job runs at a time.
    fn runs(&self, i: usize, time: u64) -> bool {
        match self.starts.get(i) {
            Some(start) => *start as u64 <= time && time < self.end(i),
            None => false,
        }
    }

    /// When a placed job ends; 0 for another one.
    fn end(&self, i: usize) -> u64 {
        match self.starts.get(i) {
            Some(start) => (*start as u64).saturating_add(self.duration(i)),
            None => 0,
        }
    }

    fn duration(&self, i: usize) -> u64 {
        if i < self.net.job_count() {
            self.net.duration(i) as u64
        } else {
            0
        }
    }

    fn request(&self, i: usize, k: usize) -> u64 {
        if i < self.net.job_count() && k < self.net.resource_count() {
            self.net.request(i, k) as u64
        } else {
            0
        }
    }
}
