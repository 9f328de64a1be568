//! Serial schedules: one job after the other, each as early as precedence and the units let it.

use crate::problem::Problem;
use crate::rows::{number_at, set_number};
use std::alloc::{AllocError, Global};

/// A start that is no start: of a job that never fits.
const NEVER: u32 = u32::MAX;

/// In which direction of time jobs are placed.
#[derive(Clone, Copy)]
pub(crate) enum Way {
    /// From the root window's first starts on.
    Forward,
    /// From the end back, with no root window.
    Backward,
}

/// The usage of the schedule that is made.
#[derive(Drop)]
pub(crate) struct Serial {
    times: Vec<u32>,
    rows: Vec<Vec<u32>>,
}

impl Serial {
    /// No usage yet.
    pub(crate) fn new(alloc: Global, problem: &Problem) -> Result<Serial, AllocError> {
        let mut rows = Vec::with_capacity(alloc, problem.resources.len())?;
        for _resource in 0..problem.resources.len() {
            rows.push(Vec::new(alloc))?;
        }
        Ok(Serial {
            times: Vec::new(alloc),
            rows,
        })
    }

    /// Writes the starts of the jobs down, that are placed in this order within these units.
    pub(crate) fn schedule(
        &mut self,
        problem: &Problem,
        order: &[u32],
        units: &[u32],
        way: Way,
        starts: &mut Vec<u32>,
    ) -> Result<(), AllocError> {
        starts.clear();
        starts.resize(problem.jobs(), 0)?;
        self.clear()?;
        for job in order {
            let i = *job as usize;
            let start = earliest(problem, starts, i, way);
            let start = if 0 < problem.duration(i) {
                self.place(problem, i, start, units)?
            } else {
                start
            };
            set_number(starts, i, start);
        }
        Ok(())
    }

    /// No usage at all.
    fn clear(&mut self) -> Result<(), AllocError> {
        self.times.clear();
        self.times.push(0)?;
        for row in self.rows.iter_mut() {
            row.clear();
            row.push(0)?;
        }
        Ok(())
    }

    /// Places a job at the first start, from a time on, at which it fits, and tells it.
    fn place(
        &mut self,
        problem: &Problem,
        i: usize,
        first: u32,
        units: &[u32],
    ) -> Result<u32, AllocError> {
        let requests = problem.requests(i);
        let start = self.first_fit(requests, first, problem.duration(i), units);
        let from = self.split(start)?;
        let until = self.split(start.saturating_add(problem.duration(i)))?;
        for (row, request) in self.rows.iter_mut().zip(requests.iter()) {
            if 0 < *request && from <= until && until <= row.len() {
                for load in row[from..until].iter_mut() {
                    *load = load.saturating_add(*request);
                }
            }
        }
        Ok(start)
    }

    /// The first start, from a time on, at which a run fits.
    fn first_fit(&self, requests: &[u32], first: u32, duration: u32, units: &[u32]) -> u32 {
        let mut start = first;
        let place = self.times.partition_point(|other| *other <= first);
        for at in place.saturating_sub(1)..self.times.len() {
            if start.saturating_add(duration) <= number_at(&self.times, at) {
                break;
            }
            if !self.fits(at, requests, units) {
                let after = at.saturating_add(1);
                start = if after < self.times.len() {
                    self.times[after]
                } else {
                    NEVER
                };
            }
        }
        start
    }

    /// Whether requests fit from a change on.
    #[inline]
    fn fits(&self, at: usize, requests: &[u32], units: &[u32]) -> bool {
        for (row, (request, most)) in self.rows.iter().zip(requests.iter().zip(units.iter())) {
            if 0 < *request && *most < number_at(row, at).saturating_add(*request) {
                return false;
            }
        }
        true
    }

    /// Makes a time one of change, and tells its place.
    fn split(&mut self, time: u32) -> Result<usize, AllocError> {
        let at = self.times.partition_point(|other| *other < time);
        if at < self.times.len() && self.times[at] == time {
            return Ok(at);
        }
        if at <= self.times.len() {
            self.times.insert(at, time)?;
        }
        for row in self.rows.iter_mut() {
            insert_again(row, at)?;
        }
        Ok(at)
    }
}

/// Repeats the number before a place there.
fn insert_again(row: &mut Vec<u32>, at: usize) -> Result<(), AllocError> {
    let load = number_at(row, at.saturating_sub(1));
    if at <= row.len() {
        row.insert(at, load)?;
    }
    Ok(())
}

/// The first start that the jobs before a job let it have; those after it, backward in time.
fn earliest(problem: &Problem, starts: &[u32], i: usize, way: Way) -> u32 {
    let (mut start, others) = match way {
        Way::Forward => (number_at(&problem.lower, i), problem.before(i)),
        Way::Backward => (0, problem.after(i)),
    };
    for job in others {
        let other = *job as usize;
        let end = number_at(starts, other).saturating_add(problem.duration(other));
        start = start.max(end);
    }
    start
}
