//! The windows of time in which there is most work to do.

use crate::energy_reasons::units_for;
use crate::problem::Problem;
use crate::rows::{set_value, stored, value_at};
use crate::trail::Trail;
use crate::usage_reasons::Span;
use std::alloc::{AllocError, Global};

/// Some times, and a resource that is used in them.
#[derive(Clone, Copy)]
pub(crate) struct Window {
    pub(crate) resource: usize,
    pub(crate) span: Span,
}

impl Window {
    /// Whether another one is the same.
    pub(crate) fn is_same(&self, other: Window) -> bool {
        self.resource == other.resource
            && self.span.from == other.span.from
            && self.span.until == other.span.until
    }
}

/// From a time on the work before it grows by what a job requests, or does so no more.
#[derive(Clone, Copy)]
struct Change {
    time: i64,
    job: u32,
    ends: bool,
}

/// The window of a resource that takes most units, if some take more than the least ones.
#[derive(Clone, Copy)]
struct Best {
    units: i64,
    window: Option<Window>,
}

/// Goes over all windows that begin where a job may start and end where one has done its work.
#[derive(Drop)]
pub(crate) struct Windows {
    changes: Vec<Change>,
    /// For each resource the work so far, and by how much it grows.
    work: Vec<i64>,
    growth: Vec<i64>,
    best: Vec<Best>,
}

impl Windows {
    pub(crate) fn new(alloc: Global, problem: &Problem) -> Result<Windows, AllocError> {
        let mut changes = Vec::new(alloc);
        for i in 0..problem.jobs {
            if problem.is_busy(i) {
                for ends in [false, true] {
                    changes.push(Change {
                        time: 0,
                        job: stored(i),
                        ends,
                    })?;
                }
            }
        }
        let none = Best {
            units: 0,
            window: None,
        };
        Ok(Windows {
            changes,
            work: Vec::from_elem(alloc, 0, problem.resources)?,
            growth: Vec::from_elem(alloc, 0, problem.resources)?,
            best: Vec::from_elem(alloc, none, problem.resources)?,
        })
    }

    /// The best window of a resource in the last look, if its units were too few there.
    pub(crate) fn best(&self, k: usize) -> Option<Window> {
        match self.best.get(k) {
            Some(best) => best.window,
            None => None,
        }
    }

    /// Looks at all windows.
    pub(crate) fn look(&mut self, problem: &Problem, trail: &Trail) {
        for k in 0..self.best.len() {
            if let Some(best) = self.best.get_mut(k) {
                best.units = trail.lower(problem.units(k));
                best.window = None;
            }
        }
        for i in 0..problem.jobs {
            if problem.is_busy(i) {
                self.look_from(problem, trail, trail.lower(i));
                if trail.lower(i) < trail.upper(i) {
                    self.look_from(problem, trail, trail.upper(i));
                }
            }
        }
    }

    /// Looks at all windows that begin at a time.
    fn look_from(&mut self, problem: &Problem, trail: &Trail, from: i64) {
        self.take_changes(problem, trail, from);
        self.work.fill(0);
        self.growth.fill(0);
        let mut last = from;
        for i in 0..self.changes.len() {
            let Some(change) = self.changes.get(i).copied() else {
                break;
            };
            if last < change.time {
                self.grow(change.time.wrapping_sub(last));
                last = change.time;
            }
            if change.ends && from < last {
                self.compare(Span { from, until: last });
            }
            self.turn(problem, change);
        }
    }

    /// Takes when the work of each job before a time, from another on, begins to grow, and when it has grown.
    fn take_changes(&mut self, problem: &Problem, trail: &Trail, from: i64) {
        for change in self.changes.iter_mut() {
            let i = change.job as usize;
            let duration = problem.duration(i);
            let end = trail.lower(i).wrapping_add(duration);
            let most = duration.min(end.wrapping_sub(from)).max(0);
            let first = trail.upper(i).max(from);
            change.time = if most == 0 {
                from
            } else if change.ends {
                first.wrapping_add(most)
            } else {
                first
            };
        }
        self.changes.sort_unstable_by_key(|change| change.time);
    }

    /// The work grows for some times.
    fn grow(&mut self, times: i64) {
        for k in 0..self.work.len() {
            let more = value_at(&self.growth, k).wrapping_mul(times);
            let work = value_at(&self.work, k).wrapping_add(more);
            set_value(&mut self.work, k, work);
        }
    }

    /// It grows by another number of units from now on.
    fn turn(&mut self, problem: &Problem, change: Change) {
        for k in 0..self.growth.len() {
            let request = problem.request(change.job as usize, k);
            let growth = value_at(&self.growth, k);
            let growth = if change.ends {
                growth.wrapping_sub(request)
            } else {
                growth.wrapping_add(request)
            };
            set_value(&mut self.growth, k, growth);
        }
    }

    /// Takes these times for each resource for which they take more units.
    fn compare(&mut self, span: Span) {
        let length = span.until.wrapping_sub(span.from);
        for k in 0..self.best.len() {
            let work = value_at(&self.work, k);
            if let Some(best) = self.best.get_mut(k) {
                if best.units.wrapping_mul(length) < work {
                    best.units = units_for(work, span);
                    best.window = Some(Window { resource: k, span });
                }
            }
        }
    }
}
