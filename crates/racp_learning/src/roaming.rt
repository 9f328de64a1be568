//! What to try among all jobs, wherever they run.
//!
//! Deciding looks where the early starts exceed some units. Where little may be spent, conflicts come of windows that are far from
//! there, and decisions about the jobs that took part in them lead to shorter proofs.

use crate::activity::Activity;
use crate::bound::Bound;
use crate::candidate::Candidate;
use crate::problem::Problem;
use crate::rows::{set_value, value_at};
use crate::trail::Trail;
use std::alloc::{AllocError, Global};

/// Tries the bound on a start that took part most, on the side on which the job stood last; in every second stretch from one new
/// beginning to the next, once it is turned on.
#[derive(Drop)]
pub(crate) struct Roaming {
    is_on: bool,
    /// Whether this is a stretch of it.
    roams: bool,
    /// The least start of each job before bounds were last taken back.
    starts: Vec<i64>,
}

impl Roaming {
    /// Leaves all to deciding until it is turned on.
    pub(crate) fn new(alloc: Global, problem: &Problem) -> Result<Roaming, AllocError> {
        Ok(Roaming {
            is_on: false,
            roams: false,
            starts: Vec::from_elem(alloc, -1, problem.jobs)?,
        })
    }

    /// From now on it has every second stretch.
    pub(crate) fn turn_on(&mut self) {
        self.is_on = true;
    }

    /// The search begins anew.
    pub(crate) fn begin(&mut self) {
        self.roams = self.is_on && !self.roams;
    }

    /// Bounds are about to be taken back.
    pub(crate) fn note(&mut self, trail: &Trail) {
        if self.is_on {
            for i in 0..self.starts.len() {
                set_value(&mut self.starts, i, trail.lower(i));
            }
        }
    }

    /// What is tried, if it is its turn and some bound took part.
    pub(crate) fn choose(
        &self,
        problem: &Problem,
        trail: &Trail,
        activity: &Activity,
    ) -> Option<Bound> {
        if !self.roams {
            return None;
        }
        let mut best = Candidate::none();
        for i in 0..problem.jobs {
            let (lower, upper) = (trail.lower(i), trail.upper(i));
            if lower < upper {
                let found = activity.best(i, lower.wrapping_add(1), upper, best.score);
                if best.score < found.score {
                    best = found;
                }
            }
        }
        if 0.0 < best.score {
            Some(self.side(best.variable, best.threshold))
        } else {
            None
        }
    }

    /// The side of a time on which a job stood last.
    fn side(&self, job: usize, time: i64) -> Bound {
        if time <= value_at(&self.starts, job) {
            Bound::at_least(job, time)
        } else {
            Bound::at_most(job, time.wrapping_sub(1))
        }
    }
}
