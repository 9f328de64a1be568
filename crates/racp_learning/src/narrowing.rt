//! Bounds that move away from times that leave no room (time-table reasoning, Le Pape 1994).

use crate::bound::{Bound, Why};
use crate::lanes::Lanes;
use crate::problem::Problem;
use crate::rows::{number_at, short};
use crate::tight::{Segment, Tight};
use crate::trail::Trail;

/// A job, and its core times when the usage was taken.
#[derive(Clone, Copy)]
struct Mover {
    job: usize,
    duration: i64,
    from: i64,
    until: i64,
}

impl Mover {
    /// Whether the job is part of the usage in a segment.
    #[inline]
    fn owns(&self, segment: Segment) -> bool {
        self.from <= segment.from && segment.until <= self.until
    }
}

/// What narrowing reads: the segments, and the most units there may be.
#[derive(Clone, Copy)]
pub(crate) struct Room<'a> {
    pub(crate) problem: &'a Problem,
    pub(crate) tight: &'a Tight,
    pub(crate) most: &'a [Lanes],
    /// For each job how many segments end by its latest start, and by its earliest end.
    pub(crate) starts: &'a [u32],
    pub(crate) ends: &'a [u32],
}

impl Room<'_> {
    /// Moves the bounds of all jobs, and says whether there is no conflict.
    pub(crate) fn narrow(&self, trail: &mut Trail) -> bool {
        for job in 0..self.problem.jobs {
            if !self.narrow_open(trail, job) {
                return false;
            }
        }
        true
    }

    /// Moves the bounds of some jobs, and says whether there is no conflict.
    pub(crate) fn narrow_some(&self, trail: &mut Trail, jobs: &[u32]) -> bool {
        for &job in jobs {
            if !self.narrow_open(trail, job as usize) {
                return false;
            }
        }
        true
    }

    /// Moves the bounds of a job, if they are not the same yet.
    #[inline]
    fn narrow_open(&self, trail: &mut Trail, job: usize) -> bool {
        let is_open = self.problem.is_busy(job) && trail.lower(job) < trail.upper(job);
        !is_open || self.narrow_job(trail, job)
    }

    fn narrow_job(&self, trail: &mut Trail, job: usize) -> bool {
        let duration = self.problem.duration(job);
        let mover = Mover {
            job,
            duration,
            from: trail.upper(job),
            until: trail.lower(job).wrapping_add(duration),
        };
        self.raise(trail, &mover) && self.reduce(trail, &mover)
    }

    /// Whether a segment leaves no room for a job that is not part of its usage.
    #[inline]
    fn is_closed(&self, mover: &Mover, at: usize, segment: Segment) -> bool {
        !mover.owns(segment) && !self.tight.has_room(self.problem, at, mover.job, self.most)
    }

    /// Raises the lower bound: behind the last segment without room in which the job would run from it on.
    fn raise(&self, trail: &mut Trail, mover: &Mover) -> bool {
        let mut start = trail.lower(mover.job);
        let last = number_at(self.ends, mover.job) as usize;
        let mut at = self.tight.place_behind(last, mover.until);
        for _i in 0..usize::MAX {
            at = at.wrapping_sub(1);
            let Some(segment) = self.tight.segment(at) else {
                return true;
            };
            if segment.until <= start {
                return true;
            }
            if self.is_closed(mover, at, segment) {
                start = segment.until;
                let bound = Bound::at_least(mover.job, start);
                if !trail.put(bound, Why::Usage(short(segment.from))) {
                    return false;
                }
                let end = start.wrapping_add(mover.duration);
                at = self.tight.place_behind(at, end);
            }
        }
        true
    }

    /// Reduces the upper bound: before the first segment without room in which the job would run from it on.
    fn reduce(&self, trail: &mut Trail, mover: &Mover) -> bool {
        let mut start = mover.from;
        let mut at = number_at(self.starts, mover.job) as usize;
        for _i in 0..usize::MAX {
            let Some(segment) = self.tight.segment(at) else {
                return true;
            };
            if start.wrapping_add(mover.duration) <= segment.from {
                return true;
            }
            let is_reached = start < segment.until;
            if is_reached && self.is_closed(mover, at, segment) {
                start = segment.from.wrapping_sub(mover.duration);
                let bound = Bound::at_most(mover.job, start);
                if !trail.put(bound, Why::Usage(short(segment.until))) {
                    return false;
                }
                at = self.first_behind(at, start);
            } else {
                at = at.wrapping_add(1);
            }
        }
        true
    }

    /// The first place up to one at which a segment ends behind a time.
    fn first_behind(&self, at: usize, time: i64) -> usize {
        for back in 0..at {
            let before = at.wrapping_sub(1).wrapping_sub(back);
            match self.tight.segment(before) {
                Some(segment) if time < segment.until => {}
                _ => return before.wrapping_add(1),
            }
        }
        0
    }
}
