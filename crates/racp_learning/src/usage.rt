//! The core usage, and the bounds that follow.

use crate::bound::{Bound, Why};
use crate::events::{Event, Events};
use crate::lanes::{Lanes, lanes_at, set_lanes, set_units};
use crate::narrowing::Room;
use crate::problem::Problem;
use crate::rows::{set_number, short, stored};
use crate::tight::{Segment, Tight};
use crate::trail::Trail;
use std::alloc::{AllocError, Global};

/// The core usage of the bounds that were looked at last. It changes only where core times begin or end, so no row grows
/// with the deadline.
#[derive(Drop)]
pub(crate) struct CoreUsage {
    events: Events,
    /// What is used of the resources of each group, and the least and most units there may be.
    loads: Vec<Lanes>,
    least: Vec<Lanes>,
    most: Vec<Lanes>,
    tight: Tight,
    /// For each job how many segments without room end by its latest start, and by its earliest end.
    starts: Vec<u32>,
    ends: Vec<u32>,
    /// Whether a bound has moved, and whether the usage is still the same: then these jobs have moved, and have no core
    /// times.
    has_moved: bool,
    is_same: bool,
    moved: Vec<u32>,
    short: bool,
}

impl CoreUsage {
    pub(crate) fn new(alloc: Global, problem: &Problem) -> Result<CoreUsage, AllocError> {
        Ok(CoreUsage {
            events: Events::new(alloc, problem)?,
            loads: Vec::from_elem(alloc, Lanes::none(), problem.groups)?,
            least: Vec::from_elem(alloc, Lanes::none(), problem.groups)?,
            most: Vec::from_elem(alloc, Lanes::none(), problem.groups)?,
            tight: Tight::new(alloc),
            starts: Vec::from_elem(alloc, 0, problem.jobs)?,
            ends: Vec::from_elem(alloc, 0, problem.jobs)?,
            has_moved: true,
            is_same: false,
            moved: Vec::with_capacity(alloc, problem.jobs)?,
            short: false,
        })
    }

    /// Whether memory was refused.
    pub(crate) fn is_short(&self) -> bool {
        self.short || self.tight.is_short()
    }

    /// Bounds were taken back.
    pub(crate) fn reset(&mut self) {
        self.has_moved = true;
        self.is_same = false;
    }

    /// Notes that a bound has moved.
    pub(crate) fn note_moved(&mut self, problem: &Problem, trail: &Trail, bound: Bound) {
        let x = bound.variable();
        if x < problem.jobs {
            if problem.is_busy(x) {
                self.note_job(
                    x,
                    trail.upper(x) < trail.lower(x).wrapping_add(problem.duration(x)),
                );
            }
        } else if x < problem.cost() && !bound.is_lower() {
            self.reset();
        }
    }

    /// Notes that a job has moved, and whether it has core times.
    fn note_job(&mut self, job: usize, is_core: bool) {
        self.has_moved = true;
        if is_core {
            self.is_same = false;
            return;
        }
        set_number(&mut self.starts, job, 0);
        set_number(&mut self.ends, job, 0);
        if self.moved.push(stored(job)).is_err() {
            self.short = true;
        }
    }

    /// Whether a bound has moved since the last look.
    pub(crate) fn has_moved(&self) -> bool {
        self.has_moved
    }

    /// Puts all that follows from the core usage, and says whether there is no conflict.
    pub(crate) fn follow(&mut self, problem: &Problem, trail: &mut Trail) -> bool {
        self.has_moved = false;
        let was_same = self.is_same;
        if !was_same && !self.take(problem, trail) {
            return false;
        }
        self.is_same = true;
        let room = Room {
            problem,
            tight: &self.tight,
            most: &self.most,
            starts: &self.starts,
            ends: &self.ends,
        };
        let is_open = if self.tight.is_empty() {
            true
        } else if was_same {
            room.narrow_some(trail, &self.moved)
        } else {
            room.narrow(trail)
        };
        self.moved.clear();
        is_open
    }

    /// Takes the core usage, and says whether there is no conflict.
    fn take(&mut self, problem: &Problem, trail: &mut Trail) -> bool {
        self.events.take_cores(problem, trail);
        for k in 0..problem.resources {
            set_units(&mut self.least, k, trail.lower(problem.units(k)));
            set_units(&mut self.most, k, trail.upper(problem.units(k)));
        }
        self.tight.clear();
        self.sweep(problem, trail)
    }

    /// Goes over the core usage in order of time.
    fn sweep(&mut self, problem: &Problem, trail: &mut Trail) -> bool {
        self.loads.fill(Lanes::none());
        let mut running = 0usize;
        let mut from = 0i64;
        for i in 0..self.events.len() {
            let event = self.events.at(i);
            let job = event.job as usize;
            if event.is_core && from < event.time {
                let segment = Segment {
                    from,
                    until: event.time,
                };
                if 0 < running && !self.look(problem, trail, segment) {
                    return false;
                }
                from = event.time;
            }
            self.note(event);
            if event.is_core && event.ends {
                running = running.wrapping_sub(1);
                self.subtract(problem, job);
            } else if event.is_core {
                running = running.wrapping_add(1);
                self.add(problem, job);
            }
        }
        true
    }

    /// Notes how many segments without room there are by an event.
    #[inline]
    fn note(&mut self, event: Event) {
        let count = stored(self.tight.len());
        let row = if event.ends {
            &mut self.ends
        } else {
            &mut self.starts
        };
        set_number(row, event.job as usize, count);
    }

    #[inline]
    fn add(&mut self, problem: &Problem, job: usize) {
        for group in 0..problem.groups {
            let loads = lanes_at(&self.loads, group).with(problem.lanes(job, group));
            set_lanes(&mut self.loads, group, loads);
        }
    }

    #[inline]
    fn subtract(&mut self, problem: &Problem, job: usize) {
        for group in 0..problem.groups {
            let loads = lanes_at(&self.loads, group).without(problem.lanes(job, group));
            set_lanes(&mut self.loads, group, loads);
        }
    }

    /// Looks at a segment: there are at least as many units as are used; and it may leave no room for some job.
    #[inline]
    fn look(&mut self, problem: &Problem, trail: &mut Trail, segment: Segment) -> bool {
        let mut is_tight = false;
        for group in 0..problem.groups {
            let loads = lanes_at(&self.loads, group);
            if !loads.are_within(lanes_at(&self.least, group))
                && !self.raise(problem, trail, segment.from, group)
            {
                return false;
            }
            let with = loads.with(lanes_at(&problem.largest, group));
            is_tight |= !with.are_within(lanes_at(&self.most, group));
        }
        if is_tight {
            self.tight.push(segment, &self.loads);
        }
        true
    }

    /// Raises the lower bounds of the units of a group to what is used at a time.
    fn raise(&mut self, problem: &Problem, trail: &mut Trail, time: i64, group: usize) -> bool {
        let loads = lanes_at(&self.loads, group);
        for q in 0..4usize {
            let k = group.wrapping_mul(4).wrapping_add(q);
            let load = i64::from(loads.of(q));
            if k < problem.resources && trail.lower(problem.units(k)) < load {
                let bound = Bound::at_least(problem.units(k), load);
                if !trail.put(bound, Why::Peak(short(time))) {
                    return false;
                }
                set_units(&mut self.least, k, load);
            }
        }
        true
    }
}
