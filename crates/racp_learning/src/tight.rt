//! Times at which the core usage leaves no room for some job.

use crate::lanes::{Lanes, lanes_at};
use crate::problem::Problem;
use std::alloc::Global;

/// Times at which the core usage is the same: from one to before another.
#[derive(Clone, Copy)]
pub(crate) struct Segment {
    pub(crate) from: i64,
    pub(crate) until: i64,
}

/// Segments in order of time, with what is used in each.
#[derive(Drop)]
pub(crate) struct Tight {
    segments: Vec<Segment>,
    loads: Vec<Lanes>,
    short: bool,
}

impl Tight {
    /// No segments. Takes no memory.
    pub(crate) fn new(alloc: Global) -> Tight {
        Tight {
            segments: Vec::new(alloc),
            loads: Vec::new(alloc),
            short: false,
        }
    }

    pub(crate) fn clear(&mut self) {
        self.segments.clear();
        self.loads.clear();
    }

    pub(crate) fn is_empty(&self) -> bool {
        self.segments.is_empty()
    }

    /// Whether memory was refused.
    pub(crate) fn is_short(&self) -> bool {
        self.short
    }

    /// Adds a segment behind the others, with what is used of the resources of each group.
    pub(crate) fn push(&mut self, segment: Segment, loads: &[Lanes]) {
        if self.segments.push(segment).is_err() || self.loads.extend_from_slice(loads).is_err() {
            self.short = true;
        }
    }

    /// The segment at a place.
    #[inline]
    pub(crate) fn segment(&self, at: usize) -> Option<Segment> {
        self.segments.get(at).copied()
    }

    /// How many segments there are.
    #[inline]
    pub(crate) fn len(&self) -> usize {
        self.segments.len()
    }

    /// The first place from one on at which no segment begins before a time.
    #[inline]
    pub(crate) fn place_behind(&self, at: usize, time: i64) -> usize {
        for i in at..self.segments.len() {
            if time <= self.segments[i].from {
                return i;
            }
        }
        self.segments.len()
    }

    /// Whether the usage in a segment leaves room for a job, where there are at most so many units.
    #[inline]
    pub(crate) fn has_room(
        &self,
        problem: &Problem,
        at: usize,
        job: usize,
        most: &[Lanes],
    ) -> bool {
        let from = at.wrapping_mul(problem.groups);
        for group in 0..problem.groups {
            let loads = lanes_at(&self.loads, from.wrapping_add(group));
            let with = loads.with(problem.lanes(job, group));
            if !with.are_within(lanes_at(most, group)) {
                return false;
            }
        }
        true
    }
}
