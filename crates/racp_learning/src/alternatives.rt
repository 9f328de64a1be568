//! Which jobs are put off by some minimal delaying alternative (Demeulemeester and Herroelen 1992).

use crate::lanes::{Lanes, lanes_at, set_lanes};
use crate::problem::Problem;
use crate::rows::stored;
use std::alloc::{AllocError, Global};

/// So many jobs beside one are tried in all ways; of more only some ways are tried.
const MOST_TRIED: usize = 10;

/// Looks for members of minimal delaying alternatives, where there are at most so many units.
#[derive(Drop)]
pub(crate) struct Alternatives {
    most: Vec<Lanes>,
    loads: Vec<Lanes>,
}

impl Alternatives {
    /// Where there are no units yet.
    pub(crate) fn new(alloc: Global, problem: &Problem) -> Result<Alternatives, AllocError> {
        Ok(Alternatives {
            most: Vec::from_elem(alloc, Lanes::none(), problem.groups)?,
            loads: Vec::from_elem(alloc, Lanes::none(), problem.groups)?,
        })
    }

    /// The most units of each resource.
    pub(crate) fn most(&self) -> &[Lanes] {
        &self.most
    }

    /// The same, to be written.
    pub(crate) fn most_mut(&mut self) -> &mut [Lanes] {
        &mut self.most
    }

    /// Whether a job is put off by some minimal delaying alternative of active jobs: there are others that can run at once,
    /// and cannot if it runs too. It may say so falsely where there are many jobs.
    pub(crate) fn have(&mut self, problem: &Problem, job: u32, active: &[u32]) -> bool {
        if self.keeps_some(problem, job, active) || self.keeps_last(problem, job, active) {
            return true;
        }
        if MOST_TRIED < active.len() {
            return true;
        }
        let ways = 1u32.wrapping_shl(stored(active.len()));
        for way in 0..ways {
            if self.keeps(problem, job, active, way) {
                return true;
            }
        }
        false
    }

    /// Whether this is so for those that stay if each of them stays that can, from the first on.
    fn keeps_some(&mut self, problem: &Problem, job: u32, active: &[u32]) -> bool {
        self.loads.fill(Lanes::none());
        for &other in active {
            if other != job && self.fits_with(problem, other) {
                self.add(problem, other);
            }
        }
        !self.fits_with(problem, job)
    }

    /// The same, from the last on.
    fn keeps_last(&mut self, problem: &Problem, job: u32, active: &[u32]) -> bool {
        self.loads.fill(Lanes::none());
        for &other in active.iter().rev() {
            if other != job && self.fits_with(problem, other) {
                self.add(problem, other);
            }
        }
        !self.fits_with(problem, job)
    }

    /// Whether it is so for those of one way: those that stay have a bit in it.
    fn keeps(&mut self, problem: &Problem, job: u32, active: &[u32], way: u32) -> bool {
        self.loads.fill(Lanes::none());
        for i in 0..active.len() {
            let stays = way.wrapping_shr(stored(i)) & 1 == 1;
            if stays && active[i] != job {
                if !self.fits_with(problem, active[i]) {
                    return false;
                }
                self.add(problem, active[i]);
            }
        }
        !self.fits_with(problem, job)
    }

    /// Whether there is room for a job more.
    #[inline]
    fn fits_with(&self, problem: &Problem, job: u32) -> bool {
        for group in 0..problem.groups {
            let loads = lanes_at(&self.loads, group).with(problem.lanes(job as usize, group));
            if !loads.are_within(lanes_at(&self.most, group)) {
                return false;
            }
        }
        true
    }

    #[inline]
    fn add(&mut self, problem: &Problem, job: u32) {
        for group in 0..problem.groups {
            let loads = lanes_at(&self.loads, group).with(problem.lanes(job as usize, group));
            set_lanes(&mut self.loads, group, loads);
        }
    }
}
