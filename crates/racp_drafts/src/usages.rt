//! What the jobs use of each resource, from one change to the next, and by how much that exceeds the aims.

use crate::problem::Problem;
use crate::rows::number_at;
use crate::usage::{Change, Usage};
use std::alloc::{AllocError, Global};

/// What the jobs use of each resource, from one time of change to the next. Its size does not grow with the deadline.
#[derive(Drop)]
pub(crate) struct Usages {
    /// The times at which a usage can change, rising, from 0 to the deadline.
    pub(crate) times: Vec<u32>,
    /// Of each resource of the problem.
    pub(crate) rows: Vec<Usage>,
    /// What the usages are above the aims, by weight and time.
    pub(crate) excess: u64,
}

impl Usages {
    /// No usage at all; the floors are the aims.
    pub(crate) fn new(alloc: Global, problem: &Problem) -> Result<Usages, AllocError> {
        let mut rows = Vec::with_capacity(alloc, problem.resources.len())?;
        for resource in problem.resources.iter() {
            rows.push(Usage {
                loads: Vec::new(alloc),
                aim: resource.floor,
                weight: resource.weight(),
            })?;
        }
        let mut usages = Usages {
            times: Vec::new(alloc),
            rows,
            excess: 0,
        };
        usages.clear(problem.deadline)?;
        Ok(usages)
    }

    /// No usage until the deadline, and no excess.
    pub(crate) fn clear(&mut self, deadline: u32) -> Result<(), AllocError> {
        self.times.clear();
        self.times.push(0)?;
        self.times.push(deadline)?;
        for row in self.rows.iter_mut() {
            row.loads.clear();
            row.loads.resize(2, 0)?;
        }
        self.excess = 0;
        Ok(())
    }

    /// The place of the first time of change at or after a time.
    #[inline]
    pub(crate) fn place_of(&self, time: u32) -> usize {
        self.times.partition_point(|other| *other < time)
    }

    /// How long it is from a change to the next; 0 from the last one.
    #[inline]
    pub(crate) fn length_at(&self, place: usize) -> u64 {
        let next = number_at(&self.times, place.saturating_add(1));
        next.saturating_sub(number_at(&self.times, place)) as u64
    }

    /// Makes a time one of change, and tells its place. A time behind the last one is left out.
    #[inline]
    fn split(&mut self, time: u32) -> Result<usize, AllocError> {
        let at = self.place_of(time);
        if at < self.times.len() && self.times[at] != time {
            self.times.insert(at, time)?;
            for row in self.rows.iter_mut() {
                row.split(at)?;
            }
        }
        Ok(at)
    }

    /// Adds the run of a job that starts then, or takes it off. A job that uses nothing changes nothing.
    pub(crate) fn shift(
        &mut self,
        problem: &Problem,
        i: usize,
        start: u32,
        change: Change,
    ) -> Result<(), AllocError> {
        if problem.work(i) == 0 {
            return Ok(());
        }
        let from = self.split(start)?;
        let until = self.split(start.saturating_add(problem.duration(i)))?;
        let times = self.times.as_slice();
        let mut excess = self.excess;
        for (row, request) in self.rows.iter_mut().zip(problem.requests(i).iter()) {
            if 0 < *request {
                excess = excess.wrapping_add(row.shift(times, from, until, *request, change));
            }
        }
        self.excess = excess;
        Ok(())
    }

    /// Takes out the changes at which nothing changes.
    pub(crate) fn squeeze(&mut self) {
        let mut kept = 1usize;
        let count = self.times.len();
        for place in 1..count {
            if place.wrapping_add(1) == count || self.changes(place, kept.wrapping_sub(1)) {
                self.move_change(place, kept);
                kept = kept.wrapping_add(1);
            }
        }
        self.times.truncate(kept);
        for row in self.rows.iter_mut() {
            row.loads.truncate(kept);
        }
    }

    /// Whether some usage at a place is another one than at an earlier place.
    fn changes(&self, place: usize, earlier: usize) -> bool {
        for row in self.rows.iter() {
            if number_at(&row.loads, place) != number_at(&row.loads, earlier) {
                return true;
            }
        }
        false
    }

    /// Moves a change to an earlier place.
    fn move_change(&mut self, place: usize, earlier: usize) {
        move_number(&mut self.times, place, earlier);
        for row in self.rows.iter_mut() {
            move_number(&mut row.loads, place, earlier);
        }
    }

    /// For how long the usage of a resource is above so many units.
    pub(crate) fn time_above(&self, k: usize, units: u32) -> u64 {
        let mut sum = 0u64;
        if let Some(row) = self.rows.get(k) {
            for (place, load) in row.loads.iter().enumerate() {
                if units < *load {
                    sum = sum.saturating_add(self.length_at(place));
                }
            }
        }
        sum
    }

    /// Writes down what the usages from each change on are above the aims, by weight.
    pub(crate) fn weigh(&self, weights: &mut Vec<u64>) -> Result<(), AllocError> {
        weights.clear();
        weights.resize(self.times.len(), 0)?;
        for row in self.rows.iter() {
            let (aim, weight) = (row.aim, row.weight);
            for (sum, load) in weights.iter_mut().zip(row.loads.iter()) {
                let above = load.saturating_sub(aim) as u64;
                *sum = sum.wrapping_add(weight.wrapping_mul(above));
            }
        }
        Ok(())
    }

    /// Counts the excess anew.
    pub(crate) fn recount(&mut self, weights: &mut Vec<u64>) -> Result<(), AllocError> {
        self.weigh(weights)?;
        let mut excess = 0u64;
        for (place, weight) in weights.iter().enumerate() {
            excess = excess.wrapping_add(weight.wrapping_mul(self.length_at(place)));
        }
        self.excess = excess;
        Ok(())
    }

    /// Writes the greatest usage of each resource down.
    pub(crate) fn peaks(&self, peaks: &mut Vec<u32>) -> Result<(), AllocError> {
        peaks.clear();
        for row in self.rows.iter() {
            peaks.push(row.peak())?;
        }
        Ok(())
    }
}

/// Copies the number at a place to another place.
fn move_number(row: &mut [u32], place: usize, other: usize) {
    if place < row.len() && other < row.len() {
        row[other] = row[place];
    }
}
