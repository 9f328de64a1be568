//! What the jobs use of one resource, from one change to the next.

use crate::rows::{number_at, part};
use std::alloc::AllocError;

/// Whether a run is added or taken off.
#[derive(Clone, Copy, PartialEq, Eq)]
pub(crate) enum Change {
    Add,
    TakeOff,
}

/// What the jobs use of one resource.
#[derive(Drop)]
pub(crate) struct Usage {
    /// The usage from each time of change until the next.
    pub(crate) loads: Vec<u32>,
    /// No more units than this are aimed at.
    pub(crate) aim: u32,
    /// What a unit above the aim weighs.
    pub(crate) weight: u64,
}

impl Usage {
    /// The greatest usage.
    pub(crate) fn peak(&self) -> u32 {
        let mut peak = 0;
        for load in self.loads.iter() {
            peak = peak.max(*load);
        }
        peak
    }

    /// Puts a time of change at a place, at which nothing changes yet.
    #[inline]
    pub(crate) fn split(&mut self, at: usize) -> Result<(), AllocError> {
        let load = number_at(&self.loads, at.saturating_sub(1));
        if at <= self.loads.len() {
            self.loads.insert(at, load)?;
        }
        Ok(())
    }

    /// Changes the usage by a request from one change until another, and tells by how much the excess grows, wrapping.
    pub(crate) fn shift(
        &mut self,
        times: &[u32],
        from: usize,
        until: usize,
        request: u32,
        change: Change,
    ) -> u64 {
        let aim = self.aim;
        let mut more = 0u64;
        if from <= until && until <= self.loads.len() {
            let begins = part(times, from, until);
            let ends = part(times, from.wrapping_add(1), until.wrapping_add(1));
            for (load, (begin, end)) in self.loads[from..until]
                .iter_mut()
                .zip(begins.iter().zip(ends.iter()))
            {
                let other = match change {
                    Change::Add => load.wrapping_add(request),
                    Change::TakeOff => load.wrapping_sub(request),
                };
                let above = other.saturating_sub(aim) as u64;
                let units = above.wrapping_sub(load.saturating_sub(aim) as u64);
                let length = end.wrapping_sub(*begin) as u64;
                more = more.wrapping_add(units.wrapping_mul(length));
                *load = other;
            }
        }
        more.wrapping_mul(self.weight)
    }
}
