//! The schedule of least excess.

use crate::rows::copy;
use std::alloc::{AllocError, Global};

/// The schedule that exceeds the aims least since they were set. Starts stand by rank.
#[derive(Drop)]
pub(crate) struct Least {
    starts: Vec<u32>,
    excess: u64,
}

impl Least {
    /// No schedule.
    pub(crate) fn new(alloc: Global) -> Least {
        Least {
            starts: Vec::new(alloc),
            excess: u64::MAX,
        }
    }

    /// The aims were set; this schedule exceeds them by so much.
    pub(crate) fn begin(&mut self, starts: &[u32], excess: u64) -> Result<(), AllocError> {
        self.excess = excess;
        copy(&mut self.starts, starts)
    }

    /// Takes a schedule that exceeds the aims by so much, if that is less.
    pub(crate) fn note(&mut self, starts: &[u32], excess: u64) -> Result<(), AllocError> {
        if self.excess <= excess {
            return Ok(());
        }
        self.begin(starts, excess)
    }

    /// Its starts.
    pub(crate) fn starts(&self) -> &[u32] {
        &self.starts
    }
}
