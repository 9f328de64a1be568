//! What a table is made of, and how it ends.

use crate::case::Case;
use racp_calendar::Calendar;
use std::alloc::{AllocError, Global};
use thiserror::Error;

/// What a table is made of.
#[derive(Drop)]
pub struct Batch<'a> {
    /// What the rows are allocated by.
    pub alloc: Global,
    /// The cases, in the order of the table.
    pub cases: &'a [Case<'a>],
    /// How the deadlines are told: by their numbers alone, or by dates too.
    pub calendar: Calendar<'a>,
    /// How many are planned at a time, each on a thread.
    pub jobs: usize,
}

/// How a table ended.
#[derive(Debug, Clone, Copy, PartialEq, Eq)]
pub struct Ending {
    /// How many rows it has, beside the first one with the titles: those of so many cases, from the first on.
    pub rows: usize,
    /// Whether each case has a row. If not, the user wanted a stop.
    pub is_whole: bool,
}

/// Why a table has no end.
#[derive(Debug, Clone, Copy, PartialEq, Eq, Drop, Error)]
pub enum BatchFault {
    /// A write failed.
    #[error("the table cannot be written")]
    Write,
    /// Memory was refused.
    #[error("out of memory")]
    Memory,
}

impl From<AllocError> for BatchFault {
    ghost use Rattle.std.specs.Prelude.{◌≡◌};
    ghost use Rattle.racp_batch.specs.declared.batch.BatchFault.TheVariants.{Memory};

    ghost from_gives = { λ _ fault. fault ≡ Memory };

    fn from(_error: AllocError) -> BatchFault {
        BatchFault::Memory
    }
}
