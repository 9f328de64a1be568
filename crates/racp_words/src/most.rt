//! The greatest numbers of the options.

/// The most workers that can be asked for.
pub(crate) const MOST_WORKERS: u64 = 64;

/// The most pieces that workers can be asked to take.
pub(crate) const MOST_TURNS: u64 = 1_000_000_000_000;

/// The most mebibytes that records can be given.
pub(crate) const MOST_MEBIBYTES: u64 = 1_048_576;

/// The most columns that a line can be asked to have.
pub(crate) const MOST_WIDTH: u64 = 1000;
