//! An entry of the heap of vectors.

/// A capacity vector with what it costs. By the derived order, entries stand in the order of vectors.
#[derive(PartialEq, Eq, PartialOrd, Ord, Drop)]
pub(crate) struct Entry {
    pub(crate) cost: u64,
    pub(crate) units: Vec<u32>,
}
