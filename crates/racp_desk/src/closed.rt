//! How a run ended.

use crate::log::Entry;
use racp_core::Outcome;
use racp_model::Capacities;
use std::marker::PhantomData;

/// How a run ended.
#[derive(Drop)]
pub struct Closed {
    /// What is known of the series.
    pub outcome: Outcome,
    /// Where the answer is open, the capacities that were reached, if any.
    pub reached: Option<Capacities>,
    /// What happened.
    pub log: Vec<Entry>,
    /// How many pieces were taken.
    pub pieces: u64,
    /// How many nodes were searched.
    pub nodes: u64,
    pub(crate) made: PhantomData<()>,
}
