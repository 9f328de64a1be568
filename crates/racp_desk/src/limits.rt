//! How far a run goes.

ghost use Rattle.std.specs.Prelude.{◌≤◌};

use crate::gate::Gate;
use racp_model::Stop;

/// How many workers a run has, and how far it goes at most.
#[derive(Clone, Copy)]
pub struct RunLimits {
    /// How many workers there are, 1 to 64.
    pub workers: usize,
    /// How many nodes of a piece are searched in a turn, 1 to 1,000,000.
    pub quantum: u64,
    /// How many turns there are, up to 1,000,000,000,000. A turn is a piece that is taken.
    pub turns: u64,
    pub ghost workers_some: { 1 ≤ workers },
    pub ghost workers_few: { workers ≤ 64 },
    pub ghost quantum_some: { 1 ≤ quantum },
    pub ghost quantum_small: { quantum ≤ 1000000 },
    pub ghost turns_few: { turns ≤ 1000000000000 },
}

/// What bounds a run: its limits, the gate that each piece has to pass, and when the user asks to stop.
#[derive(Drop)]
pub struct RunBounds<'a, G: Gate, P: Stop> {
    /// How many workers there are, and how far they go at most.
    pub limits: RunLimits,
    /// The gate.
    pub gate: &'a G,
    /// The user's stop.
    pub stop: &'a P,
}
