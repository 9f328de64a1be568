//! What a step of a search comes to, and where a search comes to a halt.

ghost use Rattle.racp_search.specs.Ends.{IsSpent};

use racp_model::{Starts, Stop, Window};

/// A window to be searched next, and a time before which its early starts keep the capacities.
#[derive(Drop)]
pub(crate) struct Next {
    pub(crate) window: Window,
    pub(crate) from: u32,
}

/// How far a search goes: over so many nodes at most, where that is said, and until it is stopped.
#[derive(Drop)]
pub(crate) struct Limit<'a, S: Stop> {
    pub(crate) quantum: Option<u64>,
    pub(crate) stop: &'a S,
}

/// What one step of a search comes to.
#[derive(Drop)]
pub(crate) enum Step {
    /// This window is searched next.
    Further(Next),
    /// These starts answer.
    Found(Starts),
    /// Nothing is left.
    Nothing,
}

/// Where a search comes to a halt.
#[derive(Drop)]
pub(crate) enum Halt {
    /// These starts answer.
    Found(Starts),
    /// Nothing is left.
    Nothing,
    /// Before this window: since it was stopped, or since the quantum is spent.
    Left(Next, bool),
}

/// Whether as many nodes were entered as the quantum allows.
pub(crate) fn is_spent(quantum: Option<u64>, nodes: u64) -> bool
    ensures { IsSpent quantum nodes result }
{
    match quantum {
        Some(most) => most <= nodes,
        None => false,
    }
}
