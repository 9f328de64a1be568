//! What happens at a desk, in the order in which it happens.

/// Why a desk was halted.
#[derive(Clone, Copy, PartialEq)]
pub enum Cause {
    /// A stop was asked for.
    Stop,
    /// As many pieces were taken as there were turns.
    Turns,
    /// Memory was refused, or a thread could not be started.
    Fault,
}

/// What happened at a desk. Questions stand by their place in the series, from 0; seats and pieces by their number,
/// from 0.
#[derive(Clone, Copy, PartialEq)]
pub enum Entry {
    /// The question at this place was asked.
    Asked(usize),
    /// The worker at this seat took the piece of this number, of the question at this place.
    Taken(usize, u64, usize),
    /// The finding of the piece of this number came in, which the worker at this seat took; the worker at another seat may
    /// have searched it. How many windows it leaves, whether it is a yes, and how many nodes it tells.
    Handed(usize, u64, usize, bool, u64),
    /// The worker at this seat gave the piece of this number back.
    GivenBack(usize, u64),
    /// The desk was halted.
    Halted(Cause),
}
