//! What a task waits for.

/// A task that ends before another starts.
#[derive(Clone, Copy)]
pub struct Predecessor {
    /// Its number, from 1.
    pub job: u32,
    /// How many time units there are at least from its end to the start of the other.
    pub lag: u32,
}
