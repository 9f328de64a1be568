//! What a worker passes before it searches a piece.

/// Is told of each piece that a worker is about to search. The worker holds no lock then.
pub trait Gate {
    /// The worker at this seat is about to search the piece of this number.
    fn enter(&self, seat: usize, number: u64);
}

/// Does nothing.
#[derive(Clone, Copy, Drop)]
pub struct Open;

impl Gate for Open {
    fn enter(&self, _seat: usize, _number: u64) {}
}
