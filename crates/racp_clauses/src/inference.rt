//! What follows from bounds.

use crate::literal::Literal;

/// What a rule infers.
#[derive(Clone, Copy)]
pub(crate) enum Inference {
    /// Nothing is known.
    Nothing,
    /// A literal is true.
    Narrow(Literal),
    /// Nothing is left.
    Close,
}
