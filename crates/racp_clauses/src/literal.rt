//! Literals.

ghost use Rattle.std.specs.Prelude.{◌≡◌};
ghost use Rattle.racp_clauses.specs.Inferences.{negation};

use crate::inference::Inference;

/// A bound on a variable, which is named by its place, from 0. The variables are the start of each job, the units of
/// each resource, and the cost, in this order.
#[derive(Clone, Copy)]
pub enum Literal {
    /// The variable is at least so much.
    AtLeast(u32, u64),
    /// The variable is at most so much.
    AtMost(u32, u64),
}

/// What follows where a literal is not true.
pub(crate) fn negated(literal: Literal) -> Inference
    ensures { result ≡ negation literal }
{
    match literal {
        Literal::AtLeast(x, v) if 0 < v => Inference::Narrow(Literal::AtMost(x, v - 1)),
        Literal::AtLeast(_, _) => Inference::Close,
        Literal::AtMost(x, v) if v < u64::MAX => Inference::Narrow(Literal::AtLeast(x, v + 1)),
        Literal::AtMost(_, _) => Inference::Nothing,
    }
}
