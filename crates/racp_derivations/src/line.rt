//! What a line of a derivation text says.

use racp_clauses::Literal;

/// What a line says. Jobs, resources and what else is named stand by their places, from 0.
#[derive(Clone, Copy)]
pub(crate) enum Line {
    /// A literal that the clause is to have: go on from its negation.
    Suppose(Literal),
    /// A step.
    Take(Step),
    /// Nothing is left, so the clause holds.
    Holds,
    /// Each derivation begins here from now on.
    Keep,
}

/// A step of a derivation. It is small, since a text may have millions.
#[derive(Clone, Copy)]
pub(crate) enum Step {
    /// Along the pair at this place of the precedence relation.
    Pair(usize),
    /// Time table: of a job on a resource, from a time until another.
    TimeTable(u16, u16, u64, u64),
    /// Energy: on a resource, from a time until another.
    Energy(u16, u64, u64),
    /// What a job requests of a resource.
    Request(u16, u16),
    /// What the least units cost.
    Prices,
    /// The units of a resource that the greatest cost pays for.
    Budget(u16),
    /// An earlier clause.
    Earlier(usize),
}
