//! Clauses of an order that are taken over to a part of it.

ghost use Rattle.racp_clauses.specs.Roots.{IsPartOf};
ghost use Rattle.racp_by_clauses.specs.Optima.{IsTaskOf};

use crate::task::Task;
use racp_clauses::{Clause, Derivation, Domain, Literal, OfProblem};
use std::alloc::AllocError;

/// A clause as one of a part of the problem, without the literals that are false of all that lies in its root bounds.
pub(crate) fn taken_over<N: OfProblem, P: OfProblem>(
    part: Task<'_>,
    clause: Clause<N>,
) -> Result<Option<Clause<P>>, AllocError>
    requires of_part { IsTaskOf P.problem part }
    requires is_part { IsPartOf P.problem N.problem }
{
    let clause: Clause<P> = clause.of_part();
    let mut derivation: Derivation<P> = Derivation::new(part.alloc, part.root)?;
    for &literal in clause.literals() {
        if !is_false(part.root, literal) {
            derivation.suppose(literal)?;
        }
    }
    derivation.clause(&clause);
    derivation.finish(part.alloc)
}

/// Whether a literal is false of all that lies in bounds.
fn is_false(bounds: &Domain, literal: Literal) -> bool {
    match literal {
        Literal::AtLeast(x, least) => bounds.upper_at(x as usize) < least,
        Literal::AtMost(x, most) => most < bounds.lower_at(x as usize),
    }
}
