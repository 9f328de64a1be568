//! What follows from a clause.

ghost use Rattle.std.specs.Prelude.{length};
ghost use Rattle.racp_clauses.specs.Inferences.{IsOfClause};

use crate::domain::Domain;
use crate::inference::Inference;
use crate::literal::Literal;

/// What follows from a clause: the only literal that is not false within the bounds.
pub(crate) fn unit(bounds: &Domain, clause: &[Literal]) -> Inference
    ensures { IsOfClause bounds.now clause.now (length clause.now) result }
{
    let mut inference = Inference::Close;
    for &literal in clause {
        if !bounds.is_false(literal) {
            match inference {
                Inference::Close => inference = Inference::Narrow(literal),
                _ => return Inference::Nothing,
            }
        }
    }
    inference
}
