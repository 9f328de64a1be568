//! Findings that workers make side by side.

ghost use Rattle.std.specs.Prelude.{◌≡◌, IsTrue, IfSome, ⊤};
ghost use Rattle.racp_by_questions.specs.Crowds.{MayStop};
ghost use Rattle.racp_whatif.specs.Outcomes.{IsFinding};

use crate::change::Change;
use crate::outcome::Finding;
use racp_by_questions::OfTurns;
use racp_found::OfOrder;
use std::marker::{Model, PhantomData};

/// A finding that is right of the order that `N` names, made with the turns and as quiet a stop as `M` says. Contracts see the
/// finding.
#[derive(Drop)]
pub(crate) struct Found<N: OfOrder, M: OfTurns> {
    finding: Finding,
    of: PhantomData<N>,
    by: PhantomData<M>,
}

impl<N: OfOrder, M: OfTurns> Model for Found<N, M> {
    ghost use Rattle.racp_by_questions.specs.Crowds.{MayStop};
    ghost use Rattle.racp_whatif.specs.Outcomes.{IsFinding};
    ghost use Rattle.racp_whatif.specs.declared.outcome.Finding.{Finding};

    ghost Value = { Finding };

    ghost view = { λ f. f.finding };

    ghost invariant = { λ f. IsFinding (MayStop N.network M.quiet M.turns) N.network N.terms f.finding };
}

impl<N: OfOrder, M: OfTurns> Found<N, M> {
    /// This finding.
    pub(crate) fn of(finding: Finding) -> Self
        requires { IsFinding (MayStop N.network M.quiet M.turns) N.network N.terms finding }
        ensures { result ≡ finding }
    {
        Found {
            finding,
            of: PhantomData,
            by: PhantomData,
        }
    }

    /// Whether it is of this change.
    fn is_of(&self, change: Change) -> bool
        ensures { IsTrue result → self.now.change ≡ change }
    {
        self.finding.change == change
    }

    /// The finding.
    fn into_finding(self) -> Finding
        ensures same { result ≡ self }
        ensures right { IsFinding (MayStop N.network M.quiet M.turns) N.network N.terms result }
    {
        self.finding
    }
}

/// Takes the finding of a change, if it is there.
pub(crate) fn taken<N: OfOrder, M: OfTurns>(
    found: &mut Vec<Found<N, M>>,
    change: Change,
) -> Option<Finding>
    ensures change { IfSome result (λ finding. finding.change ≡ change) }
    ensures right { IfSome result (IsFinding (MayStop N.network M.quiet M.turns) N.network N.terms) }
{
    let place = found.iter().position(|one| one.is_of(change))?;
    let one = found.swap_remove(place);
    Some(one.into_finding())
}
