//! What an observer is told of a search.

ghost use Rattle.racp_found.specs.Told.{MayBeTold};
ghost use Rattle.racp_drafts.specs.Drafts.{IsDraft};

use crate::common::Common;
use racp_clauses::OfProblem;
use racp_drafts::Draft;
use racp_found::{News, Observer};
use racp_learning::Tally;

/// Tells a draft that is better than those before it.
pub(crate) fn tell_draft<P: OfProblem, O: Observer>(draft: &Draft, observer: &O)
    requires draft { IsDraft P.problem.network P.problem.terms draft.now }
    requires may { MayBeTold P.problem.network P.problem.terms O.may_hear }
{
    observer.hear(News::Plan {
        capacities: &draft.capacities,
        starts: &draft.starts,
        cost: draft.cost,
    });
}

/// Tells how much was done so far.
pub(crate) fn tell_work<P: OfProblem, O: Observer>(tally: Tally, observer: &O)
    requires may { MayBeTold P.problem.network P.problem.terms O.may_hear }
{
    let gone = tally.lost.saturating_add(tally.forgotten);
    observer.hear(News::Work {
        conflicts: tally.conflicts,
        clauses: tally.conflicts.saturating_sub(gone),
    });
}

/// Hears nothing, and wants an end where one of the searches side by side has finished.
#[derive(Drop)]
pub(crate) struct Finished<'a, 'b, N: OfProblem> {
    pub(crate) common: &'a Common<'b, N>,
}

impl<'a, 'b, N: OfProblem> Observer for Finished<'a, 'b, N> {
    fn is_to_stop(&self) -> bool {
        self.common.is_done()
    }
}
