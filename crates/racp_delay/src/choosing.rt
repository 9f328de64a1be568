//! What is known while it is chosen which of the active jobs of a conflict go and which stay.

ghost use Rattle.std.specs.Prelude.{◌≡◌, ◌∷◌, MatchOption};
ghost use Rattle.racp_delay.specs.Found.{CannotStay, IsChoice, IsWhereGoes, IsWhereStays};

use crate::loads::{Loads, are_within, with, without};
use racp_model::Network;

/// What is still to be chosen, and beside what. The jobs that are chosen to go stand beside it.
#[derive(Clone, Copy)]
pub(crate) struct Choice<'a> {
    /// The network.
    pub(crate) net: &'a Network,
    /// How many units there are of each resource.
    pub(crate) capacities: &'a [u32],
    /// What the jobs that are chosen to stay request together of each resource.
    pub(crate) kept: Loads,
    /// What these and the undecided request.
    pub(crate) left: Loads,
    /// The jobs that may go or stay.
    pub(crate) undecided: &'a [u32],
}

impl<'a> Choice<'a> {
    /// What is to be chosen of the other undecided jobs if the first of them goes.
    pub(crate) fn where_goes(&self, job: u32, others: &'a [u32]) -> Choice<'a>
        requires choice { IsChoice self.now }
        requires first { self.now.undecided.now ≡ job ∷ others.now }
        ensures { IsWhereGoes self.now others.now result }
    {
        Choice {
            left: without(self.net, &self.left, job),
            undecided: others,
            ..*self
        }
    }

    /// What is to be chosen of the other undecided jobs if the first of them stays, or `None` if what is kept would
    /// then exceed the capacities.
    pub(crate) fn where_stays(&self, job: u32, others: &'a [u32]) -> Option<Choice<'a>>
        requires choice { IsChoice self.now }
        requires first { self.now.undecided.now ≡ job ∷ others.now }
        ensures { MatchOption result (CannotStay self.now job) (IsWhereStays self.now job others.now) }
    {
        let kept = with(self.net, &self.kept, job);
        if !are_within(self.net, self.capacities, &kept) {
            return None;
        }
        Some(Choice {
            kept,
            undecided: others,
            ..*self
        })
    }
}
