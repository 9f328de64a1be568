//! What a search tells.

ghost use Rattle.std.specs.Prelude.{◌<◌, IsTrue, IsFalse};
ghost use Rattle.racp_learning.specs.Answers.{IsSpent};

use racp_model::{Capacities, Starts};

/// So many clauses of a question may be lost before it is left open.
pub const MOST_LOST: u64 = 16;

/// Why a question is left open.
#[derive(Clone, Copy, Debug, PartialEq, Eq)]
pub enum Reason {
    /// The search met as many conflicts as it may, or lost 16 clauses.
    Budget,
    /// It was stopped.
    Stopped,
    /// Its clauses were to take so little memory that it could not go on.
    Memory,
}

/// What a search tells of a question, where `C` are the clauses.
#[derive(Drop)]
pub enum Told<C> {
    /// Starts within the bounds of the question, and units within them that they fit.
    Found(Starts, Capacities),
    /// A clause that holds and is false within the bounds of the question.
    Refuted(C),
    /// Nothing.
    Open(Reason),
}

/// What a search has done so far. Counts stay at the greatest number once there.
#[derive(Clone, Copy)]
pub struct Tally {
    /// How many conflicts it met.
    pub conflicts: u64,
    /// How many decisions it made.
    pub decisions: u64,
    /// How often a clause was not confirmed or could not be used, starts that were found did not answer, or there was nothing
    /// to try.
    pub lost: u64,
    /// How often it halted, to learn, to begin anew or to ask the stop.
    pub halts: u64,
    /// How many steps were taken to derive clauses.
    pub hints: u64,
    /// How many literals the clauses have.
    pub literals: u64,
    /// How many times it began anew.
    pub restarts: u64,
    /// How many clauses were forgotten.
    pub forgotten: u64,
}

impl Tally {
    /// Nothing so far.
    pub(crate) fn new() -> Tally {
        Tally {
            conflicts: 0,
            decisions: 0,
            lost: 0,
            halts: 0,
            hints: 0,
            literals: 0,
            restarts: 0,
            forgotten: 0,
        }
    }
    /// Whether the search has met so many conflicts since an earlier tally, or lost 16 clauses; or counts no further.
    pub(crate) fn is_spent(&self, before: &Tally, conflicts: u64) -> bool
        ensures spent { IsTrue result → IsSpent before.now conflicts self.now }
        ensures unspent { IsFalse result → self.now.halts < 18446744073709551615 }
    {
        before.conflicts.saturating_add(conflicts) <= self.conflicts
            || before.lost.saturating_add(MOST_LOST) <= self.lost
            || self.halts == u64::MAX
    }
}
