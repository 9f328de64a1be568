//! What a worker reads of the state.

ghost use Rattle.std.specs.Prelude.{◌≡◌, ◌↔◌, ◌≤◌, length, IsTrue};
ghost use Rattle.racp_core.specs.Machine.{undecided_count, IsAsking, IsSettled};
ghost use Rattle.racp_desk.specs.Log.{tally};

use crate::log::Cause;
use crate::names::RunNames;
use crate::state::State;
use racp_model::OfNetwork;
use racp_questions::Series;

impl<N: OfNetwork, M: RunNames, S: Series> State<N, M, S> {
    /// How many pieces were taken.
    pub fn pieces(&self) -> u64
        ensures pieces { result ≡ self.now.core.taken }
        ensures counted { result ≡ length (tally self.now.log).taken }
        ensures most { result ≤ M.turns }
    {
        self.book.pieces()
    }

    /// How many asked questions are not decided.
    pub fn undecided(&self) -> usize
        ensures { result ≡ undecided_count self.now.core }
    {
        self.core.undecided()
    }

    /// Why the desk was halted, if it was.
    pub fn cause(&self) -> Option<Cause>
        ensures { result ≡ (tally self.now.log).halt }
    {
        self.book.halt()
    }

    /// Whether a question can be asked: the desk was not halted, knows no yes, and its series has not ended.
    pub fn may_ask(&self) -> bool
        ensures { IsTrue result ↔ IsAsking self.now.core }
    {
        self.core.may_ask()
    }

    /// Whether the answer is known.
    pub fn is_settled(&self) -> bool
        ensures { IsTrue result ↔ IsSettled self.now.core }
    {
        self.core.is_settled()
    }
}
