//! The collector and its readers.

ghost use Rattle.std.specs.Prelude.{◌≡◌, ◌↔◌, ◌<◌, ◌≤◌, length, Some, None, IsTrue, IfSome, IfNone, true};
ghost use Rattle.racp_model.specs.Formed.{AreFormed};
ghost use Rattle.racp_core.specs.Machine.{fresh, all_questions, is_before, undecided_count, IsAskedAt, IsAsking, IsSettled};
ghost use Rattle.racp_core.specs.Truth.{IsSoundState};
ghost use Rattle.racp_core.specs.Runs.{Step, Halt};

use crate::replies::Verdict;
use crate::row::Row;
use crate::undecided::Undecided;
use racp_model::{Network, OfNetwork, Question, Starts};
use racp_questions::Series;
use std::alloc::Global;
use std::marker::{Model, PhantomData};

mod answering;
mod asking;
mod handing;
mod taking;

/// The least yes that is known.
#[derive(Drop)]
struct LeastYes {
    index: usize,
    starts: Starts,
}

impl Model for LeastYes {
    ghost use Rattle.racp_core.specs.Machine.{KnownYes};

    ghost Value = { KnownYes };

    ghost view = { λ b. record { index = b.index; starts = b.starts } };
}

/// A collector for the questions of one series, about the network that `N` names. Contracts see a `Machine`.
#[derive(Drop)]
pub struct Core<N: OfNetwork, S: Series> {
    alloc: Global,
    series: S,
    next: Option<Question>,
    rows: Vec<Row>,
    undecided: Undecided,
    least: Option<LeastYes>,
    taken: u64,
    ended: bool,
    halted: bool,
    of: PhantomData<N>,
}

impl<N: OfNetwork, S: Series> Model for Core<N, S> {
    ghost use Rattle.racp_core.specs.Machine.{Machine, machine_of};
    ghost use Rattle.racp_core.specs.Truth.{IsState};

    ghost Value = { Machine };

    ghost view = { λ c.
        machine_of c.rows.items c.next (S.questions c.series) c.least c.taken c.ended c.halted };

    ghost invariant = { λ c.
        IsState N.network (machine_of c.rows.items c.next (S.questions c.series) c.least c.taken c.ended c.halted)
        c.undecided };
}

impl<N: OfNetwork, S: Series> Core<N, S> {
    /// A collector of which no question was asked. The network is the one that `N` names, and the questions have its
    /// form: a capacity for each resource, and bounds for each job. Takes no memory.
    pub fn new(alloc: Global, net: &Network, series: S) -> Self
        requires named { net.now ≡ N.network }
        requires formed { AreFormed net.now (S.questions series) }
        ensures { result ≡ fresh (S.questions series) }
    {
        let _ = net;
        Core {
            alloc,
            series,
            next: None,
            rows: Vec::new(alloc),
            undecided: Undecided::new(alloc),
            least: None,
            taken: 0,
            ended: false,
            halted: false,
            of: PhantomData,
        }
    }

    /// Halts the collector: no question is asked and no piece is handed out any more. Takes no memory.
    pub fn halt(&mut self)
        ensures step { Step self.old Halt self.new }
        ensures questions { all_questions self.new ≡ all_questions self.old }
    {
        self.halted = true;
    }

    /// How many pieces were taken: the number of the next one. Who reads it sees what is true of each state of a
    /// collector: of each question before the least yes, what is open or out covers its window and lies inside it, and
    /// the least yes answers. Takes no memory.
    pub fn taken(&self) -> u64
        ensures taken { result ≡ self.now.taken }
        ensures sound { IsSoundState N.network self.now }
    {
        self.taken
    }

    /// How many of the questions that were asked are not decided: each of them stands before the least yes that is
    /// known, and a window of it is open or out. Takes no memory.
    pub fn undecided(&self) -> usize
        ensures { result ≡ undecided_count self.now }
    {
        self.undecided.len()
    }

    /// The question that was asked at a place of the series, decided or not. `None` where none was asked yet. Takes no
    /// memory.
    pub fn question(&self, index: usize) -> Option<&Question>
        ensures some { IfSome result (λ question. IsAskedAt self.now index question.now) }
        ensures none { IfNone result (length self.now.asked ≤ index) }
    {
        Some(self.rows.get(index)?.question())
    }

    /// Whether a question can be asked: the collector runs, knows no yes, and its series has not ended. Takes no
    /// memory.
    pub fn may_ask(&self) -> bool
        ensures { IsTrue result ↔ IsAsking self.now }
    {
        !self.halted && self.least.is_none() && !self.ended
    }

    /// Whether the answer is known: a yes before which each question is infeasible, or that no question of the series
    /// is a yes.
    pub fn is_settled(&self) -> bool
        ensures { IsTrue result ↔ IsSettled self.now }
    {
        match self.answer() {
            Verdict::First {
                index: _,
                starts: _,
            } => true,
            Verdict::NoYes => true,
            Verdict::Pending { first_open: _ } => false,
        }
    }

    /// Whether a place stands before the least yes.
    fn is_before(&self, index: usize) -> bool
        ensures { result ≡ is_before self.now.least index }
    {
        match &self.least {
            Some(least) => index < least.index,
            None => true,
        }
    }
}
