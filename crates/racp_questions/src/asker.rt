//! Askers: who answers series of questions, what they answer, and why they may give up.

use crate::series::Series;
use racp_found::Observer;
use racp_model::{Capacities, Network, Question, Starts};
use std::alloc::AllocError;
use std::collections::VecDeque;
use thiserror::Error;

/// The first yes of a series.
#[derive(Drop)]
pub enum First {
    /// The question at this index, from 0, is a yes, and each before it is infeasible; these starts answer it.
    Yes { index: usize, starts: Starts },
    /// No question of the series is a yes.
    None,
}

/// What a search of one question with a bound on its nodes tells.
#[derive(Drop)]
pub enum Probe {
    /// The question is a yes: these starts answer it.
    Yes(Starts),
    /// The question is infeasible.
    No,
    /// As many nodes were searched as the bound allows, and neither is known.
    Open,
}

/// How much planning may find out by a search of its own, on the thread that plans, before it asks.
#[derive(Clone, Copy)]
pub struct Leeway {
    /// After how many conflicts that search gives up. With 0 there is none.
    pub conflicts: u64,
    /// How many bytes the clauses that it keeps take at most, about.
    pub bytes: u64,
}

impl Leeway {
    /// There is no such search.
    pub fn none() -> Self {
        Leeway {
            conflicts: 0,
            bytes: 0,
        }
    }
}

/// Why the first yes of a series is not known.
#[derive(Debug, Drop, Error)]
pub enum AskStop {
    /// The search was stopped. The capacities are those of a question of the series before which each question is
    /// infeasible; or there are none.
    #[error("the search was stopped")]
    Stopped { reached: Option<Capacities> },
    /// Memory was refused.
    #[error("out of memory")]
    Memory,
    /// No thread could be started.
    #[error("no thread could be started")]
    NoThread,
}

impl From<AllocError> for AskStop {
    ghost use Rattle.std.specs.Prelude.{◌≡◌};
    ghost use Rattle.racp_questions.specs.declared.asker.AskStop.TheVariants.{Memory};

    ghost from_gives = { λ _ stop. stop ≡ Memory };

    fn from(_error: AllocError) -> AskStop {
        AskStop::Memory
    }
}

/// Finds the first yes of series of questions about one network. The series are of one type, `S`, so that an asker can
/// hand them to threads of its own. Contracts see which network the asker is about, while it may be asked of it, how
/// many series it has answered, what it told when it last stopped, and for which reasons it may give up. As an observer it is
/// told what planning finds on its way; where it wants an end, a search that planning makes by itself gives up, and it is asked.
pub trait Asker<S: Series>: Observer {
    ghost use Rattle.std.specs.Prelude.{◌≡◌, ℕ, ◌+◌, List, Option, OnOk, OnErr, IfOk, IfErr};
    ghost use Rattle.racp_model.specs.Project.{Project};
    ghost use Rattle.racp_model.specs.Formed.{AreFormed, IsFormed};
    ghost use Rattle.racp_questions.specs.FirstYes.{IsFirst, IsProbed, IsProbeStop, IsStop};

    // It is about this network, and may be asked.
    ghost about: { Self → Project → Type 0 };

    ghost answered: { Self → ℕ };

    ghost told: { Self → Option (List ℕ) };

    ghost may_stop: { Self → Type 0 };

    ghost may_want_thread: { Self → Type 0 };

    /// The first yes of the series, with starts in that question's window that keep precedence and its capacities. The
    /// network is the one that the asker is about, and the questions have its form: a capacity for each resource, and
    /// bounds for each job.
    ///
    /// # Errors
    ///
    /// The search was stopped, or no thread could be started, each only if the asker's meaning after the call says
    /// that it may; or memory was refused. Such a series does not count as answered.
    fn first(&mut self, net: &Network, series: S) -> Result<First, AskStop>
        requires named { about self.old net.now }
        requires formed { AreFormed net.now (S.questions series) }
        ensures network { about self.new net.now }
        ensures answer { IfOk result (IsFirst net.now (S.questions series)) }
        ensures answered { OnOk result (answered self.new ≡ answered self.old + 1) }
        ensures unanswered { OnErr result (answered self.new ≡ answered self.old) }
        ensures stop { IfErr result (IsStop net.now (S.questions series) (told self.new) (may_stop self.new)
            (may_want_thread self.new)) };

    /// What a search of one question tells that ends after this many nodes at the latest; `None` is no bound on them.
    /// It counts as no series. The network is the one that the asker is about, and the question has its form.
    ///
    /// # Errors
    ///
    /// As those of `first`; if the search was stopped, nothing is told of what was reached.
    fn probe(
        &mut self,
        net: &Network,
        question: Question,
        most: Option<u64>,
    ) -> Result<Probe, AskStop>
        requires named { about self.old net.now }
        requires formed { IsFormed net.now question }
        ensures network { about self.new net.now }
        ensures probed { IfOk result (IsProbed net.now question most) }
        ensures answered { answered self.new ≡ answered self.old }
        ensures stop { IfErr result (IsProbeStop (told self.new) (may_stop self.new) (may_want_thread self.new)) };

    /// Is told which questions come next as long as each that is asked before is infeasible, the first one first. It
    /// may search them beside the next question that it is asked. What it makes of them changes no answer.
    fn foresee(&mut self, _net: &Network, _ahead: VecDeque<Question>)
        requires named { about self.old _net.now }
        requires formed { AreFormed _net.now _ahead.items }
        ensures network { about self.new _net.now }
        ensures answered { answered self.new ≡ answered self.old }
    {}

    /// How much planning may find out by itself before it asks. What it makes of that changes no answer, but the time and
    /// the memory that planning takes.
    fn leeway(&self) -> Leeway {
        Leeway::none()
    }
}
