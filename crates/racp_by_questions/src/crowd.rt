//! An asker that runs a desk of workers for each series.

ghost use Rattle.std.specs.Prelude.{◌≡◌, ◌+◌, ◌*◌, ◌≤◌, OnOk, OnErr, IfOk, IfErr};
ghost use Rattle.std.specs.Option.{ForSome};
ghost use Rattle.racp_model.specs.Formed.{AreFormed};
ghost use Rattle.racp_candidates.specs.AnySeries.{any_questions};
ghost use Rattle.racp_desk.specs.Closing.{IsRunClosed};
ghost use Rattle.racp_by_questions.specs.Crowds.{IsAnsweredBy, HaveTaken, IsFault, RunsDesks};

use racp_candidates::AnySeries;
use racp_core::Outcome;
use racp_desk::{Closed, DeskFault, RunLimits};
use racp_found::Observer;
use racp_model::{Capacities, OfNetwork, Question, Stop};
use racp_questions::{AskStop, First, Leeway};
use std::alloc::AllocError;
use std::collections::VecDeque;
use std::marker::{Brand, PhantomData};

/// Names how many turns there are, and whether the stop is quiet. A call that makes an asker picks them.
pub trait OfTurns {
    ghost use Rattle.std.specs.Prelude.{ℕ, Bool};

    ghost turns: { ℕ };

    ghost quiet: { Bool };
}

/// Stands only if a call picks nothing.
impl OfTurns for Brand {
    ghost use Rattle.std.specs.Prelude.{true};

    ghost turns = { 0 };

    ghost quiet = { true };
}

/// How much work was done.
#[derive(Clone, Copy)]
pub struct Effort {
    /// How many pieces were taken.
    pub pieces: u64,
    /// How many nodes were searched for what came in of them.
    pub nodes: u64,
}

/// Answers series of questions about the network that `N` names, each by a run of a desk, and counts the turns over all
/// of them, of which there are as many as `M` names: a turn is a piece that is taken. It is handed a call that runs a desk
/// about a series within limits and with a stop. It stops only where no turn is left, or where the stop of these runs is
/// not quiet, as `M` says. What it is told of planning it tells an observer. Several workers that search a question with a bound on its nodes also search those that come next: what they
/// refute of these is a record, by which such a question takes one node when it is asked.
#[derive(Drop)]
pub struct Crowd<
    'a,
    N: OfNetwork,
    M: OfTurns,
    P: Stop,
    O: Observer + Drop,
    F: Fn(AnySeries, RunLimits) -> Result<Closed, DeskFault> + Drop,
> {
    pub(crate) run: F,
    pub(crate) observer: O,
    pub(crate) workers: usize,
    pub(crate) left: u64,
    pieces: u64,
    nodes: u64,
    pub(crate) answered: u64,
    pub(crate) told: Option<Capacities>,
    pub(crate) ahead: Option<VecDeque<Question>>,
    pub(crate) leeway: Leeway,
    pub(crate) stop: Option<&'a P>,
    of: PhantomData<(N, M)>,
    ghost workers_some: { 1 ≤ workers },
    ghost workers_few: { workers ≤ 64 },
    ghost turns_few: { M.turns ≤ 1000000000000 },
    ghost counted: { left + pieces ≡ M.turns },
    ghost taken: { HaveTaken N.network M.quiet pieces },
    ghost nodes_few: { nodes ≤ 1000000 * pieces },
    ghost ahead_formed: { ForSome ahead (λ list. AreFormed N.network list.items) },
}

impl<
    'a,
    N: OfNetwork,
    M: OfTurns,
    P: Stop,
    O: Observer + Drop,
    F: Fn(AnySeries, RunLimits) -> Result<Closed, DeskFault> + Drop,
> Crowd<'a, N, M, P, O, F> {
    /// An asker with so many turns, which runs a desk of so many workers by this call.
    pub fn new(workers: usize, turns: u64, observer: O, run: F) -> Self
        requires some_workers { 1 ≤ workers }
        requires workers { workers ≤ 64 }
        requires turns { turns ≤ 1000000000000 }
        requires named { turns ≡ M.turns }
        ensures run { result.run ≡ run }
        ensures left { result.left ≡ turns }
        ensures effort { (result.pieces ≡ 0) × (result.nodes ≡ 0) }
    {
        Crowd {
            run,
            observer,
            workers,
            left: turns,
            pieces: 0,
            nodes: 0,
            answered: 0,
            told: None,
            ahead: None,
            leeway: Leeway::none(),
            stop: None,
            of: PhantomData,
        }
    }

    /// The same asker, which leaves planning a search of its own, until this stop is asked for.
    pub fn with_search(mut self, leeway: Leeway, stop: &'a P) -> Self
        ensures run { result.run ≡ self.entry.run }
        ensures left { result.left ≡ self.entry.left }
        ensures effort { (result.pieces ≡ self.entry.pieces) × (result.nodes ≡ self.entry.nodes) }
    {
        self.leeway = leeway;
        self.stop = Some(stop);
        self
    }

    /// How many turns are left.
    pub fn left(&self) -> u64
        ensures { result ≡ self.now.left }
    {
        self.left
    }

    /// How much work was done in the runs that ended.
    pub fn effort(&self) -> Effort
        ensures { (result.pieces ≡ self.now.pieces) × (result.nodes ≡ self.now.nodes) }
    {
        Effort {
            pieces: self.pieces,
            nodes: self.nodes,
        }
    }

    /// Runs a desk about a series within limits, with some of the turns that are left, and counts its work.
    pub(crate) fn closed(&mut self, series: AnySeries, limits: RunLimits) -> Result<Closed, AskStop>
        requires turns { limits.turns ≤ self.old.left }
        requires formed { AreFormed N.network (any_questions series) }
        requires run { RunsDesks N.network M.quiet (F.pre self.old.run) (F.post self.old.run) }
        ensures run { self.new.run ≡ self.old.run }
        ensures answered { self.new.answered ≡ self.old.answered }
        ensures told { self.new.told ≡ self.old.told }
        ensures closed { IfOk result (IsRunClosed N.network (any_questions series) limits.turns M.quiet) }
        ensures left { IfOk result (λ closed. self.new.left + closed.pieces ≡ self.old.left) }
        ensures nodes { IfOk result (λ closed. self.new.nodes ≡ self.old.nodes + closed.nodes) }
        ensures err { IfErr result IsFault }
    {
        let closed = match (self.run)(series, limits) {
            Ok(closed) => closed,
            Err(DeskFault::Memory) => return Err(AskStop::Memory),
            Err(DeskFault::NoThread) => return Err(AskStop::NoThread),
        };
        self.count(closed.pieces, closed.nodes);
        Ok(closed)
    }

    /// Counts the work of a run.
    fn count(&mut self, pieces: u64, nodes: u64)
        requires pieces { pieces ≤ self.old.left }
        requires nodes { nodes ≤ 1000000 * pieces }
        requires taken { HaveTaken N.network M.quiet (self.old.pieces + pieces) }
        ensures run { self.new.run ≡ self.old.run }
        ensures answered { self.new.answered ≡ self.old.answered }
        ensures told { self.new.told ≡ self.old.told }
        ensures left { self.new.left + pieces ≡ self.old.left }
        ensures pieces { self.new.pieces ≡ self.old.pieces + pieces }
        ensures nodes { self.new.nodes ≡ self.old.nodes + nodes }
    {
        self.left -= pieces;
        self.pieces += pieces;
        self.nodes += nodes;
    }

    /// Answers a series by the run about it. Where that is open, it keeps what was reached.
    pub(crate) fn answer(&mut self, closed: Closed) -> Result<First, AskStop>
        ensures run { self.new.run ≡ self.old.run }
        ensures left { self.new.left ≡ self.old.left }
        ensures answer { IsAnsweredBy closed self.new.told result }
        ensures answered { OnOk result (self.new.answered ≡ self.old.answered + 1) }
        ensures unanswered { OnErr result (self.new.answered ≡ self.old.answered) }
    {
        let Some(answered) = self.answered.checked_add(1) else {
            // Dropped here once, not at each way out.
            drop(closed);
            return Err(AskStop::Memory);
        };
        let Closed {
            outcome,
            reached,
            ..
        } = closed;
        let first = match outcome {
            Outcome::First { index, starts } => First::Yes { index, starts },
            Outcome::NoYes => First::None,
            Outcome::Open { first_open: _ } => {
                self.told = copy_of(&reached)?;
                return Err(AskStop::Stopped { reached });
            }
        };
        self.answered = answered;
        Ok(first)
    }
}

/// A copy of what was reached.
fn copy_of(reached: &Option<Capacities>) -> Result<Option<Capacities>, AllocError>
    ensures { IfOk result (λ copy. copy ≡ reached.now) }
{
    match reached {
        Some(capacities) => Ok(Some(capacities.copy()?)),
        None => Ok(None),
    }
}
