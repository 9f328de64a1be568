//! An asker on the calling thread.

ghost use Rattle.std.specs.Prelude.{◌≡◌, ◌+◌, ◌≤◌, [], false, IfOk, IfErr, IsFalse, IsTrue, OnOk, OnErr};
ghost use Rattle.racp_cutset.specs.Kept.{most_records};
ghost use Rattle.racp_model.specs.Formed.{AreFormed, IsFormed};
ghost use Rattle.racp_questions.specs.FirstYes.{IsFirst, IsProbed};
ghost use Rattle.racp_by_questions.specs.Working.{IsGivenUp, IsLeft, IsProbeOf};

use crate::crowd::OfTurns;
use crate::settling::{end_of, first_of, settle_next};
use crate::until::AloneUntil;
use racp_core::Core;
use racp_cutset::{Board, DEFAULT_MEMORY, Local, most_records};
use racp_found::Observer;
use racp_model::{Network, Never, OfNetwork, Question, Stop};
use racp_questions::{AskStop, Asker, First, Leeway, Probe, Series};
use racp_search::{Finding, Piece, Rest, explore, make_room};
use std::alloc::{AllocError, Global};
use std::marker::PhantomData;

/// Answers series of questions about the network that `N` names, on the calling thread. It keeps the records of the
/// questions that were a yes, for all series that it is asked. Those of a no it forgets: they would serve a later
/// question with no more capacities and no greater upper bounds, and the planner asks none. It neither stops nor wants
/// a thread. It counts the series that it has answered, and answers no more than 2^64 - 1 of them: a further one ends
/// as where memory is refused.
#[derive(Drop)]
pub struct Alone<N: OfNetwork> {
    alloc: Global,
    board: Board<N>,
    local: Local<N>,
    pub(crate) answered: u64,
    pub(crate) leeway: Leeway,
}

impl<N: OfNetwork> Alone<N> {
    /// An asker that has kept nothing. Its records take at most about 1 GiB. The network is the one that `N` names.
    ///
    /// # Errors
    ///
    /// Memory was refused.
    pub fn new(alloc: Global, net: &Network) -> Result<Self, AllocError>
        requires { net.now ≡ N.network }
        ensures { IfOk result (λ alone. alone.local ≡ record { records = []; most = most_records net.now 1024 }) }
    {
        Alone::within(alloc, net, DEFAULT_MEMORY)
    }

    /// An asker that has kept nothing, and whose records take at most about so many mebibytes, up to 1,048,576.
    ///
    /// # Errors
    ///
    /// Memory was refused.
    pub fn within(alloc: Global, net: &Network, mebibytes: usize) -> Result<Self, AllocError>
        requires named { net.now ≡ N.network }
        requires memory { mebibytes ≤ 1048576 }
        ensures { IfOk result (λ alone. alone.local ≡ record { records = []; most = most_records net.now mebibytes }) }
    {
        Ok(Alone {
            alloc,
            board: Board::new(alloc, net)?,
            local: Local::of_most(alloc, most_records(net, mebibytes)),
            answered: 0,
            leeway: Leeway {
                conflicts: u64::MAX,
                bytes: (mebibytes as u64).saturating_mul(1 << 20),
            },
        })
    }

    /// The same asker, which leaves planning so many conflicts of a search of its own. Without this there is no bound on
    /// them.
    pub fn with_conflicts(mut self, conflicts: u64) -> Self
        ensures { result.local ≡ self.local }
    {
        self.leeway.conflicts = conflicts;
        self
    }

    /// The same asker, which stops where this stop asks for it.
    pub fn until<M: OfTurns, P: Stop>(self, stop: &P) -> AloneUntil<'_, N, M, P>
        requires { P.is_quiet stop.now ≡ M.quiet }
    {
        AloneUntil {
            alone: self,
            stop,
            of: PhantomData,
        }
    }

    /// The first yes of the series, unless the stop asks before, as it may at each node.
    pub(crate) fn first_until<S: Series, P: Stop>(
        &mut self,
        net: &Network,
        series: S,
        stop: &P,
    ) -> Result<First, AskStop>
        requires named { net.now ≡ N.network }
        requires formed { AreFormed net.now (S.questions series) }
        ensures answer { IfOk result (IsFirst net.now (S.questions series)) }
        ensures answered { OnOk result (self.new.answered ≡ self.old.answered + 1) }
        ensures unanswered { OnErr result (self.new.answered ≡ self.old.answered) }
        ensures stop { IfErr result (IsGivenUp (P.is_quiet stop.now ≡ false)) }
    {
        let answered = self.answered.checked_add(1).ok_or(AskStop::Memory)?;
        let mut core: Core<N, S> = Core::new(self.alloc, net, series);
        'questions: loop {
            let local = &mut self.local;
            match settle_next(self.alloc, net, &self.board, local, &mut core, stop) {
                Ok(true) => {}
                Ok(false) => {
                    self.answered = answered;
                    return Ok(first_of(core));
                }
                Err(end) => {
                    // Dropped here once, not at each way out.
                    drop(core);
                    return Err(end);
                }
            }
        }
    }

    /// What a search of one question tells that has a bound on its nodes, unless the stop asks before.
    pub(crate) fn probe_until<P: Stop>(
        &mut self,
        net: &Network,
        question: Question,
        most: Option<u64>,
        stop: &P,
    ) -> Result<Probe, AskStop>
        requires named { net.now ≡ N.network }
        requires formed { IsFormed net.now question }
        ensures probed { IfOk result (IsProbed net.now question most) }
        ensures answered { self.new.answered ≡ self.old.answered }
        ensures stop { IfErr result (IsGivenUp (P.is_quiet stop.now ≡ false)) }
    {
        let kept = make_room(&mut self.local);
        let piece = Piece::new(0, 0, 0, question);
        let local = &mut self.local;
        let finding = explore(self.alloc, net, piece, most, &self.board, local, stop);
        let probe = probe_of(finding)?;
        if matches!(probe, Probe::No) {
            self.local.forget_behind(kept);
        }
        Ok(probe)
    }
}

impl<N: OfNetwork> Observer for Alone<N> {}

impl<N: OfNetwork, S: Series> Asker<S> for Alone<N> {
    ghost use Rattle.std.specs.Prelude.{◌≡◌, None};

    ghost about = { λ _ p. p ≡ N.network };

    ghost answered = { λ alone. alone.answered };

    ghost told = { λ _. None };

    ghost may_stop = { λ _. ⊥ };

    ghost may_want_thread = { λ _. ⊥ };

    fn first(&mut self, net: &Network, series: S) -> Result<First, AskStop> {
        self.first_until(net, series, &Never)
    }

    fn leeway(&self) -> Leeway {
        self.leeway
    }

    fn probe(
        &mut self,
        net: &Network,
        question: Question,
        most: Option<u64>,
    ) -> Result<Probe, AskStop> {
        self.probe_until(net, question, most, &Never)
    }
}

/// What the finding of a question tells of it. Where memory was refused to the search, or it was stopped, it tells
/// nothing.
fn probe_of<N: OfNetwork>(finding: Finding<N>) -> Result<Probe, AskStop>
    ensures probe { IfOk result (IsProbeOf N.network finding) }
    ensures long { IfOk result (λ _. IsFalse finding.short) }
    ensures whole { IfOk result (λ _. IsFalse finding.stopped) }
    ensures err { IfErr result (IsGivenUp (IsTrue finding.stopped)) }
{
    if let Some(end) = end_of(&finding) {
        // Dropped here once, not at each way out.
        drop(finding.into_found());
        return Err(end);
    }
    let open = is_left(finding.rest());
    match finding.into_found() {
        Some(starts) => Ok(Probe::Yes(starts)),
        None if open => Ok(Probe::Open),
        None => Ok(Probe::No),
    }
}

/// Whether windows are left of a piece.
fn is_left(rest: &Rest) -> bool
    ensures { IsLeft rest.now result }
{
    match rest {
        Rest::Whole => true,
        Rest::Windows(windows) => !windows.is_empty(),
    }
}
