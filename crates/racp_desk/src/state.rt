//! What lies under the lock: the collector, the log of what happened to it, and how many entries all shares count.

ghost use Rattle.std.specs.Prelude.{◌≡◌, ◌+◌, ◌<◌, ◌≤◌, ◌++◌, [], None, length, IfOk, IfErr};
ghost use Rattle.racp_model.specs.Formed.{AreFormed};
ghost use Rattle.racp_core.specs.Machine.{fresh};
ghost use Rattle.racp_core.specs.Replies.{IsOutcome, IsFormedReply, reached_by};
ghost use Rattle.racp_core.specs.Runs.{Step, Ask, Take, Hand, GiveBack, Halt};
ghost use Rattle.racp_core.specs.Steps.{listed};
ghost use Rattle.racp_desk.specs.Log.{tally, MayHalt};
ghost use Rattle.racp_desk.specs.Desk.{
  IsIn,
  asked_entries,
  taken_entries,
  handed_entries,
  given_back_entries,
  halted_entries,
};
ghost use Rattle.racp_desk.specs.Closing.{IsClosed};

use crate::book::Book;
use crate::closed::Closed;
use crate::log::Cause;
use crate::names::RunNames;
use crate::noted::{is_found, windows_left};
use racp_core::{Asked, Core, Merged, Reply};
use racp_model::{Network, OfNetwork};
use racp_questions::Series;
use racp_search::{Finding, Piece};
use std::alloc::{AllocError, Global};
use std::marker::{Model, PhantomData};
use std::sync::ledger;
use std::sync::ledger::Share;

/// A collector of the questions that `M` names, about the network that `N` names, with the log of what happened to it
/// and the total of a ledger: how many entries all shares count. Contracts see a `Desk`.
#[derive(Drop)]
pub struct State<N: OfNetwork, M: RunNames, S: Series> {
    pub(crate) book: Book<M>,
    pub(crate) core: Core<N, S>,
    total: ledger::Book<M>,
}

impl<N: OfNetwork, M: RunNames, S: Series> Model for State<N, M, S> {
    ghost use Rattle.std.specs.Prelude.{◌≡◌, length};
    ghost use Rattle.racp_desk.specs.Desk.{Desk, IsDesk};

    ghost Value = { Desk };

    ghost view = { λ s. record { core = s.core; log = s.book.entries } };

    ghost invariant = { λ s.
        (length s.book.entries ≡ s.total.total) × IsDesk M.series s.core s.book.entries };
}

impl<N: OfNetwork, M: RunNames, S: Series> State<N, M, S> {
    /// A desk of which no question was asked.
    ///
    /// # Errors
    ///
    /// Memory was refused.
    pub fn new(
        alloc: Global,
        net: &Network,
        series: S,
        total: ledger::Book<M>,
    ) -> Result<Self, AllocError>
        requires named { net.now ≡ N.network }
        requires formed { AreFormed net.now (S.questions series) }
        requires series { S.questions series ≡ M.series }
        requires turns { M.turns ≤ 1000000000000 }
        requires total { total.total ≡ 0 }
        ensures { IfOk result (λ state. state ≡ record { core = fresh (S.questions series); log = [] }) }
    {
        let book = Book::new(alloc)?;
        let core = Core::new(alloc, net, series);
        Ok(State { book, core, total })
    }

    /// Asks the next question.
    ///
    /// # Errors
    ///
    /// Memory was refused. Nothing has changed.
    pub fn ask(&mut self, mine: &mut Share<M>) -> Result<Asked, AllocError>
        requires { 0 < mine.old.parts }
        ensures step { IfOk result (λ asked. Step self.old.core (Ask asked) self.new.core) }
        ensures log { IfOk result (λ asked. self.new.log ≡ self.old.log ++ asked_entries asked) }
        ensures taken { self.new.core.taken ≡ self.old.core.taken }
        ensures err { IfErr result (λ _. self.new ≡ self.old) }
        ensures grown { mine.new.amount + length self.old.log ≡ mine.old.amount + length self.new.log }
        ensures parts { mine.new.parts ≡ mine.old.parts }
    {
        self.book.make_room(1)?;
        let asked = self.core.ask()?;
        match &asked {
            Asked::Question(index) => {
                self.book.note_asked(*index);
                self.total.add(mine, 1);
            }
            Asked::End => {}
            Asked::Enough => {}
            Asked::Halted => {}
        }
        Ok(asked)
    }

    /// Takes a piece out, for the worker at a seat. Makes room for what it needs to come back.
    ///
    /// # Errors
    ///
    /// Memory was refused. Nothing has changed.
    pub fn take(&mut self, seat: usize, mine: &mut Share<M>) -> Result<Reply<Piece<N>>, AllocError>
        requires parts { 0 < mine.old.parts }
        requires turns { self.old.core.taken < M.turns }
        ensures step { IfOk result (λ reply. Step self.old.core (Take seat reply) self.new.core) }
        ensures formed { IfOk result (IsFormedReply N.network) }
        ensures log { IfOk result (λ reply. self.new.log ≡ self.old.log ++ taken_entries seat reply) }
        ensures err { IfErr result (λ _. self.new ≡ self.old) }
        ensures grown { mine.new.amount + length self.old.log ≡ mine.old.amount + length self.new.log }
        ensures parts { mine.new.parts ≡ mine.old.parts }
    {
        self.book.make_room(2)?;
        let reply = self.core.take(seat)?;
        match &reply {
            Reply::Piece(piece) => {
                self.book
                    .note_taken(seat, piece.number(), piece.index() as usize);
                self.total.add(mine, 1);
            }
            Reply::Nothing => {}
            Reply::Done => {}
            Reply::Halted => {}
        }
        Ok(reply)
    }

    /// Takes in a finding.
    ///
    /// # Errors
    ///
    /// Memory was refused, for windows that are left of the piece. Nothing has changed, and the finding comes back.
    pub fn hand(
        &mut self,
        finding: Finding<N>,
        mine: &mut Share<M>,
    ) -> Result<Merged, (Finding<N>, AllocError)>
        requires parts { 0 < mine.old.parts }
        requires nodes { finding.nodes ≤ 1000000 }
        ensures step { IfOk result (λ merged. Step self.old.core (Hand finding merged) self.new.core) }
        ensures log { IfOk result (λ merged. self.new.log ≡ self.old.log ++ handed_entries finding merged) }
        ensures err { IfErr result (λ e. (self.new ≡ self.old) × (e.0 ≡ finding) × (finding.found ≡ None) ×
            (0 < listed finding.rest)) }
        ensures came_in { IfOk result (λ _. IsIn self.new.core finding.piece) }
        ensures grown { mine.new.amount + length self.old.log ≡ mine.old.amount + length self.new.log }
        ensures parts { mine.new.parts ≡ mine.old.parts }
    {
        let seat = finding.piece().seat();
        let number = finding.piece().number();
        let rest = windows_left(finding.rest());
        let found = is_found(&finding);
        let nodes = finding.nodes();
        let merged = self.core.hand(finding)?;
        match &merged {
            Merged::Taken => {
                self.book.note_handed(seat, number, rest, found, nodes);
                self.total.add(mine, 1);
            }
            Merged::Stale => {}
        }
        Ok(merged)
    }

    /// Takes back a piece that was not searched. Takes no memory.
    pub fn give_back(&mut self, piece: Piece<N>, mine: &mut Share<M>) -> Merged
        requires { 0 < mine.old.parts }
        ensures step { Step self.old.core (GiveBack piece result) self.new.core }
        ensures log { self.new.log ≡ self.old.log ++ given_back_entries piece result }
        ensures came_in { IsIn self.new.core piece }
        ensures grown { mine.new.amount + length self.old.log ≡ mine.old.amount + length self.new.log }
        ensures parts { mine.new.parts ≡ mine.old.parts }
    {
        let seat = piece.seat();
        let number = piece.number();
        let merged = self.core.give_back(piece);
        match &merged {
            Merged::Taken => {
                self.book.note_given_back(seat, number);
                self.total.add(mine, 1);
            }
            Merged::Stale => {}
        }
        merged
    }

    /// Halts the desk, for this cause where it was not halted before. Takes no memory.
    pub fn halt(&mut self, cause: Cause, mine: &mut Share<M>)
        requires parts { 0 < mine.old.parts }
        requires cause { MayHalt M.turns M.quiet (tally self.old.log) cause }
        ensures step { Step self.old.core Halt self.new.core }
        ensures log { self.new.log ≡ self.old.log ++ halted_entries self.old.core.halted cause }
        ensures grown { mine.new.amount + length self.old.log ≡ mine.old.amount + length self.new.log }
        ensures parts { mine.new.parts ≡ mine.old.parts }
    {
        self.core.halt();
        if self.book.halt().is_none() {
            self.book.note_halted(cause);
            self.total.add(mine, 1);
        }
    }

    /// A share of all parts counts as many entries as the log has. Changes nothing.
    pub fn audit(&mut self, all: &mut Share<M>)
        requires { all.old.parts ≡ M.parts }
        ensures same { self.new ≡ self.old }
        ensures amount { all.new.amount ≡ length self.new.log }
        ensures parts { all.new.parts ≡ all.old.parts }
    {
        self.total.audit(all);
    }

    /// The end of a run. The share counts as many entries as the log has: so it does where all shares were joined into
    /// it. Takes no memory.
    pub fn close(self, all: Share<M>) -> Closed
        requires { all.amount ≡ length self.log }
        ensures closed { IsClosed N.network M.series M.turns M.quiet result }
        ensures outcome { IsOutcome self.core result.outcome }
        ensures reached { result.reached ≡ reached_by self.core result.outcome }
        ensures log { result.log.items ≡ self.log }
    {
        let State { book, core, total } = self;
        drop((total, all));
        let (log, pieces, nodes) = book.into_parts();
        let (outcome, reached) = core.into_answer();
        Closed {
            outcome,
            reached,
            log,
            pieces,
            nodes,
            made: PhantomData,
        }
    }
}
