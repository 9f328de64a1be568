//! What workers tell of one question.

ghost use Rattle.std.specs.Prelude.{◌≡◌, ◌↔◌, ◌⊎◌, ⊤, false, ◌≤◌, ◌∷◌, None, Some, Contains, IfOk, IfErr, IsTrue, option_map};
ghost use Rattle.std.specs.Option.{ForSome};
ghost use Rattle.racp_model.specs.Formed.{AreFormed, IsFormed};
ghost use Rattle.racp_questions.specs.FirstYes.{IsProbed, IsProbeStop};
ghost use Rattle.racp_questions.specs.declared.asker.Probe.TheVariants.{Open};
ghost use Rattle.racp_candidates.specs.AnySeries.{any_questions};
ghost use Rattle.racp_desk.specs.declared.log.Cause.TheVariants.{Stop};
ghost use Rattle.racp_desk.specs.declared.log.Entry.TheVariants.{Halted};
ghost use Rattle.racp_by_questions.specs.Crowds.{IsOver, RunsDesks, behind, probe_by};

use crate::crowd::{Crowd, OfTurns};
use racp_candidates::{AnySeries, Listed, One};
use racp_core::Outcome;
use racp_desk::{Cause, Closed, DeskFault, Entry, RunLimits};
use racp_found::Observer;
use racp_model::{OfNetwork, Question, Stop};
use racp_questions::{AskStop, Probe};
use std::alloc::AllocError;
use std::collections::VecDeque;

/// How many nodes of a question one worker searches before the others are started: many questions take no more.
const GLIMPSE: u64 = 16;

/// How many nodes of a piece a worker searches in one turn at most.
const QUANTUM: u64 = 1000;

impl<
    'a,
    N: OfNetwork,
    M: OfTurns,
    P: Stop,
    O: Observer + Drop,
    F: Fn(AnySeries, RunLimits) -> Result<Closed, DeskFault> + Drop,
> Crowd<'a, N, M, P, O, F> {
    /// What a run of so many workers about a question, whose nodes may have a bound, and about those behind it tells of the
    /// first.
    pub(crate) fn probe_with(
        &mut self,
        question: Question,
        ahead: Option<VecDeque<Question>>,
        workers: usize,
        most: Option<u64>,
    ) -> Result<Probe, AskStop>
        requires some_workers { 1 ≤ workers }
        requires workers { workers ≤ 64 }
        requires formed { IsFormed N.network question }
        requires ahead { ForSome ahead (λ list. AreFormed N.network list.items) }
        requires run { RunsDesks N.network M.quiet (F.pre self.old.run) (F.post self.old.run) }
        requires untold { self.old.told ≡ None }
        ensures run { self.new.run ≡ self.old.run }
        ensures answered { self.new.answered ≡ self.old.answered }
        ensures told { self.new.told ≡ None }
        ensures probed { IfOk result (IsProbed N.network question most) }
        ensures stop { IfErr result (IsProbeStop (self.new.told)
            ((self.new.left ≡ 0) ⊎ (M.quiet ≡ false)) ⊤) }
    {
        let quantum = quantum_for(most);
        let turns = turns_for(quantum, most, count_with(&ahead), self.left);
        let limits = RunLimits {
            workers,
            quantum,
            turns,
        };
        let series = series_of(question, ahead)?;
        let closed = self.closed(series, limits)?;
        let Closed { outcome, log, .. } = closed;
        let is_over = self.is_over(most, &log);
        probe_of(outcome, is_over)
    }

    /// What a run of one worker about a question tells of it, with so many nodes.
    pub(crate) fn glimpse_at(&mut self, question: &Question, nodes: u64) -> Result<Probe, AskStop>
        requires formed { IsFormed N.network question.now }
        requires run { RunsDesks N.network M.quiet (F.pre self.old.run) (F.post self.old.run) }
        requires untold { self.old.told ≡ None }
        ensures run { self.new.run ≡ self.old.run }
        ensures answered { self.new.answered ≡ self.old.answered }
        ensures told { self.new.told ≡ None }
        ensures probed { IfOk result (IsProbed N.network question.now (Some nodes)) }
        ensures stop { IfErr result (IsProbeStop (self.new.told)
            ((self.new.left ≡ 0) ⊎ (M.quiet ≡ false)) ⊤) }
    {
        let copy = question.copy()?;
        self.probe_with(copy, None, 1, Some(nodes))
    }

    /// The questions that come next, where the nodes of a question have a bound: without one, those behind it could take any
    /// time.
    pub(crate) fn take_ahead(&mut self, most: Option<u64>) -> Option<VecDeque<Question>>
        ensures formed { ForSome result (λ list. AreFormed N.network list.items) }
        ensures run { self.new.run ≡ self.old.run }
        ensures left { self.new.left ≡ self.old.left }
        ensures answered { self.new.answered ≡ self.old.answered }
        ensures told { self.new.told ≡ self.old.told }
    {
        let ahead = self.ahead.take();
        match most {
            Some(_) => ahead,
            None => None,
        }
    }

    /// Whether no further run is to come after one that left its question open: the run had all turns, no turn is left,
    /// or it was stopped.
    fn is_over(&self, most: Option<u64>, log: &[Entry]) -> bool
        ensures { IsTrue result ↔ IsOver most self.now.left log.now }
    {
        most.is_none() || self.left == 0 || was_stopped(log)
    }
}

/// How many nodes of a piece a worker searches in a turn, where the nodes of the question may have a bound.
pub(crate) fn quantum_for(most: Option<u64>) -> u64
    ensures some { 1 ≤ result }
    ensures most { result ≤ 1000 }
{
    match most {
        Some(nodes) => nodes.clamp(1, QUANTUM),
        None => QUANTUM,
    }
}

/// How many turns of `quantum` nodes the search of so many questions may take whose nodes have this bound, of those that
/// are left.
fn turns_for(quantum: u64, most: Option<u64>, questions: u64, left: u64) -> u64
    requires { 1 ≤ quantum }
    ensures most { result ≤ left }
    ensures all { most ≡ None → result ≡ left }
{
    match most {
        Some(nodes) => nodes.div_ceil(quantum).saturating_mul(questions).min(left),
        None => left,
    }
}

/// How many nodes of a question, whose nodes may have a bound, one worker searches before the others are started.
pub(crate) fn glimpse_of(most: Option<u64>) -> u64 {
    match most {
        Some(nodes) => nodes.min(GLIMPSE),
        None => GLIMPSE,
    }
}

/// Whether nothing is known of a question.
pub(crate) fn is_open(probe: &Probe) -> bool
    ensures { IsTrue result ↔ probe.now ≡ Open }
{
    matches!(probe, Probe::Open)
}

/// Whether the desk was halted since a stop was asked for.
fn was_stopped(log: &[Entry]) -> bool
    ensures { IsTrue result ↔ Contains log.now (Halted Stop) }
{
    log.iter()
        .any(|entry| matches!(entry, Entry::Halted(Cause::Stop)))
}

/// How many questions there are with one before those that may be behind it.
fn count_with(ahead: &Option<VecDeque<Question>>) -> u64 {
    match ahead {
        Some(list) => (list.len() as u64).saturating_add(1),
        None => 1,
    }
}

/// The series of a question and of those that may be behind it.
fn series_of(question: Question, ahead: Option<VecDeque<Question>>) -> Result<AnySeries, AllocError>
    ensures { IfOk result (λ series. any_questions series ≡ question ∷ behind (option_map (λ list. list.items) ahead)) }
{
    match ahead {
        Some(mut list) => {
            list.push_front(question)?;
            Ok(AnySeries::Listed(Listed::of(list)))
        }
        None => Ok(AnySeries::One(One::of(question))),
    }
}

/// What the run about a question, and about those behind it, tells of it. Where the first yes or the first place that is
/// open is behind the question, that is a no.
fn probe_of(outcome: Outcome, is_over: bool) -> Result<Probe, AskStop>
    ensures { result ≡ probe_by outcome is_over }
{
    match outcome {
        Outcome::First { index, starts } => {
            if index > 0 {
                Ok(Probe::No)
            } else {
                Ok(Probe::Yes(starts))
            }
        }
        Outcome::NoYes => Ok(Probe::No),
        Outcome::Open { first_open } => {
            if first_open > 0 {
                Ok(Probe::No)
            } else if is_over {
                Err(AskStop::Stopped { reached: None })
            } else {
                Ok(Probe::Open)
            }
        }
    }
}
