//! What a search learns from its conflicts: clauses, each of which is derived.

ghost use Rattle.std.specs.Prelude.{◌≡◌, IfOk, IfSome};
ghost use Rattle.racp_model.specs.Terms.{AreTermsOf};
ghost use Rattle.racp_learning.specs.Answers.{IsTrueOf, IsUnspent, IsUnstopped};

use crate::search::Search;
use crate::steps::{apply, apply_entry, literal_of};
use crate::told::Told;
use racp_clauses::{Clause, Domain, OfProblem};
use racp_model::Network;
use racp_prices::Order;
use std::alloc::AllocError;

impl<N: OfProblem> Search<N> {
    /// Learns from a conflict, and tells the end of the question, if that is it.
    pub(crate) fn learn(
        &mut self,
        net: &Network,
        order: &Order,
        bounds: &Domain,
    ) -> Result<Option<Told<Clause<N>>>, AllocError>
        requires named { net.now ≡ N.problem.network }
        requires terms { order.now ≡ N.problem.terms }
        requires fit { AreTermsOf net.now order.now }
        ensures is_true { IfOk result (λ end. IfSome end (IsTrueOf N.problem bounds.now)) }
        ensures unstopped { IfOk result (λ end. IfSome end IsUnstopped) }
        ensures unspent { IfOk result (λ end. IfSome end IsUnspent) }
    {
        self.tally.conflicts = self.tally.conflicts.saturating_add(1);
        let is_last = self.engine.trail.level() <= 1;
        self.engine.analyse()?;
        self.derive(net, order)?;
        let clause = self.work.finish(*self.clauses.allocator())?;
        let Some(clause) = clause else {
            self.lose();
            return Ok(None);
        };
        if !is_last && !self.engine.analysis.asserts() {
            if !self.engine.back_to_conflict() {
                self.lose();
            }
            return Ok(None);
        }
        if self.shares {
            self.keep_short()?;
        }
        if clause.literals().is_empty() {
            self.ground.clause(&clause);
            self.recorder.conclude_empty();
        } else {
            let number = self.engine.learn()?;
            self.keep(number as usize, clause)?;
            self.recorder.conclude(number);
        }
        if !is_last {
            return Ok(None);
        }
        let told = self.refuted(bounds)?;
        if told.is_none() {
            self.lose();
        } else {
            self.recorder.tell();
        }
        Ok(told)
    }

    /// Counts a clause that was not confirmed or is of no use, and begins anew.
    pub(crate) fn lose(&mut self) {
        self.tally.lost = self.tally.lost.saturating_add(1);
        self.engine.back(0);
    }

    /// Tells the clause that was derived, if it is false within the bounds.
    pub(crate) fn refuted(&self, bounds: &Domain) -> Result<Option<Told<Clause<N>>>, AllocError>
        ensures is_true { IfOk result (λ end. IfSome end (IsTrueOf N.problem bounds.now)) }
        ensures unstopped { IfOk result (λ end. IfSome end IsUnstopped) }
        ensures unspent { IfOk result (λ end. IfSome end IsUnspent) }
    {
        let clause = self.work.finish(*self.clauses.allocator())?;
        match clause {
            Some(clause) if clause.refutes(bounds) => Ok(Some(Told::Refuted(clause))),
            _ => Ok(None),
        }
    }

    /// Keeps a clause by its number.
    pub(crate) fn keep(&mut self, number: usize, clause: Clause<N>) -> Result<(), AllocError> {
        for _i in self.clauses.len()..number.saturating_add(1) {
            self.clauses.push(None)?;
        }
        if let Some(place) = self.clauses.get_mut(number) {
            *place = Some(clause);
        }
        Ok(())
    }

    /// Derives the clause of the last analysis.
    fn derive(&mut self, net: &Network, order: &Order) -> Result<(), AllocError>
        requires named { net.now ≡ N.problem.network }
        requires terms { order.now ≡ N.problem.terms }
        requires fit { AreTermsOf net.now order.now }
    {
        self.settle_ground(net, order);
        self.work.begin(&self.ground);
        self.recorder.begin();
        for &bound in self.engine.analysis.learned().literals() {
            if let Some(literal) = literal_of(bound) {
                self.work.suppose(literal)?;
                self.recorder.suppose(literal);
                self.tally.literals = self.tally.literals.saturating_add(1);
            }
        }
        let hints = self.engine.analysis.hints();
        for i in 0..hints.len() {
            if self.work.is_empty() {
                break;
            }
            let hint = hints[hints.len() - 1 - i];
            apply(net, order, &self.clauses, &mut self.work, hint);
            self.recorder.take(net, hint);
            self.tally.hints = self.tally.hints.saturating_add(1);
        }
        Ok(())
    }

    /// Takes what follows without a decision into the ground.
    pub(crate) fn settle_ground(&mut self, net: &Network, order: &Order)
        requires named { net.now ≡ N.problem.network }
        requires terms { order.now ≡ N.problem.terms }
        requires fit { AreTermsOf net.now order.now }
    {
        let until = self.engine.trail.grounded();
        self.recorder.begin();
        for at in self.grounded..until {
            if let Some(entry) = self.engine.trail.entries().get(at).copied() {
                let (ground, recorder) = (&mut self.ground, &mut self.recorder);
                apply_entry(net, order, &self.clauses, ground, &entry, recorder);
            }
        }
        self.recorder.keep();
        self.grounded = self.grounded.max(until);
    }

    /// Begins anew, and forgets clauses where there are many.
    pub(crate) fn begin_anew(&mut self, net: &Network, order: &Order) -> Result<(), AllocError>
        requires named { net.now ≡ N.problem.network }
        requires terms { order.now ≡ N.problem.terms }
        requires fit { AreTermsOf net.now order.now }
    {
        self.tally.restarts = self.tally.restarts.saturating_add(1);
        if !self.engine.clauses.are_many() {
            return Ok(());
        }
        self.settle_ground(net, order);
        self.engine.clauses.note_forgotten();
        let alloc = *self.clauses.allocator();
        let before = self.engine.clauses.alive;
        self.engine.clauses.reduce(alloc, &self.engine.trail)?;
        let gone = before.saturating_sub(self.engine.clauses.alive) as u64;
        self.tally.forgotten = self.tally.forgotten.saturating_add(gone);
        for i in 0..self.clauses.len() {
            if self.engine.clauses.is_free(i) {
                if let Some(place) = self.clauses.get_mut(i) {
                    *place = None;
                }
            }
        }
        Ok(())
    }
}
