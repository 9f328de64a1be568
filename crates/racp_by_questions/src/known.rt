//! What is known of capacities, and what asking tells.

ghost use Rattle.std.specs.Prelude.{◌≡◌, ◌↔◌, ℕ, ◌<◌, ◌≤◌, List, [], IsTrue, IfOk, IfErr, OnOk, Contains, length, slice_index};
ghost use Rattle.racp_model.specs.Formed.{HasBounds};
ghost use Rattle.racp_model.specs.Terms.{AreTermsOf, IsBefore, cost};
ghost use Rattle.racp_questions.specs.FirstYes.{IsProbed, IsProbeStop};
ghost use Rattle.racp_candidates.specs.Questions.{question_of};
ghost use Rattle.racp_by_questions.specs.Enough.{IsAtMost};
ghost use Rattle.racp_by_questions.specs.Searched.{AreKeptWith, IsKnown, IsBetterKnown, IsLearnt, IsRefutedBy, IsSubject, IsTold, SaysRefuted};

use crate::subject::Subject;
use racp_candidates::AnySeries;
use racp_model::{Capacities, Network, Question, Window, peaks};
use racp_prices::{Order, cost_of};
use racp_questions::{AskStop, Asker, Probe};
use std::alloc::{AllocError, Global};
use std::cmp::Ordering;

/// How many vectors with which nothing fits are kept at most: each question goes through all of them.
const MOST_REFUTED: usize = 128;

/// The best vector that is known to be enough, what it costs, and vectors with which nothing fits.
#[derive(Drop)]
pub(crate) struct Known {
    pub(crate) best: Capacities,
    pub(crate) cost: u64,
    pub(crate) refuted: Vec<Capacities>,
}

/// What asking for a vector tells.
#[derive(Drop)]
pub(crate) enum Told {
    /// It is enough, so now it does not stand before the best one.
    Enough,
    /// Nothing fits.
    Refuted,
    /// The search was given a bound on its nodes, and reached it.
    Open,
}

impl Told {
    /// Whether nothing fits.
    pub(crate) fn is_refuted(&self) -> bool
        ensures { SaysRefuted self.now result }
    {
        matches!(self, Told::Refuted)
    }
}

impl Known {
    /// That these roofs are enough.
    pub(crate) fn of(
        alloc: Global,
        net: &Network,
        order: &Order,
        roofs: &Capacities,
    ) -> Result<Self, AllocError>
        requires terms { AreTermsOf net.now order.now }
        requires roofs { length roofs.now ≡ net.now.resources }
        ensures best { IfOk result (λ known. known.best ≡ roofs.now) }
        ensures cost { IfOk result (λ known. known.cost ≡ cost order.now roofs.now) }
        ensures refuted { IfOk result (λ known. known.refuted.items ≡ []) }
    {
        Ok(Known {
            best: roofs.copy()?,
            cost: cost_of(net, order, roofs.as_slice()),
            refuted: Vec::new(alloc),
        })
    }

    /// Whether a vector stands before the best one.
    pub(crate) fn comes_after(&self, net: &Network, order: &Order, units: &[u32]) -> bool
        requires terms { AreTermsOf net.now order.now }
        requires units { length units.now ≡ net.now.resources }
        requires priced { self.now.cost ≡ cost order.now self.now.best }
        ensures { IsTrue result ↔ IsBefore order.now units.now self.now.best }
    {
        let cost = cost_of(net, order, units);
        let by_units = units.cmp(self.best.as_slice());
        cost.cmp(&self.cost).then(by_units) == Ordering::Less
    }

    /// Whether the vector is at most a refuted one.
    pub(crate) fn refutes(&self, units: &Capacities) -> bool
        requires { (other : List ℕ) → Contains self.now.refuted.items other → length other ≡ length units.now }
        ensures { IsTrue result → IsRefutedBy self.now.refuted.items units.now }
    {
        let units = units.as_slice();
        for other in &self.refuted {
            if is_at_most(units, other.as_slice()) {
                return true;
            }
        }
        false
    }

    /// Whether a vector is known to be enough: the best one is at most it.
    pub(crate) fn is_enough(&self, units: &Capacities) -> bool
        requires { length units.now ≡ length self.now.best }
        ensures { IsTrue result ↔ ((k : ℕ) → k < length self.now.best →
            slice_index self.now.best k ≤ slice_index units.now k) }
    {
        is_at_most(self.best.as_slice(), units.as_slice())
    }

    /// Keeps a vector with which nothing fits. If as many are kept as there may be, these are forgotten.
    fn keep(&mut self, units: Capacities) -> Result<(), AllocError>
        ensures best { self.new.best ≡ self.old.best }
        ensures cost { self.new.cost ≡ self.old.cost }
        ensures refuted { OnOk result (AreKeptWith self.old.refuted.items units self.new.refuted.items) }
    {
        if self.refuted.len() >= MOST_REFUTED {
            self.refuted.clear();
        }
        self.refuted.push(units)?;
        Ok(())
    }

    /// Takes a vector that is enough for the best one, if it stands before that.
    fn learn(&mut self, net: &Network, order: &Order, units: Capacities)
        requires terms { AreTermsOf net.now order.now }
        requires units { length units ≡ net.now.resources }
        requires priced { self.old.cost ≡ cost order.now self.old.best }
        ensures { IsLearnt order.now self.old units self.new }
    {
        if self.comes_after(net, order, units.as_slice()) {
            self.cost = cost_of(net, order, units.as_slice());
            self.best = units;
        }
    }

    /// Asks for a vector within the roofs, and learns from what is told. A vector at most a refuted one is not asked
    /// for, and neither is one that the best one is at most.
    pub(crate) fn ask<A: Asker<AnySeries>>(
        &mut self,
        subject: &Subject,
        units: &Capacities,
        most: Option<u64>,
        asker: &mut A,
    ) -> Result<Told, AskStop>
        requires named { A.about asker.old subject.now.net.now }
        requires subject { IsSubject subject.now }
        requires units { length units.now ≡ subject.now.net.now.resources }
        requires within { IsAtMost subject.now.net.now units.now subject.now.roofs.now }
        requires known { IsKnown subject.now self.old }
        ensures network { A.about asker.new subject.now.net.now }
        ensures better { IfOk result (λ _. IsBetterKnown subject.now self.old self.new) }
        ensures told { IfOk result (IsTold subject.now units.now most self.new.best) }
        ensures answered { A.answered asker.new ≡ A.answered asker.old }
        ensures stop { IfErr result (IsProbeStop (A.told asker.new) (A.may_stop asker.new)
            (A.may_want_thread asker.new)) }
    {
        if self.refutes(units) {
            return Ok(Told::Refuted);
        }
        if self.is_enough(units) {
            return Ok(Told::Enough);
        }
        match probe(subject.net, subject.root, units, most, asker)? {
            Probe::Open => Ok(Told::Open),
            Probe::No => {
                self.keep(units.copy()?)?;
                Ok(Told::Refuted)
            }
            Probe::Yes(starts) => {
                self.learn(
                    subject.net,
                    subject.order,
                    peaks(subject.alloc, subject.net, &starts)?,
                );
                Ok(Told::Enough)
            }
        }
    }
}

/// Whether one vector is at most another, resource by resource.
fn is_at_most(low: &[u32], high: &[u32]) -> bool
    requires { length high.now ≡ length low.now }
    ensures { IsTrue result ↔ ((k : ℕ) → k < length low.now → slice_index low.now k ≤ slice_index high.now k) }
{
    (0..low.len()).all(|k| low[k] <= high[k])
}

/// What the asker tells of a vector with the root window.
fn probe<A: Asker<AnySeries>>(
    net: &Network,
    root: &Window,
    units: &Capacities,
    most: Option<u64>,
    asker: &mut A,
) -> Result<Probe, AskStop>
    requires named { A.about asker.old net.now }
    requires root { HasBounds net.now root.now }
    requires units { length units.now ≡ net.now.resources }
    ensures network { A.about asker.new net.now }
    ensures probed { IfOk result (IsProbed net.now (question_of units.now root.now) most) }
    ensures answered { A.answered asker.new ≡ A.answered asker.old }
    ensures stop { IfErr result (IsProbeStop (A.told asker.new) (A.may_stop asker.new) (A.may_want_thread asker.new)) }
{
    let question = Question {
        capacities: units.copy()?,
        window: root.copy()?,
    };
    asker.probe(net, question, most)
}
