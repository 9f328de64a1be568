//! A search that learns, question by question.

ghost use Rattle.std.specs.Prelude.{◌≡◌, IfOk, IfSome, IsTrue, length};
ghost use Rattle.racp_model.specs.Terms.{AreTermsOf};
ghost use Rattle.racp_clauses.specs.Solutions.{HasPlaces};
ghost use Rattle.racp_learning.specs.Answers.{IsOpenIfSpent, IsTrueOf, IsUnspent, IsUnstopped};

use crate::bound::Bound;
use crate::engine::{Engine, Halt};
use crate::found::answers;
use crate::problem::Problem;
use crate::recorder::Recorder;
use crate::settling::settle;
use crate::sides::{implied_of, sides_of};
use crate::told::{Reason, Tally, Told};
use racp_clauses::{Clause, Derivation, Domain, OfProblem};
use racp_model::{Capacities, Network, Starts, Stop, peaks};
use racp_prices::Order;
use std::alloc::{AllocError, Global};

/// The stop is asked once in so many conflicts.
const ASKED: u64 = 16;

/// A search over the problem that `N` names. It learns clauses from question to question.
#[derive(Drop)]
pub struct Search<N: OfProblem> {
    pub(crate) engine: Engine,
    /// What holds without a clause, and the derivation of the clause that is learned.
    pub(crate) ground: Derivation<N>,
    pub(crate) work: Derivation<N>,
    /// The clauses by number.
    pub(crate) clauses: Vec<Option<Clause<N>>>,
    /// So many entries of the trail are in the ground.
    pub(crate) grounded: usize,
    pub(crate) tally: Tally,
    /// Whether short clauses are kept for others, and those that wait to be taken.
    pub(crate) shares: bool,
    pub(crate) short: Vec<Clause<N>>,
    /// Keeps what clauses are derived from, if that is asked for.
    pub(crate) recorder: Recorder,
}

impl<N: OfProblem> Search<N> {
    /// A search over an order with these root bounds. By the seed it goes other ways, and with the same one always the same.
    /// The clauses take at most so many bytes, about: where they take more, some are forgotten. If few can be learned before
    /// that, they may take more.
    ///
    /// # Errors
    ///
    /// Memory was refused.
    pub fn new(
        alloc: Global,
        net: &Network,
        order: &Order,
        root: &Domain,
        seed: u64,
        most_bytes: u64,
    ) -> Result<Self, AllocError>
        requires named { net.now ≡ N.problem.network }
        requires terms { order.now ≡ N.problem.terms }
        requires fit { AreTermsOf net.now order.now }
        requires root { root.now ≡ N.problem.root }
        requires places { HasPlaces N.problem.network root.now }
    {
        let mut ground = Derivation::new(alloc, root)?;
        let work = Derivation::new(alloc, root)?;
        settle(alloc, net, order, root, &mut ground)?;
        let row = sides_of(alloc, net, ground.bounds())?;
        let problem = Problem::new(alloc, net, order, row)?;
        Ok(Search {
            engine: Engine::new(alloc, problem, seed, most_bytes)?,
            ground,
            work,
            clauses: Vec::new(alloc),
            grounded: 0,
            tally: Tally::new(),
            shares: false,
            short: Vec::new(alloc),
            recorder: Recorder::off(),
        })
    }

    /// What was done so far.
    pub fn tally(&self) -> Tally {
        let mut tally = self.tally;
        tally.decisions = self.engine.decisions();
        tally
    }

    /// Asks whether some schedule lies within bounds, and gives up after so many conflicts, or where it has lost 16 clauses.
    /// The stop is asked from time to time. Where the cost has a lower bound above that of the root, it may find nothing to
    /// try, and counts that as a lost clause.
    ///
    /// # Errors
    ///
    /// Memory was refused.
    pub fn ask<S: Stop>(
        &mut self,
        net: &Network,
        order: &Order,
        bounds: &Domain,
        conflicts: u64,
        stop: &S,
    ) -> Result<Told<Clause<N>>, AllocError>
        requires named { net.now ≡ N.problem.network }
        requires terms { order.now ≡ N.problem.terms }
        requires fit { AreTermsOf net.now order.now }
        requires places { HasPlaces net.now bounds.now }
        ensures is_true { IfOk result (IsTrueOf N.problem bounds.now) }
        ensures quiet { IsTrue (S.is_quiet stop.now) → IfOk result IsUnstopped }
        ensures spent { IfOk result (IsOpenIfSpent self.old.tally conflicts self.new.tally) }
    {
        if self.ground.is_empty() {
            self.work.begin(&self.ground);
            if let Some(told) = self.refuted(bounds)? {
                return Ok(told);
            }
        }
        let assumed = self.assumed(net, bounds)?;
        self.engine.assume(assumed);
        let before = self.tally;
        'halts: while !self.tally.is_spent(&before, conflicts) {
            let halts = self.tally.halts.saturating_add(1);
            let end = self.go_on(net, order, bounds, stop)?;
            self.tally.halts = halts;
            if let Some(told) = end {
                return Ok(told);
            }
        }
        Ok(Told::Open(Reason::Budget))
    }

    /// Goes on until the search halts, and tells the end of the question, if that is it.
    fn go_on<S: Stop>(
        &mut self,
        net: &Network,
        order: &Order,
        bounds: &Domain,
        stop: &S,
    ) -> Result<Option<Told<Clause<N>>>, AllocError>
        requires named { net.now ≡ N.problem.network }
        requires terms { order.now ≡ N.problem.terms }
        requires fit { AreTermsOf net.now order.now }
        requires places { HasPlaces net.now bounds.now }
        ensures is_true { IfOk result (λ end. IfSome end (IsTrueOf N.problem bounds.now)) }
        ensures quiet { IsTrue (S.is_quiet stop.now) → IfOk result (λ end. IfSome end IsUnstopped) }
        ensures unspent { IfOk result (λ end. IfSome end IsUnspent) }
    {
        match self.engine.advance() {
            Halt::Found => {
                let told = self.found(net, order, bounds)?;
                if told.is_some() {
                    return Ok(told);
                }
                self.lose();
            }
            Halt::Stuck => self.lose(),
            Halt::Short => return Err(AllocError),
            Halt::Restart => {
                self.begin_anew(net, order)?;
                if self.engine.clauses.are_cramped() || self.recorder.is_full() {
                    return Ok(Some(Told::Open(Reason::Memory)));
                }
            }
            Halt::Pause => {}
            Halt::Conflict => {
                let told = self.learn(net, order, bounds)?;
                if told.is_some() || self.tally.conflicts % ASKED != 0 {
                    return Ok(told);
                }
            }
        }
        if stop.asked() {
            return Ok(Some(Told::Open(Reason::Stopped)));
        }
        Ok(None)
    }

    /// What a question says beyond the ground. What follows from that along precedence is left out, so that clauses name it
    /// less often.
    fn assumed(&self, net: &Network, bounds: &Domain) -> Result<Vec<Bound>, AllocError> {
        let alloc = *self.clauses.allocator();
        let implied = implied_of(alloc, net, bounds)?;
        let mut assumed = Vec::new(alloc);
        for x in 0..net.job_count() + net.resource_count() + 1 {
            let lower = i64::try_from(bounds.lower_at(x)).unwrap_or(0);
            let upper = i64::try_from(bounds.upper_at(x)).unwrap_or(i64::MAX);
            if self.engine.problem.root_lower(x) < lower {
                assumed.push(Bound::at_least(x, lower))?;
            }
            let is_implied = implied.get(x).copied().unwrap_or(false);
            if upper < self.engine.problem.root_upper(x) && !is_implied {
                assumed.push(Bound::at_most(x, upper))?;
            }
        }
        Ok(assumed)
    }

    /// Tells the schedule that was found, if it answers.
    fn found(
        &self,
        net: &Network,
        order: &Order,
        bounds: &Domain,
    ) -> Result<Option<Told<Clause<N>>>, AllocError>
        requires named { net.now ≡ N.problem.network }
        requires terms { order.now ≡ N.problem.terms }
        requires fit { AreTermsOf net.now order.now }
        requires places { HasPlaces net.now bounds.now }
        ensures is_true { IfOk result (λ end. IfSome end (IsTrueOf N.problem bounds.now)) }
        ensures unstopped { IfOk result (λ end. IfSome end IsUnstopped) }
        ensures unspent { IfOk result (λ end. IfSome end IsUnspent) }
    {
        let alloc = *self.clauses.allocator();
        let mut row = Vec::with_capacity(alloc, net.job_count())?;
        for i in 0..net.job_count() {
            row.push(self.engine.start(i))?;
        }
        if row.len() != net.job_count() {
            return Ok(None);
        }
        let starts = Starts::new(row);
        let capacities = units_of(alloc, net, bounds, &starts)?;
        if answers(net, order, bounds, &starts, &capacities) {
            return Ok(Some(Told::Found(starts, capacities)));
        }
        Ok(None)
    }
}

/// The peaks of starts, or the least units where these are more.
fn units_of(
    alloc: Global,
    net: &Network,
    bounds: &Domain,
    starts: &Starts,
) -> Result<Capacities, AllocError>
    requires { length starts.now ≡ length net.now.jobs }
{
    let peaks = peaks(alloc, net, starts)?.into_vec();
    let mut units = Vec::with_capacity(alloc, peaks.len())?;
    for k in 0..peaks.len() {
        let least = bounds.lower_at(net.job_count().wrapping_add(k));
        units.push(peaks[k].max(u32::try_from(least).unwrap_or(0)))?;
    }
    Ok(Capacities::new(units))
}
