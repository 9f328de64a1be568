//! The derivation of a clause.

ghost use Rattle.std.specs.Prelude.{◌≡◌, ◌↔◌, IsTrue, IfOk, IfErr, IfSome, MatchOption, true, false, [], ◌≢◌, slice_index};
ghost use Rattle.racp_clauses.specs.Solutions.{HasPlaces, cost_place};
ghost use Rattle.racp_clauses.specs.Inferences.{FollowsIn, with_inference, with_literal, negation};
ghost use Rattle.racp_clauses.specs.Roots.{IsOpen};
ghost use Rattle.racp_clauses.specs.Uses.{IsLeastCost};

use crate::clause::Clause;
use crate::domain::Domain;
use crate::inference::Inference;
use crate::literal::{Literal, negated};
use crate::named::OfProblem;
use racp_model::Network;
use std::alloc::{AllocError, Global};
use std::marker::{Model, PhantomData};

/// The derivation of a clause: bounds that start at the root, met with the negation of each literal of the clause, and
/// narrowed by rules. Once nothing is left, the clause holds. Contracts see what is derived.
#[derive(Drop)]
pub struct Derivation<N: OfProblem> {
    bounds: Domain,
    empty: bool,
    clause: Vec<Literal>,
    of: PhantomData<N>,
}

impl<N: OfProblem> Model for Derivation<N> {
    ghost use Rattle.racp_clauses.specs.Clauses.{Derived, IsDerived};

    ghost Value = { Derived };

    ghost view = { λ d. record { bounds = d.bounds; empty = d.empty; clause = d.clause.items } };

    ghost invariant = { λ d. IsDerived N.problem (record { bounds = d.bounds; empty = d.empty; clause = d.clause.items }) };
}

impl<N: OfProblem> Derivation<N> {
    /// The derivation of the clause without literals.
    ///
    /// # Errors
    ///
    /// Memory was refused.
    pub fn new(alloc: Global, root: &Domain) -> Result<Self, AllocError>
        requires root { root.now ≡ N.problem.root }
        requires places { HasPlaces N.problem.network root.now }
        ensures { IfOk result (λ d. d ≡ record { bounds = root.now; empty = false; clause = [] }) }
    {
        let bounds = root.copy(alloc)?;
        Ok(Derivation {
            bounds,
            empty: false,
            clause: Vec::new(alloc),
            of: PhantomData,
        })
    }

    /// Begins anew where the derivation of the clause without literals stands, and says true; says false, and does
    /// nothing, if the other one is of a clause with literals. What follows without a clause is found there once, and
    /// each derivation begins with it. Takes no memory.
    pub fn begin(&mut self, ground: &Derivation<N>) -> bool
        ensures ground { IsTrue result ↔ (ground.now.clause ≡ []) }
        ensures begun { result ≡ true → self.new ≡ ground.now }
        ensures same { result ≡ false → self.new ≡ self.old }
    {
        if !ground.clause.is_empty() {
            return false;
        }
        self.bounds.take_over(&ground.bounds);
        self.empty = ground.empty;
        self.clause.clear();
        true
    }

    /// Adds a literal to the clause, and meets the bounds with its negation.
    ///
    /// # Errors
    ///
    /// Memory was refused. The derivation stays as it was.
    pub fn suppose(&mut self, literal: Literal) -> Result<(), AllocError>
        ensures supposed { IfOk result (λ _. self.new ≡ with_inference (with_literal self.old literal) (negation literal)) }
        ensures refusal { IfErr result (λ _. self.new ≡ self.old) }
    {
        self.clause.push(literal)?;
        self.apply(negated(literal));
        Ok(())
    }

    /// Whether nothing is left.
    pub fn is_empty(&self) -> bool
        ensures { result ≡ self.now.empty }
    {
        self.empty
    }

    /// The bounds as they are now.
    pub fn bounds(&self) -> &Domain
        ensures bounds { result.now ≡ self.now.bounds }
        ensures places { HasPlaces N.problem.network self.now.bounds }
    {
        &self.bounds
    }

    /// The lower bound of the cost, if the clause has no literals: no capacities that are enough cost less, if the root
    /// bounds leave nothing out.
    pub fn least_cost(&self, net: &Network) -> Option<u64>
        requires { net.now ≡ N.problem.network }
        ensures least { IfSome result (λ least. IsOpen N.problem → IsLeastCost N.problem least) }
        ensures told { MatchOption result (self.now.clause ≢ []) (λ least. least ≡ slice_index self.now.bounds.lower (cost_place net.now)) }
    {
        if !self.clause.is_empty() {
            return None;
        }
        let place = net.job_count() + net.resource_count();
        Some(self.bounds.lower_at(place))
    }

    /// Goes on by an inference that follows.
    pub(crate) fn apply(&mut self, inference: Inference)
        requires { FollowsIn N.problem self.old inference }
        ensures { self.new ≡ with_inference self.old inference }
    {
        match inference {
            Inference::Nothing => {}
            Inference::Narrow(literal) => {
                if !self.bounds.meet(literal) {
                    self.empty = true;
                }
            }
            Inference::Close => self.empty = true,
        }
    }

    /// The clause, if nothing is left. The derivation stays as it is, so that it can begin anew.
    ///
    /// # Errors
    ///
    /// Memory was refused.
    pub fn finish(&self, alloc: Global) -> Result<Option<Clause<N>>, AllocError>
        ensures { IfOk result (λ found. MatchOption found (self.now.empty ≡ false) (λ clause. (self.now.empty ≡ true) × (clause ≡ self.now.clause))) }
    {
        if !self.empty {
            return Ok(None);
        }
        let literals = Vec::from_slice(alloc, &self.clause)?;
        Ok(Some(Clause {
            literals,
            of: PhantomData,
        }))
    }
}
