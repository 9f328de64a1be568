//! The clauses that hold so far.

ghost use Rattle.std.specs.Prelude.{◌≡◌, ◌++◌, ◌∷◌, ◌<◌, ◌≤◌, [], IfOk, IfSome, MatchBool, length};
ghost use Rattle.racp_clauses.specs.Inferences.{by_clause, with_inference};
ghost use Rattle.racp_clauses.specs.Tests.{clause_at};
ghost use Rattle.racp_derivations.specs.Checking.{with_clause};
ghost use Rattle.racp_derivations.specs.Thinning.{InfersAs};

use crate::watching::{Watched, go_on};
use racp_clauses::{Clause, Derivation, OfProblem};
use std::alloc::{AllocError, Global};
use std::marker::Model;

/// The clauses that hold so far, each with a shorter one from which the same follows, if there is one, and which literals of that
/// are watched. Contracts see the list of the clauses.
#[derive(Drop)]
pub(crate) struct Held<N: OfProblem> {
    clauses: Vec<Clause<N>>,
    shorts: Vec<Option<Clause<N>>>,
    watched: Vec<Watched>,
}

impl<N: OfProblem> Model for Held<N> {
    ghost use Rattle.std.specs.Prelude.{List};
    ghost use Rattle.racp_clauses.specs.declared.literal.Literal.{Literal};
    ghost use Rattle.racp_derivations.specs.Thinning.{AreShorts};

    ghost Value = { List (List Literal) };

    ghost view = { λ h. h.clauses.items };

    ghost invariant = { λ h. AreShorts h.shorts.items h.clauses.items };
}

impl<N: OfProblem> Held<N> {
    /// There are none.
    pub(crate) fn new(alloc: Global) -> Self
        ensures { result ≡ [] }
    {
        Held {
            clauses: Vec::new(alloc),
            shorts: Vec::new(alloc),
            watched: Vec::new(alloc),
        }
    }

    /// All of them.
    pub(crate) fn clauses(&self) -> &[Clause<N>]
        ensures { result.now ≡ self.now }
    {
        &self.clauses
    }

    /// Adds a clause, with a shorter one from which the same follows, if there is one.
    pub(crate) fn push(
        &mut self,
        clause: Clause<N>,
        short: Option<Clause<N>>,
    ) -> Result<(), AllocError>
        requires { IfSome short (λ short. InfersAs short clause) }
        ensures { IfOk result (λ _. self.new ≡ self.old ++ clause ∷ []) }
    {
        if short.is_some() {
            watch_up_to(&mut self.watched, self.clauses.len())?;
        }
        self.clauses.reserve(1)?;
        self.shorts.push(short)?;
        self.clauses.push_reserved(clause);
        Ok(())
    }

    /// Goes on by the clause at a place, unless nothing is left, and says true; false if there is none.
    pub(crate) fn take(&mut self, derivation: &mut Derivation<N>, at: usize) -> bool
        ensures taken { MatchBool result
            ((at < length self.old) × (derivation.new ≡ with_clause derivation.old (clause_at self.old at)))
            (length self.old ≤ at) }
        ensures same { self.new ≡ self.old }
    {
        if self.clauses.len() <= at {
            return false;
        }
        if !derivation.is_empty() {
            self.step(derivation, at);
        }
        true
    }

    /// Goes on by the clause at a place.
    fn step(&mut self, derivation: &mut Derivation<N>, at: usize)
        requires { at < length self.old }
        ensures step { derivation.new ≡ with_inference derivation.old (by_clause derivation.old.bounds (clause_at self.old at)) }
        ensures same { self.new ≡ self.old }
    {
        let before = watched_at(&self.watched, at);
        let after = self.go_on_from(derivation, at, before);
        watch(&mut self.watched, at, after);
    }

    /// The same, and gives what is watched of the clause then.
    fn go_on_from(&self, derivation: &mut Derivation<N>, at: usize, before: Watched) -> Watched
        requires { at < length self.now }
        ensures { derivation.new ≡ with_inference derivation.old (by_clause derivation.old.bounds (clause_at self.now at)) }
    {
        match &self.shorts[at] {
            Some(short) => go_on(short, before, derivation),
            None => {
                derivation.clause(&self.clauses[at]);
                before
            }
        }
    }
}

/// What is watched of the clause at a place.
fn watched_at(watched: &[Watched], at: usize) -> Watched {
    watched.get(at).copied().unwrap_or(Watched::NONE)
}

/// Notes what is watched of it from now on, if there is room for it.
fn watch(watched: &mut [Watched], at: usize, found: Watched) {
    if let Some(row) = watched.get_mut(at) {
        *row = found;
    }
}

/// Makes room for what is watched of the clauses up to a place.
fn watch_up_to(watched: &mut Vec<Watched>, at: usize) -> Result<(), AllocError> {
    for _ in watched.len()..at.saturating_add(1) {
        watched.push(Watched::NONE)?;
    }
    Ok(())
}
