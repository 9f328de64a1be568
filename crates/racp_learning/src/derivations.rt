//! What clauses were derived from: the derivations that a search has taken, one after the other.

use crate::rows::{number_at, set_number, stored};
use racp_clauses::Literal;
use std::alloc::Global;

/// What a literal, a step and a derivation take, about.
const LITERAL_BYTES: usize = 16;

const STEP_BYTES: usize = 20;

const DERIVATION_BYTES: usize = 24;

/// A step of a derivation. Jobs, resources, pairs and derivations are named by their places, from 0.
#[derive(Clone, Copy)]
pub enum Step {
    /// Along the pair at a place of the precedence relation.
    Pair(u32),
    /// Time table: of a job on a resource, from a time until another.
    TimeTable(u32, u32, u32, u32),
    /// Energy: on a resource, from a time until another.
    Energy(u32, u32, u32),
    /// What a job requests of a resource.
    Request(u32, u32),
    /// What the least units cost.
    Prices,
    /// The units of a resource that the greatest cost pays for.
    Budget(u32),
    /// The clause of an earlier derivation.
    Clause(u32),
}

/// Where the literals and the steps of a derivation end, and whether it is a part of the ground: then each later one begins
/// with what it has found.
#[derive(Clone, Copy)]
struct Ended {
    literals: usize,
    steps: usize,
    is_ground: bool,
}

/// The derivations of the clauses that a search has learned, and of its ground, in their order.
#[derive(Drop)]
pub struct Derivations {
    literals: Vec<Literal>,
    steps: Vec<Step>,
    ended: Vec<Ended>,
    /// The derivation of the clause with each number of the search.
    of_numbers: Vec<u32>,
    /// The derivations of the clauses that were told as answers.
    told: Vec<u32>,
    most_bytes: usize,
    is_full: bool,
}

impl Derivations {
    /// None yet. They take at most so many bytes, about.
    pub(crate) fn new(alloc: Global, most_bytes: usize) -> Derivations {
        Derivations {
            literals: Vec::new(alloc),
            steps: Vec::new(alloc),
            ended: Vec::new(alloc),
            of_numbers: Vec::new(alloc),
            told: Vec::new(alloc),
            most_bytes,
            is_full: false,
        }
    }

    /// How many there are.
    pub fn count(&self) -> usize {
        self.ended.len()
    }

    /// Whether some were left out, since there was no room for them.
    pub fn is_full(&self) -> bool {
        self.is_full
    }

    /// Whether the one at a place is a part of the ground.
    pub fn is_ground(&self, at: usize) -> bool {
        match self.ended.get(at) {
            Some(ended) => ended.is_ground,
            None => false,
        }
    }

    /// The literals of the clause that the one at a place derives.
    pub fn literals(&self, at: usize) -> &[Literal] {
        let (from, until) = (
            self.before(at).literals,
            self.before(at.saturating_add(1)).literals,
        );
        self.literals.get(from..until).unwrap_or(&[])
    }

    /// The steps of the one at a place.
    pub fn steps(&self, at: usize) -> &[Step] {
        let (from, until) = (
            self.before(at).steps,
            self.before(at.saturating_add(1)).steps,
        );
        self.steps.get(from..until).unwrap_or(&[])
    }

    /// The places of those whose clauses were told as answers, in rising order.
    pub fn told(&self) -> &[u32] {
        &self.told
    }

    /// Where those before a place end.
    fn before(&self, at: usize) -> Ended {
        match self.ended.get(at.wrapping_sub(1)) {
            Some(ended) => *ended,
            None => Ended {
                literals: 0,
                steps: 0,
                is_ground: false,
            },
        }
    }

    /// Begins one. What was begun before and has not ended is left out.
    pub(crate) fn begin(&mut self) {
        let end = self.before(self.ended.len());
        self.literals.truncate(end.literals);
        self.steps.truncate(end.steps);
    }

    /// Adds a literal to the clause.
    pub(crate) fn suppose(&mut self, literal: Literal) {
        if !self.is_full && self.literals.push(literal).is_err() {
            self.is_full = true;
        }
    }

    /// Adds a step.
    pub(crate) fn take(&mut self, step: Step) {
        if !self.is_full && self.steps.push(step).is_err() {
            self.is_full = true;
        }
    }

    /// Ends the one that was begun: its clause holds, or it is a part of the ground.
    pub(crate) fn end(&mut self, is_ground: bool) {
        let ended = Ended {
            literals: self.literals.len(),
            steps: self.steps.len(),
            is_ground,
        };
        if self.most_bytes < self.bytes() || self.is_full || self.ended.push(ended).is_err() {
            self.is_full = true;
        }
    }

    /// How many bytes they take, about.
    fn bytes(&self) -> usize {
        let literals = self.literals.len().saturating_mul(LITERAL_BYTES);
        let steps = self.steps.len().saturating_mul(STEP_BYTES);
        let ended = self.ended.len().saturating_mul(DERIVATION_BYTES);
        literals.saturating_add(steps).saturating_add(ended)
    }

    /// Whether the one that was begun has steps.
    pub(crate) fn has_steps(&self) -> bool {
        self.before(self.ended.len()).steps < self.steps.len()
    }

    /// The place of the last one.
    pub(crate) fn last(&self) -> u32 {
        stored(self.ended.len().saturating_sub(1))
    }

    /// The clause of the last one has this number in the search.
    pub(crate) fn name(&mut self, number: usize) {
        for _i in self.of_numbers.len()..number.saturating_add(1) {
            if self.of_numbers.push(0).is_err() {
                self.is_full = true;
                return;
            }
        }
        let last = self.last();
        set_number(&mut self.of_numbers, number, last);
    }

    /// The derivation of the clause with a number of the search.
    pub(crate) fn of_number(&self, number: u32) -> u32 {
        number_at(&self.of_numbers, number as usize)
    }

    /// The clause of the last one is told as an answer.
    pub(crate) fn tell(&mut self) {
        let last = self.last();
        if self.told.push(last).is_err() {
            self.is_full = true;
        }
    }
}
