//! Bounds on the variables.

ghost use Rattle.std.specs.Prelude.{◌≡◌, ◌↔◌, ℕ, ◌<◌, ◌≤◌, IsTrue, IfOk, length, slice_index, All};
ghost use Rattle.racp_model.specs.Window.{Bounds};
ghost use Rattle.racp_clauses.specs.Solutions.{most_value};
ghost use Rattle.racp_clauses.specs.Clauses.{IsFalseWithin};
ghost use Rattle.racp_clauses.specs.Inferences.{may_have, met_bounds};
ghost use Rattle.racp_clauses.specs.Roots.{LieWithin};
ghost use Rattle.racp_clauses.specs.declared.literal.Literal.TheVariants.{AtLeast, AtMost};

use crate::literal::Literal;
use std::alloc::{AllocError, Global};
use std::marker::Model;

/// A lower and an upper bound on each variable: the start of each job in time units, the units of each resource, and
/// the cost, in this order. No bound is above 100,000,000,000,000. Contracts see `Bounds`.
#[derive(Drop)]
pub struct Domain {
    lower: Vec<u64>,
    upper: Vec<u64>,
}

impl Model for Domain {
    ghost use Rattle.racp_model.specs.Window.{Bounds};
    ghost use Rattle.racp_clauses.specs.Solutions.{AreSmall};

    ghost Value = { Bounds };

    ghost view = { λ d. record { lower = d.lower.items; upper = d.upper.items } };

    ghost invariant = { λ d. AreSmall d.lower.items d.upper.items };
}

impl Domain {
    /// These bounds, by the places of the variables. Takes no memory.
    pub fn new(lower: Vec<u64>, upper: Vec<u64>) -> Self
        requires same { length upper.items ≡ length lower.items }
        requires lower { All (λ x. x ≤ most_value) lower.items }
        requires upper { All (λ x. x ≤ most_value) upper.items }
        ensures { result ≡ record { lower = lower.items; upper = upper.items } }
    {
        Domain { lower, upper }
    }

    /// The lower bound of the variable at a place.
    pub fn lower(&self, x: usize) -> u64
        requires { x < length self.now.lower }
        ensures bound { result ≡ slice_index self.now.lower x }
        ensures small { result ≤ most_value }
    {
        self.lower[x]
    }

    /// The upper bound of the variable at a place.
    pub fn upper(&self, x: usize) -> u64
        requires { x < length self.now.upper }
        ensures bound { result ≡ slice_index self.now.upper x }
        ensures small { result ≤ most_value }
    {
        self.upper[x]
    }

    /// The lower bound of the variable at a place, or 0 where there is none.
    pub fn lower_at(&self, x: usize) -> u64
        ensures { result ≡ slice_index self.now.lower x }
    {
        self.lower.get(x).copied().unwrap_or(0)
    }

    /// The upper bound of the variable at a place, or 0 where there is none.
    pub fn upper_at(&self, x: usize) -> u64
        ensures { result ≡ slice_index self.now.upper x }
    {
        self.upper.get(x).copied().unwrap_or(0)
    }

    /// The same bounds once more.
    ///
    /// # Errors
    ///
    /// Memory was refused.
    pub fn copy(&self, alloc: Global) -> Result<Domain, AllocError>
        ensures { IfOk result (λ copy. copy ≡ self.now) }
    {
        let lower = Vec::from_slice(alloc, &self.lower)?;
        let upper = Vec::from_slice(alloc, &self.upper)?;
        Ok(Domain { lower, upper })
    }

    /// Whether these bounds lie within others: no lower bound is lower, and no upper one higher. Takes no memory.
    pub fn lies_within(&self, outer: &Domain) -> bool
        ensures { IsTrue result ↔ LieWithin self.now outer.now }
    {
        self.lower.len() == outer.lower.len()
            && are_at_most(&outer.lower, &self.lower)
            && are_at_most(&self.upper, &outer.upper)
    }

    /// Takes over the bounds of another one. Takes no memory.
    pub(crate) fn take_over(&mut self, other: &Domain)
        requires { length self.old.lower ≡ length other.now.lower }
        ensures { self.new ≡ other.now }
    {
        copy_row(&mut self.lower, &other.lower);
        copy_row(&mut self.upper, &other.upper);
    }

    /// Meets the bounds with a literal, and says whether something may be left.
    pub(crate) fn meet(&mut self, literal: Literal) -> bool
        ensures bounds { self.new ≡ met_bounds self.old literal }
        ensures left { result ≡ may_have self.old literal }
    {
        match literal {
            Literal::AtLeast(x, v) => self.raise(x as usize, v),
            Literal::AtMost(x, v) => self.reduce(x as usize, v),
        }
    }

    /// Raises a lower bound.
    fn raise(&mut self, x: usize, v: u64) -> bool
        ensures bounds { self.new ≡ met_bounds self.old (AtLeast x v) }
        ensures left { result ≡ may_have self.old (AtLeast x v) }
    {
        if self.lower.len() <= x {
            return true;
        }
        if self.upper[x] < v {
            return false;
        }
        if self.lower[x] < v {
            self.lower[x] = v;
        }
        true
    }

    /// Lowers an upper bound.
    fn reduce(&mut self, x: usize, v: u64) -> bool
        ensures bounds { self.new ≡ met_bounds self.old (AtMost x v) }
        ensures left { result ≡ may_have self.old (AtMost x v) }
    {
        if self.lower.len() <= x {
            return true;
        }
        if v < self.lower[x] {
            return false;
        }
        if v < self.upper[x] {
            self.upper[x] = v;
        }
        true
    }

    /// Whether a literal is false of all that is within the bounds.
    pub(crate) fn is_false(&self, literal: Literal) -> bool
        ensures { IsTrue result ↔ IsFalseWithin self.now literal }
    {
        match literal {
            Literal::AtLeast(x, v) => (x as usize) < self.lower.len() && self.upper[x as usize] < v,
            Literal::AtMost(x, v) => (x as usize) < self.lower.len() && v < self.lower[x as usize],
        }
    }
}

/// Writes a row over another.
fn copy_row(row: &mut [u64], other: &[u64])
    requires { length row.old ≡ length other.now }
    ensures { row.new ≡ other.now }
{
    row.copy_from_slice(other);
}

/// Whether each number is at most the one at its place in another row.
fn are_at_most(row: &[u64], most: &[u64]) -> bool
    requires { length most.now ≡ length row.now }
    ensures { IsTrue result ↔ ((x : ℕ) → x < length row.now → slice_index row.now x ≤ slice_index most.now x) }
{
    (0..row.len()).all(|x| row[x] <= most[x])
}
