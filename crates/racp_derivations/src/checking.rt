//! What was derived so far.

ghost use Rattle.std.specs.Prelude.{◌≡◌, ◌++◌, ◌∷◌, [], true, false, IfOk, IfSome, MatchBool, Some, None};
ghost use Rattle.racp_model.specs.Terms.{AreTermsOf};
ghost use Rattle.racp_clauses.specs.Solutions.{HasPlaces};
ghost use Rattle.racp_derivations.specs.Checking.{after, after_line, after_number, after_spelled, at_first};
ghost use Rattle.racp_derivations.specs.Lines.{with_line};
ghost use Rattle.racp_derivations.specs.Thinning.{InfersAs};

use crate::held::Held;
use crate::line::Line;
use crate::lines::line_of;
use crate::numbered::{line_at, push_numbered};
use crate::stepping::{Given, take_step};
use crate::thinning::{MANY_LITERALS, thinned};
use crate::words::number_of;
use racp_clauses::{Clause, Derivation, Domain, OfProblem};
use std::alloc::{AllocError, Global};
use std::marker::Model;

/// What was derived so far: the derivation with which each one begins, the present one, the clauses, and the lines that have
/// numbers. Contracts see `Checked`.
#[derive(Drop)]
pub(crate) struct Checking<N: OfProblem> {
    base: Derivation<N>,
    present: Derivation<N>,
    clauses: Held<N>,
    numbered: Vec<Line>,
}

impl<N: OfProblem> Model for Checking<N> {
    ghost use Rattle.std.specs.Prelude.{◌≡◌, []};
    ghost use Rattle.racp_derivations.specs.Checking.{Checked};

    ghost Value = { Checked };

    ghost view = { λ c. record { base = c.base; now = c.present; clauses = c.clauses; numbered = c.numbered.items } };

    ghost invariant = { λ c. c.base.clause ≡ [] };
}

impl<N: OfProblem> Checking<N> {
    /// Nothing so far.
    pub(crate) fn new(alloc: Global, root: &Domain) -> Result<Self, AllocError>
        requires root { root.now ≡ N.problem.root }
        requires places { HasPlaces N.problem.network root.now }
        ensures { IfOk result (λ c. c ≡ at_first root.now) }
    {
        let base = Derivation::new(alloc, root)?;
        let present = Derivation::new(alloc, root)?;
        Ok(Checking {
            base,
            present,
            clauses: Held::new(alloc),
            numbered: Vec::new(alloc),
        })
    }

    /// The clauses so far.
    pub(crate) fn clauses(&self) -> &[Clause<N>]
        ensures { result.now ≡ self.now.clauses }
    {
        self.clauses.clauses()
    }

    /// Does what a line says, and says true; false if it says nothing, or something that does not follow.
    pub(crate) fn take_line(
        &mut self,
        alloc: Global,
        given: &Given,
        line: &[u8],
    ) -> Result<bool, AllocError>
        requires named { given.now.net.now ≡ N.problem.network }
        requires terms { given.now.order.now ≡ N.problem.terms }
        requires fit { AreTermsOf given.now.net.now given.now.order.now }
        ensures { IfOk result (λ yes. MatchBool yes
            (after_line given.now.net.now given.now.order.now self.old line.now ≡ Some self.new)
            (after_line given.now.net.now given.now.order.now self.old line.now ≡ None)) }
    {
        match number_of(line) {
            Some(number) => self.take_numbered(alloc, given, number),
            None => self.take_spelled(alloc, given, line),
        }
    }

    /// Does what the line with a number says.
    fn take_numbered(
        &mut self,
        alloc: Global,
        given: &Given,
        number: u64,
    ) -> Result<bool, AllocError>
        requires named { given.now.net.now ≡ N.problem.network }
        requires terms { given.now.order.now ≡ N.problem.terms }
        requires fit { AreTermsOf given.now.net.now given.now.order.now }
        ensures { IfOk result (λ yes. MatchBool yes
            (after_number given.now.net.now given.now.order.now self.old number ≡ Some self.new)
            (after_number given.now.net.now given.now.order.now self.old number ≡ None)) }
    {
        match line_at(&self.numbered, number) {
            Some(line) => self.take(alloc, given, line),
            None => Ok(false),
        }
    }

    /// Does what a line that is spelled out says.
    fn take_spelled(
        &mut self,
        alloc: Global,
        given: &Given,
        line: &[u8],
    ) -> Result<bool, AllocError>
        requires named { given.now.net.now ≡ N.problem.network }
        requires terms { given.now.order.now ≡ N.problem.terms }
        requires fit { AreTermsOf given.now.net.now given.now.order.now }
        ensures { IfOk result (λ yes. MatchBool yes
            (after_spelled given.now.net.now given.now.order.now self.old line.now ≡ Some self.new)
            (after_spelled given.now.net.now given.now.order.now self.old line.now ≡ None)) }
    {
        match line_of(given.net, line) {
            Some(line) => {
                self.number(line)?;
                self.take(alloc, given, line)
            }
            None => Ok(false),
        }
    }

    /// Gives a line the next number, if it has one.
    fn number(&mut self, line: Line) -> Result<(), AllocError>
        ensures { IfOk result (λ _. self.new ≡ record self.old { numbered = with_line self.old.numbered line }) }
    {
        push_numbered(&mut self.numbered, line)
    }

    /// Does what it says.
    fn take(&mut self, alloc: Global, given: &Given, line: Line) -> Result<bool, AllocError>
        requires named { given.now.net.now ≡ N.problem.network }
        requires terms { given.now.order.now ≡ N.problem.terms }
        requires fit { AreTermsOf given.now.net.now given.now.order.now }
        ensures { IfOk result (λ yes. MatchBool yes
            (after given.now.net.now given.now.order.now self.old line ≡ Some self.new)
            (after given.now.net.now given.now.order.now self.old line ≡ None)) }
    {
        match line {
            Line::Suppose(literal) => {
                self.present.suppose(literal)?;
                Ok(true)
            }
            Line::Take(step) => Ok(take_step(given, &mut self.clauses, &mut self.present, step)),
            Line::Holds => conclude(alloc, &self.base, &mut self.present, &mut self.clauses),
            Line::Keep => Ok(self.base.begin(&self.present)),
        }
    }
}

/// Adds the clause of a derivation, if nothing is left, begins anew and says true.
fn conclude<N: OfProblem>(
    alloc: Global,
    base: &Derivation<N>,
    present: &mut Derivation<N>,
    clauses: &mut Held<N>,
) -> Result<bool, AllocError>
    requires { base.now.clause ≡ [] }
    ensures { IfOk result (λ yes. MatchBool yes
        ((present.old.empty ≡ true) × (present.new ≡ base.now) × (clauses.new ≡ clauses.old ++ present.old.clause ∷ []))
        (present.old.empty ≡ false)) }
{
    let Some(clause) = present.finish(alloc)? else {
        return Ok(false);
    };
    let short = short_of(alloc, base, present, &clause)?;
    clauses.push(clause, short)?;
    Ok(present.begin(base))
}

/// A shorter clause from which the same follows, if one is long. The derivation that is at work may be any.
fn short_of<N: OfProblem>(
    alloc: Global,
    base: &Derivation<N>,
    work: &mut Derivation<N>,
    clause: &Clause<N>,
) -> Result<Option<Clause<N>>, AllocError>
    requires { base.now.clause ≡ [] }
    ensures { IfOk result (λ found. IfSome found (λ short. InfersAs short clause.now)) }
{
    if clause.literals().len() <= MANY_LITERALS {
        return Ok(None);
    }
    thinned(alloc, base, work, clause)
}
