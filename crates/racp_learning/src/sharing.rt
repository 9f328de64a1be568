//! What searches over one problem tell each other: short clauses.

ghost use Rattle.std.specs.Prelude.{◌≡◌};
ghost use Rattle.racp_model.specs.Terms.{AreTermsOf};

use crate::bound::Bound;
use crate::search::Search;
use racp_clauses::{Clause, Domain, Literal, OfProblem};
use racp_model::Network;
use racp_prices::Order;
use std::alloc::AllocError;
use std::mem;

/// A clause with so many literals at most is short.
const SHORT: usize = 8;

impl<N: OfProblem> Search<N> {
    /// From now on short clauses that are learned are kept for others, until they are taken.
    pub fn share(&mut self) {
        self.shares = true;
    }

    /// The short clauses that were learned since the last time. Each has at most 8 literals.
    pub fn take_short(&mut self) -> Vec<Clause<N>> {
        let alloc = *self.short.allocator();
        mem::replace(&mut self.short, Vec::new(alloc))
    }

    /// Keeps the clause that was learned last for others, if it is short.
    pub(crate) fn keep_short(&mut self) -> Result<(), AllocError> {
        let alloc = *self.short.allocator();
        if let Some(clause) = self.work.finish(alloc)? {
            if clause.literals().len() <= SHORT {
                self.short.push(clause)?;
            }
        }
        Ok(())
    }

    /// Learns a clause of another search, without the literals that are false here in any case.
    ///
    /// # Errors
    ///
    /// Memory was refused.
    pub fn learn_from(
        &mut self,
        net: &Network,
        order: &Order,
        other: &Clause<N>,
    ) -> Result<(), AllocError>
        requires named { net.now ≡ N.problem.network }
        requires terms { order.now ≡ N.problem.terms }
        requires fit { AreTermsOf net.now order.now }
    {
        self.engine.back(0);
        self.settle_ground(net, order);
        if self.ground.is_empty() || is_known(self.ground.bounds(), other.literals()) {
            return Ok(());
        }
        self.work.begin(&self.ground);
        let alloc = *self.clauses.allocator();
        let mut bounds = Vec::new(alloc);
        for &literal in other.literals() {
            if !is_false(self.ground.bounds(), literal) {
                self.work.suppose(literal)?;
                bounds.push(bound_of(literal))?;
            }
        }
        self.work.clause(other);
        let Some(clause) = self.work.finish(alloc)? else {
            return Ok(());
        };
        if bounds.is_empty() {
            self.ground.clause(&clause);
            return Ok(());
        }
        let number = self.engine.adopt(&bounds)?;
        self.keep(number as usize, clause)
    }
}

/// Whether some literal is true of all that lies within bounds.
fn is_known(bounds: &Domain, literals: &[Literal]) -> bool {
    literals.iter().any(|literal| match *literal {
        Literal::AtLeast(x, least) => least <= bounds.lower_at(x as usize),
        Literal::AtMost(x, most) => bounds.upper_at(x as usize) <= most,
    })
}

/// Whether a literal is false of all that lies within bounds.
fn is_false(bounds: &Domain, literal: Literal) -> bool {
    match literal {
        Literal::AtLeast(x, least) => bounds.upper_at(x as usize) < least,
        Literal::AtMost(x, most) => most < bounds.lower_at(x as usize),
    }
}

/// A literal as a bound.
fn bound_of(literal: Literal) -> Bound {
    match literal {
        Literal::AtLeast(x, least) => {
            Bound::at_least(x as usize, i64::try_from(least).unwrap_or(i64::MAX))
        }
        Literal::AtMost(x, most) => {
            Bound::at_most(x as usize, i64::try_from(most).unwrap_or(i64::MAX))
        }
    }
}
