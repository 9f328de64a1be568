//! From which bounds another follows.

use crate::bound::{Bound, Why};
use crate::clauses::Clauses;
use crate::problem::Problem;
use crate::rows::{value_at, value_of};
use crate::trail::Entry;
use crate::usage_reasons::Span;

/// Bounds that are collected. What is beyond the room is left out.
#[derive(Drop)]
pub(crate) struct Pile {
    bounds: Vec<Bound>,
    short: bool,
}

impl Pile {
    /// The bounds that are collected so far.
    pub(crate) fn new(bounds: Vec<Bound>) -> Pile {
        Pile {
            bounds,
            short: false,
        }
    }

    #[inline]
    pub(crate) fn push(&mut self, bound: Bound) {
        if self.bounds.push(bound).is_err() {
            self.short = true;
        }
    }

    #[inline]
    pub(crate) fn pop(&mut self) -> Option<Bound> {
        self.bounds.pop()
    }

    pub(crate) fn clear(&mut self) {
        self.bounds.clear();
    }

    /// Whether memory was refused.
    pub(crate) fn is_short(&self) -> bool {
        self.short
    }
}

/// What a step of a derivation names beside its rule: a resource, some times, and what is left over beyond what it needs.
#[derive(Clone, Copy)]
pub(crate) struct Named {
    pub(crate) resource: usize,
    pub(crate) from: i64,
    pub(crate) until: i64,
    pub(crate) left: i64,
}

impl Named {
    /// Nothing.
    pub(crate) fn none() -> Named {
        Named {
            resource: 0,
            from: 0,
            until: 0,
            left: 0,
        }
    }

    /// A resource.
    pub(crate) fn resource(resource: usize) -> Named {
        let mut named = Named::none();
        named.resource = resource;
        named
    }
}

/// The bounds as they stood when a bound was put.
#[derive(Clone, Copy)]
pub(crate) struct Past<'a> {
    pub(crate) problem: &'a Problem,
    pub(crate) clauses: &'a Clauses,
    pub(crate) bounds: &'a [i64],
}

impl Past<'_> {
    /// The lower bound of a variable.
    #[inline]
    pub(crate) fn lower(&self, x: usize) -> i64 {
        value_at(self.bounds, x.wrapping_mul(2))
    }

    /// The upper bound of a variable.
    #[inline]
    pub(crate) fn upper(&self, x: usize) -> i64 {
        value_at(self.bounds, x.wrapping_mul(2) | 1).wrapping_neg()
    }

    /// Collects the bounds from which a bound of the trail follows as far as it is needed, and tells what the step names.
    pub(crate) fn explain(&self, entry: &Entry, need: i64, pile: &mut Pile) -> Named {
        let bound = Bound {
            side: entry.bound.side,
            value: need,
        };
        match entry.why {
            Why::Decision => Named::none(),
            Why::Arc(arc) => self.explain_pair(bound, arc, pile),
            Why::Usage(time) => self.explain_usage(bound, value_of(time), pile),
            Why::Peak(time) => self.explain_peak(bound, value_of(time), pile),
            Why::Energy(from, until) => {
                let span = Span {
                    from: value_of(from),
                    until: value_of(until),
                };
                self.explain_energy(bound, span, pile)
            }
            Why::Cost => self.explain_prices(bound, pile),
            Why::Clause(clause) => self.explain_clause(entry.bound, clause, pile),
        }
    }

    fn explain_pair(&self, bound: Bound, arc: u32, pile: &mut Pile) -> Named {
        let (first, second) = self.problem.pair(arc);
        let duration = self.problem.duration(first);
        if bound.is_lower() {
            pile.push(Bound::at_least(first, bound.value.wrapping_sub(duration)));
        } else {
            let start = bound.value.wrapping_neg().wrapping_add(duration);
            pile.push(Bound::at_most(second, start));
        }
        Named::none()
    }

    fn explain_clause(&self, bound: Bound, clause: u32, pile: &mut Pile) -> Named {
        let mut open = true;
        for &literal in self.clauses.of(clause) {
            let other = literal.negated();
            let is_own = literal.side == bound.side && bound.value <= literal.value;
            if open && is_own && value_at(self.bounds, other.side as usize) < other.value {
                open = false;
            } else {
                pile.push(other);
            }
        }
        Named::none()
    }

    /// What the least units cost.
    fn least_cost(&self) -> i64 {
        let mut cost = 0i64;
        for k in 0..self.problem.resources {
            cost = cost.wrapping_add(self.problem.price_of(k, self.lower(self.problem.units(k))));
        }
        cost
    }

    fn explain_prices(&self, bound: Bound, pile: &mut Pile) -> Named {
        let x = bound.variable();
        let cost = self.problem.cost();
        if x == cost {
            let slack = self.least_cost().wrapping_sub(bound.value);
            self.collect_units(usize::MAX, slack, pile);
            return Named::none();
        }
        let k = x.wrapping_sub(self.problem.jobs);
        let one_more = bound.value.wrapping_neg().wrapping_add(1);
        let others = self
            .least_cost()
            .wrapping_sub(self.problem.price_of(k, self.lower(x)));
        let need = others.wrapping_add(self.problem.price_of(k, one_more));
        let most = self.upper(cost);
        let slack = need.wrapping_sub(1).wrapping_sub(most);
        let left = self.collect_units(k, slack, pile);
        pile.push(Bound::at_most(cost, most.wrapping_add(left)));
        Named::resource(k)
    }

    /// Collects lower bounds of units, as low as what is left over allows; gives what then is left over.
    fn collect_units(&self, skip: usize, slack: i64, pile: &mut Pile) -> i64 {
        let mut slack = slack;
        for k in 0..self.problem.resources {
            let price = self.problem.price(k);
            let x = self.problem.units(k);
            let units = self.lower(x);
            let base = self.problem.owned(k).max(self.problem.root_lower(x));
            if k == skip || price <= 0 || units <= base {
                continue;
            }
            let fewer = (slack / price).min(units.wrapping_sub(base)).max(0);
            slack = slack.wrapping_sub(fewer.wrapping_mul(price));
            pile.push(Bound::at_least(x, units.wrapping_sub(fewer)));
        }
        slack
    }
}
