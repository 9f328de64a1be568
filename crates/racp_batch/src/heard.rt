//! What is heard of a plan while it is made.

ghost use Rattle.std.specs.Prelude.{IfSome};
ghost use Rattle.std.proofs.Props.{props};
ghost use Rattle.racp_found.specs.Told.{IsLeastOfEnough, IsTrueNews};
ghost use Rattle.racp_batch.specs.Rows.{IsCostOfSome, IsWork};

use crate::row::Work;
use racp_found::{News, Observer, OfOrder};
use std::cell::Cell;
use std::marker::PhantomData;

/// What all capacities that are enough for the order that `N` names cost at least, and what a plan costs that is known, if one
/// is.
#[derive(Drop)]
struct Costs<N: OfOrder> {
    least: u64,
    best: Option<u64>,
    of: PhantomData<N>,
    ghost least_is: { IsLeastOfEnough N.network N.terms least } by { Prim.hlevel props },
    ghost best_is: { IfSome best (IsCostOfSome N.network N.terms) } by { Prim.hlevel props },
}

impl<N: OfOrder> Costs<N> {
    /// Nothing is known.
    fn new() -> Self {
        Costs {
            least: 0,
            best: None,
            of: PhantomData,
        }
    }

    /// With what all cost at least.
    fn with_least(self, least: u64) -> Self
        requires { IsLeastOfEnough N.network N.terms least }
    {
        if least <= self.least {
            return self;
        }
        Costs {
            least,
            best: self.best,
            of: PhantomData,
        }
    }

    /// With what a plan costs.
    fn with_plan(self, cost: u64) -> Self
        requires { IsCostOfSome N.network N.terms cost }
    {
        match self.best {
            Some(best) if best <= cost => self,
            _ => Costs {
                least: self.least,
                best: Some(cost),
                of: PhantomData,
            },
        }
    }
}

/// What is heard of the plan of the order that `N` names: what the cheapest costs that is known, what each costs at least, and how
/// many conflicts a search that learns has met.
#[derive(Drop)]
pub(crate) struct Heard<N: OfOrder> {
    costs: Cell<Costs<N>>,
    conflicts: Cell<u64>,
}

impl<N: OfOrder> Heard<N> {
    /// Nothing is heard yet.
    pub(crate) fn new() -> Self {
        Heard {
            costs: Cell::new(Costs::new()),
            conflicts: Cell::new(0),
        }
    }

    /// What was heard, and that so many nodes were looked at in so many thousandths of a second.
    pub(crate) fn into_work(self, nodes: u64, milliseconds: Option<u64>) -> Work
        ensures { IsWork N.network N.terms result }
    {
        let Costs { least, best, .. } = self.costs.into_inner();
        Work {
            best,
            bound: least,
            nodes,
            conflicts: self.conflicts.get(),
            milliseconds,
        }
    }
}

impl<N: OfOrder> Observer for Heard<N> {
    ghost may_hear = { IsTrueNews N.network N.terms };

    fn hear(&self, news: News<'_>) {
        match news {
            News::Deadline(_) | News::Floors(_) => {}
            News::Cost(least) => {
                let costs = self.costs.replace(Costs::new());
                self.costs.set(costs.with_least(least));
            }
            News::Plan { cost, .. } => {
                let costs = self.costs.replace(Costs::new());
                self.costs.set(costs.with_plan(cost));
            }
            News::Work { conflicts, .. } => self.conflicts.set(conflicts),
        }
    }
}
