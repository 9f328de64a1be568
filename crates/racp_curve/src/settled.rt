//! Plans that are found ahead, and which deadlines they settle.

ghost use Rattle.std.specs.Prelude.{◌≡◌, IsTrue, IfOk};
ghost use Rattle.racp_plan.specs.Plans.{IsPlanOf};
ghost use Rattle.racp_curve.specs.Curves.{order_by};
ghost use Rattle.racp_curve.specs.Following.{ArePlannedFrom, IsEarlier, IsSettled, IsSettledFor};

use crate::earlier::Earlier;
use racp_clauses::OfProblem;
use racp_model::{Capacities, Starts};
use racp_plan::Plan;
use std::alloc::{AllocError, Global};
use std::marker::{Model, PhantomData};

/// The plan for a deadline of the order that `N` names, and when its last job ends. For each deadline from then on the plan
/// has the same capacities and starts. Contracts see the plan and the end.
#[derive(Drop)]
pub(crate) struct Settled<N: OfProblem> {
    plan: Plan,
    end: u32,
    of: PhantomData<N>,
}

impl<N: OfProblem> Model for Settled<N> {
    ghost use Rattle.racp_curve.specs.Following.{IsSettled, SettledPlan};

    ghost Value = { SettledPlan };

    ghost view = { λ s. record { plan = s.plan; end = s.end } };

    ghost invariant = { λ s. IsSettled N.problem (record { plan = s.plan; end = s.end }) };
}

impl<N: OfProblem> Settled<N> {
    /// A plan, and when its last job ends.
    pub(crate) fn of(plan: Plan, end: u32) -> Self
        requires { IsSettled N.problem (record { plan = plan; end = end }) }
        ensures { result ≡ record { plan = plan; end = end } }
    {
        Settled {
            plan,
            end,
            of: PhantomData,
        }
    }

    /// Whether it settles a deadline.
    pub(crate) fn is_for(&self, deadline: u32) -> bool
        ensures { IsTrue result → IsSettledFor N.problem deadline self.now }
    {
        self.end <= deadline && deadline <= self.plan.deadline
    }

    /// The plan for a deadline that it settles.
    pub(crate) fn plan_for(&self, alloc: Global, deadline: u32) -> Result<Plan, AllocError>
        requires { IsSettledFor N.problem deadline self.now }
        ensures { IfOk result (IsPlanOf N.problem.network (order_by deadline N.problem.terms)) }
    {
        let starts = self.plan.starts.as_slice().to_vec(alloc)?;
        let capacities = self.plan.capacities.copy()?;
        Ok(Plan {
            deadline,
            critical: self.plan.critical,
            cost: self.plan.cost,
            capacities,
            starts: Starts::new(starts),
        })
    }

    /// What it tells of whether the capacities of the plan for a later deadline are enough for this one.
    pub(crate) fn earlier(&self, capacities: &Capacities, deadline: u32) -> Earlier
        requires planned { ArePlannedFrom N.problem.network N.problem.terms deadline capacities.now }
        ensures { IsEarlier N.problem.network N.problem.terms capacities.now deadline result }
    {
        if self.plan.capacities.as_slice() == capacities.as_slice() {
            if self.end <= deadline {
                return Earlier::Enough(self.end);
            }
        } else if self.is_for(deadline) {
            return Earlier::NotEnough;
        }
        Earlier::Unknown
    }
}
