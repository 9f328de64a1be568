//! What the workers of a curve share.

ghost use Rattle.std.specs.Prelude.{◌≡◌, ◌≤◌, IfSome};
ghost use Rattle.std.proofs.Props.{props};
ghost use Rattle.racp_by_clauses.specs.Optima.{IsTaskOf};
ghost use Rattle.racp_plan.specs.Plans.{IsPlanOf};
ghost use Rattle.racp_curve.specs.Curves.{order_by};
ghost use Rattle.racp_curve.specs.Following.{ArePlannedFrom, IsEarlier, IsGroundOf, IsSettledFor};

use crate::earlier::Earlier;
use crate::ending::end_of;
use crate::ground::Ground;
use crate::settled::Settled;
use racp_by_clauses::{Limits, Task};
use racp_clauses::OfProblem;
use racp_model::Capacities;
use racp_plan::Plan;
use std::alloc::AllocError;
use std::sync::Wait;
use std::sync::atomic::{AtomicBool, AtomicU32, Ordering};

/// What the workers of a curve share: what it is of, and how long each of them searches; the plans that are found ahead; and
/// which deadlines are left. The calling thread follows the curve from the order's deadline back. Helpers make plans for
/// deadlines that it has not come to.
#[derive(Drop)]
pub(crate) struct Ahead<'a, N: OfProblem> {
    pub(crate) base: Ground<'a>,
    pub(crate) whole: Task<'a>,
    pub(crate) limits: Limits,
    plans: boxcar::Vec<Settled<N>>,
    /// The calling thread has come to this deadline.
    front: AtomicU32,
    /// Helpers have taken, or plans have settled, each deadline after this one that the calling thread has not come to.
    next: AtomicU32,
    is_done: AtomicBool,
    pub(crate) ghost of: { IsTaskOf N.problem whole } by { Prim.hlevel props },
    pub(crate) ghost of_base: { IsGroundOf N.problem base } by { Prim.hlevel props },
}

impl<'a, N: OfProblem> Ahead<'a, N> {
    /// No plan is found yet. The calling thread is at the order's deadline.
    pub(crate) fn new(base: Ground<'a>, whole: Task<'a>, limits: Limits) -> Result<Self, AllocError>
        requires of { IsTaskOf N.problem whole }
        requires of_base { IsGroundOf N.problem base }
    {
        let order = base.order;
        let deadline = order.deadline;
        let plans = boxcar::Vec::new(base.alloc)?;
        Ok(Ahead {
            base,
            whole,
            limits,
            plans,
            front: AtomicU32::new(deadline),
            next: AtomicU32::new(deadline.saturating_sub(1)),
            is_done: AtomicBool::new(false),
        })
    }

    /// Lets all helpers stop.
    pub(crate) fn finish(&self) {
        self.is_done.store(true, Ordering::SeqCst);
    }

    /// Notes that the calling thread has come to a deadline.
    pub(crate) fn move_to(&self, deadline: u32) {
        self.front.store(deadline, Ordering::SeqCst);
        let _ = self.next.fetch_min(deadline, Ordering::SeqCst);
    }

    /// Whether a plan for a deadline is still of use.
    pub(crate) fn is_wanted(&self, deadline: u32) -> bool {
        !self.is_done.load(Ordering::SeqCst)
            && deadline <= self.front.load(Ordering::SeqCst)
            && self.plan_for(deadline).is_none()
    }

    /// A plan that settles a deadline, if one is found.
    pub(crate) fn plan_for(&self, deadline: u32) -> Option<&Settled<N>>
        ensures { IfSome result (λ settled. IsSettledFor N.problem deadline settled.now) }
    {
        for k in 0..self.plans.count() {
            if let Some(settled) = self.plans.get(k) {
                if settled.is_for(deadline) {
                    return Some(settled);
                }
            }
        }
        None
    }

    /// Whether the capacities of the plan for a later deadline are enough for this one, by the plans that are found.
    pub(crate) fn earlier(&self, capacities: &Capacities, deadline: u32) -> Earlier
        requires { ArePlannedFrom N.problem.network N.problem.terms deadline capacities.now }
        ensures { IsEarlier N.problem.network N.problem.terms capacities.now deadline result }
    {
        for k in 0..self.plans.count() {
            if let Some(settled) = self.plans.get(k) {
                match settled.earlier(capacities, deadline) {
                    Earlier::Enough(end) => return Earlier::Enough(end),
                    Earlier::NotEnough => return Earlier::NotEnough,
                    Earlier::Unknown => {}
                }
            }
        }
        Earlier::Unknown
    }

    /// Takes the next deadline, if one is left.
    pub(crate) fn take(&self) -> Option<u32>
        ensures { IfSome result (λ deadline. deadline ≤ self.now.base.order.now.deadline) }
    {
        let order = self.base.order;
        let taken = self
            .next
            .fetch_update(Ordering::SeqCst, Ordering::SeqCst, |next| {
                next.checked_sub(1)
            });
        match taken {
            Ok(next) => Some(next.min(order.deadline)),
            Err(_) => None,
        }
    }

    /// Shows all the plan for its deadline.
    pub(crate) fn show<R: Wait>(&self, rt: &R, plan: Plan)
        requires { IsPlanOf N.problem.network (order_by plan.deadline N.problem.terms) plan }
    {
        let end = end_of(self.base.net, &plan.starts, plan.deadline);
        let _ = self.next.fetch_min(end.saturating_sub(1), Ordering::SeqCst);
        drop(self.plans.push(rt, Settled::of(plan, end)));
    }
}
