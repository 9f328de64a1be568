//! Helpers, which make plans for deadlines ahead.

ghost use Rattle.std.specs.Prelude.{◌≡◌, ◌≤◌, IfOk, IfSome};
ghost use Rattle.racp_plan.specs.Plans.{IsPlanOf};
ghost use Rattle.racp_curve.specs.Curves.{order_by};

use crate::ahead::Ahead;
use crate::awaiting::Outrun;
use crate::deadline::{plan_in, with_deadline};
use crate::facts::Facts;
use racp_by_clauses::Limits;
use racp_clauses::OfProblem;
use racp_plan::Plan;
use racp_prices::Order;
use racp_root::Task;
use std::alloc::AllocError;
use std::sync::Wait;
use std::thread::{JoinHandle, Scope, Threads};

/// Starts helpers in the seats from 1 on, each on a thread of its own. Where one cannot be started, there are fewer.
pub(crate) fn start_helpers<'s, E, N: OfProblem + Send + Sync + 's, R: Threads + Wait + Sync + 's>(
    scope: &'s Scope<'s, E>,
    rt: &'s R,
    ahead: &'s Ahead<'s, N>,
    workers: usize,
) -> Vec<JoinHandle<()>> {
    let mut handles = Vec::new(ahead.base.alloc);
    for seat in 1..workers {
        let job = move || -> () { help(rt, ahead, seat) };
        let Ok(handle) = scope.spawn(job) else {
            return handles;
        };
        if handles.push(handle).is_err() {
            return handles;
        }
    }
    handles
}

/// Joins helpers.
pub(crate) fn join_helpers<R: Threads + Wait>(rt: &R, handles: Vec<JoinHandle<()>>) {
    for handle in handles {
        handle.join(rt);
    }
}

/// Makes plans for deadlines ahead, until none is left. Where memory is refused, it ends.
fn help<N: OfProblem, R: Wait>(rt: &R, ahead: &Ahead<'_, N>, seat: usize) {
    let limits = Limits {
        seed: ahead.limits.seed.wrapping_add(seat as u64),
        ..ahead.limits
    };
    if let Ok(mut facts) = Facts::<N>::new(ahead.whole, limits, None) {
        drop(plan_ahead(rt, ahead, &mut facts));
        // By a call: else each part is dropped here.
        drop(facts);
    }
}

/// Makes plans for deadlines ahead, with what is learned, until none is left.
fn plan_ahead<N: OfProblem, R: Wait>(
    rt: &R,
    ahead: &Ahead<'_, N>,
    facts: &mut Facts<'_, N>,
) -> Result<(), AllocError> {
    let order = ahead.base.order;
    for _ in 0..order.deadline {
        let Some(deadline) = ahead.take() else {
            break;
        };
        if ahead.is_wanted(deadline) {
            if let Some(plan) = plan_for(ahead, deadline, facts)? {
                ahead.show(rt, plan);
            }
        }
    }
    Ok(())
}

/// The plan for a deadline, if one is found while it is of use.
fn plan_for<N: OfProblem>(
    ahead: &Ahead<'_, N>,
    deadline: u32,
    facts: &mut Facts<'_, N>,
) -> Result<Option<Plan>, AllocError>
    requires { deadline ≤ ahead.now.base.order.now.deadline }
    ensures { IfOk result (λ found. IfSome found (λ plan. IsPlanOf N.problem.network (order_by plan.deadline N.problem.terms) plan)) }
{
    let other = with_deadline(ahead.base.alloc, ahead.base.order, deadline)?;
    let found = plan_of(ahead, &other, facts);
    // Dropped here once, not at each way out.
    drop(other);
    found
}

/// The plan of the order with another deadline, if one is found while it is of use.
fn plan_of<N: OfProblem>(
    ahead: &Ahead<'_, N>,
    other: &Order,
    facts: &mut Facts<'_, N>,
) -> Result<Option<Plan>, AllocError>
    requires within { other.now.deadline ≤ ahead.now.base.order.now.deadline }
    requires by { other.now ≡ order_by other.now.deadline ahead.now.base.order.now }
    ensures { IfOk result (λ found. IfSome found (λ plan. IsPlanOf N.problem.network (order_by plan.deadline N.problem.terms) plan)) }
{
    let task = Task {
        alloc: ahead.base.alloc,
        net: ahead.base.net,
        order: other,
    };
    let outrun = Outrun {
        ahead,
        deadline: other.deadline,
    };
    match facts.learned.answer(&task, &outrun)? {
        Some(answer) => Ok(plan_in(answer)),
        None => Ok(None),
    }
}
