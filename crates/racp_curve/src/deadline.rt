//! An order with another deadline.

ghost use Rattle.std.specs.Prelude.{◌≡◌, ◌+◌, ◌≤◌, option_map, IfOk, IfErr};
ghost use Rattle.racp_by_questions.specs.Stops.{IsPlanStop};
ghost use Rattle.racp_curve.specs.Curves.{order_by, AreNotAfterEnough, MayHear};
ghost use Rattle.racp_curve.specs.Following.{order_within, plan_in, IsGroundOf, IsPlanOrNone, IsRootOrNone};

use crate::facts::Facts;
use crate::ground::Ground;
use racp_candidates::AnySeries;
use racp_clauses::OfProblem;
use racp_found::News;
use racp_lexfix::{Answer, PlanStop, plan};
use racp_model::{Capacities, Window};
use racp_plan::Plan;
use racp_prices::Order;
use racp_questions::Asker;
use racp_root::{Opening, opening_of};
use std::alloc::{AllocError, Global};

/// The order with another deadline, in time units; nothing else changes.
pub(crate) fn with_deadline(
    alloc: Global,
    order: &Order,
    deadline: u32,
) -> Result<Order, AllocError>
    ensures { IfOk result (λ other. other ≡ order_by deadline order.now) }
{
    let prices = order.prices.to_vec(alloc)?;
    let owned = order.owned.to_vec(alloc)?;
    let ceilings = copied(alloc, &order.ceilings)?;
    let release = order.release.to_vec(alloc)?;
    let due = order.due.to_vec(alloc)?;
    Ok(Order {
        deadline,
        prices,
        owned,
        ceilings,
        release,
        due,
    })
}

/// The order with another deadline, in time units, and these capacities as its ceilings; nothing else changes.
pub(crate) fn with_ceilings(
    alloc: Global,
    order: &Order,
    deadline: u32,
    capacities: &Capacities,
) -> Result<Order, AllocError>
    ensures { IfOk result (λ other. other ≡ order_within capacities.now (order_by deadline order.now)) }
{
    let mut other = with_deadline(alloc, order, deadline)?;
    other.ceilings = Some(capacities.as_slice().to_vec(alloc)?);
    Ok(other)
}

/// A copy of the numbers, if there are any.
fn copied(alloc: Global, numbers: &Option<Vec<u32>>) -> Result<Option<Vec<u32>>, AllocError>
    ensures { IfOk result (λ copy. option_map (λ c. c.items) copy ≡ option_map (λ c. c.items) numbers.now) }
{
    match numbers {
        Some(numbers) => Ok(Some(numbers.to_vec(alloc)?)),
        None => Ok(None),
    }
}

/// The plan for another deadline, which is at most the order's; or none if there is no plan for it. Where facts do not tell,
/// questions go to the asker, which is about this network.
pub(crate) fn plan_by<N: OfProblem, A: Asker<AnySeries>>(
    ground: &Ground,
    deadline: u32,
    facts: &mut Option<Facts<'_, N>>,
    asker: &mut A,
) -> Result<Option<Plan>, PlanStop>
    requires named { A.about asker.old ground.now.net.now }
    requires of { IsGroundOf N.problem ground.now }
    requires deadline { deadline ≤ ground.now.order.now.deadline }
    requires hears { MayHear ground.now.net.now ground.now.order.now A.may_hear }
    ensures network { A.about asker.new ground.now.net.now }
    ensures plan { IfOk result (IsPlanOrNone ground.now.net.now (order_by deadline ground.now.order.now)) }
    ensures stop { IfErr result (IsPlanStop (AreNotAfterEnough ground.now.net.now ground.now.order.now (deadline + 1))
        (A.may_stop asker.new) (A.may_want_thread asker.new)) }
{
    prove!(1 <= ground.net.job_count());
    asker.hear(News::Deadline(deadline));
    let other = with_deadline(ground.alloc, ground.order, deadline)?;
    if let Some(facts) = facts {
        facts.move_to(deadline);
        if let Some(known) = facts.known_answer(ground, &other, asker)? {
            return Ok(plan_in(known));
        }
    }
    let answer = plan(ground.alloc, ground.net, &other, asker)?;
    Ok(plan_in(answer))
}

/// The plan that an answer has.
pub(crate) fn plan_in(answer: Answer) -> Option<Plan>
    ensures { result ≡ plan_in answer }
{
    match answer {
        Answer::Plan(plan) => Some(plan),
        Answer::Impossible { longest: _ } => None,
        Answer::Due { job: _ } => None,
        Answer::Ceiling => None,
    }
}

/// The root window for another deadline, which is at most the order's; or none if no starts are in time.
pub(crate) fn root_by(ground: &Ground, deadline: u32) -> Result<Option<Window>, AllocError>
    requires { deadline ≤ ground.now.order.now.deadline }
    ensures { IfOk result (IsRootOrNone ground.now.net.now (order_by deadline ground.now.order.now)) }
{
    prove!(1 <= ground.net.job_count());
    let other = with_deadline(ground.alloc, ground.order, deadline)?;
    match opening_of(ground.alloc, ground.net, &other)? {
        Opening::Root {
            critical: _,
            window,
        } => Ok(Some(window)),
        Opening::TooLong { critical: _ } => Ok(None),
        Opening::TooLate { job: _ } => Ok(None),
    }
}
