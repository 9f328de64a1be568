//! An order with another deadline, or other ceilings, and what an answer to it says.

ghost use Rattle.std.specs.Prelude.{◌≡◌, ◌≤◌, IfOk, length, option_map};
ghost use Rattle.racp_model.specs.Schedule.{EndsBy};
ghost use Rattle.racp_curve.specs.Curves.{order_by};
ghost use Rattle.racp_curve.specs.Following.{plan_in};
ghost use Rattle.racp_soonest.specs.Teams.{order_with};

use racp_cpm::last_end;
use racp_lexfix::Answer;
use racp_model::{Network, Starts};
use racp_plan::Plan;
use racp_prices::Order;
use std::alloc::{AllocError, Global};

/// The order with another deadline, in time units; nothing else changes.
pub(crate) fn with_deadline(
    alloc: Global,
    order: &Order,
    deadline: u32,
) -> Result<Order, AllocError>
    ensures { IfOk result (λ other. other ≡ order_by deadline order.now) }
{
    let ceilings = copied(alloc, &order.ceilings)?;
    with_terms(alloc, order, deadline, ceilings)
}

/// The order with another deadline, in time units, and these ceilings; nothing else changes.
pub(crate) fn with_terms(
    alloc: Global,
    order: &Order,
    deadline: u32,
    ceilings: Option<Vec<u32>>,
) -> Result<Order, AllocError>
    ensures { IfOk result (λ other. other ≡ order_with deadline (option_map (λ c. c.items) ceilings) order.now) }
{
    let prices = order.prices.to_vec(alloc)?;
    let owned = order.owned.to_vec(alloc)?;
    let release = order.release.to_vec(alloc)?;
    let due = order.due.to_vec(alloc)?;
    Ok(Order {
        deadline,
        prices,
        owned,
        ceilings,
        release,
        due,
    })
}

/// A copy of the numbers, if there are any.
fn copied(alloc: Global, numbers: &Option<Vec<u32>>) -> Result<Option<Vec<u32>>, AllocError>
    ensures { IfOk result (λ copy. option_map (λ c. c.items) copy ≡ option_map (λ c. c.items) numbers.now) }
{
    match numbers {
        Some(numbers) => Ok(Some(numbers.to_vec(alloc)?)),
        None => Ok(None),
    }
}

/// The plan that an answer has, if it is one.
pub(crate) fn plan_in(answer: Answer) -> Option<Plan>
    ensures { result ≡ plan_in answer }
{
    match answer {
        Answer::Plan(plan) => Some(plan),
        Answer::Impossible { longest: _ } => None,
        Answer::Due { job: _ } => None,
        Answer::Ceiling => None,
    }
}

/// When the last job ends, of starts by which each job ends by a deadline, in time units.
pub(crate) fn end_of(net: &Network, starts: &Starts, deadline: u32) -> u32
    requires places { length starts.now ≡ length net.now.jobs }
    requires ends { EndsBy net.now (λ _. deadline) starts.now }
    ensures within { result ≤ deadline }
    ensures ends { EndsBy net.now (λ _. result) starts.now }
{
    last_end(net, starts) as u32
}
