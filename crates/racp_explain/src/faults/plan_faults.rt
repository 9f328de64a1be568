//! What is wrong with a plan that was read.

ghost use Rattle.std.specs.Prelude.{◌≡◌, length};
ghost use Rattle.racp_model.specs.Terms.{AreTermsOf};

use crate::faults::THERE;
use crate::faults::numbered::{at, due_of, end_of, place_of};
use racp_check::PlanFault;
use racp_model::{Network, usage_at};
use racp_plan::Plan;
use racp_prices::{Order, cost_of};
use std::alloc::AllocError;

/// Adds what the head of a plan has to say, and what it says.
///
/// # Errors
///
/// Memory was refused.
pub(crate) fn push_head_finding(
    text: &mut String,
    order: &Order,
    plan: &Plan,
    critical: u64,
) -> Result<(), AllocError> {
    let wanted = order.deadline;
    let (deadline, length) = (plan.deadline, plan.critical);
    write!(
        text,
        "deadline {wanted} and critical {critical}{THERE}deadline {deadline} and critical {length}"
    )
}

/// Adds what is wanted of a plan with this fault, and what it has.
///
/// # Errors
///
/// Memory was refused.
pub(crate) fn push_plan_finding(
    text: &mut String,
    net: &Network,
    order: &Order,
    plan: &Plan,
    fault: PlanFault,
) -> Result<(), AllocError>
    requires terms { AreTermsOf net.now order.now }
    requires capacities { length plan.now.capacities ≡ net.now.resources }
    requires starts { length plan.now.starts ≡ length net.now.jobs }
{
    let starts = plan.starts.as_slice();
    match fault {
        PlanFault::Cost => push_cost(text, net, order, plan),
        PlanFault::Late(job) => push_late(text, net, order, starts, job),
        PlanFault::Order(before, after) => push_order(text, net, starts, before, after),
        PlanFault::Over(resource, time) => push_over(text, net, plan, resource, time),
        PlanFault::Ceiling(resource) => push_ceiling(text, order, plan, resource),
        PlanFault::Early(job) => push_early(text, order, starts, job),
    }
}

/// Adds the cost that a plan has to have, and that which it has.
fn push_cost(text: &mut String, net: &Network, order: &Order, plan: &Plan) -> Result<(), AllocError>
    requires terms { AreTermsOf net.now order.now }
    requires capacities { length plan.now.capacities ≡ net.now.resources }
{
    let wanted = cost_of(net, order, plan.capacities.as_slice());
    let cost = plan.cost;
    write!(
        text,
        "cost {wanted}, for the units of these capacities that are not owned{THERE}cost {cost}"
    )
}

/// Adds when a job has to end, and when it ends.
fn push_late(
    text: &mut String,
    net: &Network,
    order: &Order,
    starts: &[u32],
    job: u32,
) -> Result<(), AllocError> {
    let due = due_of(order, job);
    let end = end_of(net, job, at(starts, job));
    write!(text, "job {job} ends by {due}{THERE}it ends at {end}")
}

/// Adds the end of a job, and the start of one that has to wait for it.
fn push_order(
    text: &mut String,
    net: &Network,
    starts: &[u32],
    before: u32,
    after: u32,
) -> Result<(), AllocError> {
    let end = end_of(net, before, at(starts, before));
    let start = at(starts, after);
    write!(
        text,
        "job {after} starts at {end} or later, when job {before} has ended{THERE}it starts at {start}"
    )
}

/// Adds the units of a resource, and those that are used at a time.
fn push_over(
    text: &mut String,
    net: &Network,
    plan: &Plan,
    resource: u32,
    time: u32,
) -> Result<(), AllocError>
    requires capacities { length plan.now.capacities ≡ net.now.resources }
    requires starts { length plan.now.starts ≡ length net.now.jobs }
{
    let starts = plan.starts.as_slice();
    let capacity = at(plan.capacities.as_slice(), resource);
    let usage = used_at(net, starts, resource, time);
    write!(
        text,
        "at most {capacity} units of resource {resource} at time {time}{THERE}{usage}, by the jobs that run then:"
    )?;
    push_running(text, net, starts, time)
}

/// How many units of the resource with this number are used at a time.
fn used_at(net: &Network, starts: &[u32], resource: u32, time: u32) -> u64
    requires starts { length starts.now ≡ length net.now.jobs }
{
    let place = place_of(resource);
    if place < net.resource_count() {
        usage_at(net, starts, place, time)
    } else {
        0
    }
}

/// Adds the jobs that run at a time.
fn push_running(
    text: &mut String,
    net: &Network,
    starts: &[u32],
    time: u32,
) -> Result<(), AllocError> {
    for job in 1..=net.job_count() as u32 {
        if is_running(net, starts, job, time) {
            write!(text, " {job}")?;
        }
    }
    Ok(())
}

/// Whether a job runs at a time.
fn is_running(net: &Network, starts: &[u32], job: u32, time: u32) -> bool {
    let start = at(starts, job);
    start <= time && (time as u64) < end_of(net, job, start)
}

/// Adds the ceiling of a resource, and its capacity.
fn push_ceiling(
    text: &mut String,
    order: &Order,
    plan: &Plan,
    resource: u32,
) -> Result<(), AllocError> {
    let most = ceiling_of(order, resource);
    let capacity = at(plan.capacities.as_slice(), resource);
    write!(
        text,
        "at most {most} units of resource {resource}{THERE}{capacity}"
    )
}

/// The ceiling of a resource, or 0 if there is none.
fn ceiling_of(order: &Order, resource: u32) -> u32 {
    match &order.ceilings {
        Some(ceilings) => at(ceilings, resource),
        None => 0,
    }
}

/// Adds the release time of a job, and its start.
fn push_early(
    text: &mut String,
    order: &Order,
    starts: &[u32],
    job: u32,
) -> Result<(), AllocError> {
    let release = at(&order.release, job);
    let start = at(starts, job);
    write!(
        text,
        "job {job} starts at {release} or later{THERE}it starts at {start}"
    )
}
