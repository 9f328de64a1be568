//! What is wrong with a plan that was read.

ghost use Rattle.std.specs.Prelude.{◌≡◌, length};
ghost use Rattle.racp_model.specs.Terms.{AreTermsOf};

use crate::faults::{push_head_finding, push_plan_finding};
use crate::finding::push_more;
use crate::opening::push_line;
use crate::subject::{Line, Subject};
use racp_check::{PlanFault, check_plan};
use racp_cpm::longest;
use racp_model::Network;
use racp_plan::Plan;
use racp_prices::Order;
use std::alloc::{AllocError, Global};

/// What is wrong with a plan that was read.
pub(crate) fn of_fault(
    alloc: Global,
    net: &Network,
    order: &Order,
    name: &str,
    plan: &Plan,
) -> Result<String, AllocError>
    requires terms { AreTermsOf net.now order.now }
    requires capacities { length plan.now.capacities ≡ net.now.resources }
    requires starts { length plan.now.starts ≡ length net.now.jobs }
{
    let critical = longest(alloc, net, &order.release)?;
    let mut text = String::new(alloc);
    let pushed = if plan.deadline != order.deadline || plan.critical != critical {
        push_head(&mut text, order, name, plan, critical)
    } else {
        match check_plan(net, order, plan) {
            Ok(()) => Ok(()),
            Err(fault) => push_fault(&mut text, name, fault, plan, net, order),
        }
    };
    pushed?;
    Ok(text)
}

/// Adds that the head of a plan is wrong.
fn push_head(
    text: &mut String,
    order: &Order,
    name: &str,
    plan: &Plan,
    critical: u64,
) -> Result<(), AllocError> {
    push_line(text, name, Line::Head)?;
    push_head_finding(text, order, plan, critical)?;
    push_more(text, Subject::Line(Line::Head))
}

/// Adds what is wrong with a plan with this fault.
fn push_fault(
    text: &mut String,
    name: &str,
    fault: PlanFault,
    plan: &Plan,
    net: &Network,
    order: &Order,
) -> Result<(), AllocError>
    requires terms { AreTermsOf net.now order.now }
    requires capacities { length plan.now.capacities ≡ net.now.resources }
    requires starts { length plan.now.starts ≡ length net.now.jobs }
{
    let line = line_of(fault);
    push_line(text, name, line)?;
    push_plan_finding(text, net, order, plan, fault)?;
    push_more(text, Subject::Line(line))
}

/// The line that tells of a fault.
fn line_of(fault: PlanFault) -> Line {
    match fault {
        PlanFault::Cost => Line::Cost,
        PlanFault::Late(_) => Line::Late,
        PlanFault::Order(_, _) => Line::Order,
        PlanFault::Over(_, _) => Line::Over,
        PlanFault::Ceiling(_) => Line::Ceiling,
        PlanFault::Early(_) => Line::Early,
    }
}
