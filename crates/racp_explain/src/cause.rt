//! What is wrong with the texts of a command.

ghost use Rattle.std.specs.Prelude.{◌++◌, IfOk, string_bytes};
ghost use Rattle.std.specs.Io.{StartsWith};
ghost use Rattle.racp_model.specs.Terms.{AreTermsOf};
ghost use Rattle.racp_explain.specs.Causes.{IsNetworkCause, network_head, order_head, plan_head};

use crate::faults::{Sizes, THERE, push_network_finding, push_order_finding, push_text_finding};
use crate::faulty::of_fault;
use crate::finding::{push_more, push_short};
use crate::input::Input;
use crate::opening::of_opening;
use crate::placing::{Named, line_text, placed};
use crate::subject::{Line, Subject};
use racp_model::Network;
use racp_plan::{TextFault, read_plan};
use racp_prices::{Order, OrderFault, read_order};
use racp_sm::{SmFault, read_sm};
use std::alloc::{AllocError, Global};

/// What is wrong with a network text, in lines that begin with `racp: `; nothing if it is not refused.
///
/// # Errors
///
/// Memory was refused.
pub fn network_cause(alloc: Global, net: &Input<'_>) -> Result<String, AllocError>
    ensures { IfOk result (λ text. IsNetworkCause net.now (string_bytes text)) }
{
    match read_sm(alloc, net.bytes) {
        Ok(_) => Ok(String::new(alloc)),
        Err(fault) => of_network(alloc, net, fault),
    }
}

/// What is wrong with the texts of a network and an order, or why there is no plan for them, in lines that begin with
/// `racp: `. Of texts for which there may be a plan it is that the ceilings are too low, and nothing if there are none.
///
/// # Errors
///
/// Memory was refused.
pub fn order_cause(
    alloc: Global,
    net: &Input<'_>,
    order: &Input<'_>,
) -> Result<String, AllocError> {
    match read_sm(alloc, net.bytes) {
        Ok(network) => of_terms(alloc, net.name, &network, order),
        Err(fault) => of_network(alloc, net, fault),
    }
}

/// What is wrong with the text of an order for a network, or why there is no plan for it.
fn of_terms(
    alloc: Global,
    net: &str,
    network: &Network,
    order: &Input<'_>,
) -> Result<String, AllocError> {
    let (resources, jobs) = (network.resource_count(), network.job_count());
    match read_order(alloc, order.bytes, resources, jobs) {
        Ok(terms) => of_opening(alloc, network, order.name, &terms),
        Err(fault) => of_order(alloc, net, network, order, fault),
    }
}

/// What is wrong with the texts of a network, an order and a plan, in lines that begin with `racp: `; nothing if the
/// plan is right.
///
/// # Errors
///
/// Memory was refused.
pub fn plan_cause(
    alloc: Global,
    net: &Input<'_>,
    order: &Input<'_>,
    plan: &Input<'_>,
) -> Result<String, AllocError> {
    match read_sm(alloc, net.bytes) {
        Ok(network) => of_plan(alloc, net.name, &network, order, plan),
        Err(fault) => of_network(alloc, net, fault),
    }
}

/// What is wrong with the texts of an order and a plan for a network.
fn of_plan(
    alloc: Global,
    net: &str,
    network: &Network,
    order: &Input<'_>,
    plan: &Input<'_>,
) -> Result<String, AllocError> {
    let (resources, jobs) = (network.resource_count(), network.job_count());
    match read_order(alloc, order.bytes, resources, jobs) {
        Ok(terms) => of_plan_text(alloc, network, &terms, plan),
        Err(fault) => of_order(alloc, net, network, order, fault),
    }
}

/// What is wrong with the text of a plan for a network and an order.
fn of_plan_text(
    alloc: Global,
    network: &Network,
    terms: &Order,
    plan: &Input<'_>,
) -> Result<String, AllocError>
    requires { AreTermsOf network.now terms.now }
{
    match read_plan(alloc, plan.bytes, network) {
        Ok(read) => of_fault(alloc, network, terms, plan.name, &read),
        Err(fault) => of_text(alloc, network, plan, fault),
    }
}

/// What is wrong with the texts of a network, an order, a plan and a certificate, in lines that begin with `racp: `; of
/// a plan that is right it is that the certificate does not prove it.
///
/// # Errors
///
/// Memory was refused.
pub fn proof_cause(
    alloc: Global,
    net: &Input<'_>,
    order: &Input<'_>,
    plan: &Input<'_>,
    proof: &str,
) -> Result<String, AllocError> {
    let mut text = plan_cause(alloc, net, order, plan)?;
    if text.is_empty() {
        push_unproved(&mut text, plan.name, proof)?;
    }
    Ok(text)
}

/// Adds that a text is no certificate for a plan.
fn push_unproved(text: &mut String, plan: &str, proof: &str) -> Result<(), AllocError> {
    write!(
        text,
        "racp: {proof}: unproved: the text is no certificate for this plan
racp: wanted: a certificate for {plan}, as racp prove makes it of its network and order{THERE}a text that is none"
    )?;
    push_more(text, Subject::Line(Line::Unproved))
}

/// What is told of a network text that is refused.
pub(crate) fn of_network(
    alloc: Global,
    net: &Input<'_>,
    fault: SmFault,
) -> Result<String, AllocError>
    ensures { IfOk result (λ text. StartsWith (string_bytes text) (network_head net.now.name.now fault)) }
{
    let mut rest = String::new(alloc);
    push_network(alloc, &mut rest, net.bytes, fault)?;
    let named = Named {
        format: "sm",
        number: fault.kind as u8,
        name: fault.kind.name(),
    };
    line_text(alloc, net.name, fault.line, named, rest.as_str())
}

/// Adds what is told of a fault of a network text after its name.
fn push_network(
    alloc: Global,
    text: &mut String,
    bytes: &[u8],
    fault: SmFault,
) -> Result<(), AllocError> {
    let subject = Subject::Sm(fault.kind);
    push_short(text, subject)?;
    push_network_finding(alloc, text, fault, bytes)?;
    push_more(text, subject)
}

/// What is told of an order that is refused.
pub(crate) fn of_order(
    alloc: Global,
    net: &str,
    network: &Network,
    order: &Input<'_>,
    fault: OrderFault,
) -> Result<String, AllocError>
    ensures { IfOk result (λ text. StartsWith (string_bytes text) (order_head order.now.name.now fault)) }
{
    let sizes = Sizes {
        net,
        resources: network.resource_count(),
        jobs: network.job_count(),
    };
    let mut rest = String::new(alloc);
    push_order(alloc, &mut rest, order.bytes, fault, sizes)?;
    let named = Named {
        format: "order",
        number: fault as u8,
        name: fault.name(),
    };
    placed(alloc, order.name, "", named, rest.as_str())
}

/// Adds what is told of a fault of an order after its name.
fn push_order(
    alloc: Global,
    text: &mut String,
    bytes: &[u8],
    fault: OrderFault,
    sizes: Sizes<'_>,
) -> Result<(), AllocError> {
    let subject = Subject::Order(fault);
    push_short(text, subject)?;
    push_order_finding(alloc, text, fault, bytes, sizes)?;
    push_more(text, subject)
}

/// What is told of a plan text that is refused.
fn of_text(
    alloc: Global,
    network: &Network,
    plan: &Input<'_>,
    fault: TextFault,
) -> Result<String, AllocError>
    ensures { IfOk result (λ text. StartsWith (string_bytes text) (plan_head plan.now.name.now fault)) }
{
    let mut rest = String::new(alloc);
    push_text(&mut rest, network, plan.bytes, fault)?;
    let named = Named {
        format: "plan",
        number: fault.kind as u8,
        name: fault.kind.name(),
    };
    let line = fault.line;
    line_text(alloc, plan.name, line, named, rest.as_str())
}

/// Adds what is told of a fault of a plan text after its name.
fn push_text(
    text: &mut String,
    network: &Network,
    bytes: &[u8],
    fault: TextFault,
) -> Result<(), AllocError> {
    let subject = Subject::Plan(fault.kind);
    push_short(text, subject)?;
    push_text_finding(text, fault, bytes, network)?;
    push_more(text, subject)
}
