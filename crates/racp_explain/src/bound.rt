//! What is wrong with the texts of a network, an order and a certificate of a bound.

use crate::cause::{of_network, of_order};
use crate::faults::THERE;
use crate::finding::push_more;
use crate::input::Input;
use crate::subject::{Line, Subject};
use racp_model::Network;
use racp_prices::read_order;
use racp_sm::read_sm;
use std::alloc::{AllocError, Global};

/// What is wrong with the texts of a network, an order and a certificate of a bound, in lines that begin with `racp: `; of
/// texts that are read it is that the certificate shows no bound.
///
/// # Errors
///
/// Memory was refused.
pub fn bound_cause(
    alloc: Global,
    net: &Input<'_>,
    order: &Input<'_>,
    proof: &Input<'_>,
) -> Result<String, AllocError> {
    match read_sm(alloc, net.bytes) {
        Ok(network) => of_bound(alloc, net, &network, order, proof),
        Err(fault) => of_network(alloc, net, fault),
    }
}

/// The same of a network that is read.
fn of_bound(
    alloc: Global,
    net: &Input<'_>,
    network: &Network,
    order: &Input<'_>,
    proof: &Input<'_>,
) -> Result<String, AllocError> {
    let (resources, jobs) = (network.resource_count(), network.job_count());
    match read_order(alloc, order.bytes, resources, jobs) {
        Ok(_) => unproved(alloc, net, order, proof),
        Err(fault) => of_order(alloc, net.name, network, order, fault),
    }
}

/// That a text is no certificate of a bound.
fn unproved(
    alloc: Global,
    net: &Input<'_>,
    order: &Input<'_>,
    proof: &Input<'_>,
) -> Result<String, AllocError> {
    let mut text = String::new(alloc);
    write!(
        text,
        "racp: {}: unproved: the text is no certificate of a bound
racp: wanted: what each plan costs at least, as racp prove --facts shows it of {} and {} when it is stopped{THERE}{}",
        proof.name,
        net.name,
        order.name,
        there(proof.bytes)
    )?;
    push_more(&mut text, Subject::Line(Line::Unproved))?;
    Ok(text)
}

/// What is there.
fn there(proof: &[u8]) -> &'static str {
    if proof.starts_with(b"proof 2\nat least ") {
        "a text that tells a bound and does not show it"
    } else if proof.starts_with(b"proof") {
        "a certificate for a plan, which is given behind the plan"
    } else if proof.starts_with(b"deadline ") {
        "a plan, behind which its certificate is given"
    } else {
        "a text that is no certificate"
    }
}
