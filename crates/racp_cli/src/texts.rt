//! Reading the texts of a network and an order.

ghost use Rattle.std.specs.Prelude.{IfErr, IfOk};
ghost use Rattle.racp_model.specs.Terms.{AreTermsOf};
ghost use Rattle.racp_lexfix.specs.Printing.{AreTextsOf};
ghost use Rattle.racp_cli.specs.Responses.{IsRefusedText};

use crate::refusal::{network_refused, order_refused};
use racp_model::Network;
use racp_prices::{Order, read_order};
use racp_sm::read_sm;
use std::alloc::{AllocError, Global};

/// The network and the order of two texts.
///
/// # Errors
///
/// The answer if a text is refused, the network's first: its status and its line, or that memory ran out.
pub(crate) fn read_texts(
    alloc: Global,
    net: &[u8],
    order: &[u8],
) -> Result<(Network, Order), Result<(u8, Vec<u8>), AllocError>>
    ensures read { IfOk result (λ read. AreTextsOf net.now order.now read.0 read.1) }
    ensures terms { IfOk result (λ read. AreTermsOf read.0 read.1) }
    ensures refused { IfErr result (λ refused. IfOk refused (λ line. IsRefusedText net.now order.now line.0 line.1.items)) }
{
    let net = match read_sm(alloc, net) {
        Ok(net) => net,
        Err(fault) => return Err(network_refused(alloc, fault)),
    };
    match read_order(alloc, order, net.resource_count(), net.job_count()) {
        Ok(order) => Ok((net, order)),
        Err(fault) => Err(order_refused(alloc, fault)),
    }
}
