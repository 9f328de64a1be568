//! The answers if a text is refused, or planning ended early.

ghost use Rattle.std.specs.Prelude.{IfOk};
ghost use Rattle.racp_cli.specs.Responses.{IsNetworkRefused, IsOrderRefused, IsRefusedLine};

use crate::lines::{order_refused_line, refused_line, stopped_line};
use crate::status::{REFUSED, STOPPED, STREAM_FAILED};
use racp_lexfix::{PlanStop, Refusal};
use racp_prices::OrderFault;
use racp_sm::{SmFault, SmFaultKind};
use std::alloc::{AllocError, Global};

/// The status and the line if a network text is refused.
///
/// # Errors
///
/// Memory ran out while the text was read, or for the line.
pub(crate) fn network_refused(alloc: Global, fault: SmFault) -> Result<(u8, Vec<u8>), AllocError>
    ensures { IfOk result (λ answer. IsNetworkRefused fault answer.0 answer.1.items) }
{
    match fault.kind {
        SmFaultKind::Memory => Err(AllocError),
        _ => Ok((REFUSED, refused_line(alloc, fault)?)),
    }
}

/// The status and the line if an order text is refused.
///
/// # Errors
///
/// Memory ran out while the text was read, or for the line.
pub(crate) fn order_refused(alloc: Global, fault: OrderFault) -> Result<(u8, Vec<u8>), AllocError>
    ensures { IfOk result (λ answer. IsOrderRefused fault answer.0 answer.1.items) }
{
    match fault {
        OrderFault::Memory => Err(AllocError),
        _ => Ok((REFUSED, order_refused_line(alloc, fault)?)),
    }
}

/// The status and the line if there is no answer.
///
/// # Errors
///
/// Memory ran out while a text was read, for the plan, or for the line.
pub(crate) fn refused(alloc: Global, refusal: Refusal) -> Result<(u8, Vec<u8>), AllocError>
    ensures { IfOk result (λ line. IsRefusedLine refusal line.0 line.1.items) }
{
    match refusal {
        Refusal::Sm(fault) => network_refused(alloc, fault),
        Refusal::Order(fault) => order_refused(alloc, fault),
        Refusal::Stop(PlanStop::Stopped { not_before }) => {
            Ok((STOPPED, stopped_line(alloc, not_before.as_slice())?))
        }
        Refusal::Stop(PlanStop::Memory) => Err(AllocError),
        Refusal::Stop(PlanStop::NoThread) => { Ok((STREAM_FAILED, b"no thread\n".to_vec(alloc)?)) }
    }
}
