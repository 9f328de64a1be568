//! The times of an order: the critical length and the root window, or why no starts are in time.

ghost use Rattle.std.specs.Prelude.{◌≡◌, IfOk};
ghost use Rattle.racp_model.specs.Terms.{AreTermsOf};
ghost use Rattle.racp_root.specs.Openings.{IsOpening};

use racp_cpm::{early, first_late, last_end, window_above};
use racp_model::{Network, Window};
use racp_prices::{Order, due_times};
use std::alloc::{AllocError, Global};

/// What the times of an order leave of a project, before capacities are looked at.
#[derive(Drop)]
pub enum Opening {
    /// All starts in time that keep precedence lie in the root window.
    Root {
        /// The critical length, in time units: at most the deadline.
        critical: u64,
        /// From the early starts at or above the release times to the late starts by the due times, in time units.
        window: Window,
    },
    /// No starts are in time: the critical length exceeds the deadline.
    TooLong {
        /// The critical length, in time units.
        critical: u64,
    },
    /// No starts are in time: the critical length does not exceed the deadline, but the early finish of a job its due
    /// time.
    TooLate {
        /// The number of the first such job, from 1.
        job: u32,
    },
}

/// The critical length and the root window of an order for a network, or why no starts are in time. The early starts
/// are computed once.
///
/// # Errors
///
/// Memory was refused.
pub fn opening_of(alloc: Global, net: &Network, order: &Order) -> Result<Opening, AllocError>
    requires { AreTermsOf net.now order.now }
    ensures { IfOk result (IsOpening net.now order.now) }
{
    let starts = early(alloc, net, order.release.as_slice())?;
    let critical = last_end(net, &starts);
    if (order.deadline as u64) < critical {
        return Ok(Opening::TooLong { critical });
    }
    let due = due_times(alloc, order)?;
    if let Some(job) = first_late(net, &starts, &due) {
        return Ok(Opening::TooLate { job });
    }
    let window = window_above(alloc, net, starts, &due)?;
    Ok(Opening::Root { critical, window })
}
