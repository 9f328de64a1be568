//! Planning by one call with each of its parts by itself, as a planner in another language would give them. Records and
//! clauses take at most 1,024 mebibytes.

ghost use Rattle.std.specs.Prelude.{◌≤◌};
ghost use Rattle.racp_lexfix.specs.Printing.{IsCrowdPrinting, IsPrinting};

use crate::by_workers::{Crew, plan_crowd_by};
use crate::one_thread::plan_alone_within;
use crate::printed::{Printed, Refusal};
use racp_by_questions::Effort;
use racp_cutset::DEFAULT_MEMORY;
use racp_desk::Gate;
use racp_found::Unheard;
use racp_model::Stop;
use std::alloc::Global;
use std::sync::Wait;
use std::thread::Threads;

/// The answer to the texts of a network and an order, made on the calling thread: the text of the plan, or the line
/// that says why there is none.
///
/// # Errors
///
/// A text is refused, the network's first; or memory was refused. It neither stops nor wants a thread.
pub fn plan_alone(alloc: Global, net_bytes: &[u8], order_text: &[u8]) -> Result<Printed, Refusal>
    ensures { IsPrinting net_bytes.now order_text.now result }
{
    plan_alone_within(alloc, net_bytes, order_text, DEFAULT_MEMORY)
}

/// The answer to the texts of a network and an order, made by 1 to 64 workers on threads of their own with so many
/// turns, at most 1,000,000,000,000: the same text as that of `plan_alone`, and how much work was done. A turn is a
/// piece that a worker takes. It enters the gate before it searches the piece, and leaves it where the stop is asked
/// for.
///
/// # Errors
///
/// A text is refused, the network's first; no turn is left, or the stop was asked for; memory was refused; or a worker
/// could not be started.
pub fn plan_crowd<G: Gate + Sync, P: Stop + Sync, R: Threads + Wait + Sync>(
    rt: &R,
    alloc: Global,
    net_bytes: &[u8],
    order_text: &[u8],
    workers: usize,
    turns: u64,
    gate: &G,
    stop: &P,
) -> Result<(Printed, Effort), Refusal>
    requires some_workers { 1 ≤ workers }
    requires workers { workers ≤ 64 }
    requires turns { turns ≤ 1000000000000 }
    ensures { IsCrowdPrinting turns (P.is_quiet stop.now) net_bytes.now order_text.now result }
{
    let memory = DEFAULT_MEMORY;
    let crew = Crew {
        workers,
        turns,
        memory,
        gate,
        stop,
        observer: &Unheard,
    };
    plan_crowd_by(rt, alloc, net_bytes, order_text, crew)
}
