//! A run by one call with each of its parts by itself, as a planner in another language would give them.

ghost use Rattle.std.specs.Prelude.{◌≡◌, ◌≤◌, IfOk};
ghost use Rattle.racp_model.specs.Formed.{AreFormed};
ghost use Rattle.racp_desk.specs.Closing.{IsRunClosed};

use crate::closed::Closed;
use crate::fault::DeskFault;
use crate::gate::Gate;
use crate::limits::RunLimits;
use crate::worker::RunSetup;
use racp_cutset::Board;
use racp_model::{Network, OfNetwork, Stop};
use racp_questions::Series;
use std::alloc::Global;
use std::sync::Wait;
use std::thread::Threads;

/// Lets so many workers, 1 to 64, answer a series of questions about a network: the first yes, or that there is none, or,
/// where they were stopped or no turn is left, before which question each is a no. A turn is a piece that is taken, at most
/// 1,000,000,000,000; a piece is searched over at most `quantum` nodes, 1 to 1,000,000.
///
/// # Errors
///
/// Memory was refused, or a worker could not be started, and the answer is not known.
pub fn run<
    N: OfNetwork + Send + Sync,
    S: Series + Send,
    G: Gate + Sync,
    P: Stop + Sync,
    R: Threads + Wait + Sync,
>(
    rt: &R,
    alloc: Global,
    net: &Network,
    series: S,
    workers: usize,
    quantum: u64,
    turns: u64,
    board: &Board<N>,
    gate: &G,
    stop: &P,
) -> Result<Closed, DeskFault>
    requires named { net.now ≡ N.network }
    requires formed { AreFormed net.now (S.questions series) }
    requires some_workers { 1 ≤ workers }
    requires workers { workers ≤ 64 }
    requires some_nodes { 1 ≤ quantum }
    requires quantum { quantum ≤ 1000000 }
    requires turns { turns ≤ 1000000000000 }
    ensures { IfOk result (IsRunClosed net.now (S.questions series) turns (P.is_quiet stop.now)) }
{
    let setup = RunSetup {
        alloc,
        net,
        limits: RunLimits {
            workers,
            quantum,
            turns,
        },
        board,
        gate,
        stop,
    };
    let mut locals = Vec::new(alloc);
    let closed = setup.run(rt, series, &mut locals);
    drop(locals);
    closed
}
