//! The workers of a run are started.

ghost use Rattle.std.specs.Prelude.{◌≡◌, ◌+◌, ◌<◌, length, IfOk};

use crate::gate::Gate;
use crate::log::Cause;
use crate::names::RunNames;
use crate::stock::Stock;
use crate::worker::{RunSetup, Shared, Worker, work};
use racp_model::{OfNetwork, Stop};
use racp_questions::Series;
use std::alloc::AllocError;
use std::sync::Wait;
use std::sync::ledger::Share;
use std::thread::{JoinHandle, Scope, Threads};

/// Workers that were started, and what is left beside what they have.
#[derive(Drop)]
pub(crate) struct Started<N: OfNetwork, M: RunNames> {
    pub(crate) handles: Vec<JoinHandle<Worker<N, M>>>,
    pub(crate) stock: Stock<N, M>,
}

/// Halts the desk, since a worker could not be started, and tells all that wait.
fn refuse<'a, N: OfNetwork, M: RunNames, S: Series, G: Gate, P: Stop, R: Wait>(
    rt: &R,
    shared: &Shared<'a, N, M, S, G, P>,
    mine: &mut Share<M>,
)
    requires { 0 < mine.old.parts }
    ensures { mine.new.parts ≡ mine.old.parts }
{
    shared.desk.lock(rt).halt(Cause::Fault, mine);
    shared.idle.notify_all();
}

/// Starts the workers but the first, each on a thread of its own, and does the work of the first on the calling thread.
/// Where one cannot be started, the desk is halted, no further one is started, and the work that it would have done ends
/// at once on the calling thread.
///
/// # Errors
///
/// Memory was refused.
pub(crate) fn start<
    's,
    E,
    N: OfNetwork + Send + Sync + 's,
    M: RunNames + Send + Sync + 's,
    S: Series + Send + 's,
    G: Gate + Sync + 's,
    P: Stop + Sync + 's,
    R: Threads + Wait + Sync + 's,
>(
    scope: &'s Scope<'s, E>,
    rt: &'s R,
    shared: &'s Shared<'s, N, M, S, G, P>,
    all: Stock<N, M>,
) -> Result<Started<N, M>, AllocError>
    requires { all.share.parts ≡ shared.now.setup.limits.workers + 1 }
    ensures { IfOk result (λ started.
        started.stock.share.parts + length started.handles.items ≡ shared.now.setup.limits.workers + 1) }
{
    let RunSetup {
        alloc,
        board,
        limits,
        ..
    } = &shared.setup;
    let workers = limits.workers;
    let mut stock = all;
    let mut handles = Vec::with_capacity(*alloc, workers)?;
    for seat in 1..workers {
        let worker = stock.hire(*alloc, board, seat);
        let job = move || -> Worker<N, M> { work(rt, shared, worker) };
        match scope.spawn(job) {
            Ok(handle) => handles.push_reserved(handle),
            Err(error) => {
                refuse(rt, shared, &mut stock.share);
                stock.take_back((error.value)());
                break;
            }
        }
    }
    let worker = stock.hire(*alloc, board, 0);
    stock.take_back(work(rt, shared, worker));
    Ok(Started { handles, stock })
}
