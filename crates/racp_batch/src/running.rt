//! A table is made.

ghost use Rattle.std.specs.Prelude.{◌≡◌, ℕ, List, Option, IfOk, Ok, is_none, length, false, true};
ghost use Rattle.std.specs.Io.KnownBytes.{Appends};
ghost use Rattle.racp_batch.specs.Lines.{head_line};
ghost use Rattle.racp_batch.specs.Rows.{MayBeOpen};
ghost use Rattle.racp_batch.specs.Tables.{IsTableRun, IsTold};

use crate::batch::{Batch, BatchFault, Ending};
use crate::board::Shared;
use crate::host::Host;
use crate::named::OfCases;
use crate::planning::Planning;
use crate::telling::{write_head, write_rows};
use std::io::Write;
use std::marker::Brand;
use std::sync::Wait;
use std::thread;
use std::thread::{JoinHandle, Scope, Threads};
use std::time::Clock;

/// Has the cases of a batch planned, and writes a first row with titles and a row for each case, in their order: each as soon as
/// all before it are written. The writer comes back.
///
/// # Errors
///
/// A write failed, or memory was refused.
pub fn table_over<H: Host, W: Write + Drop, R: Clock + Threads + Wait + Sync>(
    rt: &R,
    batch: &Batch<'_>,
    planner: &Planning,
    host: &H,
    out: W,
) -> (W, Result<Ending, BatchFault>)
    ensures { IsTableRun batch.now.calendar (is_none planner.now.limit) (H.is_quiet host.now) batch.now.cases.now (W.contents out) (W.contents result.0) result.1 }
{
    table_of::<Brand, H, W, R>(rt, batch, planner, host, out)
}

/// The same, for what `T` names.
fn table_of<T: OfCases + Send + Sync, H: Host, W: Write + Drop, R: Clock + Threads + Wait + Sync>(
    rt: &R,
    batch: &Batch<'_>,
    planner: &Planning,
    host: &H,
    out: W,
) -> (W, Result<Ending, BatchFault>)
    requires cases { batch.now.cases.now ≡ T.cases }
    requires limited { is_none planner.now.limit ≡ T.unlimited }
    requires quiet { H.is_quiet host.now ≡ T.quiet }
    ensures { IsTableRun batch.now.calendar T.unlimited T.quiet T.cases (W.contents out) (W.contents result.0) result.1 }
{
    let mut out = out;
    match write_head(batch, &mut out) {
        Ok(()) => with_rows::<T, H, W, R>(rt, batch, planner, host, out),
        Err(fault) => (out, Err(fault)),
    }
}

/// The same, where the first row is written.
fn with_rows<T: OfCases + Send + Sync, H: Host, W: Write + Drop, R: Clock + Threads + Wait + Sync>(
    rt: &R,
    batch: &Batch<'_>,
    planner: &Planning,
    host: &H,
    out: W,
) -> (W, Result<Ending, BatchFault>)
    requires cases { batch.now.cases.now ≡ T.cases }
    requires limited { is_none planner.now.limit ≡ T.unlimited }
    requires quiet { H.is_quiet host.now ≡ T.quiet }
    ensures { (old : Option (List ℕ)) → Appends old (W.contents out) (head_line batch.now.calendar) →
        IsTableRun batch.now.calendar T.unlimited T.quiet T.cases old (W.contents result.0) result.1 }
{
    match Shared::<T>::new(batch, planner) {
        Ok(shared) => {
            let (out, told) = in_scope(rt, &shared, host, out);
            let ending = ending_of(&shared, told);
            // Dropped here once, not at each way out.
            drop(shared);
            (out, ending)
        }
        Err(_) => (out, Err(BatchFault::Memory)),
    }
}

/// How a table ends that has so many rows.
fn ending_of<T: OfCases>(
    shared: &Shared<'_, T>,
    told: Result<usize, BatchFault>,
) -> Result<Ending, BatchFault>
    requires { shared.now.batch.now.cases.now ≡ T.cases }
    ensures rows { IfOk result (λ ending. told ≡ Ok ending.rows) }
    ensures whole { IfOk result (λ ending. ending.is_whole ≡ true → ending.rows ≡ length T.cases) }
    ensures asked { IfOk result (λ ending. ending.is_whole ≡ false → T.quiet ≡ false) }
{
    let rows = told?;
    let is_whole = rows == shared.batch.cases.len();
    if !is_whole && (shared.is_lost() || !shared.is_asked()) {
        return Err(BatchFault::Memory);
    }
    Ok(Ending { rows, is_whole })
}

/// Starts workers in a scope, writes the rows meanwhile, and joins them.
fn in_scope<
    'a,
    T: OfCases + Send + Sync,
    H: Host,
    W: Write + Drop,
    R: Clock + Threads + Wait + Sync,
>(rt: &'a R, shared: &'a Shared<'a, T>, host: &'a H, out: W) -> (W, Result<usize, BatchFault>)
    requires cases { shared.now.batch.now.cases.now ≡ T.cases }
    requires quiet { H.is_quiet host.now ≡ T.quiet }
    ensures { IfOk result.1 (IsTold shared.now.batch.now.calendar (MayBeOpen T.unlimited T.quiet) T.cases (W.contents out) (W.contents result.0)) }
{
    thread::scope(
        thread::scope_env(),
        rt,
        move |scope| -> (W, Result<usize, BatchFault>)
            requires { (shared.now.batch.now.cases.now ≡ T.cases) × (H.is_quiet host.now ≡ T.quiet) }
            ensures { IfOk result.1 (IsTold shared.entry.now.batch.now.calendar (MayBeOpen T.unlimited T.quiet) T.cases (W.contents out) (W.contents result.0)) }
        {
            let handles = start(scope, rt, shared);
            beside(rt, shared, host, handles, out)
        },
    )
}

/// Starts the workers, each on a thread of its own. Where one cannot be started, there are fewer.
fn start<'s, E, T: OfCases + Send + Sync + 's, R: Clock + Threads + Wait + Sync + 's>(
    scope: &'s Scope<'s, E>,
    rt: &'s R,
    shared: &'s Shared<'s, T>,
) -> Vec<JoinHandle<()>>
    requires { shared.now.batch.now.cases.now ≡ T.cases }
{
    let mut handles = Vec::new(shared.batch.alloc);
    for _ in 0..shared.batch.jobs.min(shared.batch.cases.len()) {
        let job = move || -> ()
            requires { shared.now.batch.now.cases.now ≡ T.cases }
        { shared.work(rt) };
        let Ok(handle) = scope.spawn(job) else {
            return handles;
        };
        if handles.push(handle).is_err() {
            shared.lose();
            return handles;
        }
    }
    handles
}

/// Writes the rows while these workers plan, or plans first if there are none; and joins them.
fn beside<T: OfCases, H: Host, W: Write, R: Clock + Threads + Wait + Sync>(
    rt: &R,
    shared: &Shared<'_, T>,
    host: &H,
    handles: Vec<JoinHandle<()>>,
    out: W,
) -> (W, Result<usize, BatchFault>)
    requires cases { shared.now.batch.now.cases.now ≡ T.cases }
    requires quiet { H.is_quiet host.now ≡ T.quiet }
    ensures { IfOk result.1 (IsTold shared.now.batch.now.calendar (MayBeOpen T.unlimited T.quiet) T.cases (W.contents out) (W.contents result.0)) }
{
    let mut out = out;
    if handles.is_empty() {
        shared.work(rt);
    }
    let told = write_rows(rt, shared, host, handles.len(), &mut out);
    shared.halt();
    join_all(rt, handles);
    (out, told)
}

/// Joins workers.
fn join_all<R: Threads + Wait>(rt: &R, handles: Vec<JoinHandle<()>>) {
    for handle in handles {
        handle.join(rt);
    }
}
