//! A run of a desk: its workers are started, and joined.

ghost use Rattle.std.specs.Prelude.{◌≡◌, ◌+◌, ◌<◌, ◌≤◌, length, IfOk, IsTrue};
ghost use Rattle.racp_model.specs.Formed.{AreFormed};
ghost use Rattle.racp_desk.specs.Closing.{IsRunClosed, IsEnding};

use crate::closed::Closed;
use crate::fault::DeskFault;
use crate::gate::Gate;
use crate::log::Cause;
use crate::names::RunNames;
use crate::starting::{Started, start};
use crate::state::State;
use crate::stock::Stock;
use crate::watch::Hint;
use crate::worker::{RunSetup, Shared};
use racp_cutset::Local;
use racp_model::{OfNetwork, Stop};
use racp_questions::Series;
use std::alloc::AllocError;
use std::marker::Brand;
use std::mem::replace;
use std::sync::ledger::{Blank, Share};
use std::sync::{Condvar, Mutex, Wait};
use std::thread;
use std::thread::Threads;

/// What all workers had, and whether one could not be started.
#[derive(Drop)]
struct Joined<N: OfNetwork, M: RunNames> {
    stock: Stock<N, M>,
    refused: bool,
}

/// Joins those of so many workers that were started.
fn join_all<N: OfNetwork, M: RunNames, R: Threads + Wait>(
    rt: &R,
    started: Started<N, M>,
    workers: usize,
) -> Joined<N, M>
    ensures { result.stock.share.parts ≡ started.stock.share.parts + length started.handles.items }
{
    let Started { handles, stock } = started;
    let refused = handles.len() + 1 < workers;
    let mut handles = handles;
    let mut stock = stock;
    while let Some(handle) = handles.pop() {
        stock.take_back(handle.join(rt));
    }
    Joined { stock, refused }
}

/// Starts the workers in a scope, and joins them.
///
/// # Errors
///
/// Memory was refused.
fn in_scope<
    'a,
    N: OfNetwork + Send + Sync,
    M: RunNames + Send + Sync,
    S: Series + Send,
    G: Gate + Sync,
    P: Stop + Sync,
    R: Threads + Wait + Sync,
>(
    rt: &'a R,
    shared: &'a Shared<'a, N, M, S, G, P>,
    all: Stock<N, M>,
) -> Result<Joined<N, M>, AllocError>
    requires { all.share.parts ≡ shared.now.setup.limits.workers + 1 }
    ensures { IfOk result (λ joined. joined.stock.share.parts ≡ shared.now.setup.limits.workers + 1) }
{
    thread::scope(
        thread::scope_env(),
        rt,
        move |scope| -> Result<Joined<N, M>, AllocError>
            requires { all.share.parts ≡ shared.now.setup.limits.workers + 1 }
            ensures { IfOk result (λ joined. joined.stock.share.parts ≡ shared.entry.now.setup.limits.workers + 1) }
        {
            let started = start(scope, rt, shared, all)?;
            Ok(join_all(rt, started, shared.setup.limits.workers))
        },
    )
}

/// What a run answers, after its workers were joined: how it ended, where the answer is known, or the desk was halted
/// for a stop or for turns.
///
/// # Errors
///
/// A worker could not be started, or memory was refused.
fn end<N: OfNetwork, M: RunNames, S: Series>(
    state: State<N, M, S>,
    share: Share<M>,
    refused: bool,
) -> Result<Closed, DeskFault>
    requires { share.parts ≡ M.parts }
    ensures { IfOk result (IsRunClosed N.network M.series M.turns M.quiet) }
{
    let mut state = state;
    let mut all = share;
    state.audit(&mut all);
    if !state.is_settled() && !was_ended(state.cause()) {
        // Dropped here once, not at each way out.
        drop(state);
        return Err(if refused {
            DeskFault::NoThread
        } else {
            DeskFault::Memory
        });
    }
    Ok(state.close(all))
}

/// Whether a desk was halted for a stop or for turns.
fn was_ended(cause: Option<Cause>) -> bool
    ensures { IsTrue result → IsEnding cause }
{
    match cause {
        Some(Cause::Stop) => true,
        Some(Cause::Turns) => true,
        Some(Cause::Fault) => false,
        None => false,
    }
}

impl<N: OfNetwork + Send + Sync, G: Gate + Sync, P: Stop + Sync> RunSetup<'_, N, G, P> {
    /// A run about a series. Its workers take the records that others have kept of their own, and leave theirs.
    pub(crate) fn run<S: Series + Send, R: Threads + Wait + Sync>(
        self,
        rt: &R,
        series: S,
        locals: &mut Vec<Local<N>>,
    ) -> Result<Closed, DeskFault>
        requires formed { AreFormed N.network (S.questions series) }
        ensures { IfOk result (IsRunClosed N.network (S.questions series) self.entry.limits.turns (P.is_quiet self.entry.stop.now)) }
    {
        let blank = Blank::new(self.limits.workers as u64 + 1);
        self.run_named::<Brand, S, R>(rt, series, blank, locals)
    }

    /// The run about what `M` names.
    fn run_named<M: RunNames + Send + Sync, S: Series + Send, R: Threads + Wait + Sync>(
        self,
        rt: &R,
        series: S,
        blank: Blank,
        locals: &mut Vec<Local<N>>,
    ) -> Result<Closed, DeskFault>
        requires formed { AreFormed N.network (S.questions series) }
        requires series { S.questions series ≡ M.series }
        requires turns { self.limits.turns ≡ M.turns }
        requires quiet { P.is_quiet self.stop.now ≡ M.quiet }
        requires ledger { blank.name ≡ M.name }
        requires whole { blank.parts ≡ M.parts }
        requires parts { blank.parts ≡ self.limits.workers + 1 }
        ensures { IfOk result (IsRunClosed N.network M.series M.turns M.quiet) }
    {
        let (total, share) = blank.open::<M>();
        let alloc = self.alloc;
        let Ok(state) = State::new(alloc, self.net, series, total) else {
            return Err(DeskFault::Memory);
        };
        let shared = Shared {
            setup: self,
            hint: Hint::new(),
            desk: Mutex::new(state),
            idle: Condvar::new(),
        };
        let stock = Stock {
            share,
            locals: replace(locals, Vec::new(alloc)),
        };
        let Ok(joined) = in_scope(rt, &shared, stock) else {
            return Err(DeskFault::Memory);
        };
        let Joined { stock, refused } = joined;
        *locals = stock.locals;
        end(shared.desk.into_inner(), stock.share, refused)
    }
}
