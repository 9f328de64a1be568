//! Changed orders that are planned side by side.

ghost use Rattle.std.specs.Prelude.{◌≡◌, ◌≤◌, All, IfSome};
ghost use Rattle.std.proofs.Props.{props};
ghost use Rattle.racp_by_clauses.specs.Optima.{IsTaskOf};
ghost use Rattle.racp_found.specs.Told.{HearsAll};
ghost use Rattle.racp_lexfix.specs.Variants.{IsVariantOf};
ghost use Rattle.racp_whatif.specs.Changes.{IsChangeFor};

use crate::change::Change;
use crate::collected::Found;
use crate::variants::finding_by;
use racp_by_clauses::{Limits, Task as Part};
use racp_by_questions::OfTurns;
use racp_clauses::OfProblem;
use racp_desk::Gate;
use racp_found::{Observer, OfOrder, Unheard};
use racp_lexfix::{Crew, Learned};
use racp_model::Stop;
use racp_root::Task;
use std::marker::PhantomData;
use std::sync::Wait;
use std::sync::atomic::{AtomicUsize, Ordering};
use std::thread;
use std::thread::{JoinHandle, Scope, Threads};

/// What workers share that plan changed orders side by side: the order, its changes, an order of which it is a variant, how
/// each of them makes a plan, and how many changes are taken.
#[derive(Drop)]
pub(crate) struct Shared<'a, N: OfOrder, M: OfTurns, K: OfProblem, G: Gate, P: Stop> {
    pub(crate) task: &'a Task<'a>,
    pub(crate) changes: &'a [Change],
    pub(crate) whole: Part<'a>,
    pub(crate) limits: Limits,
    pub(crate) turns: u64,
    pub(crate) memory: usize,
    pub(crate) gate: &'a G,
    pub(crate) stop: &'a P,
    pub(crate) taken: AtomicUsize,
    pub(crate) of: PhantomData<N>,
    pub(crate) by: PhantomData<M>,
    pub(crate) variant_of: PhantomData<K>,
    pub(crate) ghost turns_few: { turns ≤ 1000000000000 },
    pub(crate) ghost memory_few: { memory ≤ 1048576 },
    pub(crate) ghost named: { task.now.net.now ≡ N.network },
    pub(crate) ghost named_terms: { task.now.order.now ≡ N.terms },
    pub(crate) ghost named_turns: { turns ≡ M.turns },
    pub(crate) ghost named_quiet: { P.is_quiet stop.now ≡ M.quiet },
    pub(crate) ghost network: { N.network ≡ K.problem.network },
    pub(crate) ghost variant: { IsVariantOf K.problem.terms N.terms } by { Prim.hlevel props },
    pub(crate) ghost of_whole: { IsTaskOf K.problem whole } by { Prim.hlevel props },
}

impl<'a, N: OfOrder, M: OfTurns, K: OfProblem, G: Gate + Sync, P: Stop + Sync> Shared<
    'a,
    N,
    M,
    K,
    G,
    P,
> {
    /// The next change that no worker has taken: the last one first, since planning by another deadline takes longest.
    fn next(&self) -> Option<Change>
        requires { All (IsChangeFor self.now.task.now.order.now) self.now.changes.now }
        ensures { IfSome result (IsChangeFor self.now.task.now.order.now) }
    {
        let taken = self.taken.fetch_add(1, Ordering::SeqCst);
        let place = self.changes.len().checked_sub(taken)?.checked_sub(1)?;
        self.changes.get(place).copied()
    }

    /// Plans changed orders by one worker, until none is left. Where memory is refused, it ends.
    fn plan<O: Observer, R: Threads + Wait + Sync>(&self, rt: &R, observer: &O) -> Vec<Found<N, M>>
        requires changes { All (IsChangeFor self.now.task.now.order.now) self.now.changes.now }
        requires heard { HearsAll O.may_hear }
    {
        let crew = Crew {
            workers: 1,
            turns: self.turns,
            memory: self.memory,
            gate: self.gate,
            stop: self.stop,
            observer,
        };
        let mut found = Vec::new(self.task.alloc);
        if let Ok(mut learned) = Learned::<K>::new(self.whole, self.limits) {
            self.plan_with(rt, &crew, &mut learned, &mut found);
            // By a call: else each part is dropped here.
            drop(learned);
        }
        found
    }

    /// The same, with what is learned.
    fn plan_with<O: Observer, R: Threads + Wait + Sync>(
        &self,
        rt: &R,
        crew: &Crew<'_, G, P, O>,
        learned: &mut Learned<'_, K>,
        found: &mut Vec<Found<N, M>>,
    )
        requires changes { All (IsChangeFor self.now.task.now.order.now) self.now.changes.now }
        requires heard { HearsAll O.may_hear }
        requires turns { crew.now.turns ≡ M.turns }
        requires quiet { P.is_quiet crew.now.stop.now ≡ M.quiet }
    {
        for _ in 0..self.changes.len() {
            let Some(change) = self.next() else {
                return;
            };
            let Ok(finding) = finding_by::<N, M, K, G, P, O, R>(
                rt, self.task, change, learned, crew,
            ) else {
                return;
            };
            if found.push(Found::of(finding)).is_err() {
                return;
            }
        }
    }
}

/// Plans on the calling thread, with helpers beside it, so many workers in all.
pub(crate) fn in_scope<
    'a,
    N: OfOrder + Send + Sync,
    M: OfTurns + Send + Sync,
    K: OfProblem + Send + Sync,
    G: Gate + Sync,
    P: Stop + Sync,
    O: Observer,
    R: Threads + Wait + Sync,
>(
    rt: &'a R,
    shared: &'a Shared<'a, N, M, K, G, P>,
    workers: usize,
    observer: &'a O,
) -> Vec<Found<N, M>>
    requires changes { All (IsChangeFor shared.now.task.now.order.now) shared.now.changes.now }
    requires heard { HearsAll O.may_hear }
{
    thread::scope(
        thread::scope_env(),
        rt,
        move |scope| -> Vec<Found<N, M>>
            requires { All (IsChangeFor shared.now.task.now.order.now) shared.now.changes.now × HearsAll O.may_hear }
        {
            let handles = start(scope, rt, shared, workers);
            let mut found = shared.plan(rt, observer);
            join_all(rt, handles, &mut found);
            found
        },
    )
}

/// Starts so many workers but the first, each on a thread of its own. Where one cannot be started, there are fewer.
fn start<
    's,
    E,
    N: OfOrder + Send + Sync + 's,
    M: OfTurns + Send + Sync + 's,
    K: OfProblem + Send + Sync + 's,
    G: Gate + Sync,
    P: Stop + Sync,
    R: Threads + Wait + Sync + 's,
>(
    scope: &'s Scope<'s, E>,
    rt: &'s R,
    shared: &'s Shared<'s, N, M, K, G, P>,
    workers: usize,
) -> Vec<JoinHandle<Vec<Found<N, M>>>>
    requires { All (IsChangeFor shared.now.task.now.order.now) shared.now.changes.now }
{
    let mut handles = Vec::new(shared.task.alloc);
    for _ in 1..workers {
        let job = move || -> Vec<Found<N, M>>
            requires { All (IsChangeFor shared.now.task.now.order.now) shared.now.changes.now }
        { shared.plan(rt, &Unheard) };
        let Ok(handle) = scope.spawn(job) else {
            return handles;
        };
        if handles.push(handle).is_err() {
            return handles;
        }
    }
    handles
}

/// Joins workers, and adds what they have found.
fn join_all<N: OfOrder, M: OfTurns, R: Threads + Wait>(
    rt: &R,
    handles: Vec<JoinHandle<Vec<Found<N, M>>>>,
    found: &mut Vec<Found<N, M>>,
) {
    for handle in handles {
        add_all(found, handle.join(rt));
    }
}

/// Adds these, as far as there is memory.
fn add_all<N: OfOrder, M: OfTurns>(found: &mut Vec<Found<N, M>>, others: Vec<Found<N, M>>) {
    for other in others {
        drop(found.push(other));
    }
}
