//! Searches for one optimum side by side.

ghost use Rattle.std.specs.Prelude.{IfOk};
ghost use Rattle.racp_found.specs.Told.{MayBeTold};
ghost use Rattle.racp_by_clauses.specs.Optima.{IsOptimum, IsTaskOf};

use crate::common::Common;
use crate::descent::Descent;
use crate::limits::Limits;
use crate::optimizer::first_draft;
use crate::optimum::{Optimum, optimum_of};
use crate::task::{Task, Tasks};
use crate::telling::Finished;
use crate::worker::Worker;
use racp_clauses::OfProblem;
use racp_found::{Observer, Until};
use std::alloc::AllocError;
use std::sync::Wait;
use std::thread;
use std::thread::{JoinHandle, Scope, Threads};

/// So many conflicts a search may meet before others are started beside it.
const ALONE: u64 = 300;

/// Searches on a thread of its own.
fn help<N: OfProblem, R: Wait>(
    rt: &R,
    common: &Common<'_, N>,
    seat: usize,
) -> Result<Descent<N>, AllocError> {
    let mut worker = Worker::new(common, seat, None)?;
    match follow(rt, common, &mut worker) {
        Ok(()) => Ok(worker.into_descent()),
        Err(refused) => {
            // By a call: else each part is dropped here.
            drop(worker);
            Err(refused)
        }
    }
}

/// Begins with what the others have found so far, and searches.
fn follow<N: OfProblem, R: Wait>(
    rt: &R,
    common: &Common<'_, N>,
    worker: &mut Worker<N>,
) -> Result<(), AllocError> {
    let observer = Finished { common };
    worker.tell(rt, common, &observer)?;
    worker.work(rt, common, &observer)
}

/// Starts the search in a seat on a thread of its own, if one can be had.
fn start_one<'s, E, N: OfProblem + Send + Sync + 's, R: Threads + Wait + Sync + 's>(
    scope: &'s Scope<'s, E>,
    rt: &'s R,
    common: &'s Common<'s, N>,
    seat: usize,
) -> Option<JoinHandle<Result<Descent<N>, AllocError>>> {
    let job = move || -> Result<Descent<N>, AllocError> { help(rt, common, seat) };
    match scope.spawn(job) {
        Ok(handle) => Some(handle),
        Err(_) => None,
    }
}

/// Starts so many searches but the first, each on a thread of its own. Where one cannot be started, there are fewer.
fn start<'s, E, N: OfProblem + Send + Sync + 's, R: Threads + Wait + Sync + 's>(
    scope: &'s Scope<'s, E>,
    rt: &'s R,
    common: &'s Common<'s, N>,
    workers: usize,
) -> Result<Vec<JoinHandle<Result<Descent<N>, AllocError>>>, AllocError> {
    let mut handles = Vec::with_capacity(common.task.alloc, workers)?;
    for seat in 1..workers {
        let Some(handle) = start_one(scope, rt, common, seat) else {
            break;
        };
        handles.push_reserved(handle);
    }
    Ok(handles)
}

/// Joins searches, and takes what one that has finished has found, if nothing that is finished is there.
fn join_all<N: OfProblem, R: Threads + Wait>(
    rt: &R,
    task: Task<'_>,
    handles: Vec<JoinHandle<Result<Descent<N>, AllocError>>>,
    found: &mut Descent<N>,
) {
    for handle in handles {
        if let Ok(other) = handle.join(rt) {
            take_finished(task, found, other);
        }
    }
}

/// Takes what another search has found, if nothing that is finished is there. The floors are those of both.
fn take_finished<N: OfProblem>(task: Task<'_>, found: &mut Descent<N>, mut other: Descent<N>) {
    if found.is_finished(task) {
        found.floors.join(&other.floors);
        drop(other);
    } else {
        other.floors.join(&found.floors);
        *found = other;
    }
}

/// Searches on the calling thread, and lets the others stop.
fn lead<N: OfProblem, O: Observer, R: Wait>(
    rt: &R,
    common: &Common<'_, N>,
    worker: &mut Worker<N>,
    observer: &O,
) -> Result<(), AllocError>
    requires may { MayBeTold N.problem.network N.problem.terms O.may_hear }
{
    let until = Until {
        observer,
        end: &Finished { common },
    };
    let done = worker.work(rt, common, &until);
    common.finish();
    done
}

/// Searches on the calling thread with others beside it, and takes what one of them that has finished has found.
fn in_scope<'a, 'b, N: OfProblem + Send + Sync, O: Observer, R: Threads + Wait + Sync>(
    rt: &'a R,
    common: &'a Common<'a, N>,
    worker: &'b mut Worker<N>,
    workers: usize,
    observer: &'a O,
) -> Result<(), AllocError>
    requires may { MayBeTold N.problem.network N.problem.terms O.may_hear }
{
    thread::scope(
        thread::scope_env(),
        rt,
        move |scope| -> Result<(), AllocError>
            requires { MayBeTold N.problem.network N.problem.terms O.may_hear }
        {
            let handles = start(scope, rt, common, workers)?;
            lead(rt, common, worker, observer)?;
            join_all(rt, common.task, handles, &mut worker.descent);
            Ok(())
        },
    )
}

/// Searches alone for so many conflicts, and then with others beside.
fn search_all<'a, 'b, N: OfProblem + Send + Sync, O: Observer, R: Threads + Wait + Sync>(
    rt: &'a R,
    common: &'a Common<'a, N>,
    worker: &'b mut Worker<N>,
    workers: usize,
    observer: &'a O,
) -> Result<(), AllocError>
    requires may { MayBeTold N.problem.network N.problem.terms O.may_hear }
{
    worker.descent.left = ALONE.min(common.limits.conflicts);
    let task = common.task;
    let tasks = Tasks {
        whole: task,
        part: task,
    };
    worker.descent.go_down(&mut worker.search, tasks, observer)?;
    if worker.descent.is_finished(task) || worker.descent.left > 0 {
        return Ok(());
    }
    let (search, descent) = (&mut worker.search, &mut worker.descent);
    descent.raise_by_halves(search, tasks, observer)?;
    descent.raise_floors(search, tasks, observer, ALONE)?;
    in_scope(rt, common, worker, workers, observer)
}

/// The plan of an order, or that no capacities are enough; or neither: as `optimum_of` finds it, by so many searches, 1 to 64,
/// on threads of their own, which show each other short clauses and the best draft. The bytes of the limits are for all.
///
/// # Errors
///
/// Memory was refused.
pub fn optimum_beside<N: OfProblem + Send + Sync, O: Observer, R: Threads + Wait + Sync>(
    rt: &R,
    task: Task<'_>,
    limits: Limits,
    workers: usize,
    observer: &O,
) -> Result<Optimum, AllocError>
    requires is_of { IsTaskOf N.problem task }
    requires may { MayBeTold N.problem.network N.problem.terms O.may_hear }
    ensures { IfOk result (IsOptimum N.problem.network N.problem.terms) }
{
    if workers < 2 {
        return optimum_of::<N, O>(task, limits, observer);
    }
    let share = limits.bytes / (workers as u64).saturating_add(1);
    let own = Limits {
        bytes: share,
        ..limits
    };
    let draft = first_draft::<N, O>(task, limits, observer)?;
    let common: Common<'_, N> = Common::new(task, own, share)?;
    let mut worker = Worker::new(&common, 0, draft)?;
    match search_all(rt, &common, &mut worker, workers, observer) {
        Ok(()) => worker.into_descent().into_optimum(task),
        Err(refused) => {
            // By a call: else each part is dropped here.
            drop(worker);
            Err(refused)
        }
    }
}
