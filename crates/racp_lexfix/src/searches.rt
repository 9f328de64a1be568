//! The plan by clauses: by one search that learns, or by several side by side.

ghost use Rattle.std.specs.Prelude.{IfOk, IfSome};
ghost use Rattle.racp_model.specs.Terms.{release_of, due_of};
ghost use Rattle.racp_model.specs.Window.{IsRootWindow};
ghost use Rattle.racp_found.specs.Told.{MayBeTold};
ghost use Rattle.racp_by_clauses.specs.Optima.{IsOptimum};
ghost use Rattle.racp_lexfix.specs.Stages.{IsStart};

use crate::roots::root_bounds;
use racp_by_clauses::{Limits, Optimum, optimum_beside, optimum_of};
use racp_candidates::AnySeries;
use racp_clauses::Domain;
use racp_found::News;
use racp_model::Window;
use racp_questions::{Asker, Leeway};
use racp_root::{Opening, Task, opening_of};
use std::alloc::AllocError;
use std::marker::Brand;
use std::sync::Wait;
use std::thread::Threads;

/// In how many rounds, at most, the first draft is made better.
const ROUNDS: u32 = 10_000;

/// The seed of the numbers by chance.
const SEED: u64 = 1;

/// Where a search by clauses begins: the root window of an order, and its root bounds.
#[derive(Drop)]
struct Start {
    window: Window,
    bounds: Domain,
}

/// What one search on the calling thread finds of the plan, and the floors that it shows. No search is made where the asker leaves
/// no room for one or wants an end, or there are few vectors from the floors to the roofs.
pub(crate) fn by_clauses<A: Asker<AnySeries>>(
    task: &Task,
    asker: &A,
) -> Result<Option<Optimum>, AllocError>
    requires heard { MayBeTold task.now.net.now task.now.order.now A.may_hear }
    ensures { IfOk result (λ optimum. IfSome optimum (IsOptimum task.now.net.now task.now.order.now)) }
{
    let Some(start) = start_of(task, asker)? else {
        return Ok(None);
    };
    let part = racp_by_clauses::Task {
        alloc: task.alloc,
        net: task.net,
        order: task.order,
        window: &start.window,
        root: &start.bounds,
    };
    let limits = limits_of(asker.leeway());
    Ok(Some(optimum_of::<Brand, A>(part, limits, asker)?))
}

/// The same, by so many searches on threads of their own.
pub(crate) fn by_searches<A: Asker<AnySeries>, R: Threads + Wait + Sync>(
    rt: &R,
    task: &Task,
    workers: usize,
    asker: &A,
) -> Result<Option<Optimum>, AllocError>
    requires heard { MayBeTold task.now.net.now task.now.order.now A.may_hear }
    ensures { IfOk result (λ optimum. IfSome optimum (IsOptimum task.now.net.now task.now.order.now)) }
{
    let Some(start) = start_of(task, asker)? else {
        return Ok(None);
    };
    let part = racp_by_clauses::Task {
        alloc: task.alloc,
        net: task.net,
        order: task.order,
        window: &start.window,
        root: &start.bounds,
    };
    let limits = limits_of(asker.leeway());
    let optimum = optimum_beside::<Brand, A, R>(rt, part, limits, workers, asker)?;
    Ok(Some(optimum))
}

/// Where a search begins, or none where none is to be made, as where the asker wants an end by now. It is told the floors.
fn start_of<A: Asker<AnySeries>>(task: &Task, asker: &A) -> Result<Option<Start>, AllocError>
    requires heard { MayBeTold task.now.net.now task.now.order.now A.may_hear }
    ensures { IfOk result (λ start. IfSome start (IsStart task.now.net.now task.now.order.now)) }
{
    if asker.leeway().conflicts == 0 || asker.is_to_stop() {
        return Ok(None);
    }
    match opening_of(task.alloc, task.net, task.order)? {
        Opening::Root { window, .. } => start_within(task, window, asker),
        _ => Ok(None),
    }
}

/// The same within the root window.
fn start_within<A: Asker<AnySeries>>(
    task: &Task,
    window: Window,
    asker: &A,
) -> Result<Option<Start>, AllocError>
    requires root { IsRootWindow task.now.net.now (release_of task.now.order.now) (due_of task.now.order.now) window }
    requires heard { MayBeTold task.now.net.now task.now.order.now A.may_hear }
    ensures { IfOk result (λ start. IfSome start (IsStart task.now.net.now task.now.order.now)) }
{
    match root_bounds(task.alloc, task.net, task.order, &window)? {
        Some(root) if !root.is_small => {
            asker.hear(News::Floors(&root.floors));
            Ok(Some(Start {
                window,
                bounds: root.bounds,
            }))
        }
        _ => Ok(None),
    }
}

/// How long an asker leaves a search for an optimum.
pub fn limits_of(leeway: Leeway) -> Limits {
    Limits {
        conflicts: leeway.conflicts,
        bytes: leeway.bytes,
        rounds: ROUNDS,
        seed: SEED,
    }
}
