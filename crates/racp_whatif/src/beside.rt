//! Which changed orders are planned side by side.

ghost use Rattle.std.specs.Prelude.{◌≡◌, All, IfOk};
ghost use Rattle.racp_by_clauses.specs.Optima.{IsTaskOf};
ghost use Rattle.racp_found.specs.Told.{HearsAll};
ghost use Rattle.racp_model.specs.Terms.{AreTermsOf};
ghost use Rattle.racp_lexfix.specs.Variants.{IsVariantOf};
ghost use Rattle.racp_whatif.specs.Changes.{IsChangeFor};

use crate::change::Change;
use crate::changing::changed;
use crate::collected::Found;
use crate::side_by_side::{Shared, in_scope};
use racp_by_clauses::{Limits, Task as Part};
use racp_by_questions::OfTurns;
use racp_clauses::OfProblem;
use racp_desk::Gate;
use racp_found::{Observer, OfOrder};
use racp_lexfix::{Crew, limits_of, root_bounds};
use racp_model::Stop;
use racp_model::limits::LATEST_TIME;
use racp_prices::Order;
use racp_root::{Opening, Task, opening_of};
use std::alloc::AllocError;
use std::marker::{Brand, PhantomData};
use std::sync::Wait;
use std::sync::atomic::AtomicUsize;
use std::thread::Threads;

/// What becomes of an order with these changes, as far as workers find it side by side, each with searches of its own: nothing
/// where searches by clauses have no room. What is not found for want of memory or of a thread is left out.
///
/// # Errors
///
/// Memory was refused.
pub(crate) fn found_beside<
    N: OfOrder + Send + Sync,
    M: OfTurns + Send + Sync,
    G: Gate + Sync,
    P: Stop + Sync,
    O: Observer,
    R: Threads + Wait + Sync,
>(
    rt: &R,
    task: &Task<'_>,
    changes: &[Change],
    crew: &Crew<'_, G, P, O>,
) -> Result<Vec<Found<N, M>>, AllocError>
    requires asked { All (IsChangeFor task.now.order.now) changes.now }
    requires heard { HearsAll O.may_hear }
    requires named { task.now.net.now ≡ N.network }
    requires named_terms { task.now.order.now ≡ N.terms }
    requires named_turns { crew.now.turns ≡ M.turns }
    requires named_quiet { P.is_quiet crew.now.stop.now ≡ M.quiet }
{
    if crew.leeway().conflicts == 0 {
        return Ok(Vec::new(task.alloc));
    }
    let latest = latest(task)?;
    let found = found_within::<N, M, G, P, O, R>(rt, task, changes, &latest, crew);
    // Dropped here once, not at each way out.
    drop(latest);
    found
}

/// The order with the latest deadline that is asked about.
fn latest(task: &Task<'_>) -> Result<Order, AllocError>
    ensures terms { IfOk result (AreTermsOf task.now.net.now) }
    ensures variant { IfOk result (λ other. IsVariantOf other task.now.order.now) }
{
    let order = task.order;
    let deadline = order.deadline.saturating_add(1).min(LATEST_TIME);
    changed(task.alloc, order, Change::Deadline { deadline })
}

/// The same, with an order of which this one and its changes are variants, but for changes of what is owned.
fn found_within<
    N: OfOrder + Send + Sync,
    M: OfTurns + Send + Sync,
    G: Gate + Sync,
    P: Stop + Sync,
    O: Observer,
    R: Threads + Wait + Sync,
>(
    rt: &R,
    task: &Task<'_>,
    changes: &[Change],
    latest: &Order,
    crew: &Crew<'_, G, P, O>,
) -> Result<Vec<Found<N, M>>, AllocError>
    requires asked { All (IsChangeFor task.now.order.now) changes.now }
    requires heard { HearsAll O.may_hear }
    requires named { task.now.net.now ≡ N.network }
    requires named_terms { task.now.order.now ≡ N.terms }
    requires named_turns { crew.now.turns ≡ M.turns }
    requires named_quiet { P.is_quiet crew.now.stop.now ≡ M.quiet }
    requires latest { AreTermsOf task.now.net.now latest.now }
    requires variant { IsVariantOf latest.now task.now.order.now }
{
    let (alloc, net) = (task.alloc, task.net);
    let Opening::Root { window, .. } = opening_of(alloc, net, latest)? else {
        return Ok(Vec::new(alloc));
    };
    match root_bounds(alloc, net, latest, &window)? {
        Some(root) if !root.is_small => {
            let whole = Part {
                alloc,
                net,
                order: latest,
                window: &window,
                root: &root.bounds,
            };
            Ok(planned::<N, M, Brand, G, P, O, R>(rt, task, changes, whole, crew))
        }
        _ => Ok(Vec::new(alloc)),
    }
}

/// The same, with the root bounds of that order.
fn planned<
    N: OfOrder + Send + Sync,
    M: OfTurns + Send + Sync,
    K: OfProblem + Send + Sync,
    G: Gate + Sync,
    P: Stop + Sync,
    O: Observer,
    R: Threads + Wait + Sync,
>(
    rt: &R,
    task: &Task<'_>,
    changes: &[Change],
    whole: Part<'_>,
    crew: &Crew<'_, G, P, O>,
) -> Vec<Found<N, M>>
    requires asked { All (IsChangeFor task.now.order.now) changes.now }
    requires heard { HearsAll O.may_hear }
    requires named { task.now.net.now ≡ N.network }
    requires named_terms { task.now.order.now ≡ N.terms }
    requires named_turns { crew.now.turns ≡ M.turns }
    requires named_quiet { P.is_quiet crew.now.stop.now ≡ M.quiet }
    requires network { N.network ≡ K.problem.network }
    requires variant { IsVariantOf K.problem.terms N.terms }
    requires whole { IsTaskOf K.problem whole }
{
    let seats = crew.workers.max(1);
    let limits = limits_of(crew.leeway());
    let shared: Shared<'_, N, M, K, G, P> = Shared {
        task,
        changes,
        whole,
        limits: Limits {
            bytes: limits.bytes / seats as u64,
            ..limits
        },
        turns: crew.turns,
        memory: crew.memory / seats,
        gate: crew.gate,
        stop: crew.stop,
        taken: AtomicUsize::new(0),
        of: PhantomData,
        by: PhantomData,
        variant_of: PhantomData,
    };
    let found = in_scope(rt, &shared, seats.min(changes.len()), crew.observer);
    // Dropped here once, not at each way out.
    drop(shared);
    found
}
