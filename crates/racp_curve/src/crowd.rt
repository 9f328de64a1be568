//! The curve, followed by workers.

ghost use Rattle.std.specs.Prelude.{◌≡◌, ◌≤◌, IfOk, IfErr, ⊤};
ghost use Rattle.racp_model.specs.Terms.{AreTermsOf};
ghost use Rattle.racp_by_clauses.specs.Optima.{IsTaskOf};
ghost use Rattle.racp_by_questions.specs.Crowds.{MayStop};
ghost use Rattle.racp_curve.specs.Curves.{IsCurveAnswer, IsCurveStop, MayHear};
ghost use Rattle.racp_curve.specs.Following.{IsFollowedByCrew, IsGroundOf};

use crate::ahead::Ahead;
use crate::by_desks::{curve_by, curve_named};
use crate::facts::Facts;
use crate::ground::Ground;
use crate::helping::{join_helpers, start_helpers};
use crate::start::start_of;
use crate::step::{CurveAnswer, CurveStop, out_of_memory};
use racp_by_clauses::{Limits, Task};
use racp_by_questions::OfTurns;
use racp_clauses::OfProblem;
use racp_desk::Gate;
use racp_found::Observer;
use racp_lexfix::{Crew, limits_of};
use racp_model::{Network, Stop};
use racp_prices::Order;
use std::alloc::{AllocError, Global};
use std::marker::Brand;
use std::sync::Wait;
use std::thread;
use std::thread::Threads;

/// The curve of an order, made by such workers, which take this many turns over all its plans: the same as that of
/// `curve_alone`. Where searches learn, each worker keeps what its own has learned from one deadline to the next. Their
/// observer is told for which deadline a plan is made, whenever it is told more of it.
///
/// # Errors
///
/// No turn is left, or the stop was asked for; memory was refused; or a worker could not be started. The steps so far
/// come back.
pub fn curve_crowd<G: Gate + Sync, P: Stop + Sync, O: Observer, R: Threads + Wait + Sync>(
    rt: &R,
    alloc: Global,
    net: &Network,
    order: &Order,
    crew: Crew<'_, G, P, O>,
) -> Result<CurveAnswer, CurveStop>
    requires terms { AreTermsOf net.now order.now }
    requires heard { MayHear net.now order.now O.may_hear }
    ensures curve { IfOk result (IsCurveAnswer net.now order.now) }
    ensures stop { IfErr result (λ end. IsCurveStop net.now order.now
        (MayStop net.now (P.is_quiet crew.entry.stop.now) crew.entry.turns) ⊤
        end.steps.items end.stop) }
{
    let ground = Ground { alloc, net, order };
    followed(rt, &ground, &crew)
}

/// The curve of an order, made by these workers: by searches that learn, or each deadline by itself.
fn followed<G: Gate + Sync, P: Stop + Sync, O: Observer, R: Threads + Wait + Sync>(
    rt: &R,
    ground: &Ground,
    crew: &Crew<'_, G, P, O>,
) -> Result<CurveAnswer, CurveStop>
    requires heard { MayHear ground.now.net.now ground.now.order.now O.may_hear }
    ensures { IsFollowedByCrew ground.now.net.now ground.now.order.now (MayStop ground.now.net.now (P.is_quiet crew.now.stop.now) crew.now.turns) result }
{
    match start_of(ground, crew.leeway()) {
        Ok(Some(start)) => {
            let whole = Task {
                alloc: ground.alloc,
                net: ground.net,
                order: ground.order,
                window: &start.window,
                root: &start.bounds,
            };
            curve_ahead::<Brand, Brand, G, P, O, R>(rt, ground, whole, crew)
        }
        Ok(None) => curve_anew_by::<Brand, G, P, O, R>(rt, ground, crew),
        Err(_) => Err(out_of_memory(ground.alloc)),
    }
}

/// The curve of an order, each deadline by itself.
fn curve_anew_by<
    N: OfProblem,
    G: Gate + Sync,
    P: Stop + Sync,
    O: Observer,
    R: Threads + Wait + Sync,
>(rt: &R, ground: &Ground, crew: &Crew<'_, G, P, O>) -> Result<CurveAnswer, CurveStop>
    requires of { IsGroundOf N.problem ground.now }
    requires heard { MayHear ground.now.net.now ground.now.order.now O.may_hear }
    ensures { IsFollowedByCrew ground.now.net.now ground.now.order.now (MayStop ground.now.net.now (P.is_quiet crew.now.stop.now) crew.now.turns) result }
{
    let mut facts: Option<Facts<'_, N>> = None;
    curve_by(rt, ground, &mut facts, crew)
}

/// The curve of an order by searches that learn, each worker with one of its own.
fn curve_ahead<
    N: OfProblem + Send + Sync,
    M: OfTurns,
    G: Gate + Sync,
    P: Stop + Sync,
    O: Observer,
    R: Threads + Wait + Sync,
>(
    rt: &R,
    ground: &Ground,
    whole: Task<'_>,
    crew: &Crew<'_, G, P, O>,
) -> Result<CurveAnswer, CurveStop>
    requires of { IsGroundOf N.problem ground.now }
    requires heard { MayHear ground.now.net.now ground.now.order.now O.may_hear }
    requires whole { IsTaskOf N.problem whole }
    requires named_turns { crew.now.turns ≡ M.turns }
    requires named_quiet { P.is_quiet crew.now.stop.now ≡ M.quiet }
    ensures { IsFollowedByCrew ground.now.net.now ground.now.order.now (MayStop ground.now.net.now M.quiet M.turns) result }
{
    match Ahead::<N>::new(*ground, whole, limits_for(crew)) {
        Ok(ahead) => {
            let curve = in_scope::<N, M, G, P, O, R>(rt, &ahead, crew);
            // Dropped here once, not at each way out.
            drop(ahead);
            curve
        }
        Err(_) => Err(out_of_memory(ground.alloc)),
    }
}

/// How long a worker searches for a plan, with its share of the memory.
fn limits_for<G: Gate, P: Stop, O: Observer>(crew: &Crew<'_, G, P, O>) -> Limits {
    let limits = limits_of(crew.leeway());
    Limits {
        bytes: limits.bytes / (crew.workers as u64).max(1),
        ..limits
    }
}

/// Follows the curve on the calling thread, with helpers beside it.
fn in_scope<
    'a,
    N: OfProblem + Send + Sync,
    M: OfTurns,
    G: Gate + Sync,
    P: Stop + Sync,
    O: Observer,
    R: Threads + Wait + Sync,
>(rt: &'a R, ahead: &'a Ahead<'a, N>, crew: &'a Crew<'a, G, P, O>) -> Result<CurveAnswer, CurveStop>
    requires of { IsGroundOf N.problem ahead.now.base }
    requires heard { MayHear N.problem.network N.problem.terms O.may_hear }
    requires named_turns { crew.now.turns ≡ M.turns }
    requires named_quiet { P.is_quiet crew.now.stop.now ≡ M.quiet }
    ensures { IsFollowedByCrew N.problem.network N.problem.terms (MayStop N.problem.network M.quiet M.turns) result }
{
    thread::scope(
        thread::scope_env(),
        rt,
        move |scope| -> Result<CurveAnswer, CurveStop>
            requires { IsGroundOf N.problem ahead.now.base × MayHear N.problem.network N.problem.terms O.may_hear × (crew.now.turns ≡ M.turns) × (P.is_quiet crew.now.stop.now ≡ M.quiet) }
            ensures { IsFollowedByCrew N.problem.network N.problem.terms (MayStop N.problem.network M.quiet M.turns) result }
        {
            let handles = start_helpers(scope, rt, ahead, crew.workers);
            let curve = led::<N, M, G, P, O, R>(rt, ahead, crew);
            ahead.finish();
            join_helpers(rt, handles);
            curve
        },
    )
}

/// Follows the curve on the calling thread, while helpers plan ahead.
fn led<
    'a,
    N: OfProblem,
    M: OfTurns,
    G: Gate + Sync,
    P: Stop + Sync,
    O: Observer,
    R: Threads + Wait + Sync,
>(rt: &R, ahead: &'a Ahead<'a, N>, crew: &Crew<'_, G, P, O>) -> Result<CurveAnswer, CurveStop>
    requires heard { MayHear N.problem.network N.problem.terms O.may_hear }
    requires named_turns { crew.now.turns ≡ M.turns }
    requires named_quiet { P.is_quiet crew.now.stop.now ≡ M.quiet }
    ensures { IsFollowedByCrew N.problem.network N.problem.terms (MayStop N.problem.network M.quiet M.turns) result }
{
    match Facts::<N>::new(ahead.whole, ahead.limits, Some(ahead)) {
        Ok(facts) => {
            let mut facts = Some(facts);
            let curve = curve_named::<Brand, M, N, G, P, O, R>(rt, &ahead.base, &mut facts, crew);
            // By a call: else each part is dropped here.
            drop(facts);
            curve
        }
        Err(_) => Err(out_of_memory(ahead.base.alloc)),
    }
}
