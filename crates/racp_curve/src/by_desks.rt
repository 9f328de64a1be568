//! The curve, followed with runs of desks for its questions.

ghost use Rattle.std.specs.Prelude.{◌≡◌, ◌≤◌, IfOk};
ghost use Rattle.racp_model.specs.Formed.{AreFormed};
ghost use Rattle.racp_candidates.specs.AnySeries.{any_questions};
ghost use Rattle.racp_desk.specs.Closing.{IsRunClosed};
ghost use Rattle.racp_by_questions.specs.Crowds.{MayStop};
ghost use Rattle.racp_curve.specs.Curves.{MayHear};
ghost use Rattle.racp_curve.specs.Following.{IsFollowedByCrew, IsGroundOf};

use crate::facts::Facts;
use crate::following::curve_with;
use crate::ground::Ground;
use crate::step::{CurveAnswer, CurveStop, out_of_memory};
use racp_by_questions::{Crowd, OfTurns};
use racp_candidates::AnySeries;
use racp_clauses::OfProblem;
use racp_desk::{Closed, DeskFault, Gate, Records, RunBounds, RunLimits};
use racp_found::Observer;
use racp_lexfix::{Crew, MemoryLimit};
use racp_model::{OfNetwork, Stop};
use std::marker::Brand;
use std::sync::Wait;
use std::thread::Threads;

/// The curve of an order, made by these workers, with what is learned of it, if anything is.
pub(crate) fn curve_by<
    N: OfProblem,
    G: Gate + Sync,
    P: Stop + Sync,
    O: Observer,
    R: Threads + Wait + Sync,
>(
    rt: &R,
    ground: &Ground,
    facts: &mut Option<Facts<'_, N>>,
    crew: &Crew<'_, G, P, O>,
) -> Result<CurveAnswer, CurveStop>
    requires of { IsGroundOf N.problem ground.now }
    requires heard { MayHear ground.now.net.now ground.now.order.now O.may_hear }
    ensures { IsFollowedByCrew ground.now.net.now ground.now.order.now (MayStop ground.now.net.now (P.is_quiet crew.now.stop.now) crew.now.turns) result }
{
    curve_named::<Brand, Brand, N, G, P, O, R>(rt, ground, facts, crew)
}

/// The same, for the network that `K` names, with the turns and as quiet a stop as `M` says.
pub(crate) fn curve_named<
    K: OfNetwork + Send + Sync,
    M: OfTurns,
    N: OfProblem,
    G: Gate + Sync,
    P: Stop + Sync,
    O: Observer,
    R: Threads + Wait + Sync,
>(
    rt: &R,
    ground: &Ground,
    facts: &mut Option<Facts<'_, N>>,
    crew: &Crew<'_, G, P, O>,
) -> Result<CurveAnswer, CurveStop>
    requires named { ground.now.net.now ≡ K.network }
    requires named_turns { crew.now.turns ≡ M.turns }
    requires named_quiet { P.is_quiet crew.now.stop.now ≡ M.quiet }
    requires of { IsGroundOf N.problem ground.now }
    requires heard { MayHear ground.now.net.now ground.now.order.now O.may_hear }
    ensures { IsFollowedByCrew ground.now.net.now ground.now.order.now (MayStop ground.now.net.now M.quiet M.turns) result }
{
    let Ground { alloc, net, .. } = *ground;
    let workers = workers_at_desks(facts, crew.workers);
    let limit = MemoryLimit {
        mebibytes: crew.memory,
        workers,
    };
    let records: Records<K> = match Records::within(alloc, net, limit) {
        Ok(records) => records,
        Err(_) => return Err(out_of_memory(alloc)),
    };
    let crowd: Crowd<'_, K, M, P, &O, _> = Crowd::new(
        workers,
        crew.turns,
        crew.observer,
        |series: AnySeries, limits: RunLimits| -> Result<Closed, DeskFault>
            requires { (net.now ≡ K.network) × AreFormed net.now (any_questions series) }
            ensures { IfOk result (IsRunClosed net.entry.now (any_questions series) limits.turns
                (P.is_quiet crew.entry.now.stop.now)) }
        {
            let bounds = RunBounds {
                limits,
                gate: crew.gate,
                stop: crew.stop,
            };
            records.run(rt, alloc, net, series, &bounds)
        },
    );
    let mut crowd = crowd.with_search(crew.leeway(), crew.stop);
    curve_with(ground, facts, &mut crowd)
}

/// How many workers run desks: one, where the others plan ahead.
fn workers_at_desks<N: OfProblem>(facts: &Option<Facts<'_, N>>, workers: usize) -> usize
    requires some { 1 ≤ workers }
    requires few { workers ≤ 64 }
    ensures some { 1 ≤ result }
    ensures few { result ≤ 64 }
{
    match facts {
        Some(facts) if facts.has_helpers() => 1,
        _ => workers,
    }
}
