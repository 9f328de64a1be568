//! The search for the least deadline with a plan.

ghost use Rattle.std.specs.Prelude.{IfErr, IfOk, OnOk};
ghost use Rattle.racp_found.specs.Told.{HearsAll};
ghost use Rattle.racp_by_clauses.specs.Optima.{IsTaskOf};
ghost use Rattle.racp_by_questions.specs.Crowds.{MayStop};
ghost use Rattle.racp_soonest.specs.Soonest.{IsSoonestAnswer, IsSoonestStop, IsSpan, IsStopOf};
ghost use Rattle.racp_soonest.specs.Steps.{IsClosed, IsLearnedOf};

use crate::learning::start_of;
use crate::making::soonest_of;
use crate::narrowing::{after, next_of};
use crate::soonest::{Soonest, SoonestStop, Span};
use crate::trying::tried;
use racp_by_clauses::Task as Part;
use racp_clauses::OfProblem;
use racp_desk::Gate;
use racp_found::Observer;
use racp_lexfix::{Crew, Learned, PlanStop, limits_of};
use racp_model::Stop;
use racp_root::Task;
use std::marker::Brand;
use std::sync::Wait;
use std::thread::Threads;

/// The plan of an order with the least deadline, up to its own, that has one; or why there is none for its own. Plans are made
/// by such workers. What their observer is told is of one deadline after another.
///
/// # Errors
///
/// No turn is left, or the stop was asked for; memory was refused; or a worker could not be started. What is known of the
/// least deadline comes back.
pub fn soonest_by_crew<G: Gate + Sync, P: Stop + Sync, O: Observer, R: Threads + Wait + Sync>(
    rt: &R,
    task: &Task<'_>,
    crew: &Crew<'_, G, P, O>,
) -> Result<Soonest, SoonestStop>
    requires heard { HearsAll O.may_hear }
    ensures answer { IfOk result (IsSoonestAnswer task.now.net.now task.now.order.now) }
    ensures stop { IfErr result (IsSoonestStop task.now.net.now task.now.order.now
        (MayStop task.now.net.now (P.is_quiet crew.now.stop.now) crew.now.turns)) }
{
    let mut span = Span {
        least: 0,
        known: None,
    };
    match narrowed(rt, task, &mut span, crew) {
        Ok(soonest) => Ok(soonest),
        Err(stop) => Err(SoonestStop { span, stop }),
    }
}

/// Narrows a span by all that is found of its deadlines, and makes the plan that is left.
fn narrowed<G: Gate + Sync, P: Stop + Sync, O: Observer, R: Threads + Wait + Sync>(
    rt: &R,
    task: &Task<'_>,
    span: &mut Span,
    crew: &Crew<'_, G, P, O>,
) -> Result<Soonest, PlanStop>
    requires span { IsSpan task.now.net.now task.now.order.now span.old }
    requires heard { HearsAll O.may_hear }
    ensures span { IsSpan task.now.net.now task.now.order.now span.new }
    ensures answer { IfOk result (IsSoonestAnswer task.now.net.now task.now.order.now) }
    ensures stop { IfErr result (IsStopOf (MayStop task.now.net.now (P.is_quiet crew.now.stop.now) crew.now.turns)) }
{
    match start_of(task, crew.leeway())? {
        Some(start) => {
            let whole = Part {
                alloc: task.alloc,
                net: task.net,
                order: task.order,
                window: &start.window,
                root: &start.bounds,
            };
            narrowed_learned::<Brand, G, P, O, R>(rt, task, whole, span, crew)
        }
        None => narrowed_anew::<Brand, G, P, O, R>(rt, task, span, crew),
    }
}

/// The same, by what a search learns of the order.
fn narrowed_learned<
    N: OfProblem,
    G: Gate + Sync,
    P: Stop + Sync,
    O: Observer,
    R: Threads + Wait + Sync,
>(
    rt: &R,
    task: &Task<'_>,
    whole: Part<'_>,
    span: &mut Span,
    crew: &Crew<'_, G, P, O>,
) -> Result<Soonest, PlanStop>
    requires whole { IsTaskOf N.problem whole }
    requires of { IsLearnedOf N.problem task.now.net.now task.now.order.now }
    requires span { IsSpan task.now.net.now task.now.order.now span.old }
    requires heard { HearsAll O.may_hear }
    ensures span { IsSpan task.now.net.now task.now.order.now span.new }
    ensures answer { IfOk result (IsSoonestAnswer task.now.net.now task.now.order.now) }
    ensures stop { IfErr result (IsStopOf (MayStop task.now.net.now (P.is_quiet crew.now.stop.now) crew.now.turns)) }
{
    let learned: Learned<'_, N> = Learned::new(whole, limits_of(crew.leeway()))?;
    narrowed_by(rt, task, span, &mut Some(learned), crew)
}

/// The same, each deadline by itself.
fn narrowed_anew<
    N: OfProblem,
    G: Gate + Sync,
    P: Stop + Sync,
    O: Observer,
    R: Threads + Wait + Sync,
>(rt: &R, task: &Task<'_>, span: &mut Span, crew: &Crew<'_, G, P, O>) -> Result<Soonest, PlanStop>
    requires of { IsLearnedOf N.problem task.now.net.now task.now.order.now }
    requires span { IsSpan task.now.net.now task.now.order.now span.old }
    requires heard { HearsAll O.may_hear }
    ensures span { IsSpan task.now.net.now task.now.order.now span.new }
    ensures answer { IfOk result (IsSoonestAnswer task.now.net.now task.now.order.now) }
    ensures stop { IfErr result (IsStopOf (MayStop task.now.net.now (P.is_quiet crew.now.stop.now) crew.now.turns)) }
{
    let mut learned: Option<Learned<'_, N>> = None;
    narrowed_by(rt, task, span, &mut learned, crew)
}

/// The same, with what is learned, if anything is.
fn narrowed_by<N: OfProblem, G: Gate + Sync, P: Stop + Sync, O: Observer, R: Threads + Wait + Sync>(
    rt: &R,
    task: &Task<'_>,
    span: &mut Span,
    learned: &mut Option<Learned<'_, N>>,
    crew: &Crew<'_, G, P, O>,
) -> Result<Soonest, PlanStop>
    requires of { IsLearnedOf N.problem task.now.net.now task.now.order.now }
    requires span { IsSpan task.now.net.now task.now.order.now span.old }
    requires heard { HearsAll O.may_hear }
    ensures span { IsSpan task.now.net.now task.now.order.now span.new }
    ensures answer { IfOk result (IsSoonestAnswer task.now.net.now task.now.order.now) }
    ensures stop { IfErr result (IsStopOf (MayStop task.now.net.now (P.is_quiet crew.now.stop.now) crew.now.turns)) }
{
    close(rt, task, span, learned, crew)?;
    soonest_of(rt, task, *span, crew)
}

/// Tries deadlines of a span until none is left.
fn close<N: OfProblem, G: Gate + Sync, P: Stop + Sync, O: Observer, R: Threads + Wait + Sync>(
    rt: &R,
    task: &Task<'_>,
    span: &mut Span,
    learned: &mut Option<Learned<'_, N>>,
    crew: &Crew<'_, G, P, O>,
) -> Result<(), PlanStop>
    requires of { IsLearnedOf N.problem task.now.net.now task.now.order.now }
    requires span { IsSpan task.now.net.now task.now.order.now span.old }
    requires heard { HearsAll O.may_hear }
    ensures span { IsSpan task.now.net.now task.now.order.now span.new }
    ensures closed { OnOk result (IsClosed span.new task.now.order.now.deadline) }
    ensures stop { IfErr result (IsStopOf (MayStop task.now.net.now (P.is_quiet crew.now.stop.now) crew.now.turns)) }
{
    let order = task.order;
    'spans: while let Some(deadline) = next_of(*span, order.deadline) {
        let found = tried(rt, task, deadline, learned, crew)?;
        *span = after(*span, deadline, found);
    }
    Ok(())
}
