//! The plan for the deadline that is left.

ghost use Rattle.std.specs.Prelude.{IfErr, IfOk};
ghost use Rattle.racp_found.specs.Told.{HearsAll};
ghost use Rattle.racp_by_questions.specs.Crowds.{MayStop};
ghost use Rattle.racp_model.specs.Project.{Project};
ghost use Rattle.racp_model.specs.Terms.{Terms};
ghost use Rattle.racp_plan.specs.Plans.{IsPlanOf};
ghost use Rattle.racp_lexfix.specs.Answers.{IsAnswer};
ghost use Rattle.racp_curve.specs.Curves.{order_by};
ghost use Rattle.racp_soonest.specs.Soonest.{IsKnown, IsSoonestAnswer, IsSpan, IsStopOf, NoneSooner};
ghost use Rattle.racp_soonest.specs.Steps.{IsClosed};

use crate::soonest::{Soonest, Span};
use crate::variants::{plan_in, with_deadline};
use racp_desk::Gate;
use racp_found::Observer;
use racp_lexfix::{Answer, Crew, PlanStop, plan_by_crew};
use racp_model::Stop;
use racp_plan::Plan;
use racp_root::Task;
use std::sync::Wait;
use std::thread::Threads;

/// The plan for the least deadline, of a span in which none is left to be tried; or why there is none.
pub(crate) fn soonest_of<G: Gate + Sync, P: Stop + Sync, O: Observer, R: Threads + Wait + Sync>(
    rt: &R,
    task: &Task<'_>,
    span: Span,
    crew: &Crew<'_, G, P, O>,
) -> Result<Soonest, PlanStop>
    requires span { IsSpan task.now.net.now task.now.order.now span }
    requires closed { IsClosed span task.now.order.now.deadline }
    requires heard { HearsAll O.may_hear }
    ensures answer { IfOk result (IsSoonestAnswer task.now.net.now task.now.order.now) }
    ensures stop { IfErr result (IsStopOf (MayStop task.now.net.now (P.is_quiet crew.now.stop.now) crew.now.turns)) }
{
    match span.known {
        Some(known) => Ok(Soonest::Plan(known_plan(rt, task, known, crew)?)),
        None => own_answer(rt, task, crew),
    }
}

/// The plan for a deadline for which some capacities are enough.
fn known_plan<G: Gate + Sync, P: Stop + Sync, O: Observer, R: Threads + Wait + Sync>(
    rt: &R,
    task: &Task<'_>,
    deadline: u32,
    crew: &Crew<'_, G, P, O>,
) -> Result<Plan, PlanStop>
    requires known { IsKnown task.now.net.now task.now.order.now deadline }
    requires heard { HearsAll O.may_hear }
    ensures plan { IfOk result (IsPlanOf task.now.net.now (order_by deadline task.now.order.now)) }
    ensures stop { IfErr result (IsStopOf (MayStop task.now.net.now (P.is_quiet crew.now.stop.now) crew.now.turns)) }
{
    prove!(1 <= task.net.job_count());
    let other = with_deadline(task.alloc, task.order, deadline)?;
    let part = Task {
        alloc: task.alloc,
        net: task.net,
        order: &other,
    };
    let answer = plan_by_crew(rt, &part, crew);
    // Dropped here once, not at each way out.
    drop(other);
    match plan_in(answer?) {
        Some(plan) => Ok(plan),
        None => unreachable!(),
    }
}

/// The plan for the order's own deadline, where there is none for any before it; or why there is none.
fn own_answer<G: Gate + Sync, P: Stop + Sync, O: Observer, R: Threads + Wait + Sync>(
    rt: &R,
    task: &Task<'_>,
    crew: &Crew<'_, G, P, O>,
) -> Result<Soonest, PlanStop>
    requires none_sooner { NoneSooner task.now.net.now task.now.order.now task.now.order.now.deadline }
    requires heard { HearsAll O.may_hear }
    ensures answer { IfOk result (IsSoonestAnswer task.now.net.now task.now.order.now) }
    ensures stop { IfErr result (IsStopOf (MayStop task.now.net.now (P.is_quiet crew.now.stop.now) crew.now.turns)) }
{
    let answer = plan_by_crew(rt, task, crew)?;
    Ok(soonest_by(answer))
}

/// What an answer for the order's own deadline says, where there is no plan for any before it.
fn soonest_by(answer: Answer) -> Soonest
    ensures { (p : Project) (terms : Terms) → NoneSooner p terms terms.deadline → IsAnswer p terms answer →
        IsSoonestAnswer p terms result }
{
    match answer {
        Answer::Plan(plan) => Soonest::Plan(plan),
        Answer::Impossible { longest } => Soonest::NoPlan(Answer::Impossible { longest }),
        Answer::Due { job } => Soonest::NoPlan(Answer::Due { job }),
        Answer::Ceiling => Soonest::NoPlan(Answer::Ceiling),
    }
}
