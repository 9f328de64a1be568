//! The steps of a curve, one before the other.

ghost use Rattle.std.specs.Prelude.{◌≡◌, ◌≤◌, ◌∷◌, OnOk, OnErr, IfOk, IfErr};
ghost use Rattle.racp_curve.specs.Curves.{IsCurve, IsCurveStop, MayHear};
ghost use Rattle.racp_curve.specs.Following.{step_of, IsBegun, IsFollowed, IsGroundOf, IsNext, MayBeToldOfWork};

use crate::deadline::plan_by;
use crate::ending::{end_of, shorten};
use crate::facts::Facts;
use crate::ground::Ground;
use crate::step::Step;
use racp_candidates::AnySeries;
use racp_clauses::OfProblem;
use racp_lexfix::PlanStop;
use racp_plan::Plan;
use racp_questions::Asker;
use std::alloc::AllocError;

/// Puts all steps of the curve that are still to come before those so far, which the plan's deadline stands just
/// before.
pub(crate) fn follow<N: OfProblem, A: Asker<AnySeries>>(
    ground: &Ground,
    plan: Plan,
    steps: &mut Vec<Step>,
    facts: &mut Option<Facts<'_, N>>,
    asker: &mut A,
) -> Result<(), PlanStop>
    requires named { A.about asker.old ground.now.net.now }
    requires of { IsGroundOf N.problem ground.now }
    requires hears { MayHear ground.now.net.now ground.now.order.now A.may_hear }
    requires next { IsNext ground.now.net.now ground.now.order.now plan steps.old.items }
    ensures network { A.about asker.new ground.now.net.now }
    ensures curve { OnOk result (IsCurve ground.now.net.now ground.now.order.now steps.new.items) }
    ensures stop { IfErr result (IsCurveStop ground.now.net.now ground.now.order.now (A.may_stop asker.new)
        (A.may_want_thread asker.new) steps.new.items) }
{
    let mut plan = plan;
    'plans: loop {
        match step_back(ground, plan, steps, facts, asker)? {
            Some(earlier) => plan = earlier,
            None => return Ok(()),
        }
    }
}

/// Puts the step of a plan before those so far, and gives the plan for the deadline before it; or none if there is
/// none, so that the curve is whole.
fn step_back<N: OfProblem, A: Asker<AnySeries>>(
    ground: &Ground,
    plan: Plan,
    steps: &mut Vec<Step>,
    facts: &mut Option<Facts<'_, N>>,
    asker: &mut A,
) -> Result<Option<Plan>, PlanStop>
    requires named { A.about asker.old ground.now.net.now }
    requires of { IsGroundOf N.problem ground.now }
    requires hears { MayHear ground.now.net.now ground.now.order.now A.may_hear }
    requires next { IsNext ground.now.net.now ground.now.order.now plan steps.old.items }
    ensures network { A.about asker.new ground.now.net.now }
    ensures followed { IfOk result (IsFollowed ground.now.net.now ground.now.order.now plan.deadline steps.new.items) }
    ensures stop { IfErr result (IsCurveStop ground.now.net.now ground.now.order.now (A.may_stop asker.new)
        (A.may_want_thread asker.new) steps.new.items) }
{
    let begin = put_step(ground, plan, steps, facts, asker)?;
    match begin.checked_sub(1) {
        Some(deadline) => plan_by(ground, deadline, facts, asker),
        None => Ok(None),
    }
}

/// Puts the step of a plan before those so far, and tells its first deadline. If the asker gives up, the step begins at
/// the deadline that it came to.
fn put_step<N: OfProblem, A: Asker<AnySeries>>(
    ground: &Ground,
    plan: Plan,
    steps: &mut Vec<Step>,
    facts: &mut Option<Facts<'_, N>>,
    asker: &mut A,
) -> Result<u32, PlanStop>
    requires named { A.about asker.old ground.now.net.now }
    requires of { IsGroundOf N.problem ground.now }
    requires told { MayBeToldOfWork A.may_hear }
    requires next { IsNext ground.now.net.now ground.now.order.now plan steps.old.items }
    ensures network { A.about asker.new ground.now.net.now }
    ensures within { IfOk result (λ begin. begin ≤ plan.deadline) }
    ensures begun { IfOk result (λ begin. IsBegun ground.now.net.now ground.now.order.now begin steps.new.items) }
    ensures stop { IfErr result (IsCurveStop ground.now.net.now ground.now.order.now (A.may_stop asker.new)
        (A.may_want_thread asker.new) steps.new.items) }
{
    let mut begin = end_of(ground.net, &plan.starts, plan.deadline);
    match shorten(ground, &plan.capacities, &mut begin, facts, asker) {
        Ok(()) => {
            put_first(steps, step_of(plan, begin))?;
            Ok(begin)
        }
        Err(stop) => {
            put_first(steps, step_of(plan, begin))?;
            Err(stop)
        }
    }
}

/// The step of a plan from a deadline on.
fn step_of(plan: Plan, deadline: u32) -> Step
    ensures { result ≡ step_of plan deadline }
{
    Step {
        deadline,
        cost: plan.cost,
        capacities: plan.capacities,
    }
}

/// Puts a step before the others. If memory is refused, they stay as they are.
fn put_first(steps: &mut Vec<Step>, step: Step) -> Result<(), AllocError>
    ensures put { OnOk result (steps.new.items ≡ step ∷ steps.old.items) }
    ensures same { OnErr result (steps.new.items ≡ steps.old.items) }
{
    steps.insert(0, step)?;
    Ok(())
}
