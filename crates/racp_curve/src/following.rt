//! The curve, followed from the order's deadline back.

ghost use Rattle.std.specs.Prelude.{◌≡◌, ◌+◌, IfOk, IfErr, MatchResult};
ghost use Rattle.racp_model.specs.Terms.{AreTermsOf};
ghost use Rattle.racp_by_clauses.specs.Optima.{IsTaskOf};
ghost use Rattle.racp_plan.specs.Plans.{IsPlanOf};
ghost use Rattle.racp_by_questions.specs.Stops.{IsPlanStop};
ghost use Rattle.racp_lexfix.specs.Answers.{IsAnswer};
ghost use Rattle.racp_lexfix.specs.Laws.{IsNoPlan};
ghost use Rattle.racp_lexfix.specs.declared.answer.Answer.TheVariants.{Plan as ThePlan};
ghost use Rattle.racp_curve.specs.Curves.{AreNotAfterEnough, IsCurveAnswer, IsCurveStop, MayHear};
ghost use Rattle.racp_curve.specs.Following.{IsGroundOf};

use crate::facts::Facts;
use crate::ground::Ground;
use crate::start::start_of;
use crate::step::{CurveAnswer, CurveStop, out_of_memory};
use crate::stepping::follow;
use racp_by_clauses::Task;
use racp_candidates::AnySeries;
use racp_clauses::OfProblem;
use racp_found::News;
use racp_lexfix::{Answer, PlanStop, limits_of, plan};
use racp_model::Network;
use racp_plan::Plan;
use racp_prices::Order;
use racp_questions::Asker;
use std::alloc::Global;
use std::marker::Brand;

/// The curve of an order: the plan's capacities, and what they cost, for each deadline up to the order's; or why there
/// is no plan for that. Questions go to the asker, which is about this network. The order has an entry for each
/// resource and each job of the network. The asker is told floors, what capacities that are enough cost at least, and
/// plans that may not be the cheapest, for one deadline after another, and before them which deadline that is. Of plans for
/// the order's own deadline the last that it is told is the plan.
///
/// # Errors
///
/// The asker gave up, or memory was refused. The steps so far come back.
pub fn curve<A: Asker<AnySeries>>(
    alloc: Global,
    net: &Network,
    order: &Order,
    asker: &mut A,
) -> Result<CurveAnswer, CurveStop>
    requires named { A.about asker.old net.now }
    requires terms { AreTermsOf net.now order.now }
    requires hears { MayHear net.now order.now A.may_hear }
    ensures network { A.about asker.new net.now }
    ensures curve { IfOk result (IsCurveAnswer net.now order.now) }
    ensures stop { IfErr result (λ end. IsCurveStop net.now order.now (A.may_stop asker.new)
        (A.may_want_thread asker.new) end.steps.items end.stop) }
{
    let ground = Ground { alloc, net, order };
    match start_of(&ground, asker.leeway()) {
        Ok(Some(start)) => {
            let whole = Task {
                alloc,
                net,
                order,
                window: &start.window,
                root: &start.bounds,
            };
            curve_learned::<Brand, A>(&ground, whole, asker)
        }
        Ok(None) => curve_anew::<Brand, A>(&ground, asker),
        Err(_) => Err(out_of_memory(alloc)),
    }
}

/// The curve of an order with these root bounds, by what is learned.
fn curve_learned<N: OfProblem, A: Asker<AnySeries>>(
    ground: &Ground,
    whole: Task<'_>,
    asker: &mut A,
) -> Result<CurveAnswer, CurveStop>
    requires named { A.about asker.old ground.now.net.now }
    requires of { IsGroundOf N.problem ground.now }
    requires whole { IsTaskOf N.problem whole }
    requires hears { MayHear ground.now.net.now ground.now.order.now A.may_hear }
    ensures network { A.about asker.new ground.now.net.now }
    ensures curve { IfOk result (IsCurveAnswer ground.now.net.now ground.now.order.now) }
    ensures stop { IfErr result (λ end. IsCurveStop ground.now.net.now ground.now.order.now (A.may_stop asker.new)
        (A.may_want_thread asker.new) end.steps.items end.stop) }
{
    match Facts::<N>::new(whole, limits_of(asker.leeway()), None) {
        Ok(facts) => curve_with(ground, &mut Some(facts), asker),
        Err(_) => Err(out_of_memory(ground.alloc)),
    }
}

/// The curve of an order, each deadline by itself.
fn curve_anew<N: OfProblem, A: Asker<AnySeries>>(
    ground: &Ground,
    asker: &mut A,
) -> Result<CurveAnswer, CurveStop>
    requires named { A.about asker.old ground.now.net.now }
    requires of { IsGroundOf N.problem ground.now }
    requires hears { MayHear ground.now.net.now ground.now.order.now A.may_hear }
    ensures network { A.about asker.new ground.now.net.now }
    ensures curve { IfOk result (IsCurveAnswer ground.now.net.now ground.now.order.now) }
    ensures stop { IfErr result (λ end. IsCurveStop ground.now.net.now ground.now.order.now (A.may_stop asker.new)
        (A.may_want_thread asker.new) end.steps.items end.stop) }
{
    let mut facts: Option<Facts<'_, N>> = None;
    curve_with(ground, &mut facts, asker)
}

/// The curve of an order, with what is learned of it, if anything is.
pub(crate) fn curve_with<N: OfProblem, A: Asker<AnySeries>>(
    ground: &Ground,
    facts: &mut Option<Facts<'_, N>>,
    asker: &mut A,
) -> Result<CurveAnswer, CurveStop>
    requires named { A.about asker.old ground.now.net.now }
    requires of { IsGroundOf N.problem ground.now }
    requires hears { MayHear ground.now.net.now ground.now.order.now A.may_hear }
    ensures network { A.about asker.new ground.now.net.now }
    ensures curve { IfOk result (IsCurveAnswer ground.now.net.now ground.now.order.now) }
    ensures stop { IfErr result (λ end. IsCurveStop ground.now.net.now ground.now.order.now (A.may_stop asker.new)
        (A.may_want_thread asker.new) end.steps.items end.stop) }
{
    match first_plan(ground, facts, asker) {
        Ok(Ok(plan)) => curve_from(ground, plan, facts, asker),
        Ok(Err(reason)) => Ok(CurveAnswer::NoPlan(reason)),
        Err(stop) => {
            let steps = Vec::new(ground.alloc);
            Err(CurveStop { steps, stop })
        }
    }
}

/// The plan for the order's own deadline, or why there is none.
fn first_plan<N: OfProblem, A: Asker<AnySeries>>(
    ground: &Ground,
    facts: &mut Option<Facts<'_, N>>,
    asker: &mut A,
) -> Result<Result<Plan, Answer>, PlanStop>
    requires named { A.about asker.old ground.now.net.now }
    requires of { IsGroundOf N.problem ground.now }
    requires hears { MayHear ground.now.net.now ground.now.order.now A.may_hear }
    ensures network { A.about asker.new ground.now.net.now }
    ensures plan { IfOk result (λ found. MatchResult found (IsPlanOf ground.now.net.now ground.now.order.now)
        (λ reason. IsAnswer ground.now.net.now ground.now.order.now reason × IsNoPlan reason)) }
    ensures stop { IfErr result (IsPlanStop (AreNotAfterEnough ground.now.net.now ground.now.order.now
        (ground.now.order.now.deadline + 1)) (A.may_stop asker.new) (A.may_want_thread asker.new)) }
{
    let Ground { alloc, net, order } = *ground;
    asker.hear(News::Deadline(order.deadline));
    if let Some(facts) = facts {
        if let Some(known) = facts.known_answer(ground, order, asker)? {
            return Ok(plan_or_reason(known));
        }
    }
    let answer = plan(alloc, net, order, asker)?;
    Ok(plan_or_reason(answer))
}

/// The plan that an answer has, or the reason for which there is none.
fn plan_or_reason(answer: Answer) -> Result<Plan, Answer>
    ensures { MatchResult result (λ plan. answer ≡ ThePlan plan) (λ reason. (answer ≡ reason) × IsNoPlan reason) }
{
    match answer {
        Answer::Plan(plan) => Ok(plan),
        Answer::Impossible { longest } => Err(Answer::Impossible { longest }),
        Answer::Due { job } => Err(Answer::Due { job }),
        Answer::Ceiling => Err(Answer::Ceiling),
    }
}

/// The curve of an order that has this plan, which the asker is told.
fn curve_from<N: OfProblem, A: Asker<AnySeries>>(
    ground: &Ground,
    plan: Plan,
    facts: &mut Option<Facts<'_, N>>,
    asker: &mut A,
) -> Result<CurveAnswer, CurveStop>
    requires named { A.about asker.old ground.now.net.now }
    requires of { IsGroundOf N.problem ground.now }
    requires hears { MayHear ground.now.net.now ground.now.order.now A.may_hear }
    requires plan { IsPlanOf ground.now.net.now ground.now.order.now plan }
    ensures network { A.about asker.new ground.now.net.now }
    ensures curve { IfOk result (IsCurveAnswer ground.now.net.now ground.now.order.now) }
    ensures stop { IfErr result (λ end. IsCurveStop ground.now.net.now ground.now.order.now (A.may_stop asker.new)
        (A.may_want_thread asker.new) end.steps.items end.stop) }
{
    asker.hear(News::Plan {
        capacities: &plan.capacities,
        starts: &plan.starts,
        cost: plan.cost,
    });
    let mut steps = Vec::new(ground.alloc);
    match follow(ground, plan, &mut steps, facts, asker) {
        Ok(()) => Ok(CurveAnswer::Steps(steps)),
        Err(stop) => Err(CurveStop { steps, stop }),
    }
}
