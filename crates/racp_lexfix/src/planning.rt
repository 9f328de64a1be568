//! The planner: by clauses, and where these leave it open by questions.

ghost use Rattle.std.specs.Prelude.{◌-◌, IfOk, IfErr, IfSome};
ghost use Rattle.racp_model.specs.Path.{IsCriticalLength};
ghost use Rattle.racp_model.specs.Plan.{IsOverCeilings, NoneIsEnough};
ghost use Rattle.racp_model.specs.Terms.{AreTermsOf, release_of, due_of};
ghost use Rattle.racp_model.specs.Window.{IsRootWindow};
ghost use Rattle.racp_found.specs.Finds.{IsDecided};
ghost use Rattle.racp_found.specs.Told.{AreFloorsOfEnough, MayBeTold};
ghost use Rattle.racp_by_clauses.specs.Optima.{IsOptimum};
ghost use Rattle.racp_by_questions.specs.Stops.{IsStoppedAt, IsPlanStop};
ghost use Rattle.racp_lexfix.specs.Answers.{IsAnswer};

use crate::answer::{Answer, plan_of};
use crate::searches::by_clauses;
use racp_by_clauses::Optimum;
use racp_by_questions::{PlanStop, Sharp, found_by_questions};
use racp_candidates::AnySeries;
use racp_found::Found;
use racp_model::{Capacities, Network, Window};
use racp_prices::Order;
use racp_questions::Asker;
use racp_root::{Opening, Task, opening_of};
use std::alloc::Global;

/// The plan of an order, or why there is none. Where the asker leaves room for it and there are more than 64 vectors from the
/// floors to the roofs, a search that learns looks for the plan (racp_by_clauses), and nothing is asked if it finds it. Else
/// questions go to the asker, which is about this network: first whether the ceilings admit, where there are such, then to
/// sharpen the floors, then for each capacity vector of the box in the order of vectors, up to the first yes, then for the
/// starts of each job. The order has an entry for each resource and each job of the network. The asker is told the floors as
/// far as they are sharpened, what capacities that are enough cost at least, and plans that may not be the cheapest, as soon
/// as more is known.
///
/// # Errors
///
/// The asker gave up, or memory was refused.
pub fn plan<A: Asker<AnySeries>>(
    alloc: Global,
    net: &Network,
    order: &Order,
    asker: &mut A,
) -> Result<Answer, PlanStop>
    requires named { A.about asker.old net.now }
    requires terms { AreTermsOf net.now order.now }
    requires heard { MayBeTold net.now order.now A.may_hear }
    ensures network { A.about asker.new net.now }
    ensures answer { IfOk result (IsAnswer net.now order.now) }
    ensures stop { IfErr result (IsPlanStop (IsStoppedAt net.now order.now
        (A.answered asker.new - A.answered asker.old) (A.told asker.new))
        (A.may_stop asker.new) (A.may_want_thread asker.new)) }
{
    let task = Task { alloc, net, order };
    let optimum = by_clauses(&task, asker)?;
    plan_after(&task, optimum, asker, &mut None)
}

/// The plan, or why there is none, as `plan` tells it, after what was found by clauses, if a search was made. The sharpened floors
/// and the refuted pairs are kept, once they are known.
///
/// # Errors
///
/// As with `plan`.
pub fn plan_after<A: Asker<AnySeries>>(
    task: &Task,
    optimum: Option<Optimum>,
    asker: &mut A,
    kept: &mut Option<Sharp>,
) -> Result<Answer, PlanStop>
    requires named { A.about asker.old task.now.net.now }
    requires optimum { IfSome optimum (IsOptimum task.now.net.now task.now.order.now) }
    requires heard { MayBeTold task.now.net.now task.now.order.now A.may_hear }
    ensures network { A.about asker.new task.now.net.now }
    ensures answer { IfOk result (IsAnswer task.now.net.now task.now.order.now) }
    ensures stop { IfErr result (IsPlanStop (IsStoppedAt task.now.net.now task.now.order.now
        (A.answered asker.new - A.answered asker.old) (A.told asker.new))
        (A.may_stop asker.new) (A.may_want_thread asker.new)) }
{
    match opening_of(task.alloc, task.net, task.order)? {
        Opening::Root { critical, window } => {
            let decided = decided(task, &window, optimum, asker, kept)?;
            Ok(answer_of(task, critical, decided))
        }
        Opening::TooLong { critical } => Ok(Answer::Impossible { longest: critical }),
        Opening::TooLate { job } => Ok(Answer::Due { job }),
    }
}

/// What was found by clauses within the root window, and if that is open, what is found by questions.
fn decided<A: Asker<AnySeries>>(
    task: &Task,
    root: &Window,
    optimum: Option<Optimum>,
    asker: &mut A,
    kept: &mut Option<Sharp>,
) -> Result<Found, PlanStop>
    requires named { A.about asker.old task.now.net.now }
    requires root { IsRootWindow task.now.net.now (release_of task.now.order.now) (due_of task.now.order.now) root.now }
    requires optimum { IfSome optimum (IsOptimum task.now.net.now task.now.order.now) }
    requires heard { MayBeTold task.now.net.now task.now.order.now A.may_hear }
    ensures network { A.about asker.new task.now.net.now }
    ensures decided { IfOk result (IsDecided task.now.net.now task.now.order.now) }
    ensures stop { IfErr result (IsPlanStop (IsStoppedAt task.now.net.now task.now.order.now
        (A.answered asker.new - A.answered asker.old) (A.told asker.new))
        (A.may_stop asker.new) (A.may_want_thread asker.new)) }
{
    let Some(Optimum { found, floors }) = optimum else {
        return by_questions(task, root, None, asker, kept);
    };
    match found {
        Found::Plan(capacities, starts) => Ok(Found::Plan(capacities, starts)),
        Found::NoneEnough => Ok(Found::NoneEnough),
        Found::Open => by_questions(task, root, Some(&floors), asker, kept),
    }
}

/// What is found by questions within the root window, where floors may be known.
fn by_questions<A: Asker<AnySeries>>(
    task: &Task,
    root: &Window,
    known: Option<&Capacities>,
    asker: &mut A,
    kept: &mut Option<Sharp>,
) -> Result<Found, PlanStop>
    requires named { A.about asker.old task.now.net.now }
    requires root { IsRootWindow task.now.net.now (release_of task.now.order.now) (due_of task.now.order.now) root.now }
    requires known { IfSome known (λ floors. AreFloorsOfEnough task.now.net.now task.now.order.now floors.now) }
    requires heard { MayBeTold task.now.net.now task.now.order.now A.may_hear }
    ensures network { A.about asker.new task.now.net.now }
    ensures decided { IfOk result (IsDecided task.now.net.now task.now.order.now) }
    ensures stop { IfErr result (IsPlanStop (IsStoppedAt task.now.net.now task.now.order.now
        (A.answered asker.new - A.answered asker.old) (A.told asker.new))
        (A.may_stop asker.new) (A.may_want_thread asker.new)) }
{
    let task = racp_by_questions::Task {
        alloc: task.alloc,
        net: task.net,
        order: task.order,
        root,
    };
    found_by_questions(&task, known, asker, kept)
}

/// The answer for what is decided, with the critical length.
pub(crate) fn answer_of(task: &Task, critical: u64, decided: Found) -> Answer
    requires critical { IsCriticalLength task.now.net.now (release_of task.now.order.now) critical }
    requires over { NoneIsEnough task.now.net.now task.now.order.now → IsOverCeilings task.now.net.now task.now.order.now }
    requires decided { IsDecided task.now.net.now task.now.order.now decided }
    ensures { IsAnswer task.now.net.now task.now.order.now result }
{
    match decided {
        Found::Plan(capacities, starts) => {
            Answer::Plan(plan_of(task, critical, capacities, starts))
        }
        Found::NoneEnough => Answer::Ceiling,
        Found::Open => unreachable!(),
    }
}
