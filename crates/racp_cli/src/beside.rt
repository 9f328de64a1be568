//! What is told beside a plan: what becomes of its order if one term is changed.

ghost use Rattle.std.specs.Prelude.{◌≡◌, ℕ, Bool, IfOk, IfSome, length, option_map};
ghost use Rattle.racp_found.specs.Told.{HearsAll};
ghost use Rattle.racp_model.specs.Project.{Project};
ghost use Rattle.racp_by_questions.specs.Crowds.{MayStop};
ghost use Rattle.racp_whatif.specs.Outcomes.{AreFindings};
ghost use Rattle.racp_lexfix.specs.Answers.{IsAnswer};
ghost use Rattle.racp_lexfix.specs.Laws.{IsNoPlan};
ghost use Rattle.racp_cli.specs.CurveAnswers.{IsTextOfReason};
ghost use Rattle.racp_cli.specs.Responses.{IsStopTold};
ghost use Rattle.racp_cli.specs.WhatIfAnswers.{IsBeside, IsBesideCounted, IsBesideNamed, IsBesideOwn, IsFindingsText, IsToldBeside, findings_status};

use crate::lines::stopped_line;
use crate::status::{DONE, IMPOSSIBLE, REFUSED, STOPPED, STREAM_FAILED};
use crate::whatif::WhatIfTexts;
use racp_desk::Gate;
use racp_found::Observer;
use racp_lexfix::{Answer, Crew, PlanStop, answer_lines, plan_by_crew};
use racp_model::Stop;
use racp_plan::Plan;
use racp_prices::Order;
use racp_root::Task;
use racp_show::Names;
use racp_whatif::{Called, Finding, are_known, findings, findings_json, findings_text};
use std::alloc::{AllocError, Global};
use std::sync::Wait;
use std::thread::Threads;

/// The status and the text beside a plan, or that of the order, with the names of these texts.
pub(crate) fn named<G: Gate + Sync, P: Stop + Sync, B: Observer, R: Threads + Wait + Sync>(
    rt: &R,
    task: &Task<'_>,
    given: Option<&Plan>,
    texts: WhatIfTexts<'_>,
    crew: &Crew<'_, G, P, B>,
) -> Result<(u8, Vec<u8>), AllocError>
    requires capacities { IfSome given (λ plan. length plan.now.capacities ≡ task.now.net.now.resources) }
    requires heard { HearsAll B.may_hear }
    ensures { IfOk result (λ answer.
        IsBesideNamed crew.now.turns (P.is_quiet crew.now.stop.now) texts.entry.is_json task.now.net.now task.now.order.now
        (option_map (λ plan. plan.now) given.entry) texts.entry.names.now answer.0 answer.1.items) }
{
    match Names::read(task.alloc, texts.names)? {
        Some(names) => counted(rt, task, given, &names, texts.is_json, crew),
        None => Ok((REFUSED, b"refused names 1 NotUtf8\n".to_vec(task.alloc)?)),
    }
}

/// The same for these names.
#[tactic(auto, unfolding(racp_plan::specs::Texts::line))]
fn counted<G: Gate + Sync, P: Stop + Sync, B: Observer, R: Threads + Wait + Sync>(
    rt: &R,
    task: &Task<'_>,
    given: Option<&Plan>,
    names: &Names,
    is_json: bool,
    crew: &Crew<'_, G, P, B>,
) -> Result<(u8, Vec<u8>), AllocError>
    requires capacities { IfSome given (λ plan. length plan.now.capacities ≡ task.now.net.now.resources) }
    requires heard { HearsAll B.may_hear }
    ensures { IfOk result (λ answer.
        IsBesideCounted crew.now.turns (P.is_quiet crew.now.stop.now) is_json task.now.net.now task.now.order.now
        (option_map (λ plan. plan.now) given.entry) names.now answer.0 answer.1.items) }
{
    let net = task.net;
    if !names.are_for(net.job_count() + net.resource_count()) {
        return Ok((REFUSED, b"refused names 2 Count\n".to_vec(task.alloc)?));
    }
    match given {
        Some(base) => beside(rt, task, base, names, is_json, crew),
        None => planned_first(rt, task, names, is_json, crew),
    }
}

/// The status and the text beside the plan of an order, which is made first.
fn planned_first<G: Gate + Sync, P: Stop + Sync, B: Observer, R: Threads + Wait + Sync>(
    rt: &R,
    task: &Task<'_>,
    names: &Names,
    is_json: bool,
    crew: &Crew<'_, G, P, B>,
) -> Result<(u8, Vec<u8>), AllocError>
    requires heard { HearsAll B.may_hear }
    ensures { IfOk result (λ answer.
        IsBesideOwn crew.now.turns (P.is_quiet crew.now.stop.now) is_json task.now.net.now task.now.order.now names.now answer.0 answer.1.items) }
{
    match plan_by_crew(rt, task, crew) {
        Ok(answer) => beside_answer(rt, task, answer, names, is_json, crew),
        Err(stop) => stop_told(task.alloc, stop),
    }
}

/// The status and the text beside the plan of an order, or the line that says why there is none.
fn beside_answer<G: Gate + Sync, P: Stop + Sync, B: Observer, R: Threads + Wait + Sync>(
    rt: &R,
    task: &Task<'_>,
    answer: Answer,
    names: &Names,
    is_json: bool,
    crew: &Crew<'_, G, P, B>,
) -> Result<(u8, Vec<u8>), AllocError>
    requires answer { IsAnswer task.now.net.now task.now.order.now answer }
    requires heard { HearsAll B.may_hear }
    ensures { IfOk result (λ answer.
        IsBesideOwn crew.now.turns (P.is_quiet crew.now.stop.now) is_json task.now.net.now task.now.order.now names.now answer.0 answer.1.items) }
{
    match answer {
        Answer::Plan(base) => beside(rt, task, &base, names, is_json, crew),
        reason => reason_told(task.alloc, task.order, reason),
    }
}

/// The status and the line that say why an order has no plan.
fn reason_told(alloc: Global, order: &Order, reason: Answer) -> Result<(u8, Vec<u8>), AllocError>
    requires none { IsNoPlan reason }
    ensures { (network : Project) → IsAnswer network order.now reason →
        IfOk result (λ answer. IsTextOfReason network order.now answer.0 answer.1.items) }
{
    let line = answer_lines(alloc, order.deadline, &reason)?;
    Ok((IMPOSSIBLE, line))
}

/// The status and the line that say why the plan of an order was not made.
#[tactic(auto, unfolding(crate::specs::Texts::no_thread_line, racp_plan::specs::Texts::line))]
fn stop_told(alloc: Global, stop: PlanStop) -> Result<(u8, Vec<u8>), AllocError>
    ensures { IfOk result (λ answer. IsStopTold stop answer.0 answer.1.items) }
{
    match stop {
        PlanStop::Stopped { not_before } => {
            Ok((STOPPED, stopped_line(alloc, not_before.as_slice())?))
        }
        PlanStop::Memory => Err(AllocError),
        PlanStop::NoThread => Ok((STREAM_FAILED, b"no thread\n".to_vec(alloc)?)),
    }
}

/// The status and the text beside this plan.
#[tactic(auto, unfolding(crate::specs::Texts::no_thread_line, racp_plan::specs::Texts::line))]
fn beside<G: Gate + Sync, P: Stop + Sync, B: Observer, R: Threads + Wait + Sync>(
    rt: &R,
    task: &Task<'_>,
    base: &Plan,
    names: &Names,
    is_json: bool,
    crew: &Crew<'_, G, P, B>,
) -> Result<(u8, Vec<u8>), AllocError>
    requires capacities { length base.now.capacities ≡ task.now.net.now.resources }
    requires heard { HearsAll B.may_hear }
    ensures { IfOk result (λ answer.
        IsBeside crew.now.turns (P.is_quiet crew.now.stop.now) is_json task.now.net.now task.now.order.now base.now names.now answer.0 answer.1.items) }
{
    match findings(rt, task, base.capacities.as_slice(), crew) {
        Ok(findings) => told(task, base, &findings, names, is_json),
        Err(PlanStop::NoThread) => { Ok((STREAM_FAILED, b"no thread\n".to_vec(task.alloc)?)) }
        Err(_) => Err(AllocError),
    }
}

/// The status and the text of findings beside a plan.
fn told(
    task: &Task<'_>,
    base: &Plan,
    findings: &[Finding],
    names: &Names,
    is_json: bool,
) -> Result<(u8, Vec<u8>), AllocError>
    ensures { (turns : ℕ) (quiet : Bool) →
        AreFindings (MayStop task.now.net.now quiet turns) task.now.net.now task.now.order.now base.now.capacities
        findings.now → IfOk result (λ answer. IsToldBeside turns quiet is_json task.now.net.now task.now.order.now base.now
        names.now answer.0 answer.1.items) }
{
    let called = Called {
        names,
        jobs: task.net.job_count(),
    };
    let text = text_of(task.alloc, &called, base, findings, is_json)?;
    Ok((status_of(findings), text))
}

/// Findings beside a plan as lines, or as JSON.
fn text_of(
    alloc: Global,
    called: &Called<'_>,
    base: &Plan,
    findings: &[Finding],
    is_json: bool,
) -> Result<Vec<u8>, AllocError>
    ensures { IfOk result (λ text. IsFindingsText is_json called.now.names.now called.now.jobs base.now findings.now text.items) }
{
    let text = if is_json {
        findings_json(alloc, called, base, findings)?
    } else {
        findings_text(alloc, called, base, findings)?
    };
    Ok(text.into_bytes())
}

/// The status that belongs to findings.
fn status_of(findings: &[Finding]) -> u8
    ensures { result ≡ findings_status findings.now }
{
    if are_known(findings) { DONE } else { STOPPED }
}
