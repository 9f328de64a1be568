//! What becomes of an order if one term is changed.

ghost use Rattle.std.specs.Prelude.{[], ◌∷◌, ◌≡◌, ◌++◌, ℕ, All, Bool, IfErr, IfOk, OnOk, length, map};
ghost use Rattle.racp_found.specs.Told.{HearsAll};
ghost use Rattle.racp_model.specs.Terms.{AreTermsOf};
ghost use Rattle.racp_found.specs.Told.{MayBeTold};
ghost use Rattle.racp_whatif.specs.Changes.{IsChangeFor};
ghost use Rattle.racp_whatif.specs.Outcomes.{AreFindings, IsFinding, IsOutcome, change_of};
ghost use Rattle.racp_by_questions.specs.Crowds.{MayStop};
ghost use Rattle.racp_lexfix.specs.Answers.{IsAnswer};
ghost use Rattle.racp_whatif.specs.Faults.{IsFault};

use crate::beside::found_beside;
use crate::change::Change;
use crate::changes::changes_of;
use crate::changing::changed;
use crate::collected::{Found, taken};
use crate::need::need_above;
use crate::outcome::{Finding, Outcome};
use racp_by_questions::OfTurns;
use racp_desk::Gate;
use racp_found::{Observer, OfOrder};
use racp_lexfix::{Answer, Crew, PlanStop, plan_by_crew};
use racp_model::limits::MOST_RESOURCES;
use racp_model::{Network, Stop};
use racp_prices::{Order, cost_of};
use racp_root::Task;
use std::alloc::{AllocError, Global};
use std::marker::Brand;
use std::sync::Wait;
use std::thread::Threads;

/// What becomes of an order with each change that is asked about it and these capacities, in their order. Each plan is made
/// by such workers, as that of the order itself; one that is stopped is left open.
///
/// # Errors
///
/// Memory was refused, or a worker could not be started.
pub fn findings<G: Gate + Sync, P: Stop + Sync, O: Observer, R: Threads + Wait + Sync>(
    rt: &R,
    task: &Task<'_>,
    capacities: &[u32],
    crew: &Crew<'_, G, P, O>,
) -> Result<Vec<Finding>, PlanStop>
    requires places { length capacities.now ≡ task.now.net.now.resources }
    requires heard { HearsAll O.may_hear }
    ensures findings { IfOk result (λ findings. AreFindings (MayStop task.now.net.now (P.is_quiet crew.now.stop.now) crew.now.turns)
        task.now.net.now task.now.order.now capacities.now findings.items) }
    ensures fault { IfErr result IsFault }
{
    prove!(task.net.resource_count() <= MOST_RESOURCES);
    let changes = changes_of(task.alloc, task.order, capacities)?;
    findings_of::<Brand, Brand, G, P, O, R>(rt, task, &changes, crew)
}

/// What becomes of an order with each of these changes, in their order. Where searches learn, workers plan changed
/// orders side by side.
fn findings_of<
    N: OfOrder + Send + Sync,
    M: OfTurns + Send + Sync,
    G: Gate + Sync,
    P: Stop + Sync,
    O: Observer,
    R: Threads + Wait + Sync,
>(
    rt: &R,
    task: &Task<'_>,
    changes: &[Change],
    crew: &Crew<'_, G, P, O>,
) -> Result<Vec<Finding>, PlanStop>
    requires asked { All (IsChangeFor task.now.order.now) changes.now }
    requires heard { HearsAll O.may_hear }
    requires named { task.now.net.now ≡ N.network }
    requires named_terms { task.now.order.now ≡ N.terms }
    requires named_turns { crew.now.turns ≡ M.turns }
    requires named_quiet { P.is_quiet crew.now.stop.now ≡ M.quiet }
    ensures changes { IfOk result (λ findings. map change_of findings.items ≡ changes.now) }
    ensures right { IfOk result (λ findings. All (IsFinding (MayStop N.network M.quiet M.turns) N.network N.terms) findings.items) }
    ensures fault { IfErr result IsFault }
{
    let found = found_beside::<N, M, G, P, O, R>(rt, task, changes, crew)?;
    each_finding(rt, task, changes, found, crew)
}

/// What becomes of an order with each of these changes, in their order: what is found already, and the rest by all workers,
/// change by change.
fn each_finding<
    N: OfOrder,
    M: OfTurns,
    G: Gate + Sync,
    P: Stop + Sync,
    O: Observer,
    R: Threads + Wait + Sync,
>(
    rt: &R,
    task: &Task<'_>,
    changes: &[Change],
    found: Vec<Found<N, M>>,
    crew: &Crew<'_, G, P, O>,
) -> Result<Vec<Finding>, PlanStop>
    requires asked { All (IsChangeFor task.now.order.now) changes.now }
    requires heard { HearsAll O.may_hear }
    requires named { task.now.net.now ≡ N.network }
    requires named_terms { task.now.order.now ≡ N.terms }
    requires named_turns { crew.now.turns ≡ M.turns }
    requires named_quiet { P.is_quiet crew.now.stop.now ≡ M.quiet }
    ensures changes { IfOk result (λ findings. map change_of findings.items ≡ changes.now) }
    ensures right { IfOk result (λ findings. All (IsFinding (MayStop N.network M.quiet M.turns) N.network N.terms) findings.items) }
    ensures fault { IfErr result IsFault }
{
    let mut found = found;
    let mut findings = Vec::new(task.alloc);
    for change in changes {
        let next = next_finding(rt, task, *change, &mut found, crew)?;
        keep(&mut findings, next)?;
    }
    Ok(findings)
}

/// What becomes of an order with this change: what is found already, or what all workers find.
fn next_finding<
    N: OfOrder,
    M: OfTurns,
    G: Gate + Sync,
    P: Stop + Sync,
    O: Observer,
    R: Threads + Wait + Sync,
>(
    rt: &R,
    task: &Task<'_>,
    change: Change,
    found: &mut Vec<Found<N, M>>,
    crew: &Crew<'_, G, P, O>,
) -> Result<Finding, PlanStop>
    requires change { IsChangeFor task.now.order.now change }
    requires heard { HearsAll O.may_hear }
    requires named { task.now.net.now ≡ N.network }
    requires named_terms { task.now.order.now ≡ N.terms }
    requires named_turns { crew.now.turns ≡ M.turns }
    requires named_quiet { P.is_quiet crew.now.stop.now ≡ M.quiet }
    ensures change { IfOk result (λ finding. finding.change ≡ change) }
    ensures right { IfOk result (IsFinding (MayStop N.network M.quiet M.turns) N.network N.terms) }
    ensures fault { IfErr result IsFault }
{
    match taken(found, change) {
        Some(next) => Ok(next),
        None => finding::<N, M, G, P, O, R>(rt, task, change, crew),
    }
}

/// Adds a finding.
fn keep(findings: &mut Vec<Finding>, found: Finding) -> Result<(), AllocError>
    ensures { OnOk result (findings.new.items ≡ findings.old.items ++ found ∷ []) }
{
    findings.push(found)?;
    Ok(())
}

/// What becomes of an order with this change. The order is the one that `N` names; the turns, and whether the stop is quiet,
/// are as `M` says.
pub(crate) fn finding<
    N: OfOrder,
    M: OfTurns,
    G: Gate + Sync,
    P: Stop + Sync,
    O: Observer,
    R: Threads + Wait + Sync,
>(rt: &R, task: &Task<'_>, change: Change, crew: &Crew<'_, G, P, O>) -> Result<Finding, PlanStop>
    requires change { IsChangeFor task.now.order.now change }
    requires heard { HearsAll O.may_hear }
    requires named { task.now.net.now ≡ N.network }
    requires named_terms { task.now.order.now ≡ N.terms }
    requires named_turns { crew.now.turns ≡ M.turns }
    requires named_quiet { P.is_quiet crew.now.stop.now ≡ M.quiet }
    ensures change { IfOk result (λ finding. finding.change ≡ change) }
    ensures right { IfOk result (IsFinding (MayStop N.network M.quiet M.turns) N.network N.terms) }
    ensures fault { IfErr result IsFault }
{
    let order = changed(task.alloc, task.order, change)?;
    let outcome = outcome_by_crew(rt, task.alloc, task.net, &order, crew);
    // Dropped here once, not at each way out.
    drop(order);
    let outcome = outcome?;
    Ok(Finding { change, outcome })
}

/// What becomes of an order, by a plan that such workers make; one that is stopped is left open.
///
/// # Errors
///
/// Memory was refused, or a worker could not be started.
pub fn outcome_by_crew<G: Gate + Sync, P: Stop + Sync, O: Observer, R: Threads + Wait + Sync>(
    rt: &R,
    alloc: Global,
    net: &Network,
    order: &Order,
    crew: &Crew<'_, G, P, O>,
) -> Result<Outcome, PlanStop>
    requires terms { AreTermsOf net.now order.now }
    requires heard { MayBeTold net.now order.now O.may_hear }
    ensures outcome { IfOk result (IsOutcome (MayStop net.now (P.is_quiet crew.now.stop.now) crew.now.turns)
        net.now order.now) }
    ensures fault { IfErr result IsFault }
{
    let task = Task { alloc, net, order };
    match plan_by_crew(rt, &task, crew) {
        Ok(answer) => outcome_of(&task, answer),
        Err(PlanStop::Stopped { not_before }) => Ok(Outcome::Open {
            least: cost_of(net, order, not_before.as_slice()),
        }),
        Err(PlanStop::Memory) => Err(PlanStop::Memory),
        Err(PlanStop::NoThread) => Err(PlanStop::NoThread),
    }
}

/// What an answer says of an order, with a need above a ceiling if the ceilings leave no plan.
pub(crate) fn outcome_of(task: &Task<'_>, answer: Answer) -> Result<Outcome, PlanStop>
    requires answer { IsAnswer task.now.net.now task.now.order.now answer }
    ensures outcome { (quiet : Bool) (turns : ℕ) → IfOk result (IsOutcome (MayStop task.now.net.now quiet turns)
        task.now.net.now task.now.order.now) }
    ensures fault { IfErr result IsFault }
{
    match answer {
        Answer::Plan(plan) => Ok(Outcome::Plan(plan)),
        Answer::Impossible { longest } => Ok(Outcome::TooLong { critical: longest }),
        Answer::Due { job } => Ok(Outcome::TooLate { job }),
        Answer::Ceiling => Ok(Outcome::NoneEnough {
            need: need_above(task.alloc, task.net, task.order)?,
        }),
    }
}
