//! Findings as JSON.

ghost use Rattle.std.specs.Prelude.{◌≡◌, IfOk, None, option_map};
ghost use Rattle.racp_whatif.specs.Values.{TellsFinding, TellsNeed, TellsNeedOf, capacities_in, cost_in, least_in, value_of};

use crate::change::Change;
use crate::lines::Called;
use crate::need::Need;
use crate::outcome::{Finding, Outcome, are_known};
use racp_plan::Plan;
use serde::Serialize;
use std::alloc::{AllocError, Global};

/// What is told of a plan and of changes of its order.
#[derive(Drop, Serialize)]
struct Told {
    /// `done`, or `stopped` if what becomes of some changed order is not known.
    status: &'static str,
    /// The deadline.
    deadline: u32,
    /// What the plan costs.
    cost: u64,
    /// How many units there are of each resource, by place from 0.
    capacities: Vec<u32>,
    /// What is told of each change.
    changes: Vec<ToldFinding>,
}

/// What is told of a change, and of what becomes of the order.
#[derive(Drop, Serialize)]
pub struct ToldFinding {
    /// `ceiling`, `owned` or `deadline`.
    pub change: &'static str,
    /// The number of the resource that it is about, from 1, if it is about one.
    pub resource: Option<u32>,
    /// What the resource is called.
    pub name: Option<String>,
    /// The number to which the term is changed.
    pub value: u32,
    /// `plan`, `impossible` or `open`.
    pub outcome: &'static str,
    /// What the plan costs, if there is one.
    pub cost: Option<u64>,
    /// Its capacities.
    pub capacities: Option<Vec<u32>>,
    /// What each plan costs at least, of a plan that is not known.
    pub least: Option<u64>,
    /// What is needed above a ceiling, if there is no plan and that is seen.
    pub need: Option<ToldNeed>,
}

/// What is told of a need.
#[derive(Drop, Serialize)]
pub struct ToldNeed {
    /// The number of the resource, from 1.
    pub resource: u64,
    /// What the resource is called.
    pub name: String,
    /// How many units are needed,
    pub units: u64,
    /// at some time from this one on,
    pub from: u64,
    /// before this one.
    pub until: u64,
    /// The numbers of the jobs that need them, from 1, rising.
    pub jobs: Vec<u32>,
}

/// Findings beside a plan as one line of JSON.
///
/// # Errors
///
/// Memory was refused.
pub fn findings_json(
    alloc: Global,
    called: &Called<'_>,
    base: &Plan,
    findings: &[Finding],
) -> Result<String, AllocError> {
    let mut changes = Vec::new(alloc);
    for finding in findings {
        changes.push(told_finding(alloc, called, finding)?)?;
    }
    let told = Told {
        status: if are_known(findings) {
            "done"
        } else {
            "stopped"
        },
        deadline: base.deadline,
        cost: base.cost,
        capacities: base.capacities.as_slice().to_vec(alloc)?,
        changes,
    };
    written(alloc, &told)
}

/// A value as JSON, with a line feed behind it.
fn written(alloc: Global, told: &Told) -> Result<String, AllocError> {
    match serde_json::to_string(alloc, told) {
        Ok(mut text) => {
            text.push('\n')?;
            Ok(text)
        }
        // It has no value that JSON cannot say.
        Err(_) => Err(AllocError),
    }
}

/// What is told of a finding.
///
/// # Errors
///
/// Memory was refused.
pub fn told_finding(
    alloc: Global,
    called: &Called<'_>,
    finding: &Finding,
) -> Result<ToldFinding, AllocError>
    ensures { IfOk result (TellsFinding finding.now) }
{
    let name = name_of(alloc, called, finding.change)?;
    let capacities = capacities_of(alloc, &finding.outcome)?;
    let need = need_of(alloc, called, &finding.outcome)?;
    Ok(ToldFinding {
        change: kind_of(finding.change),
        resource: resource_of(finding.change),
        name,
        value: value_of(finding.change),
        outcome: word_of(&finding.outcome),
        cost: cost_of(&finding.outcome),
        capacities,
        least: least_of(&finding.outcome),
        need,
    })
}

/// The word for what is changed.
fn kind_of(change: Change) -> &'static str {
    match change {
        Change::Ceiling { .. } => "ceiling",
        Change::Owned { .. } => "owned",
        Change::Deadline { .. } => "deadline",
    }
}

/// The number of the resource that a change is about, from 1.
fn resource_of(change: Change) -> Option<u32> {
    match change {
        Change::Ceiling { place, .. } | Change::Owned { place, .. } => place.checked_add(1),
        Change::Deadline { .. } => None,
    }
}

/// What the resource is called that a change is about.
fn name_of(
    alloc: Global,
    called: &Called<'_>,
    change: Change,
) -> Result<Option<String>, AllocError> {
    match change {
        Change::Ceiling { place, .. } | Change::Owned { place, .. } => {
            Ok(Some(called.resource(alloc, place as usize)?))
        }
        Change::Deadline { .. } => Ok(None),
    }
}

/// The number to which a term is changed.
fn value_of(change: Change) -> u32
    ensures { result ≡ value_of change }
{
    match change {
        Change::Ceiling { units, .. } | Change::Owned { units, .. } => units,
        Change::Deadline { deadline } => deadline,
    }
}

/// The word for what becomes of an order.
fn word_of(outcome: &Outcome) -> &'static str {
    match outcome {
        Outcome::Plan(_) => "plan",
        Outcome::Open { .. } => "open",
        _ => "impossible",
    }
}

/// What the plan of an order costs, if there is one.
fn cost_of(outcome: &Outcome) -> Option<u64>
    ensures { result ≡ cost_in outcome.now }
{
    match outcome {
        Outcome::Plan(plan) => Some(plan.cost),
        _ => None,
    }
}

/// The capacities of the plan of an order, if there is one.
fn capacities_of(alloc: Global, outcome: &Outcome) -> Result<Option<Vec<u32>>, AllocError>
    ensures { IfOk result (λ found. option_map (λ list. list.items) found ≡ capacities_in outcome.now) }
{
    match outcome {
        Outcome::Plan(plan) => Ok(Some(plan.capacities.as_slice().to_vec(alloc)?)),
        _ => Ok(None),
    }
}

/// What each plan of an order costs at least, if the plan is not known.
fn least_of(outcome: &Outcome) -> Option<u64>
    ensures { result ≡ least_in outcome.now }
{
    match outcome {
        Outcome::Open { least } => Some(*least),
        _ => None,
    }
}

/// What is needed above a ceiling, if that is seen.
fn need_of(
    alloc: Global,
    called: &Called<'_>,
    outcome: &Outcome,
) -> Result<Option<ToldNeed>, AllocError>
    ensures { IfOk result (TellsNeedOf outcome.now) }
{
    match outcome {
        Outcome::NoneEnough { need: Some(need) } => Ok(Some(told_need(alloc, called, need)?)),
        _ => Ok(None),
    }
}

/// What is told of a need.
fn told_need(alloc: Global, called: &Called<'_>, need: &Need) -> Result<ToldNeed, AllocError>
    ensures { IfOk result (TellsNeed need.now) }
{
    let name = called.resource(alloc, need.place as usize)?;
    let jobs = need.jobs.to_vec(alloc)?;
    Ok(ToldNeed {
        resource: need.place as u64 + 1,
        name,
        units: need.units,
        from: need.from,
        until: need.until,
        jobs,
    })
}
