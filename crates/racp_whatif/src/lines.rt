//! The lines that tell findings.

ghost use Rattle.std.specs.Prelude.{◌≡◌, ◌+◌, ◌++◌, ◌<◌, ◌≤◌, ◌^◌, IfOk, OnOk, flat_map, slice_index, string_bytes};
ghost use Rattle.racp_whatif.specs.Lines.{base_line, beside, change_words, each_beside, finding_line, findings_text, job_called, outcome_words, resource_called, units_beside};
ghost use Rattle.racp_whatif.specs.declared.outcome.Outcome.TheVariants.{Plan as ThePlan};

use crate::change::Change;
use crate::needed::need_words;
use crate::outcome::{Finding, Outcome};
use racp_plan::Plan;
use racp_show::Names;
use std::alloc::{AllocError, Global};

/// What the jobs and the resources of a project are called.
#[derive(Clone, Copy)]
pub struct Called<'a> {
    /// The names of the jobs and then of the resources.
    pub names: &'a Names,
    /// How many jobs there are.
    pub jobs: usize,
    pub ghost jobs_few: { jobs ≤ 512 },
}

impl Called<'_> {
    /// What the job of this number is called.
    #[tactic(auto, unfolding(crate::specs::Lines::job_called))]
    pub(crate) fn job(&self, alloc: Global, number: u32) -> Result<String, AllocError>
        ensures { IfOk result (λ text. string_bytes text ≡ job_called self.now.names.now number) }
    {
        match self.names.job((number as usize).saturating_sub(1)) {
            Some(name) => String::from_str(alloc, name),
            None => format!(in alloc; "job {number}"),
        }
    }

    /// What the resource at this place is called.
    #[tactic(auto, unfolding(crate::specs::Lines::resource_called))]
    pub(crate) fn resource(&self, alloc: Global, place: usize) -> Result<String, AllocError>
        requires { place < 2 ^ 63 }
        ensures { IfOk result (λ text. string_bytes text ≡ resource_called self.now.names.now self.now.jobs place) }
    {
        match self.names.resource(self.jobs, place) {
            Some(name) => String::from_str(alloc, name),
            None => {
                let number = place as u64 + 1;
                format!(in alloc; "resource {number}")
            }
        }
    }
}

/// What findings tell beside a plan: a line for the plan, one for each finding, and the line `end`.
///
/// # Errors
///
/// Memory was refused.
pub fn findings_text(
    alloc: Global,
    called: &Called<'_>,
    base: &Plan,
    findings: &[Finding],
) -> Result<String, AllocError>
    ensures { IfOk result (λ text. string_bytes text ≡ findings_text called.now.names.now called.now.jobs base.now findings.now) }
{
    let mut text = base_line(alloc, base)?;
    push_findings(alloc, &mut text, called, base, findings)?;
    text.push_str("end\n")?;
    Ok(text)
}

/// Adds the lines of findings.
fn push_findings(
    alloc: Global,
    text: &mut String,
    called: &Called<'_>,
    base: &Plan,
    findings: &[Finding],
) -> Result<(), AllocError>
    ensures { OnOk result (string_bytes text.new ≡ string_bytes text.old ++
        flat_map (finding_line called.now.names.now called.now.jobs base.now) findings.now) }
{
    for finding in findings {
        push_finding(alloc, text, called, base, finding)?;
    }
    Ok(())
}

/// The line that the plan has before all findings: its deadline and its cost.
///
/// # Errors
///
/// Memory was refused.
pub fn base_line(alloc: Global, base: &Plan) -> Result<String, AllocError>
    ensures { IfOk result (λ text. string_bytes text ≡ base_line base.now) }
{
    let (deadline, cost) = (base.deadline, base.cost);
    format!(in alloc; "deadline {deadline}: cost {cost}\n")
}

/// Adds the line of a finding.
#[tactic(auto, unfolding(crate::specs::Lines::finding_line, racp_plan::specs::Texts::line))]
fn push_finding(
    alloc: Global,
    text: &mut String,
    called: &Called<'_>,
    base: &Plan,
    finding: &Finding,
) -> Result<(), AllocError>
    ensures { OnOk result (string_bytes text.new ≡ string_bytes text.old ++
        finding_line called.now.names.now called.now.jobs base.now finding.now) }
{
    let change = change_words(alloc, called, finding.change)?;
    let outcome = outcome_words(alloc, called, base, &finding.outcome)?;
    write!(text, "{change}: {outcome}\n")
}

/// What the change is.
#[tactic(auto, unfolding(crate::specs::Lines::change_words))]
fn change_words(alloc: Global, called: &Called<'_>, change: Change) -> Result<String, AllocError>
    ensures { IfOk result (λ text. string_bytes text ≡ change_words called.now.names.now called.now.jobs change) }
{
    match change {
        Change::Ceiling { place, units: _ } => {
            let name = called.resource(alloc, place as usize)?;
            format!(in alloc; "one fewer of {name}")
        }
        Change::Owned { place, units: _ } => {
            let name = called.resource(alloc, place as usize)?;
            format!(in alloc; "one more owned of {name}")
        }
        Change::Deadline { deadline } => format!(in alloc; "deadline {deadline}"),
    }
}

/// What becomes of the order.
#[tactic(auto, unfolding(crate::specs::Lines::outcome_words))]
fn outcome_words(
    alloc: Global,
    called: &Called<'_>,
    base: &Plan,
    outcome: &Outcome,
) -> Result<String, AllocError>
    ensures { IfOk result (λ text. string_bytes text ≡ outcome_words called.now.names.now called.now.jobs base.now outcome.now) }
{
    match outcome {
        Outcome::Plan(plan) => plan_words(alloc, called, base, plan),
        Outcome::TooLong { critical } => {
            let critical = *critical;
            format!(in alloc; "not possible; the critical length is {critical}")
        }
        Outcome::TooLate { job } => {
            let name = called.job(alloc, *job)?;
            format!(in alloc; "not possible; {name} ends too late")
        }
        Outcome::NoneEnough { need: None } => String::from_str(alloc, "not possible"),
        Outcome::NoneEnough { need: Some(need) } => {
            let words = need_words(alloc, called, need)?;
            format!(in alloc; "not possible; {words}")
        }
        Outcome::Open { least } => {
            let least = *least;
            format!(in alloc; "not known; costs at least {least}")
        }
    }
}

/// What a plan costs, and how many units it has, beside another.
#[tactic(auto, unfolding(crate::specs::Lines::outcome_words))]
fn plan_words(
    alloc: Global,
    called: &Called<'_>,
    base: &Plan,
    plan: &Plan,
) -> Result<String, AllocError>
    ensures { IfOk result (λ text. string_bytes text ≡ outcome_words called.now.names.now called.now.jobs base.now (ThePlan plan.now)) }
{
    let cost = plan.cost;
    let more = beside(alloc, base.cost, cost)?;
    let mut text = format!(in alloc; "cost {cost}, {more}")?;
    push_units(
        alloc,
        &mut text,
        called,
        base.capacities.as_slice(),
        plan.capacities.as_slice(),
    )?;
    Ok(text)
}

/// How much more or less one number is than another.
#[tactic(auto, unfolding(crate::specs::Lines::beside))]
fn beside(alloc: Global, old: u64, new: u64) -> Result<String, AllocError>
    ensures { IfOk result (λ text. string_bytes text ≡ beside old new) }
{
    if old < new {
        let more = new - old;
        format!(in alloc; "{more} more")
    } else if new < old {
        let less = old - new;
        format!(in alloc; "{less} less")
    } else {
        String::from_str(alloc, "as much")
    }
}

/// Adds how many units there are more and fewer of each resource.
fn push_units(
    alloc: Global,
    text: &mut String,
    called: &Called<'_>,
    olds: &[u32],
    news: &[u32],
) -> Result<(), AllocError>
    ensures { OnOk result (string_bytes text.new ≡ string_bytes text.old ++
        each_beside called.now.names.now called.now.jobs olds.now 0 news.now) }
{
    for (place, new) in news.iter().enumerate() {
        let name = called.resource(alloc, place)?;
        push_units_beside(text, &name, units_at(olds, place), *new)?;
    }
    Ok(())
}

/// How many units there are at this place; 0 if there is none.
fn units_at(units: &[u32], place: usize) -> u32
    ensures { result ≡ slice_index units.now place }
{
    if place < units.len() { units[place] } else { 0 }
}

/// Adds how many units there are more or fewer of a resource of this name; nothing where there are as many.
#[tactic(auto, unfolding(crate::specs::Lines::units_beside))]
fn push_units_beside(text: &mut String, name: &str, old: u32, new: u32) -> Result<(), AllocError>
    ensures { OnOk result (string_bytes text.new ≡ string_bytes text.old ++ units_beside name.now old new) }
{
    if old < new {
        let more = new - old;
        write!(text, "; {more} more of {name}")
    } else if new < old {
        let fewer = old - new;
        write!(text, "; {fewer} fewer of {name}")
    } else {
        Ok(())
    }
}
