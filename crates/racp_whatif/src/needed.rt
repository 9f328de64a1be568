//! The words for a need.

ghost use Rattle.std.specs.Prelude.{◌≡◌, ◌++◌, IfOk, OnOk, string_bytes};
ghost use Rattle.racp_whatif.specs.Lines.{between, each_job, job_words, jobs_words, need_words, needed, times_words};

use crate::lines::Called;
use crate::need::Need;
use std::alloc::{AllocError, Global};

/// How many jobs of a need are named at most.
const MOST_NAMED: usize = 8;

/// What is needed above a ceiling, when, and by which jobs.
#[tactic(auto, unfolding(crate::specs::Lines::need_words))]
pub(crate) fn need_words(
    alloc: Global,
    called: &Called<'_>,
    need: &Need,
) -> Result<String, AllocError>
    ensures { IfOk result (λ text. string_bytes text ≡ need_words called.now.names.now called.now.jobs need.now) }
{
    let name = called.resource(alloc, need.place as usize)?;
    let times = times_words(alloc, need)?;
    let jobs = jobs_words(alloc, called, &need.jobs)?;
    needed(alloc, need.units, &name, &times, &jobs)
}

/// These words as one text.
fn needed(
    alloc: Global,
    units: u64,
    name: &str,
    times: &str,
    jobs: &str,
) -> Result<String, AllocError>
    ensures { IfOk result (λ text. string_bytes text ≡ needed units name.now times.now jobs.now) }
{
    format!(in alloc; "{units} of {name} needed{times}{jobs}")
}

/// Between which times that is; nothing for a single job.
#[tactic(auto, unfolding(crate::specs::Lines::times_words))]
fn times_words(alloc: Global, need: &Need) -> Result<String, AllocError>
    ensures { IfOk result (λ text. string_bytes text ≡ times_words need.now) }
{
    if 1 < need.jobs.len() {
        between(alloc, need.from, need.until)
    } else {
        Ok(String::new(alloc))
    }
}

/// ` between T and U`.
fn between(alloc: Global, from: u64, until: u64) -> Result<String, AllocError>
    ensures { IfOk result (λ text. string_bytes text ≡ between from until) }
{
    format!(in alloc; " between {from} and {until}")
}

/// By which jobs: by their names, or how many they are if there are more than eight.
#[tactic(auto, unfolding(crate::specs::Lines::jobs_words))]
fn jobs_words(alloc: Global, called: &Called<'_>, jobs: &[u32]) -> Result<String, AllocError>
    ensures { IfOk result (λ text. string_bytes text ≡ jobs_words called.now.names.now jobs.now) }
{
    let count = jobs.len();
    if count > MOST_NAMED {
        return format!(in alloc; " by {count} jobs");
    }
    let mut text = String::new(alloc);
    push_jobs(alloc, &mut text, called, jobs)?;
    Ok(text)
}

/// Adds the names of jobs.
fn push_jobs(
    alloc: Global,
    text: &mut String,
    called: &Called<'_>,
    jobs: &[u32],
) -> Result<(), AllocError>
    ensures { OnOk result (string_bytes text.new ≡ string_bytes text.old ++ each_job called.now.names.now 0 jobs.now) }
{
    for (place, job) in jobs.iter().enumerate() {
        let name = called.job(alloc, *job)?;
        push_job(text, place, &name)?;
    }
    Ok(())
}

/// Adds a name, behind the word that it has before it.
#[tactic(auto, unfolding(crate::specs::Lines::job_words))]
fn push_job(text: &mut String, place: usize, name: &str) -> Result<(), AllocError>
    ensures { OnOk result (string_bytes text.new ≡ string_bytes text.old ++ job_words place name.now) }
{
    if place == 0 {
        write!(text, " by {name}")
    } else {
        write!(text, ", {name}")
    }
}
