//! What was understood of a table, in words.

ghost use Rattle.std.specs.Prelude.{◌↔◌, ◌<◌, ◌≤◌, ◌≡◌, All, IsTrue, length};

use crate::table::Notes;
use racp_cpm::longest;
use racp_model::Network;
use racp_model::limits::LATEST_TIME;
use racp_sm::read_sm;
use std::alloc::{AllocError, Global};
use std::cmp::max;

/// What was understood of a table.
#[derive(Drop)]
pub struct Understanding {
    /// The critical length of its network, from the earliest times on, in time units.
    pub critical: u64,
    /// What is told: a line without its end.
    pub words: String,
}

/// What was understood of a table with these notes and resources, by the text of its network and the times from which its jobs
/// may start; all at once if there is no time for each.
///
/// # Errors
///
/// Memory was refused.
pub fn understood(
    alloc: Global,
    network: &str,
    earliest: &[u32],
    resources: &[String],
    notes: &Notes,
) -> Result<Understanding, AllocError> {
    let Ok(net) = read_sm(alloc, network.as_bytes()) else {
        return Err(AllocError);
    };
    let critical = critical_length(alloc, &net, earliest)?;
    let words = words_of(alloc, &net, critical, resources, notes)?;
    Ok(Understanding { critical, words })
}

/// The critical length of a network whose jobs may start at these times, or at once.
fn critical_length(alloc: Global, net: &Network, times: &[u32]) -> Result<u64, AllocError> {
    if are_times(times, net.job_count()) {
        longest(alloc, net, times)
    } else {
        let zeros = vec![in alloc; 0; net.job_count()]?;
        longest(alloc, net, &zeros)
    }
}

/// Whether there are so many numbers, and all are times.
fn are_times(numbers: &[u32], count: usize) -> bool
    ensures { IsTrue result ↔ ((length numbers.now ≡ count) × All (λ x. x ≤ 10000000) numbers.now) }
{
    numbers.len() == count && numbers.iter().all(|x| *x <= LATEST_TIME)
}

/// What is told: how many tasks, phases, links and resources there are, and what was passed over.
fn words_of(
    alloc: Global,
    net: &Network,
    critical: u64,
    resources: &[String],
    notes: &Notes,
) -> Result<String, AllocError> {
    let waits = net.job_count().saturating_sub(notes.tasks);
    let links = net.arcs().len().saturating_sub(waits);
    let mut words = counted(alloc, notes.tasks, "task")?;
    words.push_str(", ")?;
    if notes.phases > 0 {
        words.push_str(counted(alloc, notes.phases, "phase")?.as_str())?;
        words.push_str(", ")?;
    }
    words.push_str(counted(alloc, links, "link")?.as_str())?;
    if waits > 0 {
        words.push_str(" (")?;
        words.push_str(counted(alloc, waits, "job")?.as_str())?;
        words.push_str(" behind the tasks for lags)")?;
    }
    write!(words, ", critical length {critical}; resources: ")?;
    push_resources(&mut words, net, resources)?;
    push_passed_over(&mut words, &notes.passed_over)?;
    if notes.is_half_day {
        words.push_str("; a time unit is half a day, so durations and times are doubled")?;
    }
    Ok(words)
}

/// A number of things that are called so.
pub fn counted(alloc: Global, count: usize, thing: &str) -> Result<String, AllocError> {
    let end = if count == 1 { "" } else { "s" };
    format!(in alloc; "{count} {thing}{end}")
}

/// Adds the resources, each with the most that a task needs of it.
fn push_resources(
    words: &mut String,
    net: &Network,
    resources: &[String],
) -> Result<(), AllocError> {
    for (k, name) in resources.iter().enumerate() {
        let link = if k == 0 { "" } else { ", " };
        let most = most_needed(net, k);
        write!(
            words,
            "{link}{name} (most needed at once by a task: {most})"
        )?;
    }
    Ok(())
}

/// The most that a job needs of the resource at place `k`.
fn most_needed(net: &Network, k: usize) -> u32 {
    let mut most = 0;
    for i in 0..net.job_count() {
        most = max(most, needed(net, i, k));
    }
    most
}

/// What the job at place `i` needs of the resource at place `k`; nothing if there is no such resource.
fn needed(net: &Network, i: usize, k: usize) -> u32
    requires { i < length net.now.jobs }
{
    net.requests(i).get(k).copied().unwrap_or(0)
}

/// Adds the titles of columns that were passed over.
fn push_passed_over(words: &mut String, titles: &[String]) -> Result<(), AllocError> {
    for (place, title) in titles.iter().enumerate() {
        let link = if place == 0 { "; passed over: " } else { ", " };
        write!(words, "{link}{title}")?;
    }
    Ok(())
}
