//! A plan as a chart: the values that are drawn.

ghost use Rattle.std.specs.Prelude.{◌≡◌, ℕ, ◌<◌, ◌≤◌, IfOk, length};
ghost use Rattle.racp_model.specs.Limits.{latest_time};
ghost use Rattle.racp_model.specs.Schedule.{EndsBy};
ghost use Rattle.racp_show.specs.Charts.{AreJobRows, AreLevels, AreResourceRows, IsChart, IsJobRow, IsResourceRow};

use crate::scale::{Bar, Scale};
use crate::times::Times;
use crate::usage::{busy_percent, greatest_usage};
use racp_model::Network;
use racp_plan::Plan;
use std::alloc::{AllocError, Global};

/// What is drawn of a job.
#[derive(Clone, Copy)]
pub struct JobRow {
    /// When it starts, in time units.
    pub start: u32,
    /// When it has ended, in time units.
    pub end: u32,
    /// The columns in which it is drawn.
    pub bar: Bar,
}

/// What is drawn of a resource.
#[derive(Drop)]
pub struct ResourceRow {
    /// How many units of it there are.
    pub capacity: u32,
    /// How busy they are up to the deadline, in percent, rounded down.
    pub busy: u64,
    /// For each column, from 0, the most units that are used at a time of it.
    pub levels: Vec<u32>,
}

/// A plan as a chart: a row for each job and each resource, by place from 0.
#[derive(Drop)]
pub struct Chart {
    /// Which column stands for which times.
    pub scale: Scale,
    /// The jobs.
    pub jobs: Vec<JobRow>,
    /// The resources.
    pub resources: Vec<ResourceRow>,
}

/// The chart of a plan up to a deadline, in time units, with at most `most` columns. The work grows with the jobs, the
/// resources and the columns, and not with the deadline.
///
/// # Errors
///
/// Memory was refused.
pub fn chart_of(
    alloc: Global,
    net: &Network,
    plan: &Plan,
    deadline: u32,
    most: u32,
) -> Result<Chart, AllocError>
    requires time { deadline ≤ latest_time }
    requires some_column { 0 < most }
    requires capacities { length plan.now.capacities ≡ net.now.resources }
    requires starts { length plan.now.starts ≡ length net.now.jobs }
    requires ends { EndsBy net.now (λ _. deadline) plan.now.starts }
    ensures { IfOk result (IsChart net.now plan.now deadline most) }
{
    let scale = Scale::of(deadline, most);
    let times = Times {
        net,
        starts: plan.starts.as_slice(),
        deadline,
    };
    let jobs = job_rows(alloc, &times, &scale)?;
    let resources = resource_rows(alloc, net, plan, deadline, &scale)?;
    Ok(Chart {
        scale,
        jobs,
        resources,
    })
}

/// A row for each job.
fn job_rows(alloc: Global, times: &Times, scale: &Scale) -> Result<Vec<JobRow>, AllocError>
    ensures { IfOk result (λ rows. AreJobRows times.now.net.now times.now.starts.now scale.now rows.items) }
{
    let mut rows = Vec::new(alloc);
    for i in 0..times.net.job_count() {
        rows.push(job_row(times, scale, i))?;
    }
    Ok(rows)
}

/// The row of the job at place `i`.
fn job_row(times: &Times, scale: &Scale, i: usize) -> JobRow
    requires { i < length times.now.net.now.jobs }
    ensures { IsJobRow times.now.net.now times.now.starts.now scale.now i result }
{
    let start = times.start(i);
    let end = times.end(i);
    let bar = scale.bar(start, end);
    JobRow { start, end, bar }
}

/// A row for each resource.
fn resource_rows(
    alloc: Global,
    net: &Network,
    plan: &Plan,
    deadline: u32,
    scale: &Scale,
) -> Result<Vec<ResourceRow>, AllocError>
    requires capacities { length plan.now.capacities ≡ net.now.resources }
    requires starts { length plan.now.starts ≡ length net.now.jobs }
    ensures { IfOk result (λ rows. AreResourceRows net.now plan.now deadline scale.now rows.items) }
{
    let mut rows = Vec::new(alloc);
    for k in 0..net.resource_count() {
        rows.push(resource_row(alloc, net, plan, deadline, scale, k)?)?;
    }
    Ok(rows)
}

/// The row of the resource at place `k`.
fn resource_row(
    alloc: Global,
    net: &Network,
    plan: &Plan,
    deadline: u32,
    scale: &Scale,
    k: usize,
) -> Result<ResourceRow, AllocError>
    requires resource { k < net.now.resources }
    requires capacities { length plan.now.capacities ≡ net.now.resources }
    requires starts { length plan.now.starts ≡ length net.now.jobs }
    ensures { IfOk result (IsResourceRow net.now plan.now deadline scale.now k) }
{
    let capacity = plan.capacities.as_slice()[k];
    let busy = busy_percent(net, k, capacity, deadline);
    let levels = levels(alloc, net, plan.starts.as_slice(), scale, k)?;
    Ok(ResourceRow {
        capacity,
        busy,
        levels,
    })
}

/// For each column the greatest usage of the resource at place `k`.
fn levels(
    alloc: Global,
    net: &Network,
    starts: &[u32],
    scale: &Scale,
    k: usize,
) -> Result<Vec<u32>, AllocError>
    requires resource { k < net.now.resources }
    requires starts { length starts.now ≡ length net.now.jobs }
    ensures { IfOk result (λ levels. AreLevels net.now starts.now scale.now k levels.items) }
{
    let mut levels = Vec::new(alloc);
    for column in 0..scale.columns {
        let from = column * scale.span;
        levels.push(greatest_usage(net, starts, k, from, from + scale.span))?;
    }
    Ok(levels)
}
