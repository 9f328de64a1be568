//! A plan as a sheet of numbers.

ghost use Rattle.std.specs.Prelude.{◌≡◌, ℕ, ◌<◌, IfOk, length};
ghost use Rattle.racp_model.specs.Plan.{FitsTerms};
ghost use Rattle.racp_model.specs.Terms.{AreTermsOf};
ghost use Rattle.racp_show.specs.Sheets.{AreJobEntries, AreResourceEntries, IsJobEntry, IsResourceEntry, IsSheet};

use crate::latest::{Room, room_of};
use crate::names::Names;
use crate::order::{deadline_of, owned_of, price_of};
use crate::task::numbers_before;
use crate::times::Times;
use crate::usage::{Step, usage_steps};
use racp_calendar::{Calendar, first_word, last_word};
use racp_model::Network;
use racp_plan::Plan;
use racp_prices::Order;
use serde::Serialize;
use std::alloc::{AllocError, Global};

/// What a sheet says of a job.
#[derive(Drop, Serialize)]
pub struct JobEntry<'a> {
    /// Its number, from 1.
    pub job: usize,
    /// Its name, or `None` if it has none.
    pub name: Option<&'a str>,
    /// When it starts, in time units.
    pub start: u32,
    /// When it has ended, in time units.
    pub end: u32,
    /// The first day of its run, if times are told by dates; of a job of duration 0 the day in the evening of which it is
    /// done.
    #[serde(skip_serializing_if = "Option::is_none")]
    pub first_day: Option<String>,
    /// The last day of its run, in the evening of which it is done, if times are told by dates.
    #[serde(skip_serializing_if = "Option::is_none")]
    pub last_day: Option<String>,
    /// How many time units it runs.
    pub duration: u32,
    /// How much later it could start, in time units, if only precedence, the due times and the deadline counted.
    pub slack: u32,
    /// The numbers of the jobs that come right before it, in rising order.
    pub predecessors: Vec<u32>,
    /// How many units it needs of each resource.
    pub requests: Vec<u32>,
}

/// What a sheet says of a resource.
#[derive(Drop, Serialize)]
pub struct ResourceEntry<'a> {
    /// Its number, from 1.
    pub resource: usize,
    /// Its name, or `None` if it has none.
    pub name: Option<&'a str>,
    /// What a unit of it costs.
    pub price: u32,
    /// How many units are owned already.
    pub owned: u32,
    /// How many units there are.
    pub capacity: u32,
    /// From which time on how many units are used.
    pub usage: Vec<Step>,
}

/// A plan as numbers: an entry for each job and each resource, by place from 0.
#[derive(Drop, Serialize)]
pub struct Sheet<'a> {
    /// The deadline of the order, in time units.
    pub deadline: u32,
    /// The day in the evening of which that is, if times are told by dates.
    #[serde(skip_serializing_if = "Option::is_none")]
    pub deadline_day: Option<String>,
    /// The critical length that the plan says, in time units.
    pub critical: u64,
    /// What the capacities cost, as the plan says.
    pub cost: u64,
    /// The jobs.
    pub jobs: Vec<JobEntry<'a>>,
    /// The resources.
    pub resources: Vec<ResourceEntry<'a>>,
    /// Whether times are told by dates too.
    #[serde(skip_serializing)]
    pub has_dates: bool,
}

/// The sheet of a plan that fits the order, as `check_plan` of racp_check tells. Its times are numbers, and days too if the
/// calendar has dates.
///
/// # Errors
///
/// Memory was refused.
pub fn sheet_of<'a>(
    alloc: Global,
    net: &Network,
    order: &Order,
    plan: &Plan,
    names: &'a Names,
    calendar: Calendar<'_>,
) -> Result<Sheet<'a>, AllocError>
    requires terms { AreTermsOf net.now order.now }
    requires capacities { length plan.now.capacities ≡ net.now.resources }
    requires fits { FitsTerms net.now order.now plan.now.capacities plan.now.starts }
    ensures { IfOk result (IsSheet calendar.entry net.now order.now plan.now names.now) }
{
    let deadline = deadline_of(order);
    let times = Times {
        net,
        starts: plan.starts.as_slice(),
        deadline,
    };
    let room = room_of(alloc, net, order, plan)?;
    let jobs = job_entries(alloc, &times, &room, names, calendar)?;
    let resources = resource_entries(alloc, net, order, plan, names)?;
    let deadline_day = last_word(alloc, calendar, deadline as u128)?;
    Ok(Sheet {
        deadline,
        deadline_day,
        critical: plan.critical,
        cost: plan.cost,
        jobs,
        resources,
        has_dates: calendar.has_dates(),
    })
}

/// An entry for each job.
fn job_entries<'a>(
    alloc: Global,
    times: &Times,
    room: &Room,
    names: &'a Names,
    calendar: Calendar<'_>,
) -> Result<Vec<JobEntry<'a>>, AllocError>
    requires latest { length room.now.latest ≡ length times.now.net.now.jobs }
    ensures { IfOk result (λ entries.
        AreJobEntries calendar.entry times.now.net.now times.now.starts.now room.now.latest names.now entries.items) }
{
    let mut entries = Vec::new(alloc);
    for i in 0..times.net.job_count() {
        entries.push(job_entry(alloc, times, room, names, calendar, i)?)?;
    }
    Ok(entries)
}

/// The entry of the job at place `i`.
fn job_entry<'a>(
    alloc: Global,
    times: &Times,
    room: &Room,
    names: &'a Names,
    calendar: Calendar<'_>,
    i: usize,
) -> Result<JobEntry<'a>, AllocError>
    requires job { i < length times.now.net.now.jobs }
    requires latest { length room.now.latest ≡ length times.now.net.now.jobs }
    ensures { IfOk result (IsJobEntry calendar.entry times.now.net.now times.now.starts.now room.now.latest names.now i) }
{
    prove!(i < times.net.job_count());
    let requests = times.net.requests(i).to_vec(alloc)?;
    let end = times.end(i);
    let predecessors = numbers_before(alloc, times.net, i)?;
    let start = times.start(i);
    let duration = times.net.duration(i);
    let first_day = first_word(alloc, calendar, start as u128, duration as u128)?;
    let last_day = last_word(alloc, calendar, end as u128)?;
    Ok(JobEntry {
        job: i + 1,
        name: names.job(i),
        start,
        end,
        first_day,
        last_day,
        duration,
        slack: room.latest_of(i).saturating_sub(start),
        predecessors,
        requests,
    })
}

/// An entry for each resource.
fn resource_entries<'a>(
    alloc: Global,
    net: &Network,
    order: &Order,
    plan: &Plan,
    names: &'a Names,
) -> Result<Vec<ResourceEntry<'a>>, AllocError>
    requires terms { AreTermsOf net.now order.now }
    requires capacities { length plan.now.capacities ≡ net.now.resources }
    requires fits { FitsTerms net.now order.now plan.now.capacities plan.now.starts }
    ensures { IfOk result (λ entries. AreResourceEntries net.now order.now plan.now names.now entries.items) }
{
    let mut entries = Vec::new(alloc);
    for k in 0..net.resource_count() {
        entries.push(resource_entry(alloc, net, order, plan, names, k)?)?;
    }
    Ok(entries)
}

/// The entry of the resource at place `k`.
fn resource_entry<'a>(
    alloc: Global,
    net: &Network,
    order: &Order,
    plan: &Plan,
    names: &'a Names,
    k: usize,
) -> Result<ResourceEntry<'a>, AllocError>
    requires resource { k < net.now.resources }
    requires terms { AreTermsOf net.now order.now }
    requires capacities { length plan.now.capacities ≡ net.now.resources }
    requires fits { FitsTerms net.now order.now plan.now.capacities plan.now.starts }
    ensures { IfOk result (IsResourceEntry net.now order.now plan.now names.now k) }
{
    prove!(k < net.resource_count());
    let deadline = deadline_of(order);
    let usage = usage_steps(alloc, net, plan.starts.as_slice(), k, deadline)?;
    let price = price_of(order, k);
    let owned = owned_of(order, k);
    let capacity = plan.capacities.as_slice()[k];
    let name = names.resource(net.job_count(), k);
    Ok(ResourceEntry {
        resource: k + 1,
        name,
        price,
        owned,
        capacity,
        usage,
    })
}
