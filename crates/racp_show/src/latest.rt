//! Early and late starts.

ghost use Rattle.std.specs.Prelude.{◌≡◌, ◌<◌, ◌==◌, IfOk, length, slice_index};
ghost use Rattle.racp_model.specs.Path.{IsEarly, IsLate};
ghost use Rattle.racp_model.specs.Schedule.{EndsBy, KeepsPrecedence};
ghost use Rattle.racp_model.specs.Terms.{AreTermsOf, due_of, release_of};
ghost use Rattle.racp_model.specs.Plan.{FitsTerms};
ghost use Rattle.racp_show.specs.Tasks.{IsLateByCritical, IsRoom};

use racp_cpm::{early, last_end, late};
use racp_model::{Network, Starts};
use racp_plan::Plan;
use racp_prices::{Order, due_times};
use std::alloc::{AllocError, Global};

/// How much room jobs have, by place from 0.
#[derive(Drop)]
pub(crate) struct Room {
    /// The late starts by the due times and the deadline.
    pub(crate) latest: Starts,
    /// The early starts.
    pub(crate) early: Starts,
    /// The late starts by the critical length.
    pub(crate) late: Starts,
}

impl Room {
    /// The late start of the job at place `i`.
    pub(crate) fn latest_of(&self, i: usize) -> u32
        requires { i < length self.now.latest }
        ensures { result ≡ slice_index self.now.latest i }
    {
        self.latest.as_slice()[i]
    }

    /// Whether the job at place `i` is on the critical chain.
    pub(crate) fn is_critical(&self, i: usize) -> bool
        requires early { i < length self.now.early }
        requires late { i < length self.now.late }
        ensures { result ≡ (slice_index self.now.early i == slice_index self.now.late i) }
    {
        self.early.as_slice()[i] == self.late.as_slice()[i]
    }
}

/// How much room the jobs of a plan have that fits the order.
pub(crate) fn room_of(
    alloc: Global,
    net: &Network,
    order: &Order,
    plan: &Plan,
) -> Result<Room, AllocError>
    requires terms { AreTermsOf net.now order.now }
    requires fits { FitsTerms net.now order.now plan.now.capacities plan.now.starts }
    ensures { IfOk result (IsRoom net.now order.now) }
{
    let latest = latest_of(alloc, net, order, plan)?;
    let early = early(alloc, net, order.release.as_slice())?;
    let late = late_of(alloc, net, order, plan, &early)?;
    Ok(Room {
        latest,
        early,
        late,
    })
}

/// The late starts by the due times and the deadline.
fn latest_of(alloc: Global, net: &Network, order: &Order, plan: &Plan) -> Result<Starts, AllocError>
    requires terms { AreTermsOf net.now order.now }
    requires fits { FitsTerms net.now order.now plan.now.capacities plan.now.starts }
    ensures { IfOk result (IsLate net.now (due_of order.now)) }
{
    let due = due_times(alloc, order)?;
    late_by(alloc, net, due.as_slice(), &plan.starts)
}

/// The late starts by the critical length.
fn late_of(
    alloc: Global,
    net: &Network,
    order: &Order,
    plan: &Plan,
    early: &Starts,
) -> Result<Starts, AllocError>
    requires terms { AreTermsOf net.now order.now }
    requires fits { FitsTerms net.now order.now plan.now.capacities plan.now.starts }
    requires early { IsEarly net.now (release_of order.now) early.now }
    ensures { IfOk result (IsLateByCritical net.now order.now) }
{
    let critical = last_end(net, early).min(order.deadline as u64) as u32;
    let due = vec![in alloc; critical; net.job_count()]?;
    let late = late_by(alloc, net, due.as_slice(), early)?;
    Ok(late)
}

/// The late starts by these due times, for which there are some, as these show.
fn late_by(alloc: Global, net: &Network, due: &[u32], starts: &Starts) -> Result<Starts, AllocError>
    requires places { length due.now ≡ length net.now.jobs }
    requires precedence { KeepsPrecedence net.now starts.now }
    requires ends { EndsBy net.now (slice_index due.now) starts.now }
    ensures { IfOk result (IsLate net.now (slice_index due.now)) }
{
    match late(alloc, net, due)? {
        Some(latest) => Ok(latest),
        None => unreachable!(),
    }
}
