//! What a line says of the node of its window.

ghost use Rattle.std.specs.Prelude.{◌≡◌, ◌↔◌, ◌≤◌, ◌<◌, ℕ, IsTrue, IfOk, List, length, slice_index};
ghost use Rattle.racp_model.specs.Project.{place, IsNumber};
ghost use Rattle.racp_model.specs.Path.{IsEarly};
ghost use Rattle.racp_model.specs.Limits.{most_early};
ghost use Rattle.racp_cutset.specs.Covering.{SearchNode};
ghost use Rattle.racp_trees.specs.Nodes.{IsDivisionAnswer, AreRecords, HaveRows, HasPlace, IsCoveredHere};

use crate::before::is_at_most;
use crate::closed::Closed;
use crate::reader::Ground;
use crate::record::{NodeTimes, Record};
use racp_delay::conflict;
use racp_model::{Capacities, JobSet, Network, Starts};
use std::alloc::{AllocError, Global};
use std::rc::Rc;

/// Whether the early start of the job with this number exceeds its upper bound.
pub(crate) fn is_too_late(upper: &[u32], early: &[u32], job: u32) -> bool
    requires { length upper.now ≡ length early.now }
    ensures { IsTrue result ↔ (IsNumber (length early.now) job × (slice_index upper.now (place job) < slice_index early.now (place job))) }
{
    if job == 0 || job as usize > early.len() {
        return false;
    }
    upper[job as usize - 1] < early[job as usize - 1]
}

/// The jobs that are active at the first conflict of early starts, if that is at this time and none of them exceeds
/// its upper bound; else `None`.
pub(crate) fn active_at(
    net: &Network,
    capacities: &Capacities,
    upper: &[u32],
    early: &Starts,
    time: u32,
) -> Option<JobSet>
    requires capacities { length capacities.now ≡ net.now.resources }
    requires early { length early.now ≡ length net.now.jobs }
    requires upper { length upper.now ≡ length net.now.jobs }
    ensures { IsDivisionAnswer net.now capacities.now upper.now early.now time result }
{
    racp_delay::laws::conflict_is_one();
    if !is_at_most(early.as_slice(), upper) {
        return None;
    }
    let clash = conflict(net, capacities, early)?;
    if clash.time == time {
        Some(clash.active)
    } else {
        None
    }
}

/// Whether the closed node with this number covers the node of a window with these lower bounds and early starts, at
/// its first conflict. Records share the row of usual bounds.
pub(crate) fn is_covered(
    alloc: Global,
    ground: &Ground,
    node: &NodeTimes,
    closed: &Closed,
    number: u32,
    usual: &Rc<Vec<u32>>,
) -> Result<bool, AllocError>
    requires capacities { length ground.now.capacities.now ≡ ground.now.net.now.resources }
    requires lower { length node.now.lower.now ≡ length ground.now.net.now.jobs }
    requires early { IsEarly ground.now.net.now (slice_index node.now.lower.now) node.now.early.now }
    requires small { (i : ℕ) → i < length ground.now.net.now.jobs → slice_index node.now.early.now i ≤ most_early }
    requires rows { HaveRows ground.now.net.now closed.now }
    requires place { HasPlace closed.now number }
    ensures { IfOk result (λ yes. (upper : List ℕ) (nodes : List (ℕ × SearchNode)) → length upper ≡ length ground.now.net.now.jobs → AreRecords ground.now.net.now upper nodes closed.now →
        IsTrue yes ↔ IsCoveredHere ground.now.net.now ground.now.capacities.now (record { lower = node.now.lower.now; upper = upper }) nodes number) }
{
    let Some(clash) = conflict(ground.net, ground.capacities, node.early) else {
        return Ok(false);
    };
    let Some(by) = closed.record(number as u64) else {
        return Ok(false);
    };
    let row = Record::new(
        alloc,
        ground.net,
        ground.capacities.as_slice(),
        node,
        clash.time,
        usual,
    )?;
    Ok(by.covers(&row))
}
