//! What is kept of a closed node.

ghost use Rattle.std.specs.Prelude.{◌≡◌, ◌↔◌, ◌<◌, ◌≤◌, ℕ, List, IsTrue, IfOk, length, slice_index};
ghost use Rattle.racp_model.specs.Project.{IsSound};
ghost use Rattle.racp_model.specs.Limits.{most_early};
ghost use Rattle.racp_trees.specs.Records.{IsRecordOf, RecordCovers, AreAlike, AreBounds, AreNotEarlier, AreWaits, AreTold, bound_at, wait_of};

use crate::before::is_at_most;
use crate::branch::copied;
use racp_cutset::started_before;
use racp_model::{JobSet, Network, Starts};
use std::alloc::{AllocError, Global};
use std::cmp::max;
use std::rc::Rc;

/// The wait of a job whose bound stands in the row of far bounds.
const FAR: u16 = u16::MAX;

/// The lower bounds of a node's window, and the early starts that they give, by place of the job from 0.
#[derive(Clone, Copy)]
pub(crate) struct NodeTimes<'a> {
    pub(crate) lower: &'a [u32],
    pub(crate) early: &'a Starts,
}

/// What tells which nodes a closed node covers. It tells one bound for each job: the end of a started job, the lower
/// bound of another, and the node's time if that is later. It keeps in two bytes how long that is after the time; if
/// two bytes are not enough, the bound stands in a row of far bounds, which records share.
#[derive(Drop)]
pub(crate) struct Record {
    pub(crate) capacities: Vec<u32>,
    pub(crate) started: JobSet,
    pub(crate) time: u32,
    pub(crate) waits: Vec<u16>,
    pub(crate) far: Rc<Vec<u32>>,
}

impl Record {
    /// The record of a node of these capacities, lower bounds and early starts, with this time. It shares the
    /// row of usual bounds if its far bounds are among them.
    pub(crate) fn new(
        alloc: Global,
        net: &Network,
        capacities: &[u32],
        node: &NodeTimes,
        time: u32,
        usual: &Rc<Vec<u32>>,
    ) -> Result<Self, AllocError>
        requires lower { length node.now.lower.now ≡ length net.now.jobs }
        requires early { length node.now.early.now ≡ length net.now.jobs }
        requires small { (i : ℕ) → i < length net.now.jobs → slice_index node.now.early.now i ≤ most_early }
        ensures { IfOk result (λ kept. (upper : List ℕ) → IsRecordOf net.now (record { capacities = capacities.now; window = record { lower = node.now.lower.now; upper = upper }; early = node.now.early.now; time = time }) kept) }
    {
        let early = node.early.as_slice();
        let bounds = bounds_of(alloc, net, node.lower, early, time)?;
        let waits = waits_of(alloc, &bounds, time)?;
        let far = far_of(alloc, bounds, &waits, usual)?;
        let capacities = copied(alloc, capacities)?;
        Ok(Record {
            capacities,
            started: started_before(early, time),
            time,
            waits,
            far,
        })
    }

    /// Whether a node with this record covers one with another record.
    pub(crate) fn covers(&self, other: &Record) -> bool
        requires { AreAlike self.now other.now }
        ensures { IsTrue result ↔ RecordCovers self.now other.now }
    {
        self.time <= other.time
            && self.started == other.started
            && is_at_most(&other.capacities, &self.capacities)
            && self.is_sooner(other)
    }

    /// Whether no bound is later than that of the same job in another record.
    fn is_sooner(&self, other: &Record) -> bool
        requires { length other.now.waits.items ≡ length self.now.waits.items }
        ensures { IsTrue result ↔ AreNotEarlier other.now self.now }
    {
        (0..self.waits.len()).all(|i| self.bound(i) <= other.bound(i))
    }

    /// The bound of the job at this place.
    fn bound(&self, place: usize) -> u64
        requires { place < length self.now.waits.items }
        ensures { result ≡ bound_at self.now place }
    {
        let wait = self.waits[place];
        if wait == FAR {
            return max(self.time, number_at(&self.far, place)) as u64;
        }
        self.time as u64 + wait as u64
    }
}

/// The number at a place, or 0 if there is none.
fn number_at(numbers: &[u32], place: usize) -> u32
    ensures { result ≡ slice_index numbers.now place }
{
    numbers.get(place).copied().unwrap_or(0)
}

/// The ends of the jobs that start before a time, and the lower bounds of the others.
fn bounds_of(
    alloc: Global,
    net: &Network,
    lower: &[u32],
    early: &[u32],
    time: u32,
) -> Result<Vec<u32>, AllocError>
    requires lower { length lower.now ≡ length net.now.jobs }
    requires early { length early.now ≡ length net.now.jobs }
    requires small { (i : ℕ) → i < length net.now.jobs → slice_index early.now i ≤ most_early }
    ensures bounds { IfOk result (λ bounds. AreBounds net.now lower.now early.now time (length net.now.jobs) bounds.items) }
    ensures sound { IfOk result (λ _. IsSound net.now) }
{
    let mut bounds = Vec::with_capacity(alloc, net.job_count())?;
    for i in 0..net.job_count() {
        let started = early[i] < time;
        bounds.push(if started {
            early[i] + net.duration(i)
        } else {
            lower[i]
        })?;
    }
    Ok(bounds)
}

/// How long each bound is after a time, as far as two bytes can tell.
fn waits_of(alloc: Global, bounds: &[u32], time: u32) -> Result<Vec<u16>, AllocError>
    ensures { IfOk result (λ waits. AreWaits bounds.now time (length bounds.now) waits.items) }
{
    let mut waits = Vec::with_capacity(alloc, bounds.len())?;
    for i in 0..bounds.len() {
        waits.push(wait_of(bounds[i], time))?;
    }
    Ok(waits)
}

/// How long a bound is after a time, as far as two bytes can tell.
fn wait_of(bound: u32, time: u32) -> u16
    ensures { result ≡ wait_of bound time }
{
    bound.saturating_sub(time).min(FAR as u32) as u16
}

/// A row in which the far bounds stand: that of usual bounds if they are among those, or else one of their own.
fn far_of(
    alloc: Global,
    bounds: Vec<u32>,
    waits: &[u16],
    usual: &Rc<Vec<u32>>,
) -> Result<Rc<Vec<u32>>, AllocError>
    requires { length waits.now ≡ length bounds.items }
    ensures { IfOk result (λ far. AreTold bounds.items waits.now far.value.items) }
{
    if are_told(&bounds, waits, usual) {
        return Ok(usual.clone()?);
    }
    Ok(Rc::new(alloc, bounds)?)
}

/// Whether the bounds whose waits are far stand in a row.
fn are_told(bounds: &[u32], waits: &[u16], row: &[u32]) -> bool
    requires { length waits.now ≡ length bounds.now }
    ensures { IsTrue result ↔ AreTold bounds.now waits.now row.now }
{
    (0..bounds.len()).all(|i| waits[i] != FAR || number_at(row, i) == bounds[i])
}
