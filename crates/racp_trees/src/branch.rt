//! Nodes whose children are being read.

ghost use Rattle.std.specs.Prelude.{◌≡◌, ◌↔◌, ◌≤◌, ℕ, All, Contains, IfOk, IsErrOf, IsTrue, List, MatchBool, length, max};
ghost use Rattle.racp_model.specs.Limits.{most_bound};
ghost use Rattle.racp_delay.specs.Alternatives.{Splits};
ghost use Rattle.racp_trees.specs.Records.{IsRecordOf};
ghost use Rattle.racp_trees.specs.Branches.{open_node, IsBranch, IsChildAnswer, IsAlternativeAnswer, IsWindowAnswer, IsRaised};

use crate::patience::Patience;
use crate::record::{NodeTimes, Record};
use crate::shared_row::SharedRow;
use racp_cpm::early;
use racp_delay::{Alternative, first_end, laws};
use racp_model::{Capacities, JobSet, Network, Unfound};
use std::alloc::{AllocError, Global};
use std::cmp::max;
use std::rc::Rc;

/// A node of a `D` line that is not closed yet: its number, the lower bounds of its window, the jobs that are active at
/// the first conflict of its early starts, its time, and the alternative whose child was read last. The early starts
/// are computed again where they are needed.
#[derive(Drop)]
pub(crate) struct Branch {
    pub(crate) number: u64,
    pub(crate) lower: SharedRow,
    pub(crate) active: JobSet,
    pub(crate) time: u32,
    pub(crate) last: Vec<u32>,
}

impl Branch {
    /// The lower bounds of the next child window, or `None` if no child is to come. Looks for one alternative alone.
    pub(crate) fn next_child<P: Patience>(
        &mut self,
        alloc: Global,
        net: &Network,
        capacities: &Capacities,
        patience: &P,
    ) -> Result<Option<Vec<u32>>, Unfound>
        requires capacities { length capacities.now ≡ net.now.resources }
        requires branch { IsBranch net.now capacities.now self.old }
        ensures child { IfOk result (IsChildAnswer net.now capacities.now self.old self.new) }
        ensures node { (capacities upper : List ℕ) → (open_node net.now capacities upper self.new).node ≡ (open_node net.now capacities upper self.old).node }
        ensures number { self.new.number ≡ self.old.number }
        ensures stays { IsBranch net.now capacities.now self.new }
        ensures quiet { IsTrue (P.is_quiet patience.now) → IsErrOf result Unfound.Stopped → ⊥ }
    {
        let Some(gone) = self.next_alternative(alloc, net, capacities, patience)? else {
            return Ok(None);
        };
        let Some(lower) = self.child_of(alloc, net, capacities, &gone)? else {
            return Ok(None);
        };
        self.last = gone;
        Ok(Some(lower))
    }

    /// What is kept of the node once it is closed. It shares the row of usual bounds if it can.
    pub(crate) fn record(
        &self,
        alloc: Global,
        net: &Network,
        capacities: &Capacities,
        usual: &Rc<Vec<u32>>,
    ) -> Result<Record, AllocError>
        requires branch { IsBranch net.now capacities.now self.now }
        ensures { IfOk result (λ kept. (upper : List ℕ) → IsRecordOf net.now (open_node net.now capacities.now upper self.now).node kept) }
    {
        let lower = self.lower.bounds(alloc)?;
        let early = early(alloc, net, &lower)?;
        let node = NodeTimes {
            lower: &lower,
            early: &early,
        };
        let kept = Record::new(alloc, net, capacities.as_slice(), &node, self.time, usual)?;
        Ok(kept)
    }

    /// The next alternative after the one whose child was read last.
    fn next_alternative<P: Patience>(
        &self,
        alloc: Global,
        net: &Network,
        capacities: &Capacities,
        patience: &P,
    ) -> Result<Option<Vec<u32>>, Unfound>
        requires capacities { length capacities.now ≡ net.now.resources }
        requires branch { IsBranch net.now capacities.now self.now }
        ensures next { IfOk result (IsAlternativeAnswer net.now capacities.now self.now) }
        ensures quiet { IsTrue (P.is_quiet patience.now) → IsErrOf result Unfound.Stopped → ⊥ }
    {
        laws::subsets_go();
        let mut next = Alternative::new(alloc);
        if !patience.find_behind(&mut next, net, capacities, &self.active, &self.last)? {
            return Ok(None);
        }
        Ok(Some(copied(alloc, next.jobs())?))
    }

    /// The lower bounds of the child window of an alternative, or `None` if no active job stays.
    fn child_of(
        &self,
        alloc: Global,
        net: &Network,
        capacities: &Capacities,
        gone: &[u32],
    ) -> Result<Option<Vec<u32>>, AllocError>
        requires branch { IsBranch net.now capacities.now self.now }
        requires gone { (kept : List ℕ) × Splits self.now.active gone.now kept }
        ensures { IfOk result (IsWindowAnswer net.now self.now gone.now) }
    {
        laws::others_stay();
        prove!(net.job_count() == net.job_count());
        let lower = self.lower.bounds(alloc)?;
        let early = early(alloc, net, &lower)?;
        let Some(end) = first_end(net, &early, &self.active, gone) else {
            return Ok(None);
        };
        Ok(Some(raised(alloc, &lower, gone, end as u32)?))
    }
}

/// A copy of the numbers.
pub(crate) fn copied(alloc: Global, numbers: &[u32]) -> Result<Vec<u32>, AllocError>
    ensures { IfOk result (λ copy. copy.items ≡ numbers.now) }
{
    numbers.to_vec(alloc)
}

/// The times, with those of these jobs raised to a time.
fn raised(alloc: Global, times: &[u32], gone: &[u32], end: u32) -> Result<Vec<u32>, AllocError>
    requires few { length times.now ≤ 512 }
    requires times { All (λ x. x ≤ most_bound) times.now }
    requires end { end ≤ most_bound }
    ensures raised { IfOk result (λ raised. IsRaised times.now gone.now end (length times.now) raised.items) }
    ensures small { IfOk result (λ raised. All (λ x. x ≤ most_bound) raised.items) }
{
    let mut raised = Vec::with_capacity(alloc, times.len())?;
    for i in 0..times.len() {
        let goes = is_among(gone, i as u32 + 1);
        raised.push(later(times[i], end, goes))?;
    }
    Ok(raised)
}

/// Whether a job is among others.
fn is_among(jobs: &[u32], job: u32) -> bool
    ensures { IsTrue result ↔ Contains jobs.now job }
{
    jobs.contains(&job)
}

/// The later of two times, if it is to be; else the first one.
fn later(time: u32, end: u32, goes: bool) -> u32
    ensures { MatchBool goes (result ≡ max time end) (result ≡ time) }
{
    if goes { max(time, end) } else { time }
}
