//! All minimal delaying alternatives of a conflict, as lists.

ghost use Rattle.std.specs.Prelude.{◌≡◌, ◌↔◌, ℕ, ◌<◌, ◌≤◌, IsTrue, [], IfOk, OnOk, All, List, length, slice_index};
ghost use Rattle.racp_model.specs.Project.{place, IsNumber};
ghost use Rattle.racp_delay.specs.Alternatives.{AreAlternatives, Splits, job_lists};
ghost use Rattle.racp_delay.specs.Found.{AreWithin, HasRoom, SomeHaveRoom, AreAdded, IsChoice, AreLoads, IsEarlier};
ghost use Rattle.racp_model.specs.Limits.{most_load};
ghost use Rattle.racp_model.specs.JobSets.{AreJobs};
ghost use Rattle.racp_delay.specs.Branching.{IsFirstEndAnswer};

use crate::choosing::Choice;
use crate::conflicts::Clash;
use crate::loads::{Loads, are_within, with};
use racp_model::limits::MOST_RESOURCES;
use racp_model::{Capacities, JobSet, Network, Starts};
use smallvec::SmallVec;
use std::alloc::{AllocError, Global};
use std::marker::Model;

/// Jobs that go, by their numbers.
type JobList = SmallVec<u32, 8>;

/// Whether one job more has room beside these loads, of each resource that it requests.
fn has_room(net: &Network, capacities: &[u32], loads: &Loads, job: u32) -> bool
    requires capacities { length capacities.now ≡ net.now.resources }
    requires job { IsNumber (length net.now.jobs) job }
    requires small { (k : ℕ) → k < net.now.resources → slice_index loads.now k ≤ most_load }
    ensures { IsTrue result ↔ HasRoom net.now capacities.now (slice_index loads.now) job }
{
    let requests = net.requests(job as usize - 1);
    for k in 0..requests.len() {
        if requests[k] > 0 && loads[k] + requests[k] > capacities[k] {
            return false;
        }
    }
    true
}

/// Whether one of these jobs has room beside these loads.
pub(crate) fn some_have_room(net: &Network, capacities: &[u32], loads: &Loads, jobs: &[u32]) -> bool
    requires capacities { length capacities.now ≡ net.now.resources }
    requires jobs { All (IsNumber (length net.now.jobs)) jobs.now }
    requires small { (k : ℕ) → k < net.now.resources → slice_index loads.now k ≤ most_load }
    ensures { IsTrue result ↔ SomeHaveRoom net.now capacities.now (slice_index loads.now) jobs.now }
{
    jobs.iter()
        .any(|job| has_room(net, capacities, loads, *job))
}

/// Adds, in lexicographic order, the alternatives in which the jobs of `gone` go, and of the undecided those that have
/// to. Nothing is looked for if one of the gone has room beside all the others: it could then stay with any of them
/// that run.
#[cycle(adding)]
fn add(choice: &Choice, gone: &mut Vec<u32>, lists: &mut Vec<JobList>) -> Result<(), AllocError>
    requires choice { IsChoice choice.now }
    requires gone { All (IsNumber (length choice.now.net.now.jobs)) gone.old.items }
    ensures gone { IfOk result (λ _. gone.new.items ≡ gone.old.items) }
    ensures added { IfOk result (λ _. AreAdded choice.now.net.now choice.now.capacities.now
        (slice_index choice.now.kept) gone.old.items choice.now.undecided.now (job_lists lists.old.items)
        (job_lists lists.new.items)) }
{
    if some_have_room(choice.net, choice.capacities, &choice.left, gone) {
        return Ok(());
    }
    if are_within(choice.net, choice.capacities, &choice.left) {
        let alternative = SmallVec::from_slice(*lists.allocator(), gone)?;
        lists.push(alternative)?;
        return Ok(());
    }
    add_branches(choice, gone, lists)
}

/// Adds the alternatives that `add` adds, for kept and undecided jobs that together exceed the capacities, so that one
/// of the undecided has to go. What each branch changes is tested there, and nothing else: if a job goes, whether one
/// of the gone has room and whether the others fit; if it stays, whether the kept fit.
#[cycle(adding)]
fn add_branches(
    choice: &Choice,
    gone: &mut Vec<u32>,
    lists: &mut Vec<JobList>,
) -> Result<(), AllocError>
    requires choice { IsChoice choice.now }
    requires gone { All (IsNumber (length choice.now.net.now.jobs)) gone.old.items }
    requires over { AreWithin choice.now.net.now choice.now.capacities.now (slice_index choice.now.left) → ⊥ }
    ensures gone { IfOk result (λ _. gone.new.items ≡ gone.old.items) }
    ensures added { IfOk result (λ _. AreAdded choice.now.net.now choice.now.capacities.now
        (slice_index choice.now.kept) gone.old.items choice.now.undecided.now (job_lists lists.old.items)
        (job_lists lists.new.items)) }
{
    let Some((job, others)) = choice.undecided.split_first() else {
        return Ok(());
    };
    gone.push(*job)?;
    let less = choice.where_goes(*job, others);
    add(&less, gone, lists)?;
    gone.pop();
    let Some(more) = choice.where_stays(*job, others) else {
        return Ok(());
    };
    add_branches(&more, gone, lists)
}

/// All minimal delaying alternatives of the active jobs of a conflict, each once: the lists of job numbers, from 1 and
/// rising, of those that may go so that the others can run at once, and of which none can stay with these
/// (Demeulemeester and Herroelen 1992). The lists stand in lexicographic order. There is a capacity for each resource,
/// by place from 0.
///
/// # Errors
///
/// Memory was refused.
pub fn alternatives(
    alloc: Global,
    net: &Network,
    capacities: &Capacities,
    conflict: &Clash,
) -> Result<Vec<SmallVec<u32, 8>>, AllocError>
    requires capacities { length capacities.now ≡ net.now.resources }
    requires active { All (IsNumber (length net.now.jobs)) conflict.now.active }
    ensures { IfOk result (λ lists. AreAlternatives net.now capacities.now conflict.now.active
        (job_lists lists.items)) }
{
    let mut found = DelayingAlternatives::new(alloc);
    found.find(net, capacities, conflict)?;
    Ok(found.into_lists())
}

/// The alternatives of the conflict that was looked at last, in memory that is used again from one conflict to the
/// next. Contracts see the list of them.
#[derive(Drop)]
pub struct DelayingAlternatives {
    active: Vec<u32>,
    gone: Vec<u32>,
    lists: Vec<SmallVec<u32, 8>>,
}

impl Model for DelayingAlternatives {
    ghost use Rattle.std.specs.Prelude.{ℕ, List};
    ghost use Rattle.racp_delay.specs.Alternatives.{job_lists};

    ghost Value = { List (List ℕ) };

    ghost view = { λ found. job_lists found.lists.items };
}

impl DelayingAlternatives {
    /// No alternatives. Takes no memory.
    pub fn new(alloc: Global) -> Self
        ensures { result ≡ [] }
    {
        DelayingAlternatives {
            active: Vec::new(alloc),
            gone: Vec::new(alloc),
            lists: Vec::new(alloc),
        }
    }

    /// Finds what `alternatives` answers, in place of what was found before.
    ///
    /// # Errors
    ///
    /// Memory was refused; then the alternatives are any.
    pub fn find(
        &mut self,
        net: &Network,
        capacities: &Capacities,
        conflict: &Clash,
    ) -> Result<(), AllocError>
        requires capacities { length capacities.now ≡ net.now.resources }
        requires active { All (IsNumber (length net.now.jobs)) conflict.now.active }
        ensures { OnOk result (AreAlternatives net.now capacities.now conflict.now.active self.new) }
    {
        self.gone.clear();
        self.lists.clear();
        let loads = load_of(net, &conflict.active, &mut self.active)?;
        let choice = Choice {
            net,
            capacities: capacities.as_slice(),
            kept: [0; MOST_RESOURCES],
            left: loads,
            undecided: &self.active,
        };
        add(&choice, &mut self.gone, &mut self.lists)
    }

    /// The lists of the alternatives.
    pub fn lists(&self) -> &[SmallVec<u32, 8>]
        ensures { job_lists result.now ≡ self.now }
    {
        &self.lists
    }

    /// Gives the lists. Takes no memory.
    pub fn into_lists(self) -> Vec<SmallVec<u32, 8>>
        ensures { job_lists result.items ≡ self }
    {
        self.lists
    }
}

/// Puts the jobs of a set into a list, in place of what was there, and sums up what they request of each resource.
fn load_of(net: &Network, jobs: &JobSet, list: &mut Vec<u32>) -> Result<Loads, AllocError>
    requires { All (IsNumber (length net.now.jobs)) jobs.now }
    ensures jobs { OnOk result (list.new.items ≡ jobs.now) }
    ensures loads { IfOk result (AreLoads net.now jobs.now) }
    ensures rises { AreJobs jobs.now }
{
    list.clear();
    let mut loads = [0; MOST_RESOURCES];
    for job in jobs.iter() {
        list.push(job)?;
        loads = with(net, &loads, job);
    }
    Ok(loads)
}

/// When the first of the active jobs of a conflict ends that do not go, in time units, or `None` if all go. `gone`
/// are the numbers, from 1, of those that go. In the child window of the alternative their lower bounds are raised to
/// this time.
pub fn first_end(net: &Network, starts: &Starts, active: &JobSet, gone: &[u32]) -> Option<u64>
    requires starts { length starts.now ≡ length net.now.jobs }
    requires active { All (IsNumber (length net.now.jobs)) active.now }
    ensures { (kept : List ℕ) → Splits active.now gone.now kept → IsFirstEndAnswer net.now starts.now kept result }
{
    let starts = starts.as_slice();
    let mut first = None;
    for job in active.iter() {
        if !gone.contains(&job) {
            let place = job as usize - 1;
            first = earlier(first, starts[place] as u64 + net.duration(place) as u64);
        }
    }
    first
}

/// The earlier of two times, if there are two.
fn earlier(first: Option<u64>, time: u64) -> Option<u64>
    ensures { IsEarlier first time result }
{
    match first {
        Some(known) if known <= time => first,
        _ => Some(time),
    }
}
