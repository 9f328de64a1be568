//! Networks of jobs, and the limits and numbers that are tested when one is made.

ghost use Rattle.std.specs.Prelude.{◌≡◌, ℕ, ◌<◌, ◌≤◌, ◌↔◌, IsTrue, length, slice_index, All};
ghost use Rattle.racp_model.specs.Project.{duration, request, IsSound, IsJobWithinLimits, IsWithinLimits};
ghost use Rattle.racp_model.specs.Made.{IsMade};
ghost use Rattle.racp_model.specs.Topology.{IsTopological};

use crate::fault::NetFault;
use crate::job::Job;
use crate::limits::{MOST_DURATION, MOST_JOBS, MOST_REQUEST, MOST_RESOURCES};
use crate::topology::{are_numbers, sorted, topological};
use std::alloc::Global;
use std::marker::Model;

/// A project network (activity on node): jobs that run for a time and request renewable resources, and precedence
/// between them, from finish to start with lag 0. It is within its limits, and no job waits for itself. Contracts see a
/// `Project`.
#[derive(Drop)]
pub struct Network {
    resources: usize,
    jobs: Vec<Job>,
    arcs: Vec<(u32, u32)>,
    topological: Vec<(u32, u32)>,
}

impl Model for Network {
    ghost use Rattle.racp_model.specs.Project.{Project, IsSound};
    ghost use Rattle.racp_model.specs.Topology.{IsTopological};

    ghost Value = { Project };

    ghost view = { λ net. record { resources = net.resources; jobs = net.jobs.items; arcs = net.arcs.items } };

    ghost invariant = { λ net.
        let p : Project = record { resources = net.resources; jobs = net.jobs.items; arcs = net.arcs.items } in
        IsSound p × IsTopological p net.topological.items };
}

impl Network {
    /// The network of these jobs. `arcs` are pairs of job numbers, from 1, of which the second job starts only when the
    /// first has ended; their order does not matter, and repeated pairs count once.
    ///
    /// # Errors
    ///
    /// The first of these that holds: `Limit`, if there are not 1 to 16 resources and 1 to 512 jobs, or a job has
    /// another number of requests than there are resources, or a duration or a request is above 10,000; `BadJob`, if
    /// a pair names no job; `Cycle`, if a job would have to wait for itself; `Memory`, if memory was refused.
    pub fn new(
        alloc: Global,
        resources: usize,
        jobs: Vec<Job>,
        arcs: Vec<(u32, u32)>,
    ) -> Result<Self, NetFault>
        ensures { IsMade (record { resources = resources; jobs = jobs.items; arcs = arcs.items }) result }
    {
        if !is_within_limits(resources, &jobs) {
            return Err(NetFault::Limit);
        }
        if !are_numbers(&arcs, jobs.len()) {
            return Err(NetFault::BadJob);
        }
        let arcs = sorted(arcs);
        let topological = topological(alloc, &arcs, jobs.len())?;
        Ok(Network {
            resources,
            jobs,
            arcs,
            topological,
        })
    }

    /// How many jobs there are: 1 to 512.
    pub fn job_count(&self) -> usize
        ensures count { result ≡ length self.now.jobs }
        ensures sound { IsSound self.now }
    {
        self.jobs.len()
    }

    /// How many resources there are: 1 to 16.
    pub fn resource_count(&self) -> usize
        ensures count { result ≡ self.now.resources }
        ensures sound { IsSound self.now }
    {
        self.resources
    }

    /// How many time units the job at place `i`, from 0, runs.
    #[tactic(auto, unfolding(crate::specs::Project::duration))]
    pub fn duration(&self, i: usize) -> u32
        requires { i < length self.now.jobs }
        ensures { result ≡ duration self.now i }
    {
        self.jobs[i].duration()
    }

    /// How many units of the resource at place `k` the job at place `i`, both from 0, uses while it runs.
    #[tactic(auto, unfolding(crate::specs::Project::request))]
    pub fn request(&self, i: usize, k: usize) -> u32
        requires job { i < length self.now.jobs }
        requires resource { k < self.now.resources }
        ensures { result ≡ request self.now i k }
    {
        self.jobs[i].requests()[k]
    }

    /// How many units of each resource, by place from 0, the job at place `i`, from 0, uses while it runs.
    #[tactic(auto, unfolding(crate::specs::Project::request))]
    pub fn requests(&self, i: usize) -> &[u32]
        requires { i < length self.now.jobs }
        ensures count { length result.now ≡ self.now.resources }
        ensures requests { (k : ℕ) → slice_index result.now k ≡ request self.now i k }
        ensures sound { IsSound self.now }
    {
        self.jobs[i].requests()
    }

    /// The precedence relation: pairs of job numbers, from 1, each once and in rising order.
    pub fn arcs(&self) -> &[(u32, u32)]
        ensures arcs { result.now ≡ self.now.arcs }
        ensures sound { IsSound self.now }
    {
        &self.arcs
    }

    /// The precedence relation as pairs of places, from 0, in topological order: every pair into a job comes before
    /// every pair out of it. So one sweep over them settles early starts, and one from the end late starts.
    pub fn topological_arcs(&self) -> &[(u32, u32)]
        ensures order { IsTopological self.now result.now }
        ensures sound { IsSound self.now }
    {
        &self.topological
    }
}

/// Whether a job has a request for each resource, and its numbers are in their ranges.
fn is_job_within(job: &Job, resources: usize) -> bool
    ensures { IsTrue result ↔ IsJobWithinLimits resources job.now }
{
    job.duration() <= MOST_DURATION
        && job.requests().len() == resources
        && job.requests().iter().all(|x| *x <= MOST_REQUEST)
}

/// Whether there is a right number of resources and jobs, and each job is within its limits.
fn is_within_limits(resources: usize, jobs: &[Job]) -> bool
    ensures { IsTrue result ↔ IsWithinLimits resources jobs.now }
{
    1 <= resources
        && resources <= MOST_RESOURCES
        && 1 <= jobs.len()
        && jobs.len() <= MOST_JOBS
        && jobs.iter().all(|job| is_job_within(job, resources))
}
