//! What schedules are made for: the rows of a network and an order, by the ranks of the jobs. Nobody trusts them.

use crate::ranks::Ranks;
use crate::resource::{Resource, resources_of};
use crate::rows::{list_at, number_at, part, stored, wide_at};
use racp_model::{Network, Window};
use racp_prices::Order;
use std::alloc::{AllocError, Global};

/// The rows of a network and an order. Jobs stand by rank: each before its successors.
#[derive(Drop)]
pub(crate) struct Problem {
    pub(crate) resources: Vec<Resource>,
    pub(crate) ranks: Ranks,
    /// The root window: the first and the last start of each job.
    pub(crate) lower: Vec<u32>,
    pub(crate) upper: Vec<u32>,
    pub(crate) deadline: u32,
    /// The jobs that use some of a resource.
    pub(crate) busy: Vec<u32>,
    /// The other jobs.
    pub(crate) free: Vec<u32>,
    durations: Vec<u32>,
    /// Of each job the requests of all resources, one job behind the other.
    requests: Vec<u32>,
    /// What each job takes of the resources: its requests by weight, times its duration.
    works: Vec<u64>,
    before: Vec<Vec<u32>>,
    after: Vec<Vec<u32>>,
}

impl Problem {
    /// The rows of this network and this order, whose root window is given.
    pub(crate) fn new(
        alloc: Global,
        net: &Network,
        order: &Order,
        root: &Window,
    ) -> Result<Problem, AllocError> {
        let ranks = Ranks::new(alloc, net)?;
        let mut problem = Problem {
            resources: resources_of(alloc, net, order)?,
            lower: ranks.ranked(alloc, root.lower())?,
            upper: ranks.ranked(alloc, root.upper())?,
            before: no_lists(alloc, net.job_count())?,
            after: no_lists(alloc, net.job_count())?,
            ranks,
            deadline: order.deadline,
            busy: Vec::new(alloc),
            free: Vec::new(alloc),
            durations: Vec::new(alloc),
            requests: Vec::new(alloc),
            works: Vec::new(alloc),
        };
        problem.take_jobs(net)?;
        for &(i, j) in net.topological_arcs() {
            let (first, second) = (problem.ranks.rank_of(i), problem.ranks.rank_of(j));
            add_to(&mut problem.before, second as usize, first)?;
            add_to(&mut problem.after, first as usize, second)?;
        }
        Ok(problem)
    }

    /// Takes the jobs of a network in.
    fn take_jobs(&mut self, net: &Network) -> Result<(), AllocError> {
        for job in self.ranks.jobs() {
            let i = *job as usize;
            if i < net.job_count() {
                let duration = net.duration(i);
                let mut work = 0u64;
                for resource in self.resources.iter() {
                    let units = number_at(net.requests(i), resource.place);
                    work = work.saturating_add(resource.weight().saturating_mul(units as u64));
                    self.requests.push(units)?;
                }
                let work = work.saturating_mul(duration as u64);
                let rank = stored(self.works.len());
                if 0 < work {
                    self.busy.push(rank)?;
                } else {
                    self.free.push(rank)?;
                }
                self.durations.push(duration)?;
                self.works.push(work)?;
            }
        }
        Ok(())
    }

    /// How many jobs there are.
    #[inline]
    pub(crate) fn jobs(&self) -> usize {
        self.durations.len()
    }

    /// How long a job runs.
    #[inline]
    pub(crate) fn duration(&self, i: usize) -> u32 {
        number_at(&self.durations, i)
    }

    /// What a job requests of each resource of the problem.
    #[inline]
    pub(crate) fn requests(&self, i: usize) -> &[u32] {
        let count = self.resources.len();
        let from = i.wrapping_mul(count);
        part(&self.requests, from, from.wrapping_add(count))
    }

    /// What a job takes of the resources; 0 if it takes no time, so that it can start anywhere.
    #[inline]
    pub(crate) fn work(&self, i: usize) -> u64 {
        wide_at(&self.works, i)
    }

    /// The jobs that have to end before a job starts.
    #[inline]
    pub(crate) fn before(&self, i: usize) -> &[u32] {
        list_at(&self.before, i)
    }

    /// The jobs that may start only once a job has ended.
    #[inline]
    pub(crate) fn after(&self, i: usize) -> &[u32] {
        list_at(&self.after, i)
    }

    /// The mean work and the mean duration of the jobs that use some of a resource.
    pub(crate) fn means(&self) -> (u64, u32) {
        let mut work = 0u64;
        let mut length = 0u64;
        for job in self.busy.iter() {
            work = work.saturating_add(self.work(*job as usize));
            length = length.saturating_add(self.duration(*job as usize) as u64);
        }
        let count = (self.busy.len() as u64).max(1);
        let mean = length.checked_div(count).unwrap_or(0);
        (
            work.checked_div(count).unwrap_or(0),
            u32::try_from(mean).unwrap_or(0),
        )
    }

    /// What so many units of each resource of the problem cost.
    pub(crate) fn cost_of(&self, units: &[u32]) -> u64 {
        let mut cost = 0u64;
        for (resource, units) in self.resources.iter().zip(units.iter()) {
            cost = cost.saturating_add(resource.cost_of(*units));
        }
        cost
    }

    /// What every schedule costs at the least, as far as is known.
    pub(crate) fn least_cost(&self) -> u64 {
        let mut cost = 0u64;
        for resource in self.resources.iter() {
            cost = cost.saturating_add(resource.cost_of(resource.floor));
        }
        cost
    }
}

/// So many empty lists.
fn no_lists(alloc: Global, count: usize) -> Result<Vec<Vec<u32>>, AllocError> {
    let mut lists = Vec::with_capacity(alloc, count)?;
    for _list in 0..count {
        lists.push(Vec::new(alloc))?;
    }
    Ok(lists)
}

/// Adds a number to the list at a place.
fn add_to(lists: &mut [Vec<u32>], i: usize, number: u32) -> Result<(), AllocError> {
    if i < lists.len() {
        lists[i].push(number)?;
    }
    Ok(())
}
