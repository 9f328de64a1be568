//! What the search knows of an order: rows of its own, which nobody trusts.

use crate::lanes::{Lanes, lanes_at};
use crate::links::{Links, Pair};
use crate::rows::{number_at, value_at};
use racp_model::Network;
use racp_prices::Order;
use std::alloc::{AllocError, Global};

/// The rows of an order. Variables are the start of each job, the units of each resource, and the cost, by places.
#[derive(Drop)]
pub(crate) struct Problem {
    pub(crate) jobs: usize,
    pub(crate) resources: usize,
    /// How many lanes a job has.
    pub(crate) groups: usize,
    durations: Vec<i64>,
    requests: Vec<Lanes>,
    /// The largest requests.
    pub(crate) largest: Vec<Lanes>,
    busy: Vec<bool>,
    prices: Vec<i64>,
    owned: Vec<i64>,
    pairs: Vec<Pair>,
    pub(crate) behind: Links,
    pub(crate) before: Links,
    /// For each resource the jobs by their request.
    by_request: Vec<u32>,
    /// The value of each side at the root.
    pub(crate) root: Vec<i64>,
}

impl Problem {
    /// The rows of an order, with the value of each side at the root.
    pub(crate) fn new(
        alloc: Global,
        net: &Network,
        order: &Order,
        root: Vec<i64>,
    ) -> Result<Problem, AllocError> {
        let jobs = net.job_count();
        let resources = net.resource_count();
        let groups = resources.wrapping_add(3) / 4;
        let requests = lanes_of(alloc, net, groups)?;
        let largest = largest_of(alloc, &requests, groups)?;
        let busy = busy_of(alloc, &requests, jobs, groups)?;
        let pairs = pairs_of(alloc, net.arcs())?;
        let behind = Links::behind(alloc, jobs, &pairs)?;
        let before = Links::before(alloc, jobs, &pairs)?;
        Ok(Problem {
            jobs,
            resources,
            groups,
            durations: durations_of(alloc, net)?,
            requests,
            largest,
            busy,
            prices: wide(alloc, &order.prices)?,
            owned: wide(alloc, &order.owned)?,
            pairs,
            behind,
            before,
            by_request: by_request(alloc, net)?,
            root,
        })
    }

    /// How many variables there are.
    #[inline]
    pub(crate) fn variables(&self) -> usize {
        self.cost().wrapping_add(1)
    }

    /// The place of the cost among the variables.
    #[inline]
    pub(crate) fn cost(&self) -> usize {
        self.jobs.wrapping_add(self.resources)
    }

    /// The place of the units of a resource among the variables.
    #[inline]
    pub(crate) fn units(&self, k: usize) -> usize {
        self.jobs.wrapping_add(k)
    }

    /// How long a job runs.
    #[inline]
    pub(crate) fn duration(&self, i: usize) -> i64 {
        value_at(&self.durations, i)
    }

    /// The jobs of the pair at a place of the precedence relation.
    #[inline]
    pub(crate) fn pair(&self, arc: u32) -> (usize, usize) {
        match self.pairs.get(arc as usize) {
            Some(pair) => (pair.first as usize, pair.second as usize),
            None => (0, 0),
        }
    }

    /// Whether a job runs for some time and requests something.
    #[inline]
    pub(crate) fn is_busy(&self, i: usize) -> bool {
        self.busy.get(i).copied().unwrap_or(false)
    }

    /// What a job requests of the resources of a group.
    #[inline]
    pub(crate) fn lanes(&self, i: usize, group: usize) -> Lanes {
        let at = i.wrapping_mul(self.groups).wrapping_add(group);
        lanes_at(&self.requests, at)
    }

    /// What a job requests of a resource.
    #[inline]
    pub(crate) fn request(&self, i: usize, k: usize) -> i64 {
        i64::from(self.lanes(i, k / 4).of(k))
    }

    /// What a unit of a resource costs.
    #[inline]
    pub(crate) fn price(&self, k: usize) -> i64 {
        value_at(&self.prices, k)
    }

    /// The units of a resource that are owned.
    #[inline]
    pub(crate) fn owned(&self, k: usize) -> i64 {
        value_at(&self.owned, k)
    }

    /// What a resource's units cost, if there are so many.
    #[inline]
    pub(crate) fn price_of(&self, k: usize, units: i64) -> i64 {
        let more = units.wrapping_sub(self.owned(k)).max(0);
        self.price(k).wrapping_mul(more)
    }

    /// The jobs by their request of a resource.
    #[inline]
    pub(crate) fn by_request(&self, k: usize) -> &[u32] {
        let from = k.wrapping_mul(self.jobs);
        self.by_request
            .get(from..from.wrapping_add(self.jobs))
            .unwrap_or(&[])
    }

    /// The lower bound of a variable at the root.
    #[inline]
    pub(crate) fn root_lower(&self, x: usize) -> i64 {
        value_at(&self.root, x.wrapping_mul(2))
    }

    /// The upper bound of a variable at the root.
    #[inline]
    pub(crate) fn root_upper(&self, x: usize) -> i64 {
        value_at(&self.root, x.wrapping_mul(2) | 1).wrapping_neg()
    }
}

/// The pairs by places.
fn pairs_of(alloc: Global, arcs: &[(u32, u32)]) -> Result<Vec<Pair>, AllocError> {
    let mut pairs = Vec::with_capacity(alloc, arcs.len())?;
    for k in 0..arcs.len() {
        let (first, second) = arcs[k];
        pairs.push(Pair {
            first: first.wrapping_sub(1),
            second: second.wrapping_sub(1),
        })?;
    }
    Ok(pairs)
}

fn durations_of(alloc: Global, net: &Network) -> Result<Vec<i64>, AllocError> {
    let mut durations = Vec::with_capacity(alloc, net.job_count())?;
    for i in 0..net.job_count() {
        durations.push(i64::from(net.duration(i)))?;
    }
    Ok(durations)
}

/// What each job requests; nothing, if it runs for no time.
fn lanes_of(alloc: Global, net: &Network, groups: usize) -> Result<Vec<Lanes>, AllocError> {
    let mut rows = Vec::with_capacity(alloc, net.job_count().saturating_mul(groups))?;
    for i in 0..net.job_count() {
        let requests = net.requests(i);
        for group in 0..groups {
            let mut lanes = [0u32; 4];
            if 0 < net.duration(i) {
                for k in 0..4usize {
                    lanes[k] = number_at(requests, group.wrapping_mul(4).wrapping_add(k));
                }
            }
            rows.push(Lanes { lanes })?;
        }
    }
    Ok(rows)
}

fn largest_of(alloc: Global, requests: &[Lanes], groups: usize) -> Result<Vec<Lanes>, AllocError> {
    let mut largest = Vec::from_elem(alloc, Lanes::none(), groups)?;
    for i in 0..requests.len() {
        if let Some(row) = largest.get_mut(i.checked_rem(groups).unwrap_or(0)) {
            *row = row.most(requests[i]);
        }
    }
    Ok(largest)
}

fn busy_of(
    alloc: Global,
    requests: &[Lanes],
    jobs: usize,
    groups: usize,
) -> Result<Vec<bool>, AllocError> {
    let mut busy = Vec::with_capacity(alloc, jobs)?;
    for i in 0..jobs {
        let from = i.wrapping_mul(groups);
        let some = (0..groups).any(|group| lanes_at(requests, from.wrapping_add(group)).are_some());
        busy.push(some)?;
    }
    Ok(busy)
}

/// A job beside its request, to sort by.
fn by_request(alloc: Global, net: &Network) -> Result<Vec<u32>, AllocError> {
    let jobs = net.job_count();
    let mut rows = Vec::with_capacity(alloc, jobs.saturating_mul(net.resource_count()))?;
    for k in 0..net.resource_count() {
        let mut row = Vec::with_capacity(alloc, jobs)?;
        for i in 0..jobs {
            row.push((net.request(i, k), i as u32))?;
        }
        row.sort_unstable();
        for &(_, job) in &row {
            rows.push(job)?;
        }
    }
    Ok(rows)
}

fn wide(alloc: Global, row: &[u32]) -> Result<Vec<i64>, AllocError> {
    let mut values = Vec::with_capacity(alloc, row.len())?;
    for &number in row {
        values.push(i64::from(number))?;
    }
    Ok(values)
}
