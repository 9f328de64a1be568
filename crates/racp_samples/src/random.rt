//! Random numbers, networks and orders; the same seed gives the same ones.

use crate::fault::SampleFault;
use racp_model::{Job, Network};
use racp_prices::Order;
use std::alloc::{AllocError, Global};

/// Numbers by chance: a linear congruential generator of 64 bits, of which the upper ones are used.
#[derive(Clone, Copy)]
pub struct Random {
    state: u64,
}

impl Random {
    /// A generator; the same seed gives the same numbers.
    pub fn new(seed: u64) -> Random {
        Random { state: seed }
    }

    /// The next number below a bound, or 0 if that is 0.
    pub fn below(&mut self, bound: u32) -> u32 {
        let product = self.state.wrapping_mul(6_364_136_223_846_793_005);
        self.state = product.wrapping_add(1_442_695_040_888_963_407);
        let high = (self.state >> 40) as u32;
        high.checked_rem(bound).unwrap_or(0)
    }

    /// This many numbers below a bound.
    ///
    /// # Errors
    ///
    /// Memory was refused.
    pub fn list(
        &mut self,
        alloc: Global,
        count: usize,
        bound: u32,
    ) -> Result<Vec<u32>, AllocError> {
        let mut list = Vec::new(alloc);
        for _i in 0..count {
            list.push(self.below(bound))?;
        }
        Ok(list)
    }
}

/// A network of these numbers of resources and jobs, with durations up to 3 and requests up to 2. Each pair of jobs,
/// the lesser number first, is there one time in three.
///
/// # Errors
///
/// There are too many resources or jobs, or none; or memory was refused.
pub fn random_network(
    alloc: Global,
    random: &mut Random,
    resources: usize,
    jobs: u32,
) -> Result<Network, SampleFault> {
    let list = random_jobs(alloc, random, resources, jobs)?;
    let arcs = random_arcs(alloc, random, jobs)?;
    Ok(Network::new(alloc, resources, list, arcs)?)
}

fn random_jobs(
    alloc: Global,
    random: &mut Random,
    resources: usize,
    count: u32,
) -> Result<Vec<Job>, AllocError> {
    let mut jobs = Vec::new(alloc);
    for _i in 0..count {
        let requests = random.list(alloc, resources, 3)?;
        jobs.push(Job::new(random.below(4), requests))?;
    }
    Ok(jobs)
}

fn random_arcs(
    alloc: Global,
    random: &mut Random,
    count: u32,
) -> Result<Vec<(u32, u32)>, AllocError> {
    let mut arcs = Vec::new(alloc);
    for first in 0..count {
        for second in 0..first {
            if random.below(3) == 0 {
                arcs.push((second.saturating_add(1), first.saturating_add(1)))?;
            }
        }
    }
    Ok(arcs)
}

/// An order with a deadline up to 6, prices and ceilings up to 3, and owned units and release times up to 2. Half of
/// the orders have ceilings, and half of them due times up to 6.
///
/// # Errors
///
/// Memory was refused.
pub fn random_order(
    alloc: Global,
    random: &mut Random,
    net: &Network,
) -> Result<Order, AllocError> {
    let (resources, jobs) = (net.resource_count(), net.job_count());
    let deadline = random.below(7);
    let ceilings = if random.below(2) == 0 {
        None
    } else {
        Some(random.list(alloc, resources, 4)?)
    };
    let due = if random.below(2) == 0 {
        vec![in alloc; deadline; jobs]?
    } else {
        random.list(alloc, jobs, 7)?
    };
    let prices = random.list(alloc, resources, 4)?;
    let owned = random.list(alloc, resources, 3)?;
    let release = random.list(alloc, jobs, 3)?;
    Ok(Order {
        deadline,
        prices,
        owned,
        ceilings,
        release,
        due,
    })
}
