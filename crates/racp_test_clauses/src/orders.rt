//! Networks and orders by chance.

use racp_model::{Job, NetFault, Network};
use racp_prices::Order;
use racp_samples::{Random, empty_order};
use std::alloc::{AllocError, Global};

/// A random network of 14 jobs and three resources with few pairs, so that searches meet many conflicts.
pub fn wide_network(alloc: Global, random: &mut Random) -> Result<Network, NetFault> {
    let mut jobs = Vec::new(alloc);
    let mut arcs = Vec::new(alloc);
    match fill(alloc, random, &mut jobs, &mut arcs) {
        Ok(()) => Network::new(alloc, 3, jobs, arcs),
        Err(_) => Err(NetFault::Memory),
    }
}

/// Its jobs and pairs.
fn fill(
    alloc: Global,
    random: &mut Random,
    jobs: &mut Vec<Job>,
    arcs: &mut Vec<(u32, u32)>,
) -> Result<(), AllocError> {
    for second in 1..15u32 {
        let requests = random.list(alloc, 3, 6)?;
        jobs.push(Job::new(random.below(7), requests))?;
        for first in 1..second {
            if random.below(12) == 0 {
                arcs.push((first, second))?;
            }
        }
    }
    Ok(())
}

/// Draws the prices and the owned units of an order, which has the same times for all jobs.
fn fill_order(
    alloc: Global,
    random: &mut Random,
    net: &Network,
    order: &mut Order,
) -> Result<(), AllocError> {
    let (resources, jobs) = (net.resource_count(), net.job_count());
    order.prices = random.list(alloc, resources, 4)?;
    order.owned = random.list(alloc, resources, 3)?;
    order.release = vec![in alloc; 0; jobs]?;
    order.due = vec![in alloc; order.deadline; jobs]?;
    Ok(())
}

/// A random order by a late deadline, with nothing else that limits it.
pub fn wide_order(alloc: Global, random: &mut Random, net: &Network) -> Result<Order, AllocError> {
    let mut order = empty_order(alloc, random.below(8).saturating_add(12));
    match fill_order(alloc, random, net, &mut order) {
        Ok(()) => Ok(order),
        Err(fault) => {
            drop(order);
            Err(fault)
        }
    }
}
