//! All schedules of small orders, one by one.

use racp_clauses::Domain;
use racp_model::Network;
use racp_prices::Order;
use std::alloc::{AllocError, Global};

/// How many start vectors are looked at, at most.
const MOST: u32 = 100_000;

/// No job runs at this time or later.
const LAST: u64 = 12;

/// What is read at a place, or 0.
fn at(starts: &[u64], i: usize) -> u64 {
    starts.get(i).copied().unwrap_or(0)
}

/// How long a job runs, or 0 where there is none.
fn duration(net: &Network, i: usize) -> u64 {
    if i < net.job_count() {
        net.duration(i) as u64
    } else {
        0
    }
}

/// What a job requests, or 0 where there is none.
fn request(net: &Network, i: usize, k: usize) -> u64 {
    if i < net.job_count() && k < net.resource_count() {
        net.request(i, k) as u64
    } else {
        0
    }
}

/// Whether starts keep precedence.
fn keeps_precedence(net: &Network, starts: &[u64]) -> bool {
    for &(first, second) in net.arcs() {
        let (i, j) = (
            first.saturating_sub(1) as usize,
            second.saturating_sub(1) as usize,
        );
        if at(starts, j) < at(starts, i).saturating_add(duration(net, i)) {
            return false;
        }
    }
    true
}

/// What the jobs use of a resource together at a time.
fn usage(net: &Network, starts: &[u64], k: usize, time: u64) -> u64 {
    let mut used = 0u64;
    for i in 0..net.job_count() {
        if at(starts, i) <= time && time < at(starts, i).saturating_add(duration(net, i)) {
            used = used.saturating_add(request(net, i, k));
        }
    }
    used
}

/// The most that the jobs use of a resource at any time.
fn peak(net: &Network, starts: &[u64], k: usize) -> u64 {
    let mut peak = 0u64;
    for time in 0..LAST {
        peak = peak.max(usage(net, starts, k, time));
    }
    peak
}

/// What units of a resource cost.
pub fn price(order: &Order, k: usize, units: u64) -> u64 {
    let owned = order.owned.get(k).copied().unwrap_or(0) as u64;
    let price = order.prices.get(k).copied().unwrap_or(0) as u64;
    price.saturating_mul(units.saturating_sub(owned))
}

/// Whether the starts keep precedence, and need neither more units nor a greater cost than bounds allow.
fn is_within(net: &Network, order: &Order, starts: &[u64], bounds: &Domain) -> bool {
    let mut cost = 0u64;
    for k in 0..net.resource_count() {
        let units = peak(net, starts, k);
        if bounds.upper_at(net.job_count().saturating_add(k)) < units {
            return false;
        }
        cost = cost.saturating_add(price(order, k, units));
    }
    let most = bounds.upper_at(net.job_count().saturating_add(net.resource_count()));
    cost <= most && keeps_precedence(net, starts)
}

/// Counts on to the next starts within bounds, and says whether there are any.
fn count_on(starts: &mut [u64], bounds: &Domain) -> bool {
    for i in 0..starts.len() {
        if starts[i] < bounds.upper_at(i) {
            starts[i] = starts[i].saturating_add(1);
            return true;
        }
        starts[i] = bounds.lower_at(i);
    }
    false
}

/// Whether some schedule is within bounds.
pub fn is_any_within(
    alloc: Global,
    net: &Network,
    order: &Order,
    bounds: &Domain,
) -> Result<bool, AllocError> {
    let mut starts = Vec::new(alloc);
    for i in 0..net.job_count() {
        starts.push(bounds.lower_at(i))?;
    }
    for _i in 0..MOST {
        if is_within(net, order, &starts, bounds) {
            return Ok(true);
        }
        if !count_on(&mut starts, bounds) {
            return Ok(false);
        }
    }
    Ok(false)
}
