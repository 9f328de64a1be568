//! How units are handed out to jobs. `booking` says whether that is right.

ghost use Rattle.std.specs.Prelude.{◌<◌};

use crate::book::{Book, Turns};
use crate::booking::wanted;
use crate::work::{duration_at, number_at};
use racp_model::Network;
use std::alloc::{AllocError, Global};

/// So many units of the resource at place `k`, handed out to the jobs in the order of their starts: each job takes the first units
/// that serve no other when it starts.
pub(crate) fn shared(
    alloc: Global,
    net: &Network,
    starts: &[u32],
    count: u32,
    k: usize,
) -> Result<Book, AllocError>
    requires { k < net.now.resources }
{
    let mut units = idle(alloc, count)?;
    for (_, place) in order_of(alloc, net, starts)? {
        let number = wanted(net, k, place as usize);
        take(net, starts, &mut units, place, number)?;
    }
    Ok(Book { units })
}

/// So many units that serve no job.
fn idle(alloc: Global, count: u32) -> Result<Vec<Turns>, AllocError> {
    let mut units = Vec::new(alloc);
    for _unit in 0..count {
        units.push(Turns {
            places: Vec::new(alloc),
        })?;
    }
    Ok(units)
}

/// The start and the place of each job, in the order of the starts.
fn order_of(alloc: Global, net: &Network, starts: &[u32]) -> Result<Vec<(u32, u32)>, AllocError> {
    let mut order = Vec::new(alloc);
    for place in 0..net.job_count() {
        order.push((number_at(starts, place), place as u32))?;
    }
    order.sort_unstable();
    Ok(order)
}

/// Hands out so many units to the job at a place.
fn take(
    net: &Network,
    starts: &[u32],
    units: &mut [Turns],
    place: u32,
    number: u32,
) -> Result<(), AllocError> {
    let start = number_at(starts, place as usize) as u64;
    let mut left = number;
    for unit in units {
        if left > 0 && free_from(net, starts, &unit.places) <= start {
            unit.places.push(place)?;
            left -= 1;
        }
    }
    Ok(())
}

/// When a unit that serves the jobs at these places is free again.
fn free_from(net: &Network, starts: &[u32], places: &[u32]) -> u64 {
    match places.last() {
        Some(place) => {
            number_at(starts, *place as usize) as u64 + duration_at(net, *place as usize) as u64
        }
        None => 0,
    }
}
