//! What belongs to the resource or the job with a number from 1.

use racp_model::Network;
use racp_prices::Order;

/// The place, from 0, of the resource or job with a number from 1.
pub(crate) fn place_of(number: u32) -> usize {
    number.saturating_sub(1) as usize
}

/// The number at the place of the resource or job with this number, or 0.
pub(crate) fn at(numbers: &[u32], number: u32) -> u32 {
    numbers.get(place_of(number)).copied().unwrap_or(0)
}

/// When a job ends that starts then.
pub(crate) fn end_of(net: &Network, job: u32, start: u32) -> u64 {
    let place = place_of(job);
    let duration = if place < net.job_count() {
        net.duration(place)
    } else {
        0
    };
    start as u64 + duration as u64
}

/// By when a job has to end.
pub(crate) fn due_of(order: &Order, job: u32) -> u32 {
    at(&order.due, job).min(order.deadline)
}
