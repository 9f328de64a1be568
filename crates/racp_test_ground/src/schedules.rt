//! Drafts of small orders, and of random ones.

use crate::samples::sampled;
use crate::schedules::wishes::{WISHES, Wish, ordered};
use racp_cpm::root;
use racp_delay::Steps;
use racp_drafts::{Effort, draft_of};
use racp_model::{Network, Never, Stop};
use racp_prices::{Order, due_times};
use racp_samples::{Random, random_network, random_order};
use std::alloc::{AllocError, Global};

mod wishes;

/// What came of an order.
#[derive(Clone, Copy, PartialEq)]
enum Outcome {
    /// There is no root window.
    Late,
    /// No draft was made.
    Nothing,
    /// A draft of this cost, with a number that mixes its starts and capacities.
    Made(u64, u64),
}

/// A number that mixes starts and capacities.
fn mixed(starts: &[u32], units: &[u32]) -> u64 {
    let mut mixed = 0u64;
    for number in starts {
        mixed = mixed.wrapping_mul(1_000_003).wrapping_add(*number as u64);
    }
    for number in units {
        mixed = mixed.wrapping_mul(1_000_003).wrapping_add(*number as u64);
    }
    mixed
}

/// The effort of these tests.
const EFFORT: Effort = Effort {
    rounds: 30,
    seed: 7,
};

/// What comes of an order with this effort.
fn tried<S: Stop>(
    alloc: Global,
    net: &Network,
    order: &Order,
    effort: Effort,
    stop: &S,
) -> Result<Outcome, AllocError> {
    let due = due_times(alloc, order)?;
    if !order.is_for(net)
        || due.len() != net.job_count()
        || !due.iter().all(|time| *time <= 10_000_000)
    {
        return Ok(Outcome::Nothing);
    }
    let Some(window) = root(alloc, net, order.release.as_slice(), &due)? else {
        return Ok(Outcome::Late);
    };
    match draft_of(alloc, net, order, &window, effort, stop)? {
        Some(draft) => {
            let number = mixed(draft.starts.as_slice(), draft.capacities.as_slice());
            Ok(Outcome::Made(draft.cost, number))
        }
        None => Ok(Outcome::Nothing),
    }
}

/// What comes of a wish.
fn wished(alloc: Global, net: &Network, wish: &Wish) -> Result<Outcome, AllocError> {
    let order = ordered(alloc, net, wish)?;
    tried(alloc, net, &order, EFFORT, &Never)
}

/// What comes of a wish for its network, or nothing if memory is refused.
fn outcome_of(alloc: Global, wish: &Wish) -> Outcome {
    match sampled(alloc, wish.sample) {
        Ok(net) => wished(alloc, &net, wish).unwrap_or(Outcome::Nothing),
        Err(_) => Outcome::Nothing,
    }
}

/// Whether the draft of a wish costs what is known by hand.
fn holds(alloc: Global, wish: &Wish) -> bool {
    match outcome_of(alloc, wish) {
        Outcome::Made(cost, _) => wish.cost == Some(cost),
        _ => wish.cost.is_none(),
    }
}

#[test]
fn drafts_small_orders(rt: HostRuntime) {
    for wish in WISHES {
        assert!(rt; holds(rt.alloc(), wish), "{}", wish.name);
    }
}

/// A random order for a network, with six time units more.
fn loose_order(alloc: Global, random: &mut Random, net: &Network) -> Result<Order, AllocError> {
    let mut order = random_order(alloc, random, net)?;
    order.deadline = order.deadline.saturating_add(6);
    for due in order.due.iter_mut() {
        *due = due.saturating_add(6);
    }
    Ok(order)
}

/// Whether these may come of an order, and of the same one with a stop before the first round: a draft where there is a root
/// window and there are no ceilings, and with the stop none that costs less.
fn may_come(made: Outcome, listed: Outcome, has_ceilings: bool) -> bool {
    match (made, listed) {
        (Outcome::Late, Outcome::Late) => true,
        (Outcome::Made(cost, _), Outcome::Made(other, _)) => cost <= other,
        (_, Outcome::Nothing) => has_ceilings,
        _ => false,
    }
}

/// Whether an order has the draft that it may have, and with the same seed the same one again.
fn is_drafted(alloc: Global, net: &Network, order: &Order) -> Result<bool, AllocError> {
    let made = tried(alloc, net, order, EFFORT, &Never)?;
    let again = tried(alloc, net, order, EFFORT, &Never)?;
    let listed = tried(alloc, net, order, EFFORT, &Steps::new(0))?;
    Ok(made == again && may_come(made, listed, order.ceilings.is_some()))
}

/// Whether that is so of a random order for a network.
fn is_order_drafted(alloc: Global, random: &mut Random, net: &Network) -> Result<bool, AllocError> {
    let order = loose_order(alloc, random, net)?;
    is_drafted(alloc, net, &order)
}

/// Whether that is so of a random order for a random network.
fn is_next_drafted(alloc: Global, random: &mut Random) -> bool {
    match random_network(alloc, random, 2, 7) {
        Ok(net) => is_order_drafted(alloc, random, &net).unwrap_or(false),
        Err(_) => false,
    }
}

#[test]
fn drafts_random_orders(rt: HostRuntime) {
    let mut random = Random::new(64);
    for i in 0..200 {
        assert!(rt; is_next_drafted(rt.alloc(), &mut random), "{i}");
    }
}
