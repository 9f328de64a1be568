//! Drafts that stints make better, of random orders.

ghost use Rattle.racp_model.specs.Terms.{AreTermsOf};

use racp_drafts::Drafting;
use racp_model::{Network, Never};
use racp_prices::Order;
use racp_root::{Opening, opening_of};
use racp_samples::{Random, random_network, random_order};
use std::alloc::{AllocError, Global};

/// So many stints are made, of so many rounds each.
const STINTS: u32 = 4;

const ROUNDS: u32 = 40;

/// A stint of one, whose draft the other goes on from. Whether it costs less than all before it, if there is one.
fn is_better(
    one: &mut Drafting,
    other: &mut Drafting,
    net: &Network,
    order: &Order,
    known: &mut u64,
) -> Result<bool, AllocError>
    requires { AreTermsOf net.now order.now }
{
    let Some(draft) = one.improve(net, order, ROUNDS, &Never)? else {
        return Ok(true);
    };
    let is_less = draft.cost < *known;
    *known = draft.cost;
    other.join(&draft)?;
    Ok(is_less)
}

/// Whether two that tell each other their drafts never tell one that costs as much as one before it.
fn tell_better(alloc: Global, net: &Network, order: &Order) -> Result<bool, AllocError> {
    if !order.is_for(net) {
        return Ok(false);
    }
    let Opening::Root { window, .. } = opening_of(alloc, net, order)? else {
        return Ok(true);
    };
    let mut one = Drafting::new(alloc, net, order, &window, 5)?;
    let mut other = Drafting::new(alloc, net, order, &window, 6)?;
    let mut known = u64::MAX;
    for _stint in 0..STINTS {
        if !is_better(&mut one, &mut other, net, order, &mut known)?
            || !is_better(&mut other, &mut one, net, order, &mut known)?
        {
            return Ok(false);
        }
    }
    Ok(true)
}

/// Whether that is so of a random order for a network.
fn is_order_right(alloc: Global, random: &mut Random, net: &Network) -> Result<bool, AllocError> {
    let order = random_order(alloc, random, net)?;
    tell_better(alloc, net, &order)
}

/// Whether that is so of a random order for a random network.
fn is_next_right(alloc: Global, random: &mut Random) -> bool {
    match random_network(alloc, random, 2, 7) {
        Ok(net) => is_order_right(alloc, random, &net).unwrap_or(false),
        Err(_) => false,
    }
}

#[test]
fn stints_tell_better_drafts(rt: HostRuntime) {
    let mut random = Random::new(65);
    for i in 0..100 {
        assert!(rt; is_next_right(rt.alloc(), &mut random), "{i}");
    }
}
