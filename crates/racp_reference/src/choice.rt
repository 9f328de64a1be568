//! The cheapest capacities by their definition: every capacity vector up to the roofs is looked at.

ghost use Rattle.std.specs.Prelude.{◌≡◌, IfOk, length};
ghost use Rattle.racp_model.specs.Formed.{IsFormed};
ghost use Rattle.racp_model.specs.Terms.{AreTermsOf};
ghost use Rattle.racp_reference.specs.Choices.{cheaper_of, IsPriced, IsCheapest};

use crate::answers::first_answer;
use crate::boxes::next_in;
use racp_model::{Capacities, Network, Starts, Window};
use racp_prices::{Order, cost_of};
use std::alloc::{AllocError, Global};

/// Capacities with the least start vector that fits them, and what they cost.
#[derive(Drop)]
pub(crate) struct Choice {
    /// What the units cost that are not owned already.
    pub cost: u64,
    /// How many units there are of each resource.
    pub capacities: Capacities,
    /// When each job starts.
    pub starts: Starts,
}

/// The cheapest capacities up to these most units under which some starts in the window fit, of those that cost the
/// same the lexicographically least. All capacity vectors from 0 units on are looked at, one by one.
pub(crate) fn cheapest(
    alloc: Global,
    net: &Network,
    order: &Order,
    most: &[u32],
    window: &Window,
) -> Result<Option<Choice>, AllocError>
    requires terms { AreTermsOf net.now order.now }
    requires formed { IsFormed net.now (record { capacities = most.now; window = window.now }) }
    ensures { IfOk result (IsCheapest net.now order.now window.now most.now) }
{
    let least = vec![in alloc; 0; most.len()]?;
    let mut capacities = Capacities::new(least.to_vec(alloc)?);
    let mut best = None;
    'vectors: loop {
        let other = priced(alloc, net, order, window, &capacities)?;
        best = cheaper(best, other);
        match next_in(&least, most, capacities.into_vec()) {
            Some(next) => capacities = Capacities::new(next),
            None => return Ok(best),
        }
    }
}

/// These capacities with the least starts in the window that fit them, or `None` if none do.
fn priced(
    alloc: Global,
    net: &Network,
    order: &Order,
    window: &Window,
    capacities: &Capacities,
) -> Result<Option<Choice>, AllocError>
    requires terms { AreTermsOf net.now order.now }
    requires formed { IsFormed net.now (record { capacities = capacities.now; window = window.now }) }
    ensures { IfOk result (IsPriced net.now order.now window.now capacities.now) }
{
    let Some(starts) = first_answer(alloc, net, capacities, window)? else {
        return Ok(None);
    };
    Ok(Some(Choice {
        cost: cost_of(net, order, capacities.as_slice()),
        capacities: capacities.clone()?,
        starts,
    }))
}

/// The cheaper of two, the first if they cost the same.
fn cheaper(best: Option<Choice>, other: Option<Choice>) -> Option<Choice>
    ensures { result ≡ cheaper_of best other }
{
    match (best, other) {
        (Some(best), Some(other)) => Some(if other.cost < best.cost { other } else { best }),
        (best, None) => best,
        (None, other) => other,
    }
}
