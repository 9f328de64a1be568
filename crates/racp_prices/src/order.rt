//! The terms of an order.

ghost use Rattle.std.specs.Prelude.{◌≡◌, ◌≤◌, ◌↔◌, IsTrue, length, All};
ghost use Rattle.racp_model.specs.Terms.{AreTermsOf};

use racp_model::Network;
use racp_model::limits::{LATEST_TIME, MOST_PRICE, MOST_UNITS};
use std::marker::Model;

/// The terms of an order. Lists have an entry for each resource or each job, by place from 0; times are in time units.
/// Contracts see the `Terms` of racp_model.
#[derive(Drop)]
pub struct Order {
    /// The time by which the project has to end, up to 10,000,000.
    pub deadline: u32,
    /// What a unit of each resource costs, up to 1,000,000.
    pub prices: Vec<u32>,
    /// How many units of each resource are owned already, and cost nothing, up to 10,000,000.
    pub owned: Vec<u32>,
    /// The most units of each resource that there may be, owned ones among them, up to 10,000,000; or `None` if any
    /// number may be.
    pub ceilings: Option<Vec<u32>>,
    /// The time from which each job may start, up to 10,000,000.
    pub release: Vec<u32>,
    /// The time by which each job has to end, up to 10,000,000.
    pub due: Vec<u32>,
}

impl Model for Order {
    ghost use Rattle.std.specs.Prelude.{option_map};
    ghost use Rattle.racp_model.specs.Terms.{Terms};

    ghost Value = { Terms };

    ghost view = { λ o. record {
      deadline = o.deadline;
      prices = o.prices.items;
      owned = o.owned.items;
      ceilings =
          option_map (λ c. c.items) o.ceilings;
      release = o.release.items;
      due = o.due.items;
    } };
}

impl Order {
    /// Whether the order has an entry for each resource and each job of the network, all in their ranges: prices up to
    /// 1,000,000, and times, owned units and ceilings up to 10,000,000. Each order that is read for the network has.
    pub fn is_for(&self, net: &Network) -> bool
        ensures { IsTrue result ↔ AreTermsOf net.now self.now }
    {
        self.deadline <= LATEST_TIME
            && are_within(&self.prices, net.resource_count(), MOST_PRICE)
            && are_within(&self.owned, net.resource_count(), MOST_UNITS)
            && match &self.ceilings {
                Some(ceilings) => are_within(ceilings, net.resource_count(), MOST_UNITS),
                None => true,
            }
            && are_within(&self.release, net.job_count(), LATEST_TIME)
            && are_within(&self.due, net.job_count(), LATEST_TIME)
    }
}

/// Whether there are this many numbers, none of them above `most`.
fn are_within(numbers: &[u32], count: usize, most: u32) -> bool
    ensures { IsTrue result ↔ ((length numbers.now ≡ count) × All (λ x. x ≤ most) numbers.now) }
{
    numbers.len() == count && numbers.iter().all(|x| *x <= most)
}
