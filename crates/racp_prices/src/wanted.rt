//! What an order is wanted to say.

ghost use Rattle.std.specs.Prelude.{◌≡◌};
ghost use Rattle.racp_prices.specs.Wishes.{says_more};

use std::marker::Model;

/// What an order is wanted to say. Lists have an entry for each resource, or for each job, by place from 0. Contracts see a
/// `Wish`.
#[derive(Drop)]
pub struct Wanted {
    /// The time by which the project has to end, in time units.
    pub deadline: u32,
    /// What a unit of each resource costs.
    pub prices: Vec<u32>,
    /// How many units of each resource are owned already, and cost nothing; or `None` if none are.
    pub owned: Option<Vec<u32>>,
    /// The most units of each resource that there may be, owned ones among them; or `None` if any number may be.
    pub ceilings: Option<Vec<u32>>,
    /// The time from which each job may start; or `None` if each may start at 0.
    pub release: Option<Vec<u32>>,
    /// The time by which each job has to end; or `None` if each has to end by the deadline.
    pub due: Option<Vec<u32>>,
}

impl Model for Wanted {
    ghost use Rattle.std.specs.Prelude.{option_map};
    ghost use Rattle.racp_prices.specs.Wishes.{Wish};

    ghost Value = { Wish };

    ghost view = { λ w. record {
      deadline = w.deadline;
      prices = w.prices.items;
      owned = option_map (λ o. o.items) w.owned;
      ceilings =
          option_map (λ c. c.items) w.ceilings;
      release =
          option_map (λ r. r.items) w.release;
      due = option_map (λ d. d.items) w.due;
    } };
}

impl Wanted {
    /// Whether an order of the first version cannot say this.
    pub(crate) fn needs_version(&self) -> bool
        ensures { result ≡ says_more self.now }
    {
        self.owned.is_some()
            || self.ceilings.is_some()
            || self.release.is_some()
            || self.due.is_some()
    }
}
