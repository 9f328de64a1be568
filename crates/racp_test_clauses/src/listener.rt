//! Who listens to a search for an optimum.

use racp_found::{News, Observer};
use std::cell::Cell;

/// Keeps what it is told, and stops a search that asks too often.
#[derive(Drop)]
pub struct Listener {
    /// How many times the search may still be asked whether it is to stop.
    left: Cell<u32>,
    /// The greatest lower bound on the cost.
    least: Cell<u64>,
    /// What the last draft costs, and its capacities as the digits of a number.
    cost: Cell<u64>,
    digits: Cell<u64>,
    /// Whether some draft was told.
    is_any: Cell<bool>,
    /// Whether each draft is cheaper than the one before it, or as cheap with a vector that comes before.
    are_falling: Cell<bool>,
}

impl Listener {
    /// It lets a search ask so many times.
    pub fn new(left: u32) -> Self {
        Listener {
            left: Cell::new(left),
            least: Cell::new(0),
            cost: Cell::new(u64::MAX),
            digits: Cell::new(u64::MAX),
            is_any: Cell::new(false),
            are_falling: Cell::new(true),
        }
    }

    /// Whether what it was told is true of a plan of this cost, or of there being none.
    pub fn is_told_well(&self, plan: Option<u64>) -> bool {
        let is_least = match plan {
            Some(cost) => self.least.get() <= cost,
            None => !self.is_any.get(),
        };
        is_least && self.are_falling.get()
    }

    /// Keeps what a draft costs, and its capacities.
    fn note_draft(&self, units: &[u32], cost: u64) {
        let digits = digits_of(units);
        let last = self.cost.get();
        if last < cost || last == cost && self.digits.get() <= digits {
            self.are_falling.set(false);
        }
        self.cost.set(cost);
        self.digits.set(digits);
        self.is_any.set(true);
    }
}

/// Up to five capacities below 1,000 as the digits of a number: of two vectors the first has the less.
fn digits_of(units: &[u32]) -> u64 {
    let mut digits = 0u64;
    for count in units {
        digits = digits.wrapping_mul(1_000).wrapping_add(*count as u64);
    }
    digits
}

impl Observer for Listener {
    fn hear(&self, news: News<'_>) {
        match news {
            News::Cost(least) => self.least.set(self.least.get().max(least)),
            News::Plan {
                capacities,
                cost,
                ..
            } => self.note_draft(capacities.as_slice(), cost),
            News::Deadline(_) | News::Floors(_) | News::Work { .. } => {}
        }
    }

    fn is_to_stop(&self) -> bool {
        let left = self.left.get();
        self.left.set(left.saturating_sub(1));
        left == 0
    }
}
