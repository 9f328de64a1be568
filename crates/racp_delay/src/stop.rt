//! A stop after a number of steps.

use racp_model::Stop;
use std::cell::Cell;

/// Stops a search that takes too many steps: once it was asked more than so many times.
#[derive(Drop)]
pub struct Steps {
    left: Cell<u32>,
}

impl Steps {
    /// Lets a search ask so many times.
    pub fn new(most: u32) -> Self {
        Steps {
            left: Cell::new(most),
        }
    }

    /// How many times it may still be asked.
    pub(crate) fn left(&self) -> u32 {
        self.left.get()
    }
}

impl Stop for Steps {
    ghost use Rattle.std.specs.Prelude.{false};

    ghost QUIET = { false };

    ghost is_quiet = { λ _. false };

    ghost all_quiet = { λ _ quiet. quiet };

    const QUIET: bool = false;

    fn asked(&self) -> bool {
        let Some(left) = self.left.get().checked_sub(1) else {
            return true;
        };
        self.left.set(left);
        false
    }
}
