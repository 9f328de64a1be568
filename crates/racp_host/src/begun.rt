//! How long a command has run.

use std::num::nearest_u64_to_f64;
use std::time::{Clock, Duration, Instant};

/// When a command began, if the clock could be read.
#[derive(Clone, Copy)]
pub struct Begun {
    at: Option<Instant>,
}

impl Begun {
    /// It begins now.
    pub fn now<C: Clock>(clock: &C) -> Self {
        Begun {
            at: Instant::now(clock).ok(),
        }
    }

    /// How much time has passed, if the clock can be read.
    pub(crate) fn passed<C: Clock>(self, clock: &C) -> Option<Duration> {
        self.at?.elapsed(clock).ok()
    }

    /// How many seconds have passed, to a thousandth, if the clock can be read.
    pub fn seconds<C: Clock>(self, clock: &C) -> Option<f64> {
        let thousandths = u64::try_from(self.passed(clock)?.as_millis()).unwrap_or(u64::MAX);
        Some(nearest_u64_to_f64(thousandths) / 1000.0)
    }
}
