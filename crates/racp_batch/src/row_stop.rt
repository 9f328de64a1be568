//! When the planning of a row stops.

use racp_model::Stop;
use std::sync::atomic::{AtomicBool, AtomicU64, Ordering};
use std::time::{Clock, Duration, Instant};

/// Tells whether all rows are to stop.
pub(crate) trait Halt {
    /// Whether all rows are to stop.
    fn is_set(&self) -> bool;
}

impl<'a> Halt for &'a AtomicBool {
    fn is_set(&self) -> bool {
        self.load(Ordering::SeqCst)
    }
}

/// Stops the planning of a row when so much time has passed since it was made, or once all rows are to stop. If there is a limit
/// and the clock cannot be read, it stops at once. Each time that it is asked counts as a node of the search.
#[derive(Drop)]
pub(crate) struct RowStop<C: Clock + Drop, H: Halt + Drop> {
    clock: C,
    begun: Option<Instant>,
    limit: Option<Duration>,
    halt: H,
    nodes: AtomicU64,
}

impl<C: Clock + Drop, H: Halt + Drop> RowStop<C, H> {
    /// This time from now on, if there is a limit, and until all rows are to stop.
    pub(crate) fn of(clock: C, limit: Option<Duration>, halt: H) -> Self {
        let begun = Instant::now(&clock).ok();
        RowStop {
            clock,
            begun,
            limit,
            halt,
            nodes: AtomicU64::new(0),
        }
    }

    /// How often it was asked: once for each node.
    pub(crate) fn nodes(&self) -> u64 {
        self.nodes.load(Ordering::SeqCst)
    }

    /// How many thousandths of a second have passed, if the clock can be read.
    pub(crate) fn milliseconds(&self) -> Option<u64> {
        Some(u64::try_from(self.passed()?.as_millis()).unwrap_or(u64::MAX))
    }

    /// How much time has passed, if the clock can be read.
    fn passed(&self) -> Option<Duration> {
        self.begun?.elapsed(&self.clock).ok()
    }

    /// Whether the limit is over, if there is one.
    fn is_over(&self) -> bool {
        let Some(limit) = self.limit else {
            return false;
        };
        match self.passed() {
            Some(passed) => limit <= passed,
            None => true,
        }
    }
}

impl<C: Clock + Drop, H: Halt + Drop> Stop for RowStop<C, H> {
    ghost use Rattle.std.specs.Prelude.{false};

    ghost QUIET = { false };

    ghost is_quiet = { λ _. false };

    ghost all_quiet = { λ _ quiet. quiet };

    const QUIET: bool = false;

    fn asked(&self) -> bool {
        let _ = self.nodes.fetch_add(1, Ordering::SeqCst);
        self.halt.is_set() || self.is_over()
    }
}
