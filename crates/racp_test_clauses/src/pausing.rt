//! Who listens to one of two searches for an optimum, and lets the other one go on alone for a while.

use racp_found::{News, Observer};
use std::cell::Cell;
use std::thread;
use std::time::{Clock, Duration};

/// So many seconds a search pauses each time.
const SECONDS: u64 = 3;

/// So often it pauses at most.
const MOST_PAUSES: u32 = 15;

/// What came to a search from another one.
#[derive(Clone, Copy)]
pub struct Received {
    /// Whether a clause came.
    pub is_clause: bool,
    /// Whether a draft came.
    pub is_draft: bool,
}

/// Pauses a search whenever it tells how much it has done. Between that and the next time that it asks whether it is to stop, it
/// does nothing but take what the other one has shown: a clause that tells what everything costs at least, and a draft. When both
/// have come, the search is to stop.
#[derive(Drop)]
pub struct Pausing<'a, R: Clock> {
    clock: &'a R,
    /// How many pauses are left.
    left: Cell<u32>,
    /// Whether it has done nothing since it paused.
    is_back: Cell<bool>,
    received: Cell<Received>,
}

impl<'a, R: Clock> Pausing<'a, R> {
    /// Nothing has come yet.
    pub fn new(clock: &'a R) -> Self {
        Pausing {
            clock,
            left: Cell::new(MOST_PAUSES),
            is_back: Cell::new(false),
            received: Cell::new(Received {
                is_clause: false,
                is_draft: false,
            }),
        }
    }

    /// What has come.
    pub fn received(&self) -> Received {
        self.received.get()
    }

    /// Lets the other search go on alone.
    fn pause(&self) {
        self.left.set(self.left.get().saturating_sub(1));
        thread::sleep(self.clock, Duration::from_secs(SECONDS));
        self.is_back.set(true);
    }

    /// Notes that a clause or a draft is told.
    fn note(&self, is_clause: bool) {
        if !self.is_back.get() {
            return;
        }
        let before = self.received.get();
        self.received.set(Received {
            is_clause: before.is_clause || is_clause,
            is_draft: before.is_draft || !is_clause,
        });
    }
}

impl<'a, R: Clock> Observer for Pausing<'a, R> {
    fn hear(&self, news: News<'_>) {
        match news {
            News::Work { .. } => self.pause(),
            News::Cost(_) => self.note(true),
            News::Plan { .. } => self.note(false),
            News::Deadline(_) | News::Floors(_) => {}
        }
    }

    fn is_to_stop(&self) -> bool {
        self.is_back.set(false);
        let Received {
            is_clause,
            is_draft,
        } = self.received.get();
        is_clause && is_draft || self.left.get() == 0
    }
}
