//! When a command of one thread is stopped by the clock or by the user.

ghost use Rattle.std.specs.Prelude.{IsFalse, IsTrue, is_none};

use crate::asks::Asks;
use crate::begun::Begun;
use racp_model::Stop;
use std::rt::Files;
use std::sync::atomic::{AtomicBool, AtomicU64, Ordering};
use std::time::{Clock, Duration};

/// How many milliseconds lie between two looks whether the user has asked for a stop, at least.
const PERIOD: u64 = 100;

/// Stops a command of one thread when so much time has passed since it was made, or when the user asks so. If there is
/// a limit and the clock cannot be read, it stops at once.
#[derive(Drop)]
pub struct AloneLimit<R: Clock + Files + Drop> {
    host: R,
    limit: Option<Duration>,
    begun: Begun,
    asks: Option<Asks>,
    due: AtomicU64,
    is_asked: AtomicBool,
    has_stopped: AtomicBool,
}

impl<R: Clock + Files + Drop> AloneLimit<R> {
    /// This time from now on, if there is a limit, and with the file by which the user asks for a stop, if there is
    /// one.
    pub fn of(host: R, limit: Option<Duration>, asks: Option<Asks>) -> Self {
        let begun = Begun::now(&host);
        AloneLimit {
            host,
            limit,
            begun,
            asks,
            due: AtomicU64::new(0),
            is_asked: AtomicBool::new(false),
            has_stopped: AtomicBool::new(false),
        }
    }

    /// Whether the user has asked for a stop, as far as that was looked at.
    pub fn is_asked(&self) -> bool {
        self.is_asked.load(Ordering::SeqCst)
    }

    /// Whether it has stopped the command.
    pub fn has_stopped(&self) -> bool {
        self.has_stopped.load(Ordering::SeqCst)
    }

    /// Whether the limit is over when so much time has passed.
    fn is_over(&self, passed: Option<Duration>) -> bool
        ensures { IsTrue (is_none self.now.limit) → IsFalse result }
    {
        match (self.limit, passed) {
            (None, _) => false,
            (Some(limit), Some(passed)) => limit <= passed,
            (Some(_), None) => true,
        }
    }

    /// Looks whether the user has asked for a stop, if that is due when so much time has passed.
    fn look(&self, passed: Option<Duration>) {
        let (Some(asks), Some(passed)) = (&self.asks, passed) else {
            return;
        };
        let now = u64::try_from(passed.as_millis()).unwrap_or(u64::MAX);
        if now < self.due.load(Ordering::SeqCst) {
            return;
        }
        self.due.store(now.saturating_add(PERIOD), Ordering::SeqCst);
        if asks.are_made(&self.host) {
            self.is_asked.store(true, Ordering::SeqCst);
        }
    }
}

impl<R: Clock + Files + Drop> Stop for AloneLimit<R> {
    ghost use Rattle.std.specs.Prelude.{◌&&◌, false, is_none};
    ghost use Rattle.std.proofs.Common.{rules};

    ghost QUIET = { false };

    ghost is_quiet = { λ until. is_none until.limit && is_none until.asks };

    ghost all_quiet = { Prim.search rules };

    const QUIET: bool = false;

    fn asked(&self) -> bool {
        if self.limit.is_none() && self.asks.is_none() {
            return false;
        }
        let passed = self.begun.passed(&self.host);
        self.look(passed);
        let stops = (self.asks.is_some() && self.is_asked()) || self.is_over(passed);
        if stops {
            self.has_stopped.store(true, Ordering::SeqCst);
        }
        stops
    }
}
