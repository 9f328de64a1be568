//! When a command is stopped by the clock or by the user, and planning told of until then.

ghost use Rattle.std.specs.Prelude.{IsFalse, IsTrue, is_none};

use crate::asks::{Asks, Looks};
use crate::begun::Begun;
use crate::known::Known;
use crate::progress::Progress;
use racp_json::Work;
use racp_model::Stop;
use std::sync::atomic::{AtomicBool, AtomicU64, Ordering};
use std::time::{Clock, Duration};

/// How many milliseconds lie between two looks whether the user has asked for a stop, at least.
const PERIOD: u64 = 100;

/// Stops a command when so much time has passed since it was made, or when the user asks so; without either it never does.
/// If there is a limit and the clock cannot be read, it stops at once. Each time that it is asked counts as a node of the
/// search, of which it tells on standard error if that is wanted. Threads may share it.
#[derive(Drop)]
pub struct Limit<C: Clock + Eprint + Looks + Drop> {
    host: C,
    limit: Option<Duration>,
    begun: Begun,
    progress: Option<Progress>,
    known: Known,
    asks: Option<Asks>,
    /// After how many milliseconds it looks again whether the user has asked for a stop.
    due: AtomicU64,
    is_asked: AtomicBool,
}

impl<C: Clock + Eprint + Looks + Drop> Limit<C> {
    /// A limit of this time from now on, or none, which counts and tells as this says, or does not, with the file
    /// by which the user asks for a stop, if there is one.
    pub fn of(
        host: C,
        limit: Option<Duration>,
        progress: Option<Progress>,
        asks: Option<Asks>,
    ) -> Self {
        let begun = Begun::now(&host);
        Limit {
            host,
            limit,
            begun,
            progress,
            known: Known::new(),
            asks,
            due: AtomicU64::new(0),
            is_asked: AtomicBool::new(false),
        }
    }

    /// What is known of the plan.
    pub fn known(&self) -> &Known {
        &self.known
    }

    /// What counts the nodes and tells of planning, if that is wanted.
    pub fn progress(&self) -> Option<&Progress> {
        self.progress.as_ref()
    }

    /// How much work was done so far, as far as it is counted.
    pub fn work(&self) -> Work {
        let (nodes, conflicts) = match &self.progress {
            Some(progress) => (Some(progress.nodes()), Some(progress.conflicts())),
            None => (None, None),
        };
        Work {
            pieces: None,
            nodes,
            conflicts,
            seconds: self.begun.seconds(&self.host),
        }
    }

    /// Whether the limit is over when so much time has passed.
    fn is_over(&self, passed: Option<Duration>) -> bool
        ensures { IsTrue (is_none self.now.limit) → IsFalse result }
    {
        match (self.limit, passed) {
            (None, _) => false,
            (Some(limit), Some(passed)) => limit <= passed,
            (Some(_), None) => true,
        }
    }

    /// Whether the user has asked for a stop, which one of the threads looks at where that is due.
    fn is_made(&self, passed: Option<Duration>) -> bool
        ensures { IsTrue (is_none self.now.asks) → IsFalse result }
    {
        let Some(asks) = &self.asks else {
            return false;
        };
        if self.is_due(passed) && asks.are_seen(&self.host) {
            self.is_asked.store(true, Ordering::SeqCst);
        }
        self.is_asked.load(Ordering::SeqCst)
    }

    /// Whether it is this thread's to look when so much time has passed, and no other's.
    fn is_due(&self, passed: Option<Duration>) -> bool {
        let Some(passed) = passed else {
            return false;
        };
        let now = u64::try_from(passed.as_millis()).unwrap_or(u64::MAX);
        let due = self.due.load(Ordering::SeqCst);
        let next = now.saturating_add(PERIOD);
        due <= now
            && self
                .due
                .compare_exchange(due, next, Ordering::SeqCst, Ordering::SeqCst)
                .is_ok()
    }
}

impl<C: Clock + Eprint + Looks + Drop> Stop for Limit<C> {
    ghost use Rattle.std.specs.Prelude.{◌&&◌, false, is_none};
    ghost use Rattle.std.proofs.Common.{rules};

    ghost QUIET = { false };

    ghost is_quiet = { λ limit. is_none limit.limit && is_none limit.asks };

    ghost all_quiet = { Prim.search rules };

    const QUIET: bool = false;

    fn asked(&self) -> bool {
        if self.limit.is_none() && self.progress.is_none() && self.asks.is_none() {
            return false;
        }
        let passed = self.begun.passed(&self.host);
        if let (Some(progress), Some(passed)) = (&self.progress, passed) {
            if progress.count(passed) {
                progress.tell(&self.host, passed, &self.known);
            }
        }
        self.is_made(passed) || self.is_over(passed)
    }
}
