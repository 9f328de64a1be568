//! How far the cheapest plan that is known can be from the cheapest that there is.

use racp_batch::gap;
use std::fmt;
use std::fmt::{Display, Formatter};
use std::sync::atomic::{AtomicU64, Ordering};

/// What stands for a deadline or a cost while none is known.
const NONE: u64 = u64::MAX;

/// What is known of a plan while it is made: its deadline, the longest deadline for which one was made so far, what the
/// cheapest costs that is known, and what each costs at least.
#[derive(Drop)]
pub struct Known {
    longest: AtomicU64,
    deadline: AtomicU64,
    best: AtomicU64,
    bound: AtomicU64,
    /// What a plan for the longest deadline costs that was known before.
    earlier: AtomicU64,
}

impl Known {
    /// No plan is known, and it may cost nothing.
    pub(crate) fn new() -> Self {
        Known {
            longest: AtomicU64::new(0),
            deadline: AtomicU64::new(NONE),
            best: AtomicU64::new(NONE),
            bound: AtomicU64::new(0),
            earlier: AtomicU64::new(NONE),
        }
    }

    /// Notes a plan of this cost for the longest deadline that was known before planning began.
    pub fn note_earlier(&self, cost: u64) {
        self.earlier.store(cost, Ordering::SeqCst);
        self.best.store(cost, Ordering::SeqCst);
    }

    /// Notes that a plan for this deadline is made, and says whether it is another than before: then nothing is known
    /// of it.
    pub fn note_deadline(&self, deadline: u32) -> bool {
        let deadline = deadline as u64;
        let _ = self.longest.fetch_max(deadline, Ordering::SeqCst);
        if self.deadline.swap(deadline, Ordering::SeqCst) == deadline {
            return false;
        }
        let known = if self.is_for_longest() {
            self.earlier.load(Ordering::SeqCst)
        } else {
            NONE
        };
        self.best.store(known, Ordering::SeqCst);
        self.bound.store(0, Ordering::SeqCst);
        true
    }

    /// Notes a plan of this cost that is known, and says whether none so far is cheaper, and the one that was known before is
    /// dearer.
    pub fn note_plan(&self, cost: u64) -> bool {
        let is_best = cost <= self.best.fetch_min(cost, Ordering::SeqCst);
        is_best && !(self.is_for_longest() && self.earlier.load(Ordering::SeqCst) <= cost)
    }

    /// Whether the plan is made for the longest deadline so far.
    pub fn is_for_longest(&self) -> bool {
        self.longest.load(Ordering::SeqCst) == self.deadline.load(Ordering::SeqCst)
    }

    /// Notes that a plan costs at least so much.
    pub fn note_bound(&self, cost: u64) {
        let _ = self.bound.fetch_max(cost, Ordering::SeqCst);
    }

    /// What the cheapest plan costs that is known, if one is.
    fn best(&self) -> Option<u64> {
        let best = self.best.load(Ordering::SeqCst);
        if best == NONE { None } else { Some(best) }
    }

    /// What a plan costs at least.
    fn bound(&self) -> u64 {
        self.bound.load(Ordering::SeqCst)
    }

    /// Writes the members of a JSON object that tell it.
    pub(crate) fn write_json<W: fmt::Write>(&self, f: &mut Formatter<W>) -> fmt::Result {
        let bound = self.bound();
        match self.best() {
            Some(best) => {
                let gap = gap(best, bound);
                write!(f, "\"best\":{best},\"bound\":{bound},\"gap\":{gap}")
            }
            None => write!(f, "\"best\":null,\"bound\":{bound},\"gap\":null"),
        }
    }

    /// Writes it in few words, with the deadline if that is not the longest one.
    pub(crate) fn write_short<W: fmt::Write>(&self, f: &mut Formatter<W>) -> fmt::Result {
        if !self.is_for_longest() {
            write!(f, "deadline {}: ", self.deadline.load(Ordering::SeqCst))?;
        }
        let bound = self.bound();
        match self.best() {
            Some(best) => {
                let gap = gap(best, bound);
                write!(f, "cost {best}, at least {bound} (gap {gap}%)")
            }
            None => write!(f, "no plan yet, at least {bound}"),
        }
    }

    /// Tells on standard error what is known when planning was stopped.
    pub fn tell(&self, errors: &impl Eprint) {
        let bound = self.bound();
        let _ = match self.best() {
            Some(best) => {
                let gap = gap(best, bound);
                errors.eprintln(format_args!(
                    "best cost {best}, proved at least {bound} (gap {gap}%)"
                ))
            }
            None => errors.eprintln(format_args!("no plan is known, proved at least {bound}")),
        };
    }
}

impl Display for Known {
    fn fmt<W: fmt::Write>(&self, f: &mut Formatter<W>) -> fmt::Result {
        let bound = self.bound();
        match self.best() {
            Some(best) => {
                let gap = gap(best, bound);
                write!(f, "best {best} bound {bound} gap {gap}%")
            }
            None => write!(f, "best none bound {bound} gap none"),
        }
    }
}
