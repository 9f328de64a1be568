//! The search itself, which nobody trusts: it is safe, and it ends.

use crate::activity::Activity;
use crate::analysis::Analysis;
use crate::bound::{Bound, Why};
use crate::clauses::Clauses;
use crate::deciding::{Choice, Deciding};
use crate::energies::Energies;
use crate::following::follow;
use crate::problem::Problem;
use crate::restarts::Restarts;
use crate::roaming::Roaming;
use crate::trail::{Entry, Trail};
use crate::usage::CoreUsage;
use crate::view::View;
use std::alloc::{AllocError, Global};

/// So many bounds are followed before the search pauses.
const MOST_STEPS: u32 = 2_000;

/// So many decisions are made before it does, and no more than look at so many jobs.
const MOST_DECISIONS: usize = 200;

const MOST_LOOKS: usize = 6_000;

/// Where a search halts.
#[derive(Clone, Copy)]
pub(crate) enum Halt {
    /// The early starts fit and cost little enough.
    Found,
    /// No schedule lies within the bounds.
    Conflict,
    /// It begins anew, and nothing is tried at the moment.
    Restart,
    /// It has gone on for some time.
    Pause,
    /// There is nothing to try.
    Stuck,
    /// Memory was refused.
    Short,
}

/// The bounds, the clauses and all that is used again from one conflict to the next.
#[derive(Drop)]
pub(crate) struct Engine {
    pub(crate) problem: Problem,
    pub(crate) trail: Trail,
    pub(crate) clauses: Clauses,
    pub(crate) analysis: Analysis,
    pub(crate) activity: Activity,
    usage: CoreUsage,
    pub(crate) energies: Energies,
    deciding: Deciding,
    pub(crate) roaming: Roaming,
    pub(crate) restarts: Restarts,
    /// Starts that decisions keep to; none if there are none.
    pub(crate) guide: Vec<u32>,
    assumed: Vec<Bound>,
    decisions: u64,
}

impl Engine {
    /// Over the rows of an order; the clauses are to take at most so many bytes, about.
    pub(crate) fn new(
        alloc: Global,
        problem: Problem,
        seed: u64,
        most_bytes: u64,
    ) -> Result<Engine, AllocError> {
        let bounds = Vec::from_slice(alloc, &problem.root)?;
        Ok(Engine {
            trail: Trail::new(alloc, bounds)?,
            clauses: Clauses::new(alloc, &problem.root, most_bytes)?,
            analysis: Analysis::new(alloc, problem.root.len())?,
            activity: Activity::new(alloc, &problem, seed)?,
            usage: CoreUsage::new(alloc, &problem)?,
            energies: Energies::new(alloc, &problem)?,
            deciding: Deciding::new(alloc, &problem)?,
            roaming: Roaming::new(alloc, &problem)?,
            restarts: Restarts::new(),
            guide: Vec::new(alloc),
            assumed: Vec::new(alloc),
            decisions: 0,
            problem,
        })
    }

    /// Begins a question, in which some bounds are assumed.
    pub(crate) fn assume(&mut self, assumed: Vec<Bound>) {
        self.back(0);
        self.assumed = assumed;
    }

    /// Takes back all above a level.
    pub(crate) fn back(&mut self, level: usize) {
        self.roaming.note(&self.trail);
        self.trail.back(level);
        self.usage.reset();
        self.energies.reset();
    }

    /// Goes on until it halts.
    pub(crate) fn advance(&mut self) -> Halt {
        for _i in 0..self.decisions_at_once() {
            if let Some(halt) = self.propagate() {
                return halt;
            }
            if self.is_short() {
                return Halt::Short;
            }
            if self.begins_anew() {
                self.back(0);
                return Halt::Restart;
            }
            if let Some(halt) = self.decide() {
                return halt;
            }
        }
        Halt::Pause
    }

    /// Whether it is time to begin anew, or to forget clauses.
    fn begins_anew(&mut self) -> bool {
        if self.restarts.is_due() {
            self.restarts.begin();
            self.roaming.begin();
            return true;
        }
        self.clauses.are_large() || self.clauses.are_crowded()
    }

    /// How many decisions are made before the search pauses: fewer where there are many jobs, so that a stop is heard.
    fn decisions_at_once(&self) -> usize {
        (MOST_LOOKS / self.problem.jobs.max(1)).clamp(1, MOST_DECISIONS)
    }

    /// Whether memory was refused.
    fn is_short(&self) -> bool {
        self.trail.is_full()
            || self.clauses.are_short()
            || self.analysis.is_short()
            || self.usage.is_short()
            || self.energies.is_short()
            || self.deciding.is_short()
    }

    /// Decides what to try; at first what is assumed.
    fn decide(&mut self) -> Option<Halt> {
        if self.trail.level() == 0 {
            self.trail.open_level();
            for &bound in &self.assumed {
                if !self.trail.put(bound, Why::Decision) {
                    return Some(Halt::Conflict);
                }
            }
            return None;
        }
        let choice = self.deciding.choose(View {
            problem: &self.problem,
            trail: &self.trail,
            activity: &self.activity,
            guide: &self.guide,
        });
        match choice {
            Choice::Found => return Some(Halt::Found),
            Choice::Nothing => return Some(Halt::Stuck),
            Choice::Try(bound) => {
                let bound = self.roamed().unwrap_or(bound);
                self.decisions = self.decisions.saturating_add(1);
                self.trail.open_level();
                if !self.trail.put(bound, Why::Decision) {
                    return Some(Halt::Stuck);
                }
            }
        }
        None
    }

    /// What is tried instead, if it is the turn of that.
    fn roamed(&self) -> Option<Bound> {
        self.roaming
            .choose(&self.problem, &self.trail, &self.activity)
    }

    /// Follows all bounds, and says why it halts, if it does.
    fn propagate(&mut self) -> Option<Halt> {
        for _i in 0..MOST_STEPS {
            let is_open = match self.trail.next() {
                Some(entry) => self.follow(&entry),
                None if self.usage.has_moved() => self.usage.follow(&self.problem, &mut self.trail),
                None if self.energies.are_due() => {
                    self.energies.follow(&self.problem, &mut self.trail)
                }
                None => return None,
            };
            if !is_open {
                return Some(Halt::Conflict);
            }
        }
        Some(Halt::Pause)
    }

    /// Follows a bound, and says whether there is no conflict.
    fn follow(&mut self, entry: &Entry) -> bool {
        self.usage
            .note_moved(&self.problem, &self.trail, entry.bound);
        self.energies.note_moved(&self.problem, entry.bound);
        follow(&self.problem, &mut self.trail, entry) && self.clauses.follow(&mut self.trail, entry)
    }

    /// How many decisions were made.
    pub(crate) fn decisions(&self) -> u64 {
        self.decisions
    }

    /// The start of a job that was found.
    pub(crate) fn start(&self, job: usize) -> u32 {
        u32::try_from(self.trail.lower(job)).unwrap_or(0)
    }
}
