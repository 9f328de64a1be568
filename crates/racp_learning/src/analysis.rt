//! What is learned from a conflict: the clause of its first unique implication point, and why it holds (Marques-Silva and
//! Sakallah 1999; Zhang, Madigan, Moskewicz and Malik 2001).

use crate::activity::Activity;
use crate::bound::{Bound, Why};
use crate::clauses::Clauses;
use crate::learned::Learned;
use crate::needs::Needs;
use crate::problem::Problem;
use crate::reasons::{Named, Past, Pile};
use crate::rows::{short, stored};
use crate::trail::{Entry, Trail};
use std::alloc::{AllocError, Global};

/// A step of a derivation.
#[derive(Clone, Copy)]
pub(crate) struct Hint {
    pub(crate) bound: Bound,
    pub(crate) why: Why,
    pub(crate) resource: u32,
    /// The times from one to before another.
    pub(crate) from: u32,
    pub(crate) until: u32,
}

/// What is learned, and the steps that it took.
#[derive(Drop)]
pub(crate) struct Analysis {
    needs: Needs,
    learned: Learned,
    pile: Pile,
    hints: Vec<Hint>,
    /// The clauses that took part.
    used: Vec<u32>,
    asserts: bool,
}

/// What an analysis reads.
#[derive(Clone, Copy)]
pub(crate) struct Scene<'a> {
    pub(crate) problem: &'a Problem,
    pub(crate) trail: &'a Trail,
    pub(crate) clauses: &'a Clauses,
}

impl Analysis {
    /// For so many sides.
    pub(crate) fn new(alloc: Global, sides: usize) -> Result<Analysis, AllocError> {
        Ok(Analysis {
            needs: Needs::new(alloc, sides)?,
            learned: Learned::new(alloc, sides)?,
            pile: Pile::new(Vec::new(alloc)),
            hints: Vec::new(alloc),
            used: Vec::new(alloc),
            asserts: false,
        })
    }

    /// The clause.
    pub(crate) fn learned(&self) -> &Learned {
        &self.learned
    }

    /// The steps, the last one first.
    pub(crate) fn hints(&self) -> &[Hint] {
        &self.hints
    }

    /// Adds the clause to the others, and gives its number.
    pub(crate) fn add_to(&self, clauses: &mut Clauses) -> Result<u32, AllocError> {
        clauses.add(self.learned.literals(), self.learned.level_count())
    }

    /// The clauses that took part count more.
    pub(crate) fn bump(&self, clauses: &mut Clauses) {
        for &clause in &self.used {
            clauses.bump(clause);
        }
    }

    /// Whether the first literal follows from the others: not where the conflict lies below the level at which it was found.
    pub(crate) fn asserts(&self) -> bool {
        self.asserts
    }

    /// Whether memory was refused.
    pub(crate) fn is_short(&self) -> bool {
        self.pile.is_short()
    }

    /// Analyses the conflict of a trail. Where only assumptions stand, it goes on to these.
    pub(crate) fn run(
        &mut self,
        scene: Scene<'_>,
        activity: &mut Activity,
    ) -> Result<(), AllocError> {
        self.needs.begin(scene.trail)?;
        self.learned.begin(scene.trail.level())?;
        self.pile.clear();
        self.hints.clear();
        self.used.clear();
        self.asserts = false;
        self.take_conflict(scene)?;
        let entries = scene.trail.entries();
        for back in 0..entries.len() {
            self.collect(scene, activity)?;
            if self.needs.open() == 0 {
                break;
            }
            let at = entries.len().wrapping_sub(1).wrapping_sub(back);
            if self.step(scene, at)? {
                break;
            }
        }
        self.collect(scene, activity)?;
        self.end(scene)
    }

    /// Goes back over an entry, and says whether it is the point that all goes through.
    fn step(&mut self, scene: Scene<'_>, at: usize) -> Result<bool, AllocError> {
        let Some(entry) = scene.trail.entries().get(at).copied() else {
            return Ok(true);
        };
        self.needs.unwind(&entry);
        if !self.needs.is_needed(at) || entry.level as usize != scene.trail.level() {
            return Ok(false);
        }
        self.needs.close();
        let need = self.needs.of(at);
        let is_last = scene.trail.level() <= 1;
        if is_decision(entry.why) || !is_last && self.needs.open() == 0 {
            let bound = Bound {
                side: entry.bound.side,
                value: need,
            };
            self.learned.add(bound.negated())?;
            self.asserts = true;
            return Ok(!is_last);
        }
        if let Why::Clause(clause) = entry.why {
            self.used.push(clause)?;
        }
        self.explain(scene, &entry, need)?;
        Ok(false)
    }

    /// Begins with what the conflict needs.
    fn take_conflict(&mut self, scene: Scene<'_>) -> Result<(), AllocError> {
        let conflict = scene.trail.conflict();
        let other = conflict.bound.negated();
        match conflict.why {
            Why::Decision => {
                self.learned.add(other)?;
                self.pile.push(other);
            }
            Why::Peak(_) | Why::Energy(..) => {
                let x = conflict.bound.variable();
                let need = self.needs.upper(x).wrapping_add(1);
                let named = self.explain(scene, &conflict, need)?;
                let most = need.wrapping_sub(1).wrapping_add(named.left);
                self.pile.push(Bound::at_most(x, most));
            }
            _ => {
                self.explain(scene, &conflict, conflict.bound.value)?;
                self.pile.push(other);
            }
        }
        Ok(())
    }

    /// Replaces a bound by those from which it follows as far as it is needed.
    fn explain(&mut self, scene: Scene<'_>, entry: &Entry, need: i64) -> Result<Named, AllocError> {
        let past = Past {
            problem: scene.problem,
            clauses: scene.clauses,
            bounds: self.needs.bounds(),
        };
        let named = past.explain(entry, need, &mut self.pile);
        self.hints.push(Hint {
            bound: entry.bound,
            why: entry.why,
            resource: stored(named.resource),
            from: short(named.from),
            until: short(named.until),
        })?;
        Ok(named)
    }

    /// Notes what the bounds that were collected need of the trail.
    fn collect(&mut self, scene: Scene<'_>, activity: &mut Activity) -> Result<(), AllocError> {
        for _i in 0..usize::MAX {
            let Some(bound) = self.pile.pop() else {
                break;
            };
            activity.bump(bound);
            self.needs.note(scene.trail, bound)?;
        }
        Ok(())
    }

    /// Adds the literals of lower levels, the latest first.
    fn end(&mut self, scene: Scene<'_>) -> Result<(), AllocError> {
        let count = self.needs.sort_below();
        for back in 0..count {
            let at = self
                .needs
                .below_at(count.wrapping_sub(1).wrapping_sub(back));
            if let Some(entry) = scene.trail.entries().get(at).copied() {
                let bound = Bound {
                    side: entry.bound.side,
                    value: self.needs.of(at),
                };
                self.learned.add_below(bound, entry.level)?;
            }
        }
        Ok(())
    }
}

fn is_decision(why: Why) -> bool {
    matches!(why, Why::Decision)
}
