//! Who keeps what clauses are derived from, if that is asked for.

use crate::analysis::Hint;
use crate::bound::Why;
use crate::derivations::{Derivations, Step};
use crate::rows::stored;
use racp_clauses::Literal;
use racp_model::Network;

/// Keeps the derivations of a search, or nothing.
#[derive(Drop)]
pub(crate) struct Recorder {
    kept: Option<Derivations>,
}

impl Recorder {
    /// One that keeps nothing.
    pub(crate) fn off() -> Recorder {
        Recorder { kept: None }
    }

    /// One that has kept these so far.
    pub(crate) fn on(kept: Derivations) -> Recorder {
        Recorder { kept: Some(kept) }
    }

    /// What was kept, if anything was to be.
    pub(crate) fn into_kept(self) -> Option<Derivations> {
        self.kept
    }

    /// Whether there is no room left.
    pub(crate) fn is_full(&self) -> bool {
        match &self.kept {
            Some(kept) => kept.is_full(),
            None => false,
        }
    }

    /// A derivation begins.
    pub(crate) fn begin(&mut self) {
        if let Some(kept) = &mut self.kept {
            kept.begin();
        }
    }

    /// A literal is added to its clause.
    pub(crate) fn suppose(&mut self, literal: Literal) {
        if let Some(kept) = &mut self.kept {
            kept.suppose(literal);
        }
    }

    /// It takes a step.
    pub(crate) fn take(&mut self, net: &Network, hint: Hint) {
        if let Some(kept) = &mut self.kept {
            if let Some(step) = step_of(kept, net, hint) {
                kept.take(step);
            }
        }
    }

    /// Its clause holds, and has this number from now on.
    pub(crate) fn conclude(&mut self, number: u32) {
        if let Some(kept) = &mut self.kept {
            kept.end(false);
            kept.name(number as usize);
        }
    }

    /// Its clause has no literals, and is a step of the ground.
    pub(crate) fn conclude_empty(&mut self) {
        if let Some(kept) = &mut self.kept {
            kept.end(false);
            let last = kept.last();
            kept.begin();
            kept.take(Step::Clause(last));
            kept.end(true);
        }
    }

    /// The steps that were taken are steps of the ground.
    pub(crate) fn keep(&mut self) {
        if let Some(kept) = &mut self.kept {
            if kept.has_steps() {
                kept.end(true);
            }
        }
    }

    /// The clause of the last derivation is told as an answer.
    pub(crate) fn tell(&mut self) {
        if let Some(kept) = &mut self.kept {
            kept.tell();
        }
    }
}

/// The step that a derivation takes by a hint.
fn step_of(kept: &Derivations, net: &Network, hint: Hint) -> Option<Step> {
    let x = hint.bound.variable();
    match hint.why {
        Why::Decision => None,
        Why::Arc(arc) => Some(Step::Pair(arc)),
        Why::Usage(_) => Some(Step::TimeTable(stored(x), hint.resource, hint.from, hint.until)),
        Why::Peak(_) | Why::Energy(..) => {
            Some(Step::Energy(hint.resource, hint.from, hint.until))
        }
        Why::Cost if x == net.job_count() + net.resource_count() => Some(Step::Prices),
        Why::Cost => Some(Step::Budget(hint.resource)),
        Why::Clause(number) => Some(Step::Clause(kept.of_number(number))),
    }
}
