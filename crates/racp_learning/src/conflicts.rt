//! What the search makes of a conflict.

use crate::analysis::Scene;
use crate::bound::{Bound, Why};
use crate::engine::Engine;
use crate::rows::stored;
use std::alloc::AllocError;

impl Engine {
    /// Analyses the conflict, which then can be learned.
    pub(crate) fn analyse(&mut self) -> Result<(), AllocError> {
        self.restarts.count();
        let scene = Scene {
            problem: &self.problem,
            trail: &self.trail,
            clauses: &self.clauses,
        };
        self.analysis.run(scene, &mut self.activity)?;
        self.activity.decay();
        self.clauses.decay();
        self.analysis.bump(&mut self.clauses);
        Ok(())
    }

    /// Learns the clause of the last analysis, goes back to where its first literal follows, and gives its number.
    pub(crate) fn learn(&mut self) -> Result<u32, AllocError> {
        let clause = self.analysis.add_to(&mut self.clauses)?;
        let learned = self.analysis.learned();
        let first = learned.first();
        let level = learned.level();
        let is_unit = learned.literals().len() == 1;
        let is_last = self.trail.level() <= 1;
        self.back(level);
        if let Some(literal) = first {
            if is_unit || !is_last {
                self.trail.put(literal, Why::Clause(clause));
            }
        }
        Ok(clause)
    }

    /// Takes a clause of another search over, of which no literal is false without a decision, and gives its number. Nothing
    /// is tried at that moment.
    pub(crate) fn adopt(&mut self, literals: &[Bound]) -> Result<u32, AllocError> {
        let clause = self.clauses.add(literals, stored(literals.len()))?;
        if literals.len() == 1 {
            self.trail.put(literals[0], Why::Clause(clause));
        }
        Ok(clause)
    }

    /// Goes back to the level of the latest bound that the last conflict needs, where it is found again; says whether that is
    /// below this one. Windows are not all looked at each time, so a conflict of their work may be found late.
    pub(crate) fn back_to_conflict(&mut self) -> bool {
        let is_energy = matches!(self.trail.conflict().why, Why::Energy(..));
        let level = self.analysis.learned().level();
        let is_late = is_energy && 0 < level && level < self.trail.level();
        if is_late {
            self.back(level);
        }
        is_late
    }
}
