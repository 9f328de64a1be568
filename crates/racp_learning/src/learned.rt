//! A clause that is learned.

use crate::bound::Bound;
use crate::rows::{number_at, set_number};
use std::alloc::{AllocError, Global};

/// The literals of a clause, one for each side, with those that come to lie at the highest levels first.
#[derive(Drop)]
pub(crate) struct Learned {
    literals: Vec<Bound>,
    /// For each side and each level the turn in which it was met last.
    sides: Vec<u32>,
    levels: Vec<u32>,
    turn: u32,
    /// The highest level of the literals behind the first one, and over how many levels all lie.
    level: u32,
    count: u32,
}

impl Learned {
    /// For so many sides.
    pub(crate) fn new(alloc: Global, sides: usize) -> Result<Learned, AllocError> {
        Ok(Learned {
            literals: Vec::new(alloc),
            sides: Vec::from_elem(alloc, 0, sides)?,
            levels: Vec::new(alloc),
            turn: 0,
            level: 0,
            count: 1,
        })
    }

    /// Begins a clause on a trail with so many levels.
    pub(crate) fn begin(&mut self, levels: usize) -> Result<(), AllocError> {
        let count = self.levels.len().max(levels.saturating_add(1));
        self.levels.resize(count, 0)?;
        self.literals.clear();
        self.turn = self.turn.wrapping_add(1);
        self.level = 0;
        self.count = 1;
        Ok(())
    }

    /// The literals.
    pub(crate) fn literals(&self) -> &[Bound] {
        &self.literals
    }

    /// The first literal.
    pub(crate) fn first(&self) -> Option<Bound> {
        self.literals.first().copied()
    }

    /// The highest level of the literals behind the first one.
    pub(crate) fn level(&self) -> usize {
        self.level as usize
    }

    /// Over how many levels the literals lie.
    pub(crate) fn level_count(&self) -> u32 {
        self.count
    }

    /// Adds a literal of the level of the conflict.
    pub(crate) fn add(&mut self, literal: Bound) -> Result<(), AllocError> {
        self.literals.push(literal)?;
        Ok(())
    }

    /// Adds the negation of a bound of a lower level, unless a later one of its side is there.
    pub(crate) fn add_below(&mut self, bound: Bound, level: u32) -> Result<(), AllocError> {
        let side = bound.side as usize;
        if number_at(&self.sides, side) == self.turn {
            return Ok(());
        }
        set_number(&mut self.sides, side, self.turn);
        self.literals.push(bound.negated())?;
        if number_at(&self.levels, level as usize) != self.turn {
            set_number(&mut self.levels, level as usize, self.turn);
            self.count = self.count.wrapping_add(1);
        }
        if self.level < level {
            self.level = level;
            let last = self.literals.len();
            if 1 < last {
                self.literals.swap(1, last - 1);
            }
        }
        Ok(())
    }
}
