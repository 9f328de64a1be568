//! The bounds as they are now, and the trail of how they came to be.

use crate::bound::{Bound, Why};
use crate::rows::{number_at, set_number, set_value, stored, value_at};
use std::alloc::{AllocError, Global};

/// No entry.
pub(crate) const NONE: u32 = u32::MAX;

/// A bound that was put.
#[derive(Clone, Copy)]
pub(crate) struct Entry {
    pub(crate) bound: Bound,
    /// The value of that side before.
    pub(crate) old: i64,
    /// The entry of that side before.
    pub(crate) before: u32,
    pub(crate) level: u32,
    pub(crate) why: Why,
}

impl Entry {
    /// A bound that could not be put.
    fn failed(bound: Bound, why: Why) -> Entry {
        Entry {
            bound,
            old: 0,
            before: NONE,
            level: 0,
            why,
        }
    }
}

/// The bounds and the trail. A level begins with a decision, and level 0 holds what follows without any.
#[derive(Drop)]
pub(crate) struct Trail {
    bounds: Vec<i64>,
    latest: Vec<u32>,
    entries: Vec<Entry>,
    marks: Vec<u32>,
    head: usize,
    conflict: Entry,
    full: bool,
}

impl Trail {
    /// The trail that begins with the bounds of each side.
    pub(crate) fn new(alloc: Global, bounds: Vec<i64>) -> Result<Trail, AllocError> {
        let latest = Vec::from_elem(alloc, NONE, bounds.len())?;
        Ok(Trail {
            bounds,
            latest,
            entries: Vec::new(alloc),
            marks: Vec::new(alloc),
            head: 0,
            conflict: Entry::failed(Bound { side: 0, value: 0 }, Why::Decision),
            full: false,
        })
    }

    /// The values of all sides.
    pub(crate) fn bounds(&self) -> &[i64] {
        &self.bounds
    }

    /// The latest entry of each side.
    pub(crate) fn latest(&self) -> &[u32] {
        &self.latest
    }

    /// All entries.
    pub(crate) fn entries(&self) -> &[Entry] {
        &self.entries
    }

    /// What could not be put when the last `put` failed.
    pub(crate) fn conflict(&self) -> Entry {
        self.conflict
    }

    /// Whether memory was refused.
    pub(crate) fn is_full(&self) -> bool {
        self.full
    }

    /// The value of a side.
    #[inline]
    pub(crate) fn at(&self, side: u32) -> i64 {
        value_at(&self.bounds, side as usize)
    }

    /// The lower bound of a variable.
    #[inline]
    pub(crate) fn lower(&self, x: usize) -> i64 {
        value_at(&self.bounds, x.wrapping_mul(2))
    }

    /// The upper bound of a variable.
    #[inline]
    pub(crate) fn upper(&self, x: usize) -> i64 {
        value_at(&self.bounds, x.wrapping_mul(2) | 1).wrapping_neg()
    }

    /// Whether a bound is true.
    #[inline]
    pub(crate) fn holds(&self, bound: Bound) -> bool {
        bound.value <= self.at(bound.side)
    }

    /// Whether it is false.
    #[inline]
    pub(crate) fn fails(&self, bound: Bound) -> bool {
        self.holds(bound.negated())
    }

    /// How many levels are open.
    #[inline]
    pub(crate) fn level(&self) -> usize {
        self.marks.len()
    }

    /// How many entries stand at level 0.
    pub(crate) fn grounded(&self) -> usize {
        if self.marks.is_empty() {
            self.entries.len()
        } else {
            number_at(&self.marks, 0) as usize
        }
    }

    /// Opens a level.
    pub(crate) fn open_level(&mut self) {
        let mark = stored(self.entries.len());
        if self.marks.push(mark).is_err() {
            self.full = true;
        }
    }

    /// Puts a bound, unless it is true; says whether it may be.
    #[inline]
    pub(crate) fn put(&mut self, bound: Bound, why: Why) -> bool {
        if self.holds(bound) {
            return true;
        }
        if self.fails(bound) {
            self.conflict = Entry::failed(bound, why);
            return false;
        }
        self.push(bound, why);
        true
    }

    fn push(&mut self, bound: Bound, why: Why) {
        let side = bound.side as usize;
        let entry = Entry {
            bound,
            old: value_at(&self.bounds, side),
            before: number_at(&self.latest, side),
            level: stored(self.marks.len()),
            why,
        };
        let at = stored(self.entries.len());
        if self.entries.push(entry).is_err() {
            self.full = true;
            return;
        }
        set_number(&mut self.latest, side, at);
        set_value(&mut self.bounds, side, bound.value);
    }

    /// The next entry that was not followed yet.
    #[inline]
    pub(crate) fn next(&mut self) -> Option<Entry> {
        let entry = self.entries.get(self.head).copied();
        if entry.is_some() {
            self.head = self.head.wrapping_add(1);
        }
        entry
    }

    /// Takes back all above a level.
    pub(crate) fn back(&mut self, level: usize) {
        let Some(mark) = self.marks.get(level).copied() else {
            return;
        };
        let mark = mark as usize;
        for _i in mark..self.entries.len() {
            if let Some(entry) = self.entries.pop() {
                let side = entry.bound.side as usize;
                set_value(&mut self.bounds, side, entry.old);
                set_number(&mut self.latest, side, entry.before);
            }
        }
        self.marks.truncate(level);
        self.head = mark;
    }
}
