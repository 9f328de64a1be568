//! Lists of the clauses that wait for a bound.

use crate::bound::Bound;
use crate::rows::value_at;
use crate::scale::Scale;
use std::alloc::{AllocError, Global};
use std::mem;

/// So many lists there may be for all sides.
const MOST_LISTS: usize = 131_072;

/// A watched literal of a clause: the clause, where this literal lies and where the last one ends, and a literal that may
/// be true, by its side and value.
#[derive(Clone, Copy)]
pub(crate) struct Watch {
    pub(crate) clause: u32,
    pub(crate) own: u32,
    pub(crate) end: u32,
    side: u32,
    value: i64,
}

impl Watch {
    /// The watch of a literal at a place.
    pub(crate) fn new(clause: u32, own: u32, end: u32, other: Bound) -> Watch {
        Watch {
            clause,
            own,
            end,
            side: other.side,
            value: other.value,
        }
    }

    /// Where the other watched literal lies: the first two of a clause are, and the first one lies at an even place.
    #[inline]
    pub(crate) fn partner(&self) -> usize {
        (self.own ^ 1) as usize
    }

    /// The place behind both.
    #[inline]
    pub(crate) fn behind(&self) -> usize {
        (self.own as usize | 1).wrapping_add(1)
    }

    /// The literal that may be true.
    #[inline]
    pub(crate) fn other(&self) -> Bound {
        Bound {
            side: self.side,
            value: self.value,
        }
    }

    /// Takes another literal that may be true.
    #[inline]
    pub(crate) fn set_other(&mut self, other: Bound) {
        self.side = other.side;
        self.value = other.value;
    }
}

/// For each side lists of the watches that wait for it to reach a value, by groups of values.
#[derive(Drop)]
pub(crate) struct Watches {
    lists: Vec<Vec<Watch>>,
    /// Which of them have any watch.
    used: Vec<bool>,
    scales: Vec<Scale>,
    short: bool,
    alloc: Global,
}

impl Watches {
    /// Empty lists, over sides with these values at the root.
    pub(crate) fn new(alloc: Global, root: &[i64]) -> Result<Watches, AllocError> {
        let most = MOST_LISTS.checked_div(root.len()).unwrap_or(0);
        let mut scales = Vec::with_capacity(alloc, root.len())?;
        let mut count = 0usize;
        for side in 0..root.len() {
            let from = value_at(root, side);
            let until = 1i64.wrapping_sub(value_at(root, side ^ 1));
            let scale = Scale::new(from, until, most, count);
            scales.push(scale)?;
            count = scale.end();
        }
        let mut lists = Vec::with_capacity(alloc, count)?;
        for _i in 0..count {
            lists.push(Vec::new(alloc))?;
        }
        Ok(Watches {
            lists,
            used: Vec::from_elem(alloc, false, count)?,
            scales,
            short: false,
            alloc,
        })
    }

    /// Whether memory was refused.
    pub(crate) fn are_short(&self) -> bool {
        self.short
    }

    /// The list of those that wait for a bound.
    #[inline]
    pub(crate) fn list(&self, bound: Bound) -> usize {
        match self.scales.get(bound.side as usize) {
            Some(scale) => scale.at(bound.value),
            None => 0,
        }
    }

    /// Adds a watch that waits for a bound.
    #[inline]
    pub(crate) fn wait(&mut self, watch: Watch, bound: Bound) {
        let list = self.list(bound);
        self.add(watch, list);
    }

    /// Adds a watch to a list.
    #[inline]
    pub(crate) fn add(&mut self, watch: Watch, list: usize) {
        if let Some(row) = self.lists.get_mut(list) {
            if row.push(watch).is_err() {
                self.short = true;
            }
        }
        self.set_used(list, true);
    }

    /// Notes whether a list has any watch.
    #[inline]
    fn set_used(&mut self, list: usize, is_used: bool) {
        if list < self.used.len() {
            self.used[list] = is_used;
        }
    }

    /// Whether a list has any watch.
    #[inline]
    pub(crate) fn has_any(&self, list: usize) -> bool {
        if list < self.used.len() {
            self.used[list]
        } else {
            false
        }
    }

    /// Takes a list out.
    #[inline]
    pub(crate) fn take(&mut self, list: usize) -> Vec<Watch> {
        let empty = Vec::new(self.alloc);
        match self.lists.get_mut(list) {
            Some(row) => mem::replace(row, empty),
            None => empty,
        }
    }

    /// Puts a list back.
    #[inline]
    pub(crate) fn put_back(&mut self, list: usize, row: Vec<Watch>) {
        self.set_used(list, !row.is_empty());
        if let Some(place) = self.lists.get_mut(list) {
            *place = row;
        }
    }

    /// Empties all lists.
    pub(crate) fn clear(&mut self) {
        for row in self.lists.iter_mut() {
            row.clear();
        }
        self.used.fill(false);
    }
}
