//! The places of the questions that are not decided.

ghost use Rattle.std.specs.Prelude.{◌≡◌, ◌<◌, ℕ, [], length, IfOk, IfErr, IfSome, IfNone, Contains};
ghost use Rattle.std.specs.List.Sorted.{IsStrictlySortedBy};
ghost use Rattle.std.specs.Ordering.{nat_cmp};
ghost use Rattle.racp_core.specs.Machine.{row_at};
ghost use Rattle.racp_core.specs.Rows.{IsAdded, IsRemoved, IsCutAt, IsFirstPlace, IsFirstReady};

use crate::row::Row;
use std::alloc::{AllocError, Global};
use std::collections::BTreeSet;
use std::marker::Model;

/// An ordered set of places. Contracts see the list of them.
#[derive(Drop)]
pub(crate) struct Undecided {
    places: BTreeSet<usize>,
}

impl Model for Undecided {
    ghost use Rattle.std.specs.Prelude.{ℕ, List};

    ghost Value = { List ℕ };

    ghost view = { λ u. u.places.keys };
}

impl Undecided {
    /// No places.
    pub(crate) fn new(alloc: Global) -> Self
        ensures { result ≡ [] }
    {
        Undecided {
            places: BTreeSet::new(alloc),
        }
    }

    /// How many there are.
    pub(crate) fn len(&self) -> usize
        ensures count { result ≡ length self.now }
        ensures rising { IsStrictlySortedBy nat_cmp self.now }
    {
        self.places.len()
    }

    /// The first of them.
    pub(crate) fn first(&self) -> Option<usize>
        ensures some { IfSome result (IsFirstPlace self.now) }
        ensures none { IfNone result (self.now ≡ []) }
    {
        self.places.first().copied()
    }

    /// Adds a place.
    pub(crate) fn insert(&mut self, place: usize) -> Result<(), AllocError>
        ensures ok { IfOk result (λ _. IsAdded self.old place self.new) }
        ensures err { IfErr result (λ _. self.new ≡ self.old) }
    {
        self.places.insert(place)?;
        Ok(())
    }

    /// Takes a place away, if it is there.
    pub(crate) fn remove(&mut self, place: usize)
        ensures { IsRemoved self.old place self.new }
    {
        self.places.remove(&place);
    }

    /// Takes all places from this one on away.
    pub(crate) fn cut_at(&mut self, end: usize)
        ensures { IsCutAt self.old end self.new }
    {
        while let Some(&last) = self.places.last() {
            if last < end {
                return;
            }
            self.places.pop_last();
        }
    }

    /// The first place at which the question has an open window.
    pub(crate) fn first_ready(&self, rows: &[Row]) -> Option<usize>
        ensures some { IfSome result (IsFirstReady rows.now self.now) }
        ensures none { IfNone result ((i : ℕ) → Contains self.now i → i < length rows.now →
            (row_at rows.now i).ready ≡ []) }
    {
        for &place in &self.places {
            if place < rows.len() && rows[place].has_open() {
                return Some(place);
            }
        }
        None
    }
}
