//! An index of records by their started jobs.

ghost use Rattle.std.specs.Prelude.{◌<◌, ◌≤◌, IfSome};

use crate::board::Board;
use crate::nogood::Nogood;
use crate::outline::Outline;
use racp_model::OfNetwork;
use std::alloc::Global;
use std::collections::HashMap;

/// How many records with the same started jobs are looked at; if there are more, the oldest give way.
const MOST_PLACES: usize = 32;

/// Where a record stands: on the board, or among those that the thread keeps, by place from 0.
#[derive(Clone, Copy, PartialEq)]
pub(crate) enum Place {
    Board(usize),
    Kept(usize),
}

/// A place, and the outline of the record that was put there.
#[derive(Clone, Copy)]
pub(crate) struct Entry {
    pub(crate) place: Place,
    pub(crate) outline: Outline,
}

/// The places of records by the hash of their started jobs. Places may be out of date, so what stands there is tested.
#[derive(Drop)]
pub(crate) struct Index {
    alloc: Global,
    entries: HashMap<u64, Vec<Entry>>,
    /// Where kept records stand that have given way: further ones are kept there.
    free: Vec<usize>,
}

impl Index {
    /// No places. Takes no memory.
    pub(crate) fn new(alloc: Global) -> Self {
        Index {
            alloc,
            entries: HashMap::new(alloc),
            free: Vec::new(alloc),
        }
    }

    /// The entries with a hash, the oldest first.
    pub(crate) fn entries(&self, key: u64) -> Option<&Vec<Entry>> {
        self.entries.get(&key)
    }

    /// Enters a record that stands at a place. Of too many entries with its hash the oldest gives way.
    pub(crate) fn enter(&mut self, key: u64, entry: Entry) {
        if let Some(entries) = self.entries.get_mut(&key) {
            if MOST_PLACES <= entries.len() {
                let oldest = entries.remove(0);
                give_way(&mut self.free, oldest.place);
            }
            let _ = entries.push(entry);
            return;
        }
        let mut entries = Vec::new(self.alloc);
        if entries.push(entry).is_ok() {
            let _ = self.entries.insert(key, entries);
        }
    }

    /// The places of kept records that a record covers give way.
    pub(crate) fn forget_kept<N: OfNetwork>(&mut self, kept: &Vec<Nogood<N>>, nogood: &Nogood<N>) {
        let outline = nogood.outline();
        if let Some(entries) = self.entries.get_mut(&nogood.key()) {
            let before = self.free.len();
            for entry in entries.iter() {
                if is_kept_covered(kept, nogood, &outline, entry) {
                    give_way(&mut self.free, entry.place);
                }
            }
            if before < self.free.len() {
                entries.retain(|entry| !is_kept_covered(kept, nogood, &outline, entry));
            }
        }
    }

    /// Forgets the places of the board's records that a record covers.
    pub(crate) fn forget_written<N: OfNetwork>(&mut self, board: &Board<N>, nogood: &Nogood<N>) {
        let outline = nogood.outline();
        if let Some(entries) = self.entries.get_mut(&nogood.key()) {
            entries.retain(|entry| !is_written_covered(board, nogood, &outline, entry));
        }
    }

    /// The place of a kept record that has given way: not among the first ones, and below the count.
    pub(crate) fn take_free(&mut self, first: usize, count: usize) -> Option<usize>
        ensures { IfSome result (λ place. (first ≤ place) × (place < count)) }
    {
        while let Some(place) = self.free.pop() {
            if first <= place && place < count {
                return Some(place);
            }
        }
        None
    }

    /// Forgets which kept records have given way.
    pub(crate) fn forget_free(&mut self) {
        self.free.clear();
    }

    /// Forgets a place, and the hash if it was the last with it.
    pub(crate) fn forget(&mut self, key: u64, place: Place) {
        if let Some(entries) = self.entries.get_mut(&key) {
            entries.retain(|entry| entry.place != place);
            if entries.is_empty() {
                let _ = self.entries.remove(&key);
            }
        }
    }
}

/// Notes the place of a kept record that gives way. Those of the board stay.
fn give_way(free: &mut Vec<usize>, place: Place) {
    if let Place::Kept(i) = place {
        let _ = free.push(i);
    }
}

/// Whether a kept record stands at an entry's place that the record, of this outline, covers.
fn is_kept_covered<N: OfNetwork>(
    kept: &Vec<Nogood<N>>,
    nogood: &Nogood<N>,
    outline: &Outline,
    entry: &Entry,
) -> bool {
    let Place::Kept(i) = entry.place else {
        return false;
    };
    if !outline.may_cover(&entry.outline) {
        return false;
    }
    match kept.get(i) {
        Some(other) => nogood.covers_record(other),
        None => false,
    }
}

/// Whether a record of the board stands at an entry's place that the record, of this outline, covers.
fn is_written_covered<N: OfNetwork>(
    board: &Board<N>,
    nogood: &Nogood<N>,
    outline: &Outline,
    entry: &Entry,
) -> bool {
    let Place::Board(i) = entry.place else {
        return false;
    };
    if !outline.may_cover(&entry.outline) {
        return false;
    }
    match board.record(i) {
        Some(other) => nogood.covers_record(other),
        None => false,
    }
}
