//! The records of one thread, and its index of these and of those of the board.

ghost use Rattle.std.specs.Prelude.{◌≡◌, ◌↔◌, ◌<◌, ◌≤◌, IsTrue, IfSome, [], length, slice_set};
ghost use Rattle.racp_model.specs.Window.{IsNo};
ghost use Rattle.racp_cutset.specs.Covering.{Covers};
ghost use Rattle.racp_cutset.specs.Kept.{IsAppendedOrDropped, IsKeptOrDropped, IsLastTaken, front, most_records};

use crate::board::Board;
use crate::index::{Entry, Index, Place};
use crate::node::Node;
use crate::nogood::Nogood;
use crate::outline::Outline;
use crate::reading::{Reading, entry_of, read_from};
use crate::shares::{DEFAULT_MEMORY, most_records};
use racp_model::{Network, OfNetwork};
use std::alloc::Global;
use std::marker::Model;

/// One thread's own part of the records: the records that it made and has not given away, and an index of these and of
/// what it has read of the board. It keeps no more records than it was made for. Contracts see the records that it
/// keeps, and how many it keeps at most.
#[derive(Drop)]
pub struct Local<N: OfNetwork> {
    kept: Vec<Nogood<N>>,
    index: Index,
    reading: Reading,
    /// How many records are kept at most.
    limit: usize,
    /// The place after that of the record that gave way last for want of room.
    turn: usize,
}

impl<N: OfNetwork> Model for Local<N> {
    ghost use Rattle.std.specs.Prelude.{◌≤◌, length};
    ghost use Rattle.racp_cutset.specs.Kept.{Kept};

    ghost Value = { Kept };

    ghost view = { λ local. record { records = local.kept.items; most = local.limit } };

    ghost invariant = { λ local. length local.kept.items ≤ local.limit };
}

impl<N: OfNetwork> Local<N> {
    ghost use Rattle.std.specs.Borrow.{sem};
    ghost use Rattle.racp_cutset.specs.Lending.{EndsAsLent};
    ghost use Rattle.racp_cutset.specs.contracts.local.Local.{the_row};

    /// Keeps no record and has read nothing, and keeps at most as many records as take about 1 GiB. Takes no memory
    /// until a record is kept or read.
    pub fn new(alloc: Global, net: &Network) -> Self
        ensures { result ≡ record { records = []; most = most_records net.now 1024 } }
    {
        Local::of_most(alloc, most_records(net, DEFAULT_MEMORY))
    }

    /// Keeps no record and has read nothing, and keeps at most `most` records. Takes no memory until a record is kept
    /// or read.
    pub fn of_most(alloc: Global, most: usize) -> Self
        ensures { result ≡ record { records = []; most = most } }
    {
        Local {
            kept: Vec::new(alloc),
            index: Index::new(alloc),
            reading: Reading::nothing(),
            limit: most,
            turn: 0,
        }
    }

    /// How many records are kept at most.
    pub fn most(&self) -> usize
        ensures { result ≡ self.now.most }
    {
        self.limit
    }

    /// Whether as many records are kept as can be: a further one is dropped.
    pub fn is_full(&self) -> bool
        ensures { IsTrue result ↔ (length self.now.records ≡ self.now.most) }
    {
        self.limit <= self.kept.len()
    }

    /// How many records are kept.
    pub fn kept_count(&self) -> usize
        ensures count { result ≡ length self.now.records }
        ensures most { result ≤ self.now.most }
    {
        self.kept.len()
    }

    /// Keeps a record: in place of one that gave way, as one that is covered does, or after the others. The first
    /// `first` ones stay. It is dropped if there is no room.
    pub fn keep(&mut self, nogood: Nogood<N>, first: usize)
        ensures { IsKeptOrDropped first self.old nogood self.new }
    {
        self.index.forget_kept(&self.kept, &nogood);
        match self.gives_way(first) {
            Some(place) => self.put(nogood, place),
            None => self.append(nogood),
        }
    }

    /// The place of a record that is not among the first ones and gives way: one that has given way, or else the oldest
    /// if there is no more room.
    fn gives_way(&mut self, first: usize) -> Option<usize>
        ensures kept { self.new ≡ self.old }
        ensures place { IfSome result (λ place. (first ≤ place) × (place < length self.old.records)) }
    {
        match self.index.take_free(first, self.kept.len()) {
            Some(place) => Some(place),
            None => self.oldest(first),
        }
    }

    /// Keeps a record in place of another.
    fn put(&mut self, nogood: Nogood<N>, place: usize)
        requires { place < length self.old.records }
        ensures { self.new ≡ record { records = slice_set self.old.records place nogood; most = self.old.most } }
    {
        let key = nogood.key();
        let entry = entry_of(&nogood, Place::Kept(place));
        self.kept[place] = nogood;
        self.index.enter(key, entry);
    }

    /// Keeps a record after the others, or drops it if there is no room.
    fn append(&mut self, nogood: Nogood<N>)
        ensures { IsAppendedOrDropped self.old nogood self.new }
    {
        if self.is_full() {
            return;
        }
        let key = nogood.key();
        let entry = entry_of(&nogood, Place::Kept(self.kept.len()));
        if self.kept.push(nogood).is_ok() {
            self.index.enter(key, entry);
        }
    }

    /// The place of a record that gives way if one more would take the last of the room: the oldest one that is not
    /// among the first ones, by turns.
    fn oldest(&mut self, first: usize) -> Option<usize>
        ensures kept { self.new ≡ self.old }
        ensures place { IfSome result (λ place. (first ≤ place) × (place < length self.old.records)) }
    {
        let count = self.kept.len();
        if count < self.limit && self.limit - count > 1 {
            return None;
        }
        let next = first.max(self.turn);
        let place = if next < count { next } else { first };
        if count <= place {
            return None;
        }
        self.turn = place + 1;
        self.index
            .forget(self.kept[place].key(), Place::Kept(place));
        Some(place)
    }

    /// Takes out the last record, as to push it to the board.
    pub fn take_kept(&mut self) -> Option<Nogood<N>>
        ensures { IsLastTaken self.old result self.new }
    {
        let record = self.kept.pop()?;
        let place = Place::Kept(self.kept.len());
        self.index.forget(record.key(), place);
        self.index.forget_free();
        Some(record)
    }

    /// Drops the records after the first `count`.
    pub fn forget_behind(&mut self, count: usize)
        ensures { self.new ≡ front count self.old }
    {
        forget_from(&mut self.index, &self.kept, count);
        self.index.forget_free();
        self.kept.truncate(count);
    }

    /// Reads the records that were written to the board since the last time.
    pub(crate) fn read(&mut self, board: &Board<N>)
        ensures { self.new ≡ self.old }
    {
        self.reading = read_from(self.reading, &mut self.index, board);
    }

    /// A record that covers the node, of those that the index has.
    pub(crate) fn look<'a>(&'a self, board: &'a Board<N>, node: &Node<N>) -> Option<&'a Nogood<N>>
        ensures covers { IfSome result (λ found. Covers N.network found.now node.now) }
        ensures refutes { IfSome result (λ _. IsNo N.network node.now.capacities node.now.window) }
    {
        let entries = self.index.entries(node.key())?;
        let outline = Outline::of(node.time(), node.question().capacities.as_slice());
        for entry in entries.iter().rev() {
            if let Some(found) = self.at(board, entry, &outline) {
                if found.covers(node) {
                    return Some(found);
                }
            }
        }
        None
    }

    /// A record that covers the node, whose question is then infeasible; of those that are kept and of the board, whose
    /// new records are read first. `None` says nothing: which records are found is not promised. The kept records stay
    /// as they are.
    pub fn find<'a>(&'a mut self, board: &'a Board<N>, node: &Node<N>) -> Option<&'a Nogood<N>>
        ensures* kept { sem 𝓛 (EndsAsLent (the_row N.row N.OfNetwork) self.entry self.old) }
        ensures covers { IfSome result (λ found. Covers N.network found.now node.now) }
        ensures refutes { IfSome result (λ _. IsNo N.network node.now.capacities node.now.window) }
    {
        self.read(board);
        self.look(board, node)
    }

    /// What stands at an entry's place now, if its outline tells that it may cover what has the other one.
    fn at<'a>(
        &'a self,
        board: &'a Board<N>,
        entry: &Entry,
        outline: &Outline,
    ) -> Option<&'a Nogood<N>> {
        if !entry.outline.may_cover(outline) {
            return None;
        }
        match entry.place {
            Place::Board(i) => board.record(i),
            Place::Kept(i) => self.kept.get(i),
        }
    }
}

/// Forgets the places of the kept records from one on.
fn forget_from<N: OfNetwork>(index: &mut Index, kept: &Vec<Nogood<N>>, from: usize) {
    for place in from..kept.len() {
        index.forget(kept[place].key(), Place::Kept(place));
    }
}
