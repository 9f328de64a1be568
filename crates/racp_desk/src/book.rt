//! The log of a desk, with room for what has still to be written.

ghost use Rattle.std.specs.Prelude.{
  ◌≡◌,
  ◌+◌,
  ◌-◌,
  ◌*◌,
  ◌<◌,
  ◌≤◌,
  ◌++◌,
  ◌∷◌,
  [],
  length,
  vec_capacity,
  None,
  IfOk,
  OnOk,
};
ghost use Rattle.racp_desk.specs.Log.{tally, MayFollow, IsLegal, owed};
ghost use Rattle.racp_desk.specs.declared.log.Entry.TheVariants.{Asked, Taken, Handed, GivenBack, Halted};

use crate::log::{Cause, Entry};
use std::alloc::{AllocError, Global};
use std::marker::{Brand, Model, PhantomData};

/// What a log is about: how many turns there are, and whether the stop is quiet. Each run picks it.
pub trait Rules {
    ghost use Rattle.std.specs.Prelude.{ℕ, Bool};

    ghost turns: { ℕ };

    ghost quiet: { Bool };
}

impl Rules for Brand {
    ghost use Rattle.std.specs.Prelude.{false};

    ghost turns = { 0 };

    ghost quiet = { false };
}

/// The log of a desk: it is legal. Contracts see a `Log`, its entries and the room for more.
#[derive(Drop)]
pub struct Book<M: Rules> {
    entries: Vec<Entry>,
    pieces: u64,
    nodes: u64,
    out: usize,
    halt: Option<Cause>,
    of: PhantomData<M>,
}

impl<M: Rules> Model for Book<M> {
    ghost use Rattle.std.specs.Prelude.{◌+◌, ◌-◌, length, vec_capacity};
    ghost use Rattle.racp_desk.specs.Log.{Log, IsBook, owed};

    ghost Value = { Log };

    ghost view = { λ b. record {
      entries = b.entries.items;
      room = vec_capacity b.entries - (length b.entries.items + b.out + owed b.halt);
    } };

    ghost invariant = { λ b.
        IsBook M.turns M.quiet b.entries.items b.pieces b.nodes b.out b.halt (vec_capacity b.entries) };
}

impl<M: Rules> Book<M> {
    /// A log without entries, with room for a halt.
    ///
    /// # Errors
    ///
    /// Memory was refused.
    pub fn new(alloc: Global) -> Result<Self, AllocError>
        requires { M.turns ≤ 1000000000000 }
        ensures { IfOk result (λ book. book.entries ≡ []) }
    {
        let entries = Vec::with_capacity(alloc, 1)?;
        Ok(Book {
            entries,
            pieces: 0,
            nodes: 0,
            out: 0,
            halt: None,
            of: PhantomData,
        })
    }

    /// Makes room for so many entries more.
    ///
    /// # Errors
    ///
    /// Memory was refused. The entries are as before.
    pub(crate) fn make_room(&mut self, more: usize) -> Result<(), AllocError>
        requires { more ≤ 2 }
        ensures entries { self.new.entries ≡ self.old.entries }
        ensures ok { OnOk result (more ≤ self.new.room) }
        ensures few { M.turns ≤ 1000000000000 }
    {
        let owed = if self.halt.is_none() { 1 } else { 0 };
        self.entries.reserve(self.out + owed + more)
    }

    /// Notes that a question was asked.
    pub(crate) fn note_asked(&mut self, index: usize)
        requires legal { MayFollow M.turns M.quiet (tally self.old.entries) (Asked index) }
        requires room { 1 ≤ self.old.room }
        ensures { self.new.entries ≡ self.old.entries ++ Asked index ∷ [] }
    {
        self.entries.push_reserved(Entry::Asked(index));
    }

    /// Notes that a piece was taken.
    pub(crate) fn note_taken(&mut self, seat: usize, number: u64, index: usize)
        requires legal { MayFollow M.turns M.quiet (tally self.old.entries) (Taken seat number index) }
        requires room { 2 ≤ self.old.room }
        ensures { self.new.entries ≡ self.old.entries ++ Taken seat number index ∷ [] }
    {
        self.entries
            .push_reserved(Entry::Taken(seat, number, index));
        self.pieces += 1;
        self.out += 1;
    }

    /// Notes that a finding was handed in.
    pub(crate) fn note_handed(
        &mut self,
        seat: usize,
        number: u64,
        rest: usize,
        yes: bool,
        nodes: u64,
    )
        requires { MayFollow M.turns M.quiet (tally self.old.entries) (Handed seat number rest yes nodes) }
        ensures { self.new.entries ≡ self.old.entries ++ Handed seat number rest yes nodes ∷ [] }
    {
        self.entries
            .push_reserved(Entry::Handed(seat, number, rest, yes, nodes));
        self.out -= 1;
        self.nodes += nodes;
    }

    /// Notes that a piece was given back.
    pub(crate) fn note_given_back(&mut self, seat: usize, number: u64)
        requires { MayFollow M.turns M.quiet (tally self.old.entries) (GivenBack seat number) }
        ensures { self.new.entries ≡ self.old.entries ++ GivenBack seat number ∷ [] }
    {
        self.entries.push_reserved(Entry::GivenBack(seat, number));
        self.out -= 1;
    }

    /// Notes that the desk was halted.
    pub(crate) fn note_halted(&mut self, cause: Cause)
        requires { MayFollow M.turns M.quiet (tally self.old.entries) (Halted cause) }
        ensures { self.new.entries ≡ self.old.entries ++ Halted cause ∷ [] }
    {
        self.entries.push_reserved(Entry::Halted(cause));
        self.halt = Some(cause);
    }

    /// How many pieces were taken.
    pub fn pieces(&self) -> u64
        ensures pieces { result ≡ length (tally self.now.entries).taken }
        ensures most { result ≤ M.turns }
    {
        self.pieces
    }

    /// Why the desk was halted, if it was.
    pub fn halt(&self) -> Option<Cause>
        ensures { result ≡ (tally self.now.entries).halt }
    {
        self.halt
    }

    /// The entries, how many pieces were taken, and how many nodes were searched.
    pub(crate) fn into_parts(self) -> (Vec<Entry>, u64, u64)
        ensures entries { result.0.items ≡ self.entries }
        ensures legal { IsLegal M.turns M.quiet self.entries }
        ensures pieces { result.1 ≡ length (tally self.entries).taken }
        ensures nodes { result.2 ≡ (tally self.entries).nodes }
        ensures few { result.2 ≤ 1000000 * result.1 }
    {
        let Book {
            entries,
            pieces,
            nodes,
            out: _,
            halt: _,
            of: _,
        } = self;
        (entries, pieces, nodes)
    }
}
