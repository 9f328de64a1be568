//! The clauses that were learned.

use crate::bound::Bound;
use crate::rows::stored;
use crate::watches::{Watch, Watches};
use std::alloc::{AllocError, Global};

/// What a clause takes beside its literals, and what a literal takes, with what is kept of both elsewhere: about.
const CLAUSE_BYTES: u64 = 160;

const LITERAL_BYTES: u64 = 40;

/// Clauses may take so many bytes at least.
const LEAST_BYTES: u64 = 4_096;

/// So few clauses are too few to learn between two times at which some are forgotten for want of memory.
const FEW_CLAUSES: u32 = 64;

/// So often they may be forgotten for want of memory.
const MOST_TURNS: u32 = 10_000;

/// A weight above which all are made less.
const MOST_WEIGHT: f64 = 1e100;

/// A clause: where its literals lie, over how many levels they lay when it was learned, and how it has served.
#[derive(Clone, Copy)]
pub(crate) struct Header {
    pub(crate) at: u32,
    pub(crate) count: u32,
    pub(crate) levels: u32,
    pub(crate) weight: f64,
}

/// The clauses, by number. The first two literals of each are watched.
#[derive(Drop)]
pub(crate) struct Clauses {
    pub(crate) headers: Vec<Header>,
    pub(crate) literals: Vec<Bound>,
    pub(crate) watches: Watches,
    /// Numbers without a clause.
    pub(crate) free: Vec<u32>,
    pub(crate) alive: usize,
    /// So many there may be before some are forgotten.
    pub(crate) most: usize,
    pub(crate) bytes: u64,
    pub(crate) most_bytes: u64,
    room: Room,
    step: f64,
    /// Rows that are used again each time clauses are forgotten.
    pub(crate) spare: Vec<Bound>,
    pub(crate) ranks: Vec<Rank>,
}

/// A clause, and how it has served, to sort by. Those that are kept longer come behind.
#[derive(Clone, Copy)]
pub(crate) struct Rank {
    pub(crate) stays: bool,
    pub(crate) weight: f64,
    pub(crate) clause: u32,
}

/// How often clauses were forgotten since they took too much memory, and how many were learned since then.
#[derive(Clone, Copy)]
struct Room {
    turns: u32,
    learned: u32,
}

impl Clauses {
    /// No clauses yet, over sides with these values at the root. They are to take at most so many bytes, about.
    pub(crate) fn new(alloc: Global, root: &[i64], most_bytes: u64) -> Result<Clauses, AllocError> {
        Ok(Clauses {
            headers: Vec::new(alloc),
            literals: Vec::new(alloc),
            watches: Watches::new(alloc, root)?,
            free: Vec::new(alloc),
            alive: 0,
            most: 3000,
            bytes: 0,
            most_bytes,
            room: Room {
                turns: 0,
                learned: 0,
            },
            step: 1.0,
            spare: Vec::new(alloc),
            ranks: Vec::new(alloc),
        })
    }

    /// The literals of a clause.
    #[inline]
    pub(crate) fn of(&self, clause: u32) -> &[Bound] {
        match self.headers.get(clause as usize) {
            Some(header) => {
                let at = header.at as usize;
                let end = at.wrapping_add(header.count as usize);
                self.literals.get(at..end).unwrap_or(&[])
            }
            None => &[],
        }
    }

    /// Whether a number has no clause.
    pub(crate) fn is_free(&self, clause: usize) -> bool {
        match self.headers.get(clause) {
            Some(header) => header.count == 0,
            None => true,
        }
    }

    /// Whether memory was refused.
    pub(crate) fn are_short(&self) -> bool {
        self.watches.are_short()
    }

    /// Whether there are so many that some should be forgotten.
    pub(crate) fn are_many(&self) -> bool {
        self.most < self.alive || self.are_large()
    }

    /// Whether there are so many that this cannot wait for the next time at which the search begins anew.
    pub(crate) fn are_crowded(&self) -> bool {
        self.most.saturating_add(self.most / 4) < self.alive
    }

    /// Notes that clauses are forgotten, if they take too much memory. Where few were learned since the last time, they may
    /// take twice as much from now on: else the same conflicts would come again and again.
    pub(crate) fn note_forgotten(&mut self) {
        if !self.are_large() {
            return;
        }
        if self.room.learned < FEW_CLAUSES {
            self.most_bytes = self.most_bytes.max(LEAST_BYTES).saturating_mul(2);
        }
        self.room.turns = self.room.turns.saturating_add(1);
        self.room.learned = 0;
    }

    /// Whether there is too little memory to go on: clauses were forgotten for want of it too often.
    pub(crate) fn are_cramped(&self) -> bool {
        MOST_TURNS < self.room.turns
    }

    /// Whether they take more memory than they may.
    pub(crate) fn are_large(&self) -> bool {
        self.most_bytes < self.bytes
    }

    /// Adds a clause, over literals of so many levels, and gives its number.
    pub(crate) fn add(&mut self, literals: &[Bound], levels: u32) -> Result<u32, AllocError> {
        make_even(&mut self.literals)?;
        self.room.learned = self.room.learned.saturating_add(1);
        let at = stored(self.literals.len());
        self.literals.extend_from_slice(literals)?;
        let count = stored(literals.len());
        let header = Header {
            at,
            count,
            levels,
            weight: self.step,
        };
        let clause = self.number(header)?;
        self.alive = self.alive.wrapping_add(1);
        self.bytes = self.bytes.wrapping_add(bytes_of(count));
        self.watch(clause);
        Ok(clause)
    }

    /// Gives a clause a number.
    fn number(&mut self, header: Header) -> Result<u32, AllocError> {
        if let Some(clause) = self.free.pop() {
            if (clause as usize) < self.headers.len() {
                self.headers[clause as usize] = header;
            }
            return Ok(clause);
        }
        let clause = stored(self.headers.len());
        self.headers.push(header)?;
        Ok(clause)
    }

    /// Puts a clause in the lists of its first two literals.
    pub(crate) fn watch(&mut self, clause: u32) {
        let at = self
            .headers
            .get(clause as usize)
            .map_or(0, |header| header.at);
        let literals = self.of(clause);
        if literals.len() < 2 {
            return;
        }
        let (one, two) = (literals[0], literals[1]);
        let next = at.wrapping_add(1);
        let end = at.wrapping_add(stored(literals.len()));
        let watch = Watch::new(clause, at, end, two);
        self.watches.wait(watch, one.negated());
        let watch = Watch::new(clause, next, end, one);
        self.watches.wait(watch, two.negated());
    }

    /// A clause has served.
    #[inline]
    pub(crate) fn bump(&mut self, clause: u32) {
        let step = self.step;
        if let Some(header) = self.headers.get_mut(clause as usize) {
            header.weight += step;
        }
    }

    /// What served before counts less.
    pub(crate) fn decay(&mut self) {
        self.step *= 1.0 / 0.999;
        if MOST_WEIGHT < self.step {
            self.step *= 1.0 / MOST_WEIGHT;
            for header in self.headers.iter_mut() {
                header.weight *= 1.0 / MOST_WEIGHT;
            }
        }
    }
}

/// What a clause of so many literals takes, about.
pub(crate) fn bytes_of(count: u32) -> u64 {
    CLAUSE_BYTES.wrapping_add(LITERAL_BYTES.wrapping_mul(u64::from(count)))
}

/// Makes the length of a row even.
pub(crate) fn make_even(row: &mut Vec<Bound>) -> Result<(), AllocError> {
    if row.len() % 2 == 1 {
        row.push(Bound { side: 0, value: 0 })?;
    }
    Ok(())
}
