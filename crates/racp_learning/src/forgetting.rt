//! Clauses that are forgotten.

use crate::bound::{literal_at, set_literal};
use crate::clauses::{Clauses, Rank, bytes_of, make_even};
use crate::rows::stored;
use crate::trail::Trail;
use std::alloc::{AllocError, Global};
use std::cmp::OrderedFloat;
use std::mem;

/// So many more there may be each time.
const MORE: usize = 100;

impl Clauses {
    /// Forgets the clauses that are true, and half of those that lie over many levels; and more, if they take too much
    /// memory. Nothing is tried at that moment.
    pub(crate) fn reduce(&mut self, alloc: Global, trail: &Trail) -> Result<(), AllocError> {
        self.forget_least(alloc)?;
        self.forget_true(trail);
        self.compact(alloc)?;
        self.watch_all(trail);
        self.most = self.most.saturating_add(MORE);
        Ok(())
    }

    /// Forgets those that have served least.
    fn forget_least(&mut self, alloc: Global) -> Result<(), AllocError> {
        let mut ranks = mem::replace(&mut self.ranks, Vec::new(alloc));
        ranks.clear();
        let mut leave = 0usize;
        for clause in 0..self.headers.len() {
            let header = self.headers[clause];
            if 0 < header.count {
                let stays = header.levels <= 2 || header.count <= 2;
                if !stays {
                    leave = leave.wrapping_add(1);
                }
                ranks.push(Rank {
                    stays,
                    weight: header.weight,
                    clause: stored(clause),
                })?;
            }
        }
        ranks.sort_unstable_by_key(|rank: &Rank| (rank.stays, OrderedFloat(rank.weight)));
        for i in 0..ranks.len() {
            if leave / 2 <= i && self.bytes <= self.most_bytes / 2 {
                break;
            }
            self.forget(ranks[i].clause as usize);
        }
        self.ranks = ranks;
        Ok(())
    }

    /// Forgets a clause.
    fn forget(&mut self, clause: usize) {
        if let Some(header) = self.headers.get_mut(clause) {
            if 0 < header.count {
                self.bytes = self.bytes.wrapping_sub(bytes_of(header.count));
                self.alive = self.alive.wrapping_sub(1);
                header.count = 0;
            }
        }
    }

    fn forget_true(&mut self, trail: &Trail) {
        for clause in 0..self.headers.len() {
            let literals = self.of(stored(clause));
            if literals.iter().any(|literal| trail.holds(*literal)) {
                self.forget(clause);
            }
        }
    }

    /// Moves the literals together.
    fn compact(&mut self, alloc: Global) -> Result<(), AllocError> {
        let mut literals = mem::replace(&mut self.spare, Vec::new(alloc));
        literals.clear();
        self.free.clear();
        for clause in 0..self.headers.len() {
            if self.is_free(clause) {
                self.free.push(stored(clause))?;
                continue;
            }
            make_even(&mut literals)?;
            let at = stored(literals.len());
            literals.extend_from_slice(self.of(stored(clause)))?;
            if let Some(header) = self.headers.get_mut(clause) {
                header.at = at;
            }
        }
        self.spare = mem::replace(&mut self.literals, literals);
        Ok(())
    }

    /// Watches two literals of each clause that are not false.
    fn watch_all(&mut self, trail: &Trail) {
        self.watches.clear();
        for clause in 0..self.headers.len() {
            if let Some(header) = self.headers.get(clause).copied() {
                self.choose(trail, header.at as usize, header.count as usize);
                self.watch(stored(clause));
            }
        }
    }

    /// Moves two literals that are not false to the front.
    fn choose(&mut self, trail: &Trail, at: usize, count: usize) {
        let mut to = at;
        for q in at..at.wrapping_add(count) {
            let literal = literal_at(&self.literals, q);
            if to < at.wrapping_add(2) && !trail.fails(literal) {
                let there = literal_at(&self.literals, to);
                set_literal(&mut self.literals, to, literal);
                set_literal(&mut self.literals, q, there);
                to = to.wrapping_add(1);
            }
        }
    }
}
