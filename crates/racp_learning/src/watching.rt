//! What follows from clauses of which all literals but one are false.

use crate::bound::{Bound, Why, literal_at, set_literal};
use crate::clauses::Clauses;
use crate::trail::{Entry, Trail};
use crate::watches::Watch;

/// What came of a look at a watched literal.
#[derive(Clone, Copy)]
enum Look {
    /// It stays watched.
    Stays,
    /// Another one is watched in its place, which waits in this list.
    Moves(usize),
    /// All literals are false.
    Fails,
}

/// How a walk along a list went: how many stay in it, and whether no clause is false.
#[derive(Clone, Copy)]
struct Walk {
    kept: usize,
    holds: bool,
}

impl Clauses {
    /// Looks at all clauses that wait for a bound that was put, and says whether none of them is false.
    pub(crate) fn follow(&mut self, trail: &mut Trail, entry: &Entry) -> bool {
        let side = entry.bound.side;
        let first = self.watches.list(Bound {
            side,
            value: entry.old.wrapping_add(1),
        });
        let last = self.watches.list(entry.bound);
        for list in first..last.wrapping_add(1) {
            if self.watches.has_any(list) && !self.walk(trail, list) {
                return false;
            }
        }
        true
    }

    /// Walks along a list.
    fn walk(&mut self, trail: &mut Trail, list: usize) -> bool {
        let mut row = self.watches.take(list);
        let walk = self.walk_along(trail, list, &mut row);
        row.truncate(walk.kept);
        self.watches.put_back(list, row);
        walk.holds
    }

    /// Looks at each watch of a list, and keeps those that stay.
    #[inline]
    fn walk_along(&mut self, trail: &mut Trail, list: usize, row: &mut [Watch]) -> Walk {
        let mut kept = 0usize;
        let mut holds = true;
        for i in 0..row.len() {
            let mut watch = row[i];
            if holds && !trail.holds(watch.other()) {
                let partner = literal_at(&self.literals, watch.partner());
                watch.set_other(partner);
                if !trail.holds(partner) {
                    match self.look(trail, list, watch) {
                        Look::Stays => {}
                        Look::Fails => holds = false,
                        Look::Moves(to) => {
                            self.watches.add(watch, to);
                            continue;
                        }
                    }
                }
            }
            if kept < row.len() {
                row[kept] = watch;
            }
            kept = kept.wrapping_add(1);
        }
        Walk { kept, holds }
    }

    /// Looks at a watched literal: finds another that is not false, or puts the other watched one.
    #[inline]
    fn look(&mut self, trail: &mut Trail, list: usize, watch: Watch) -> Look {
        let own = watch.own as usize;
        let seen = literal_at(&self.literals, own);
        if !trail.fails(seen) {
            return Look::Stays;
        }
        for q in watch.behind()..watch.end as usize {
            let literal = literal_at(&self.literals, q);
            if !trail.fails(literal) {
                set_literal(&mut self.literals, q, seen);
                set_literal(&mut self.literals, own, literal);
                let to = self.watches.list(literal.negated());
                return if to == list {
                    Look::Stays
                } else {
                    Look::Moves(to)
                };
            }
        }
        if trail.put(watch.other(), Why::Clause(watch.clause)) {
            Look::Stays
        } else {
            Look::Fails
        }
    }
}
