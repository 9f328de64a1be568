//! Steps by clauses of many literals, of which two are watched.
//!
//! As long as two literals of a clause may be true, nothing follows from it; and nothing new follows where one has to be true. So
//! where such literals were found last is looked at first, and the others only if it is so no more: those behind them, and then
//! those from the first on. These are the watched literals of satisfiability solvers (Moskewicz, Madigan, Zhao, Zhang and Malik
//! 2001), sought from where the last search ended (Gent 2013).
//!
//! First others are sought among a few literals (`MOST_LOOKS`). If these do not show that nothing new follows, the step looks at all,
//! and if something is left then, so does the search. So until a line makes watched literals false, or a derivation begins, the next
//! steps by that clause take no longer than to look at two literals.

ghost use Rattle.std.specs.Prelude.{◌≡◌, IsTrue, true, false};
ghost use Rattle.racp_clauses.specs.Inferences.{by_clause, may_have, says_more, with_inference};
ghost use Rattle.racp_derivations.specs.Thinning.{AreIdle, HasToBeAt, MayBeAt};

use racp_clauses::{Clause, Derivation, Domain, Literal, OfProblem};

/// Where two literals of a clause stand that may be true, or one that has to be, and where the search for others goes on. These are
/// hints, which are looked at again.
#[derive(Clone, Copy)]
pub(crate) struct Watched {
    first: usize,
    second: usize,
    next: usize,
}

/// No place.
const NOWHERE: usize = usize::MAX;

/// At so many literals a search looks at most, before all are looked at.
const MOST_LOOKS: usize = 64;

impl Watched {
    /// Nothing was found yet.
    pub(crate) const NONE: Watched = Watched {
        first: NOWHERE,
        second: NOWHERE,
        next: 0,
    };

    /// Without the places of literals that are false within bounds.
    fn still(self, bounds: &Domain, literals: &[Literal]) -> Watched {
        let none = Watched {
            first: NOWHERE,
            second: NOWHERE,
            ..self
        };
        [self.first, self.second]
            .into_iter()
            .filter(|place| may_be_at(bounds, literals, *place))
            .fold(none, |found, place| found.with(place))
    }

    /// With one more place, if two were not found yet.
    fn with(self, place: usize) -> Watched {
        if self.first == NOWHERE {
            return Watched {
                first: place,
                ..self
            };
        }
        Watched {
            first: self.first.min(place),
            second: self.first.max(place),
            ..self
        }
    }
}

/// Goes on by a clause, and gives which of its literals are watched then.
pub(crate) fn go_on<N: OfProblem>(
    clause: &Clause<N>,
    watched: Watched,
    derivation: &mut Derivation<N>,
) -> Watched
    ensures { derivation.new ≡ with_inference derivation.old (by_clause derivation.old.bounds clause.now) }
{
    if is_idle(derivation, clause, watched) {
        return watched;
    }
    let found = search(derivation.bounds(), clause.literals(), watched, MOST_LOOKS);
    if is_idle(derivation, clause, found) {
        return found;
    }
    derivation.clause(clause);
    if derivation.is_empty() {
        return found;
    }
    search(derivation.bounds(), clause.literals(), found, usize::MAX)
}

/// Whether the watched literals show that nothing new follows from a clause.
fn is_idle<N: OfProblem>(derivation: &Derivation<N>, clause: &Clause<N>, watched: Watched) -> bool
    ensures { IsTrue result → with_inference derivation.now (by_clause derivation.now.bounds clause.now) ≡ derivation.now }
{
    are_idle(derivation.bounds(), clause.literals(), watched)
}

/// The same of its literals.
#[tactic(auto, using(crate::proofs::Idling::true_idle))]
fn are_idle(bounds: &Domain, literals: &[Literal], watched: Watched) -> bool
    ensures { IsTrue result → AreIdle bounds.now literals.now }
{
    let Watched { first, second, .. } = watched;
    has_to_be_at(bounds, literals, first) || are_two_open(bounds, literals, first, second)
}

/// Whether there are two literals at these places, one behind the other, and both may be true.
#[tactic(auto, using(crate::proofs::Idling::two_idle))]
fn are_two_open(bounds: &Domain, literals: &[Literal], first: usize, second: usize) -> bool
    ensures { IsTrue result → AreIdle bounds.now literals.now }
{
    first < second && may_be_at(bounds, literals, first) && may_be_at(bounds, literals, second)
}

/// The literals that are watched from now on: two that may be true, or one, or none, if no others are found among so many.
fn search(bounds: &Domain, literals: &[Literal], watched: Watched, most: usize) -> Watched {
    let mut found = watched.still(bounds, literals);
    for _ in 0..literals.len().min(most) {
        if found.second != NOWHERE || has_to_be_at(bounds, literals, found.first) {
            break;
        }
        let place = if found.next < literals.len() {
            found.next
        } else {
            0
        };
        found.next = place.saturating_add(1);
        if place != found.first && may_be_at(bounds, literals, place) {
            found = found.with(place);
        }
    }
    found
}

/// Whether there is a literal at a place, and it may be true within bounds.
fn may_be_at(bounds: &Domain, literals: &[Literal], place: usize) -> bool
    ensures { IsTrue result → MayBeAt bounds.now literals.now place }
{
    place < literals.len() && may_be(bounds, literals[place])
}

/// Whether a literal may be true within bounds; false also where it is about no variable.
fn may_be(bounds: &Domain, literal: Literal) -> bool
    ensures { IsTrue result → may_have bounds.now literal ≡ true }
{
    match literal {
        Literal::AtLeast(x, least) => least <= bounds.upper_at(x as usize),
        Literal::AtMost(x, most) => bounds.lower_at(x as usize) <= most,
    }
}

/// Whether there is a literal at a place, and it has to be true within bounds.
fn has_to_be_at(bounds: &Domain, literals: &[Literal], place: usize) -> bool
    ensures { IsTrue result → HasToBeAt bounds.now literals.now place }
{
    may_be_at(bounds, literals, place) && has_to_be(bounds, literals[place])
}

/// Whether a literal says no more than bounds do.
fn has_to_be(bounds: &Domain, literal: Literal) -> bool
    ensures { IsTrue result → says_more bounds.now literal ≡ false }
{
    match literal {
        Literal::AtLeast(x, least) => least <= bounds.lower_at(x as usize),
        Literal::AtMost(x, most) => bounds.upper_at(x as usize) <= most,
    }
}
