//! Clauses of many literals, without those that say no more than others of them.
//!
//! A text may give a clause a literal in each line, and name that clause in each line behind it. So that this takes no time in
//! proportion to the square of the text, the steps of such a clause are taken by a shorter one, which infers the same.
//!
//! Of the literals cost >= 9, cost >= 5, cost >= 7 and cost >= 6, from the last one on:
//!
//! ```text
//! cost >= 6      kept
//! cost >= 7      kept
//! cost >= 5      kept: of those that are kept, one alone is true wherever it is
//! cost >= 9      left out: where it may be true, two that are kept may be, and nothing follows
//! ```
//!
//! Once more, from the last of these on, cost >= 7 is left out too. Two of a variable and side are kept, and not one: as long as two
//! literals may be true, nothing follows from a clause.

ghost use Rattle.std.specs.Prelude.{◌≡◌, ◌++◌, ◌∷◌, ◌⊎◌, [], IfOk, IfSome, IsTrue};
ghost use Rattle.racp_derivations.specs.Thinning.{AreTwoWeaker, InfersAs, IsWeaker};

use racp_clauses::{Clause, Derivation, Literal, OfProblem};
use racp_model::limits::{MOST_JOBS, MOST_RESOURCES};
use std::alloc::{AllocError, Global};

/// A clause of at most so many literals is not made shorter.
pub(crate) const MANY_LITERALS: usize = 256;

/// How many variables there are at most: a start of each job, the units of each resource, and the cost.
const MOST_VARIABLES: usize = MOST_JOBS + MOST_RESOURCES + 1;

/// Where two literals stand among those that are kept: of those about one variable and side the two that say least, if there are
/// two. These are hints, which are looked at again.
#[derive(Clone, Copy)]
struct Weakest {
    earlier: usize,
    later: usize,
}

impl Weakest {
    /// There are none.
    const NONE: Weakest = Weakest {
        earlier: usize::MAX,
        later: usize::MAX,
    };
}

/// A clause from which the same follows as from a long one, with at most four literals for each variable and side; or that clause
/// itself. The derivation that is at work may be any.
pub(crate) fn thinned<N: OfProblem>(
    alloc: Global,
    base: &Derivation<N>,
    work: &mut Derivation<N>,
    clause: &Clause<N>,
) -> Result<Option<Clause<N>>, AllocError>
    requires { base.now.clause ≡ [] }
    ensures { IfOk result (λ found. IfSome found (λ short. InfersAs short clause.now)) }
{
    let once = needed(alloc, clause.literals())?;
    let twice = needed(alloc, &once)?;
    derived(alloc, base, work, &twice, clause)
}

/// The clause of these literals, if it follows so from another one.
fn derived<N: OfProblem>(
    alloc: Global,
    base: &Derivation<N>,
    work: &mut Derivation<N>,
    literals: &[Literal],
    clause: &Clause<N>,
) -> Result<Option<Clause<N>>, AllocError>
    requires { base.now.clause ≡ [] }
    ensures { IfOk result (λ found. IfSome found (λ short. short ≡ literals.now)) }
{
    work.begin(base);
    suppose_all(work, literals)?;
    work.clause(clause);
    work.finish(alloc)
}

/// Supposes these literals.
fn suppose_all<N: OfProblem>(
    work: &mut Derivation<N>,
    literals: &[Literal],
) -> Result<(), AllocError>
    ensures { IfOk result (λ _. work.new.clause ≡ work.old.clause ++ literals.now) }
{
    for &literal in literals {
        work.suppose(literal)?;
    }
    Ok(())
}

/// These literals from the last to the first, without those that say no more than two that are kept. Takes time in proportion.
fn needed(alloc: Global, literals: &[Literal]) -> Result<Vec<Literal>, AllocError>
    ensures { IfOk result (λ kept. InfersAs kept.items literals.now) }
{
    let mut weakest = vec![in alloc; Weakest::NONE; 2 * MOST_VARIABLES]?;
    let mut kept = Vec::new(alloc);
    let mut left = literals.len();
    while 0 < left {
        left -= 1;
        keep_if_needed(&mut weakest, &mut kept, literals[left])?;
    }
    Ok(kept)
}

/// Keeps a literal, unless it says no more than two that are kept.
fn keep_if_needed(
    weakest: &mut [Weakest],
    kept: &mut Vec<Literal>,
    literal: Literal,
) -> Result<(), AllocError>
    ensures { IfOk result (λ _. (kept.new.items ≡ kept.old.items ++ literal ∷ []) ⊎
        ((kept.new.items ≡ kept.old.items) × AreTwoWeaker kept.old.items literal)) }
{
    let place = place_of(literal);
    let found = weakest.get(place).copied().unwrap_or(Weakest::NONE);
    if are_weaker(kept, found, literal) {
        return Ok(());
    }
    note(weakest, place, with_next(kept, found));
    kept.push(literal)?;
    Ok(())
}

/// The place of the variable and side of a literal.
fn place_of(literal: Literal) -> usize {
    match literal {
        Literal::AtLeast(x, _) => (x as usize).saturating_mul(2),
        Literal::AtMost(x, _) => (x as usize).saturating_mul(2).saturating_add(1),
    }
}

/// Notes where two literals stand, if there is room for it.
fn note(weakest: &mut [Weakest], place: usize, found: Weakest) {
    if let Some(row) = weakest.get_mut(place) {
        *row = found;
    }
}

/// Where the two stand when one more is kept, which says less than one of them.
fn with_next(kept: &[Literal], found: Weakest) -> Weakest {
    let stays = match (kept.get(found.earlier), kept.get(found.later)) {
        (Some(earlier), Some(later)) => is_weaker(*earlier, *later),
        _ => false,
    };
    Weakest {
        earlier: if stays { found.earlier } else { found.later },
        later: kept.len(),
    }
}

/// Whether two literals that are kept are true wherever another one is.
fn are_weaker(kept: &[Literal], found: Weakest, literal: Literal) -> bool
    ensures { IsTrue result → AreTwoWeaker kept.now literal }
{
    let Weakest { earlier, later } = found;
    earlier < later
        && later < kept.len()
        && is_weaker(kept[earlier], literal)
        && is_weaker(kept[later], literal)
}

/// Whether a literal is about the same variable and side as another one, and says no more.
fn is_weaker(one: Literal, other: Literal) -> bool
    ensures { IsTrue result → IsWeaker one other }
{
    match (one, other) {
        (Literal::AtLeast(x, least), Literal::AtLeast(y, value)) => x == y && least <= value,
        (Literal::AtMost(x, most), Literal::AtMost(y, value)) => x == y && value <= most,
        _ => false,
    }
}
