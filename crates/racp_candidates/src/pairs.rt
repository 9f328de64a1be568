//! Vectors that no refuted pair of resources excludes.

ghost use Rattle.std.specs.Prelude.{◌≡◌, length};
ghost use Rattle.racp_model.specs.Project.{IsNumber, AreNumbers};
ghost use Rattle.racp_candidates.specs.Vectors.{is_above, is_above_pairs, vectors_above, HavePlaces, IsNextVector};

use crate::frontier::Frontier;
use std::alloc::AllocError;

/// Takes off the vectors up to the first that no pair excludes, and gives that one; or `None` if none is left. Pairs
/// name two resources by their numbers, from 1.
#[tactic(auto, using(crate::proofs::Above::above_skipped, crate::proofs::Above::above_taken, crate::proofs::Above::above_none, crate::proofs::Above::places_first, crate::proofs::Above::places_rest, crate::proofs::Above::shorter))]
pub(crate) fn next_above(
    frontier: &mut Frontier,
    floors: &[u32],
    pairs: &[(u32, u32)],
) -> Result<Option<Vec<u32>>, AllocError>
    requires pairs { AreNumbers (length floors.now) pairs.now }
    requires places { HavePlaces floors.now frontier.old }
    ensures next { IsNextVector (vectors_above floors.now pairs.now frontier.old)
        (vectors_above floors.now pairs.now frontier.new) result }
    ensures places { HavePlaces floors.now frontier.new }
{
    while let Some(units) = frontier.next()? {
        if above_pairs(floors, pairs, &units) {
            return Ok(Some(units));
        }
    }
    Ok(None)
}

/// Whether the vector is above one floor of each pair.
#[tactic(auto, unfolding(crate::specs::Vectors::is_above_pairs))]
fn above_pairs(floors: &[u32], pairs: &[(u32, u32)], units: &[u32]) -> bool
    requires pairs { AreNumbers (length floors.now) pairs.now }
    requires places { length units.now ≡ length floors.now }
    ensures { result ≡ is_above_pairs floors.now pairs.now units.now }
{
    pairs.iter().all(|&(k, l)| above(floors, units, k) || above(floors, units, l))
}

/// Whether the vector is above its floor of the resource with this number.
fn above(floors: &[u32], units: &[u32], resource: u32) -> bool
    requires resource { IsNumber (length floors.now) resource }
    requires places { length units.now ≡ length floors.now }
    ensures { result ≡ is_above floors.now units.now resource }
{
    let place = resource as usize - 1;
    floors[place] < units[place]
}
