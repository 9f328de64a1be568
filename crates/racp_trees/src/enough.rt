//! Whether the blocks of a certificate are enough.

ghost use Rattle.std.specs.Prelude.{◌≡◌, ◌↔◌, ◌≤◌, ℕ, ◌<◌, IfOk, IsErrOf, IsTrue, length, slice_index, slice_index_or};
ghost use Rattle.racp_model.specs.Project.{IsSound};
ghost use Rattle.racp_trees.specs.Enough.{AreEnoughBlocks, IsClaim, IsGapAnswer};

use crate::before::is_before;
use crate::claim::Claim;
use crate::parts::{Part, push_parts};
use crate::splitting::place_above;
use racp_model::{Stop, Unfound};
use std::alloc::{AllocError, Global};

/// Whether each capacity vector up to the roofs that stands before the capacities of a claim is at most that of some block,
/// unless it is stopped. Goes by boxes of vectors: a box whose least vector is at most some block's goes on as the parts
/// of it that are above that block, each at its first such place. The stop is asked at each box.
///
/// # Errors
///
/// Memory was refused, or the stop said so; a quiet one never does.
pub fn are_enough_until<S: Stop>(
    alloc: Global,
    claim: &Claim,
    blocks: &[Vec<u32>],
    stop: &S,
) -> Result<bool, Unfound>
    requires sound { IsSound claim.now.net.now }
    requires claim { IsClaim claim.now }
    requires blocks { (k : ℕ) → k < length blocks.now → (d : _) → length (slice_index_or blocks.now k d).items ≡ claim.now.net.now.resources }
    ensures told { IfOk result (λ yes. IsTrue yes ↔ AreEnoughBlocks claim.now.net.now claim.now.order.now claim.now.roofs.now claim.now.capacities.now blocks.now) }
    ensures quiet { IsTrue (S.is_quiet stop.now) → IsErrOf result Unfound.Stopped → ⊥ }
{
    Ok(gap_until(alloc, claim, blocks, stop)?.is_none())
}

/// A capacity vector up to the roofs that stands before the capacities and is above each block, or `None` if the blocks
/// are enough, unless it is stopped. The stop is asked at each box.
pub(crate) fn gap_until<S: Stop>(
    alloc: Global,
    claim: &Claim,
    blocks: &[Vec<u32>],
    stop: &S,
) -> Result<Option<Vec<u32>>, Unfound>
    requires sound { IsSound claim.now.net.now }
    requires claim { IsClaim claim.now }
    requires blocks { (k : ℕ) → k < length blocks.now → (d : _) → length (slice_index_or blocks.now k d).items ≡ claim.now.net.now.resources }
    ensures gap { IfOk result (IsGapAnswer claim.now blocks.now) }
    ensures quiet { IsTrue (S.is_quiet stop.now) → IsErrOf result Unfound.Stopped → ⊥ }
{
    let mut parts = Vec::new(alloc);
    parts.push(whole(alloc, claim.roofs)?)?;
    while let Some(part) = parts.pop() {
        if stop.asked() {
            return Err(Unfound::Stopped);
        }
        if !is_before(claim, &part.low) {
            continue;
        }
        match place_above(claim, blocks, &part) {
            Some(k) => push_parts(alloc, &mut parts, &part.low, &part.high, &blocks[k])?,
            None => return Ok(Some(part.low)),
        }
    }
    Ok(None)
}

/// All vectors up to the roofs.
fn whole(alloc: Global, roofs: &[u32]) -> Result<Part, AllocError>
    ensures { IfOk result (λ part. (part.high.items ≡ roofs.now) × (length part.low.items ≡ length roofs.now) × ((k : ℕ) → k < length roofs.now → slice_index part.low.items k ≡ 0)) }
{
    let low = vec![in alloc; 0; roofs.len()]?;
    Ok(Part {
        low,
        high: roofs.to_vec(alloc)?,
    })
}
