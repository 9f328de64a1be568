//! At which block a box of capacity vectors is split.

ghost use Rattle.std.specs.Prelude.{◌≡◌, ◌<◌, ℕ, length, slice_index_or};
ghost use Rattle.racp_model.specs.Terms.{AreTermsOf};
ghost use Rattle.racp_trees.specs.Enough.{IsAtMost, IsBlockAnswer, IsClaim};

use crate::before::{first_above, is_at_most};
use crate::claim::Claim;
use crate::parts::Part;
use racp_prices::{Order, cost_of};
use std::cmp::max;

/// The place of a block at or above the least vector of a box, or `None` if there is none. Of several it is one whose
/// parts leave least to be spent. So a block that is at most another one is not taken before that. It costs only time
/// which one is taken, so no clause says it.
pub(crate) fn place_above(claim: &Claim, blocks: &[Vec<u32>], part: &Part) -> Option<usize>
    requires claim { IsClaim claim.now }
    requires low { length part.now.low.items ≡ claim.now.net.now.resources }
    requires high { length part.now.high.items ≡ claim.now.net.now.resources }
    requires blocks { (k : ℕ) → k < length blocks.now → (d : _) → length (slice_index_or blocks.now k d).items ≡ claim.now.net.now.resources }
    ensures { IsBlockAnswer blocks.now part.now.low.items result }
{
    let first = first_above(blocks, &part.low)?;
    Some(best_above(claim, blocks, part, first))
}

/// The place of a block at or above the least vector of a box whose parts leave least to be spent, from one such place
/// on.
fn best_above(claim: &Claim, blocks: &[Vec<u32>], part: &Part, first: usize) -> usize
    requires claim { IsClaim claim.now }
    requires low { length part.now.low.items ≡ claim.now.net.now.resources }
    requires high { length part.now.high.items ≡ claim.now.net.now.resources }
    requires blocks { (k : ℕ) → k < length blocks.now → (d : _) → length (slice_index_or blocks.now k d).items ≡ claim.now.net.now.resources }
    requires place { first < length blocks.now }
    requires above { (d : _) → IsAtMost (length part.now.low.items) part.now.low.items (slice_index_or blocks.now first d).items }
    ensures place { result < length blocks.now }
    ensures above { (d : _) → IsAtMost (length part.now.low.items) part.now.low.items (slice_index_or blocks.now result d).items }
{
    let spare = spare(claim, &part.low);
    let mut best = first;
    let mut least = left_by(claim.order, spare, part, &blocks[first]);
    for k in first + 1..blocks.len() {
        if least == 0 {
            return best;
        }
        if is_at_most(&part.low, &blocks[k]) {
            let left = left_by(claim.order, spare, part, &blocks[k]);
            if left < least || left == least && is_at_most(&blocks[best], &blocks[k]) {
                best = k;
                least = left;
            }
        }
    }
    best
}

/// How much more the capacities cost than a vector that stands before them.
fn spare(claim: &Claim, vector: &[u32]) -> u64
    requires claim { IsClaim claim.now }
    requires vector { length vector.now ≡ claim.now.net.now.resources }
{
    let (net, order) = (claim.net, claim.order);
    cost_of(net, order, claim.capacities).saturating_sub(cost_of(net, order, vector))
}

/// What can still be spent in the parts of a box above a block, all together, and 1 for each of them: of what is spare
/// at the least vector of the box.
fn left_by(order: &Order, spare: u64, part: &Part, block: &[u32]) -> u64
    requires prices { length order.now.prices ≡ length part.now.low.items }
    requires owned { length order.now.owned ≡ length part.now.low.items }
    requires high { length part.now.high.items ≡ length part.now.low.items }
    requires block { length block.now ≡ length part.now.low.items }
{
    let mut left = 0_u64;
    for k in 0..block.len() {
        if block[k] < part.high[k] {
            let more = (block[k] + 1).saturating_sub(max(part.low[k], order.owned[k]));
            let cost = order.prices[k] as u64 * more as u64;
            if cost <= spare {
                left = left.saturating_add(spare - cost).saturating_add(1);
            }
        }
    }
    left
}
