//! How capacity vectors of a certificate stand to each other.

ghost use Rattle.std.specs.Prelude.{◌≡◌, ◌↔◌, ◌≤◌, ℕ, ◌<◌, IsTrue, IsSome, IfSome, IfNone, Contains, length, slice_index, slice_index_or};
ghost use Rattle.racp_model.specs.Terms.{IsBefore};
ghost use Rattle.racp_trees.specs.Enough.{IsAtMost, IsBlockAnswer, IsClaim};

use crate::claim::Claim;
use racp_prices::cost_of;
use std::cmp::Ordering;

/// Whether a capacity vector stands before the capacities.
pub(crate) fn is_before(claim: &Claim, vector: &[u32]) -> bool
    requires claim { IsClaim claim.now }
    requires vector { length vector.now ≡ claim.now.net.now.resources }
    ensures { IsTrue result ↔ IsBefore claim.now.order.now vector.now claim.now.capacities.now }
{
    let (net, order, capacities) = (claim.net, claim.order, claim.capacities);
    let (cost, other) = (cost_of(net, order, vector), cost_of(net, order, capacities));
    cost.cmp(&other).then(vector.cmp(capacities)) == Ordering::Less
}

/// Whether no number is above the one at its place in another list.
pub(crate) fn is_at_most(first: &[u32], second: &[u32]) -> bool
    requires { length second.now ≡ length first.now }
    ensures { IsTrue result ↔ IsAtMost (length first.now) first.now second.now }
{
    (0..first.len()).all(|k| first[k] <= second[k])
}

/// The place of the first block at or above a vector.
pub(crate) fn first_above(blocks: &[Vec<u32>], vector: &[u32]) -> Option<usize>
    requires { (k : ℕ) → k < length blocks.now → (d : _) → length (slice_index_or blocks.now k d).items ≡ length vector.now }
    ensures { IsBlockAnswer blocks.now vector.now result }
{
    for k in 0..blocks.len() {
        if is_at_most(vector, &blocks[k]) {
            return Some(k);
        }
    }
    None
}
