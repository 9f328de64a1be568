//! Boxes of capacity vectors, and the parts of a box that are above a block.

ghost use Rattle.std.specs.Prelude.{◌≡◌, ◌<◌, ℕ, IfOk, OnOk, length, slice_index, set};
ghost use Rattle.racp_trees.specs.Enough.{IsPartAt, ArePartsAdded, IsCutBefore};

use std::alloc::{AllocError, Global};

/// The capacity vectors between two.
#[derive(Drop)]
pub(crate) struct Part {
    pub(crate) low: Vec<u32>,
    pub(crate) high: Vec<u32>,
}

/// Adds the parts of a box in which the vectors are above a block: one for each place that can be the first such place.
pub(crate) fn push_parts(
    alloc: Global,
    parts: &mut Vec<Part>,
    low: &[u32],
    high: &[u32],
    block: &[u32],
) -> Result<(), AllocError>
    requires high { length high.now ≡ length low.now }
    requires block { length block.now ≡ length low.now }
    ensures { OnOk result (ArePartsAdded (length low.now) low.now high.now block.now parts.old.items parts.new.items) }
{
    for k in 0..low.len() {
        if block[k] < high[k] {
            parts.push(part_at(alloc, low, high, block, k)?)?;
        }
    }
    Ok(())
}

/// The part in which the first place above the block is this one.
fn part_at(
    alloc: Global,
    low: &[u32],
    high: &[u32],
    block: &[u32],
    k: usize,
) -> Result<Part, AllocError>
    requires high { length high.now ≡ length low.now }
    requires block { length block.now ≡ length low.now }
    requires place { k < length low.now }
    requires room { slice_index block.now k < slice_index high.now k }
    ensures { IfOk result (IsPartAt (length low.now) low.now high.now block.now k) }
{
    let low = raised(alloc, low, k, block[k] + 1)?;
    let high = cut_before(alloc, high, block, k)?;
    Ok(Part { low, high })
}

/// A copy with another number at one place.
fn raised(alloc: Global, numbers: &[u32], k: usize, number: u32) -> Result<Vec<u32>, AllocError>
    requires { k < length numbers.now }
    ensures { IfOk result (λ copy. copy.items ≡ set numbers.now k number) }
{
    let mut copy = numbers.to_vec(alloc)?;
    copy[k] = number;
    Ok(copy)
}

/// A copy with the numbers before a place cut to those of another list.
fn cut_before(
    alloc: Global,
    numbers: &[u32],
    most: &[u32],
    end: usize,
) -> Result<Vec<u32>, AllocError>
    requires most { length most.now ≡ length numbers.now }
    requires end { end < length numbers.now }
    ensures { IfOk result (λ copy. IsCutBefore numbers.now most.now end copy.items) }
{
    let mut copy = numbers.to_vec(alloc)?;
    cut(&mut copy, most, end);
    Ok(copy)
}

/// Cuts the numbers before a place to those of another list.
fn cut(numbers: &mut [u32], most: &[u32], end: usize)
    requires most { length most.now ≡ length numbers.old }
    requires end { end < length numbers.old }
    ensures { IsCutBefore numbers.old most.now end numbers.new }
{
    for q in 0..end {
        if most[q] < numbers[q] {
            numbers[q] = most[q];
        }
    }
}
