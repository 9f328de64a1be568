//! Copies of lists of numbers.

ghost use Rattle.std.specs.Prelude.{◌≡◌, ◌<◌, length, set, IfOk};

use std::alloc::{AllocError, Global};

/// A copy with another number at one place.
pub(crate) fn copy_with(
    alloc: Global,
    numbers: &[u32],
    place: usize,
    number: u32,
) -> Result<Vec<u32>, AllocError>
    requires { place < length numbers.now }
    ensures { IfOk result (λ copy. copy.items ≡ set numbers.now place number) }
{
    let mut copy = numbers.to_vec(alloc)?;
    copy[place] = number;
    Ok(copy)
}

/// A copy of a list of numbers.
pub(crate) fn copy_list(alloc: Global, numbers: &[u32]) -> Result<Vec<u32>, AllocError>
    ensures { IfOk result (λ copy. copy.items ≡ numbers.now) }
{
    numbers.to_vec(alloc)
}
