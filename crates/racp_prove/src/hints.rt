//! Capacities that are not enough, of which a certificate may make blocks.

use racp_by_questions::Sharp;
use racp_model::Capacities;
use std::alloc::{AllocError, Global};

/// Capacities that are not enough, where the floors are sharpened: of each resource one unit less than its floor, and of
/// each refuted pair both floors, with the roofs of the other resources.
pub(crate) fn hints_of(
    alloc: Global,
    sharp: &Option<Sharp>,
    roofs: &Capacities,
) -> Result<Vec<Vec<u32>>, AllocError> {
    let mut hints = Vec::new(alloc);
    let Some(sharp) = sharp else {
        return Ok(hints);
    };
    let (floors, roofs) = (sharp.floors.as_slice(), roofs.as_slice());
    for k in 0..floors.len() {
        if floors[k] > 0 {
            let mut hint = roofs.to_vec(alloc)?;
            put(&mut hint, k, floors[k] - 1);
            hints.push(hint)?;
        }
    }
    for (first, second) in &sharp.pairs {
        let mut hint = roofs.to_vec(alloc)?;
        put_floor(&mut hint, floors, *first);
        put_floor(&mut hint, floors, *second);
        hints.push(hint)?;
    }
    Ok(hints)
}

/// Writes the floor of the resource with this number to its place.
fn put_floor(hint: &mut [u32], floors: &[u32], resource: u32) {
    let k = (resource as usize).saturating_sub(1);
    if k < floors.len() {
        put(hint, k, floors[k]);
    }
}

/// Writes a number of units to a place, if there is such a place.
fn put(hint: &mut [u32], k: usize, units: u32) {
    if k < hint.len() {
        hint[k] = units;
    }
}
