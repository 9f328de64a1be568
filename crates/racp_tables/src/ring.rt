//! Tasks that wait for each other.

use crate::fault::TableFault;
use crate::row::Row;
use std::alloc::{AllocError, Global};

/// Tests that no task waits for itself. The fault names the tasks of the first ring that is found, each before the one
/// after which it comes.
pub(crate) fn test_rings(
    alloc: Global,
    rows: &[Row],
    pairs: &[(u32, u32)],
) -> Result<(), TableFault> {
    let ring = ring_of(alloc, pairs, rows.len())?;
    match ring.first().copied() {
        Some(place) => {
            let line = rows.get(place).map_or(0, |row| row.line);
            Err(TableFault::at(line, ring_words(alloc, rows, &ring)))
        }
        None => Ok(()),
    }
}

/// What is wrong with a ring of tasks.
fn ring_words(alloc: Global, rows: &[Row], ring: &[usize]) -> Result<String, AllocError> {
    let mut words = String::from_str(alloc, "no task can wait for itself:")?;
    for (step, place) in ring.iter().enumerate() {
        if let Some(row) = rows.get(*place) {
            let link = if step == 0 { "" } else { " after" };
            write!(words, "{link} '{}'", row.name)?;
        }
    }
    Ok(words)
}

/// The places of tasks of which each comes after the next, and the last is the first once more; none if no task waits for
/// itself.
fn ring_of(alloc: Global, pairs: &[(u32, u32)], count: usize) -> Result<Vec<usize>, AllocError> {
    let mut waits = vec![in alloc; true; count]?;
    for _round in 0..count {
        if !let_go(&mut waits, pairs) {
            break;
        }
    }
    walk(alloc, &waits, pairs)
}

/// Lets go of each task that waits, and comes after none that waits; says whether there is one.
fn let_go(waits: &mut [bool], pairs: &[(u32, u32)]) -> bool {
    let mut any = false;
    for place in 0..waits.len() {
        if waits[place] && before(waits, pairs, place).is_none() {
            waits[place] = false;
            any = true;
        }
    }
    any
}

/// The first task that waits and after which the one at this place comes.
fn before(waits: &[bool], pairs: &[(u32, u32)], place: usize) -> Option<usize> {
    for (front, back) in pairs {
        let front = (*front as usize).saturating_sub(1);
        let is_before = *back as usize == place.saturating_add(1);
        if is_before && waits.get(front).copied().unwrap_or(false) {
            return Some(front);
        }
    }
    None
}

/// A ring of tasks that wait: as many steps backwards as there are tasks end in one, and it is gone through once.
fn walk(alloc: Global, waits: &[bool], pairs: &[(u32, u32)]) -> Result<Vec<usize>, AllocError> {
    let mut ring = Vec::new(alloc);
    let Some(first) = waits.iter().position(|waits| *waits) else {
        return Ok(ring);
    };
    let mut place = first;
    for _step in 0..waits.len() {
        place = before(waits, pairs, place).unwrap_or(place);
    }
    let start = place;
    for _step in 0..waits.len() {
        ring.push(place)?;
        place = before(waits, pairs, place).unwrap_or(start);
        if place == start {
            break;
        }
    }
    ring.push(start)?;
    Ok(ring)
}
