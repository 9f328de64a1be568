//! Which rows of a table are parts of which.

ghost use Rattle.std.specs.Prelude.{◌≡◌, ℕ, ◌+◌, ◌<◌, ◌≤◌, length, map, string_bytes, IfOk};
ghost use Rattle.racp_links.specs.Phases.{is_phase};
ghost use Rattle.racp_tables.specs.Outlines.{AreParts, ArePartsById, ArePartsByLevel, IsPartByLevel};
ghost use Rattle.racp_tables.specs.Rows.{id_of};

use crate::row::Row;
use crate::ties::number_at;
use crate::within::whole_by_id;
use racp_links::is_phase;
use std::alloc::{AllocError, Global};

/// By what the rows of a table are parts of others.
#[derive(Drop)]
pub(crate) enum Outline {
    /// By their ids.
    ById,
    /// By their levels, one for each row.
    ByLevel(Vec<u64>),
}

/// Of rows with these ids, by places, the number of the one that each is a part of; 0 if it is a part of none.
pub(crate) fn parents_of(
    alloc: Global,
    ids: &[String],
    outline: &Outline,
) -> Result<Vec<u32>, AllocError>
    ensures { IfOk result (λ parents. AreParts outline.now (map string_bytes ids.now) parents.items) }
{
    match outline {
        Outline::ById => parents_by_id(alloc, ids),
        Outline::ByLevel(levels) => parents_by_level(alloc, levels),
    }
}

/// The same of rows that were read.
pub(crate) fn parents_of_rows(
    alloc: Global,
    rows: &[Row],
    outline: &Outline,
) -> Result<Vec<u32>, AllocError>
    ensures { IfOk result (λ parents. AreParts outline.now (map id_of rows.now) parents.items) }
{
    let ids = ids_of(alloc, rows)?;
    parents_of(alloc, &ids, outline)
}

/// The ids of rows.
fn ids_of(alloc: Global, rows: &[Row]) -> Result<Vec<String>, AllocError>
    ensures { IfOk result (λ ids. map string_bytes ids.items ≡ map id_of rows.now) }
{
    let mut ids = Vec::new(alloc);
    for row in rows {
        ids.push(String::from_str(alloc, row.id.as_str())?)?;
    }
    Ok(ids)
}

/// The same by ids.
fn parents_by_id(alloc: Global, ids: &[String]) -> Result<Vec<u32>, AllocError>
    ensures { IfOk result (λ parents. ArePartsById (map string_bytes ids.now) parents.items) }
{
    let mut parents = Vec::new(alloc);
    for place in 0..ids.len() {
        let parent = as_number(whole_by_id(ids, place))?;
        parents.push(parent)?;
    }
    Ok(parents)
}

/// The same by levels.
fn parents_by_level(alloc: Global, levels: &[u64]) -> Result<Vec<u32>, AllocError>
    ensures { IfOk result (λ parents. ArePartsByLevel levels.now parents.items) }
{
    let mut parents = Vec::new(alloc);
    for place in 0..levels.len() {
        let parent = as_number(whole_by_level(levels, place))?;
        parents.push(parent)?;
    }
    Ok(parents)
}

/// The number of the nearest row above the one at a place with a lesser level; 0 if there is none.
fn whole_by_level(levels: &[u64], place: usize) -> usize
    requires { place < length levels.now }
    ensures { IsPartByLevel levels.now place result }
{
    let mut number = 0;
    for earlier in 0..place {
        if levels[earlier] < levels[place] {
            number = earlier + 1;
        }
    }
    number
}

/// A number of a row; there are far fewer rows than numbers.
fn as_number(number: usize) -> Result<u32, AllocError>
    ensures { IfOk result (λ narrow. narrow ≡ number) }
{
    match u32::try_from(number) {
        Ok(number) => Ok(number),
        Err(_) => Err(AllocError),
    }
}

/// Whether the row at a place is a phase.
pub(crate) fn is_phase_at(parents: &[u32], place: usize) -> Result<bool, AllocError>
    ensures { IfOk result (λ answer. answer ≡ is_phase parents.now (place + 1)) }
{
    let number = number_at(place)?;
    Ok(is_phase(parents, number))
}

/// How many rows are no phases.
pub(crate) fn count_leaves(parents: &[u32]) -> Result<usize, AllocError> {
    let mut count = 0usize;
    for place in 0..parents.len() {
        if !is_phase_at(parents, place)? {
            count = count.saturating_add(1);
        }
    }
    Ok(count)
}
