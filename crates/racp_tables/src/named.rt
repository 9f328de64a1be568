//! The tasks that words name.

ghost use Rattle.std.specs.Prelude.{◌≡◌, ◌<◌, IfSome, drop, length, position};
ghost use Rattle.std.specs.List.{list_any};
ghost use Rattle.racp_tables.specs.Called.{has_id, has_name, ids_from, is_in_range, only_named, place_of_id, range_named, rising, task_named};

use crate::amount::whole_number;
use crate::beginning::beginning;
use crate::pieces::parts_at;
use crate::row::Row;
use crate::similar::similar_name;
use std::alloc::{AllocError, Global};

/// The place of the task that a word names, from 0.
#[derive(Clone, Copy)]
pub(crate) enum Named {
    One(usize),
    None,
    Several,
}

/// The task with this id; or else the only one with this name.
pub(crate) fn task_of(rows: &[Row], word: &str) -> Named
    ensures { result ≡ task_named rows.now word.now }
{
    match place_of_id(rows, word) {
        Some(place) => Named::One(place),
        None => only_named(rows, word),
    }
}

/// The place of the first task with this id.
fn place_of_id(rows: &[Row], word: &str) -> Option<usize>
    ensures { result ≡ place_of_id rows.now word.now }
{
    if word.is_empty() {
        return None;
    }
    for (place, row) in rows.iter().enumerate() {
        if row.id.as_str() == word {
            return Some(place);
        }
    }
    None
}

/// The only task with this name.
fn only_named(rows: &[Row], word: &str) -> Named
    ensures { result ≡ only_named rows.now word.now (position (has_name word.now) rows.now) }
{
    match place_of_name(rows, word) {
        Some(place) => {
            if is_named_from(rows, word, place + 1) {
                Named::Several
            } else {
                Named::One(place)
            }
        }
        None => Named::None,
    }
}

/// The place of the first task with this name.
fn place_of_name(rows: &[Row], word: &str) -> Option<usize>
    ensures place { result ≡ position (has_name word.now) rows.now }
    ensures within { IfSome result (λ place. place < length rows.now) }
{
    for (place, row) in rows.iter().enumerate() {
        if row.name.as_str() == word {
            return Some(place);
        }
    }
    None
}

/// Whether a task from this place on has this name.
fn is_named_from(rows: &[Row], word: &str, first: usize) -> bool
    ensures { result ≡ list_any (has_name word.now) (drop first rows.now) }
{
    for place in first..rows.len() {
        if rows[place].name.as_str() == word {
            return true;
        }
    }
    false
}

/// The numbers between which a word such as `1-4` names tasks, if the first and the last are ids.
pub(crate) fn range_of(rows: &[Row], word: &str) -> Option<(u64, u64)>
    ensures { result ≡ range_named rows.now word.now }
{
    match parts_at(word, '-') {
        Some((front, back)) => ids_from(rows, front.trim(), back.trim()),
        None => None,
    }
}

/// The numbers from one id to another.
fn ids_from(rows: &[Row], front: &str, back: &str) -> Option<(u64, u64)>
    ensures { result ≡ ids_from rows.now front.now back.now }
{
    if !is_id(rows, front) || !is_id(rows, back) {
        return None;
    }
    rising(whole_number(front), whole_number(back))
}

/// Two numbers, if the first is the lower one.
fn rising(first: Option<u64>, last: Option<u64>) -> Option<(u64, u64)>
    ensures { result ≡ rising first last }
{
    match first {
        Some(first) => match last {
            Some(last) => {
                if first < last {
                    Some((first, last))
                } else {
                    None
                }
            }
            None => None,
        },
        None => None,
    }
}

/// Whether a task has this id.
fn is_id(rows: &[Row], word: &str) -> bool
    ensures { result ≡ list_any (has_id word.now) rows.now }
{
    for row in rows {
        if row.id.as_str() == word {
            return true;
        }
    }
    false
}

/// Whether the id of a row is a number from the first to the last.
pub(crate) fn is_within(row: &Row, range: (u64, u64)) -> bool
    ensures { result ≡ is_in_range range row.now }
{
    match whole_number(row.id.as_str()) {
        Some(id) => range.0 <= id && id <= range.1,
        None => false,
    }
}

/// What is wrong with a word in a column of this name that names no task.
pub(crate) fn no_task(
    alloc: Global,
    rows: &[Row],
    column: &str,
    word: &str,
) -> Result<String, AllocError> {
    let told = beginning(alloc, word)?;
    match similar_name(alloc, rows, word)? {
        Some(name) => format!(in alloc; "{column} '{told}' is no task; similar: '{name}'"),
        None => format!(in alloc; "{column} '{told}' is no task"),
    }
}
