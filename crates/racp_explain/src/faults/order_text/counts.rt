//! Arrays of an order with another number of elements than there are resources, or jobs.

use crate::faults::THERE;
use crate::faults::order_text::Sizes;
use crate::faults::order_text::table::{ARRAYS, items_of};
use crate::faults::wanted::push_wanted;
use std::alloc::AllocError;
use toml::{Table, Value};

/// Adds the first array with another number of elements than there are resources, or jobs.
pub(crate) fn push_wrong_count(
    text: &mut String,
    table: &Table,
    sizes: Sizes<'_>,
) -> Result<(), AllocError> {
    match wrong_array(table, sizes) {
        Some((key, found)) => push_count(text, key, found, sizes),
        None => push_wanted(text, "a number for each resource or job"),
    }
}

/// Adds how many elements an array has to have, and how many it has.
fn push_count(
    text: &mut String,
    key: &str,
    found: usize,
    sizes: Sizes<'_>,
) -> Result<(), AllocError> {
    let net = sizes.net;
    let count = count_of(key, sizes);
    let owners = if is_of_jobs(key) { "jobs" } else { "resources" };
    write!(
        text,
        "as many numbers as {net} has {owners}: {count}{THERE}{key} has so many: {found}"
    )
}

/// The first array with another number of elements than there are resources, or jobs, and that number.
fn wrong_array(table: &Table, sizes: Sizes<'_>) -> Option<(&'static str, usize)> {
    for &key in ARRAYS {
        if let Some(found) = other_count(table.get(key), count_of(key, sizes)) {
            return Some((key, found));
        }
    }
    None
}

/// How many elements an array has, if it has another number of them.
fn other_count(value: Option<&Value>, count: usize) -> Option<usize> {
    let found = items_of(value)?.len();
    if found == count { None } else { Some(found) }
}

/// How many elements an array has to have.
fn count_of(key: &str, sizes: Sizes<'_>) -> usize {
    if is_of_jobs(key) {
        sizes.jobs
    } else {
        sizes.resources
    }
}

/// Whether an array has an element for each job.
fn is_of_jobs(key: &str) -> bool {
    key == "release" || key == "due"
}
