//! Numbers of an order that are out of their range.

use crate::faults::THERE;
use crate::faults::order_text::table::{ARRAYS, items_of};
use crate::faults::wanted::push_wanted;
use racp_model::limits;
use std::alloc::AllocError;
use toml::{Table, Value};

/// The greatest price.
const MOST_PRICE: i64 = limits::MOST_PRICE as i64;

/// The greatest of the other numbers.
const MOST: i64 = limits::LATEST_TIME as i64;

/// Adds the first number that is out of its range.
pub(crate) fn push_out_of_range(text: &mut String, table: &Table) -> Result<(), AllocError> {
    match deadline_out(table) {
        Some(number) => write!(
            text,
            "a deadline from 0 to 10,000,000{THERE}deadline = {number}"
        ),
        None => push_out_of_array(text, array_out(table)),
    }
}

/// The deadline, if it is out of its range.
fn deadline_out(table: &Table) -> Option<i64> {
    let number = table.get("deadline")?.as_integer()?;
    if is_within(number, MOST) {
        None
    } else {
        Some(number)
    }
}

/// Whether a number is at least 0, and at most another.
fn is_within(number: i64, most: i64) -> bool {
    0 <= number && number <= most
}

/// Adds the number of an array that is out of its range.
fn push_out_of_array(text: &mut String, out: Option<(&str, usize, i64)>) -> Result<(), AllocError> {
    match out {
        Some((key, place, number)) => {
            let most = most_of(key);
            write!(
                text,
                "{key} from 0 to {most}{THERE}{number}, as number {place} of {key}"
            )
        }
        None => push_wanted(text, "numbers in their range"),
    }
}

/// The first number of an array that is out of its range, by the key of the array and its place there, from 1.
fn array_out(table: &Table) -> Option<(&'static str, usize, i64)> {
    for &key in ARRAYS {
        if let Some((place, number)) = first_out(table.get(key), most_of(key)) {
            return Some((key, place, number));
        }
    }
    None
}

/// The greatest number that an array may have.
fn most_of(key: &str) -> i64 {
    if key == "prices" { MOST_PRICE } else { MOST }
}

/// The first number of an array that is below 0 or above `most`, with its place, from 1.
fn first_out(value: Option<&Value>, most: i64) -> Option<(usize, i64)> {
    let mut place = 1usize;
    for item in items_of(value)? {
        let number = item.as_integer()?;
        if !is_within(number, most) {
            return Some((place, number));
        }
        place = place.saturating_add(1);
    }
    None
}
