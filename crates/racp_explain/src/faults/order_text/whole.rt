//! Values of an order that are no whole numbers.

use crate::faults::THERE;
use crate::faults::order_text::table::{ARRAYS, items_of, push_value};
use crate::faults::wanted::push_wanted;
use std::alloc::AllocError;
use toml::{Table, Value};

/// The keys of an order with one number, in the order in which they are read.
const NUMBERS: &[&str] = &["version", "deadline"];

/// Adds the first value that is no whole number, or no array of them.
pub(crate) fn push_not_whole(text: &mut String, table: &Table) -> Result<(), AllocError> {
    match number_not_whole(table) {
        Some(key) => push_no_number(text, key, table.get(key)),
        None => push_no_array(text, table),
    }
}

/// The first key whose value is not one whole number, if it has to be.
fn number_not_whole(table: &Table) -> Option<&'static str> {
    for &key in NUMBERS {
        if is_no_number(table.get(key)) {
            return Some(key);
        }
    }
    None
}

/// Whether a value is there, and is not one whole number.
fn is_no_number(value: Option<&Value>) -> bool {
    match value {
        Some(value) => !value.is_integer(),
        None => false,
    }
}

/// Adds a value that is not one whole number.
fn push_no_number(text: &mut String, key: &str, value: Option<&Value>) -> Result<(), AllocError> {
    write!(text, "{key} as a whole number{THERE}")?;
    push_value(text, key, value)
}

/// Adds the first value that is no array of whole numbers.
fn push_no_array(text: &mut String, table: &Table) -> Result<(), AllocError> {
    match array_not_whole(table) {
        Some(key) => {
            write!(
                text,
                "{key} as an array of whole numbers, in brackets{THERE}"
            )?;
            push_array(text, key, table.get(key))
        }
        None => push_wanted(text, "whole numbers"),
    }
}

/// The first key whose value is no array of whole numbers, if it has to be.
fn array_not_whole(table: &Table) -> Option<&'static str> {
    for &key in ARRAYS {
        if is_no_array(table.get(key)) {
            return Some(key);
        }
    }
    None
}

/// Whether a value is there, and is no array of whole numbers.
fn is_no_array(value: Option<&Value>) -> bool {
    match items_of(value) {
        Some(items) => first_not_whole(items).is_some(),
        None => value.is_some(),
    }
}

/// Adds what stands in place of an array of whole numbers.
fn push_array(text: &mut String, key: &str, value: Option<&Value>) -> Result<(), AllocError> {
    match items_of(value) {
        Some(items) => push_item(text, key, first_not_whole(items)),
        None => push_value(text, key, value),
    }
}

/// The first element that is no whole number, by its place, from 1, and its type.
fn first_not_whole(items: &[Value]) -> Option<(usize, &'static str)> {
    let mut place = 1usize;
    for item in items {
        if !item.is_integer() {
            return Some((place, item.type_str()));
        }
        place = place.saturating_add(1);
    }
    None
}

/// Adds the place and the type of an element, or else the key of the array.
fn push_item(text: &mut String, key: &str, item: Option<(usize, &str)>) -> Result<(), AllocError> {
    match item {
        Some((place, kind)) => write!(text, "its number {place} is of the type {kind}"),
        None => text.push_str(key),
    }
}
