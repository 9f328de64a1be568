//! Keys of an order that are missing, or unknown.

use crate::faults::THERE;
use crate::faults::line_of::push_quoted;
use crate::faults::order_text::table::ARRAYS;
use crate::faults::wanted::push_wanted;
use std::alloc::AllocError;
use toml::Table;

/// Adds the key that is missing, and one like it that is there.
pub(crate) fn push_missing(text: &mut String, table: &Table) -> Result<(), AllocError> {
    let key = missing_key(table);
    write!(text, "the key {key}{THERE}no such key")?;
    match key_like(table, key) {
        Some(other) => push_key(text, ", but the key ", other),
        None => Ok(()),
    }
}

/// The first key that has to be there and is not.
fn missing_key(table: &Table) -> &'static str {
    if table.get("deadline").is_none() {
        "deadline"
    } else {
        "prices"
    }
}

/// Adds these words and a key of an order.
fn push_key(text: &mut String, words: &str, key: &str) -> Result<(), AllocError> {
    text.push_str(words)?;
    push_quoted(text, key.as_bytes())
}

/// The first key that is like this one.
fn key_like<'a>(table: &'a Table, key: &str) -> Option<&'a str> {
    for other in table.keys() {
        if is_like(other, key) {
            return Some(other.as_str());
        }
    }
    None
}

/// Whether two keys begin with the same four letters, whatever their case.
fn is_like(other: &str, key: &str) -> bool {
    match (other.as_bytes().get(..4), key.as_bytes().get(..4)) {
        (Some(other), Some(key)) => other.eq_ignore_ascii_case(key),
        _ => false,
    }
}

/// Adds the keys of the version, and the first that is none of them.
pub(crate) fn push_unknown(text: &mut String, table: &Table) -> Result<(), AllocError> {
    let has_version = table.get("version").is_some();
    push_wanted(text, known_keys(has_version))?;
    match unknown_key(table, has_version) {
        Some(key) => push_key(text, "the key ", key),
        None => text.push_str("the key"),
    }
}

/// The keys that an order may have.
fn known_keys(has_version: bool) -> &'static str {
    if has_version {
        "the keys version, deadline, prices, owned, ceiling, release and due alone"
    } else {
        "the keys deadline and prices alone, where there is no 'version = 2'"
    }
}

/// The first key that no order of the version has.
fn unknown_key(table: &Table, has_version: bool) -> Option<&str> {
    for key in table.keys() {
        if !is_known(key, has_version) {
            return Some(key.as_str());
        }
    }
    None
}

/// Whether an order may have this key.
fn is_known(key: &str, has_version: bool) -> bool {
    key == "deadline" || key == "prices" || has_version && is_of_version(key)
}

/// Whether an order with a version may have this key, beside the deadline and the prices.
fn is_of_version(key: &str) -> bool {
    for other in ARRAYS {
        if *other == key {
            return true;
        }
    }
    key == "version"
}
