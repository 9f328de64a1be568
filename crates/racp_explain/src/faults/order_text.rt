//! What is wrong with an order.

mod counts;
mod keys;
mod ranges;
mod table;
mod whole;

use crate::faults::line_of::{is_line_feed, line_at, push_shown};
use crate::faults::wanted::push_wanted;
use counts::push_wrong_count;
use keys::{push_missing, push_unknown};
use racp_prices::OrderFault;
use ranges::push_out_of_range;
use std::alloc::{AllocError, Global};
use table::push_value;
use toml::Table;
use whole::push_not_whole;

/// How many numbers an array of an order has, and for what.
#[derive(Clone, Copy)]
pub(crate) struct Sizes<'a> {
    /// The name of the network.
    pub net: &'a str,
    /// How many resources it has.
    pub resources: usize,
    /// How many jobs it has.
    pub jobs: usize,
}

/// Adds what an order has to have where it has this fault, and what it has.
///
/// # Errors
///
/// Memory was refused.
pub(crate) fn push_order_finding(
    alloc: Global,
    text: &mut String,
    fault: OrderFault,
    bytes: &[u8],
    sizes: Sizes<'_>,
) -> Result<(), AllocError> {
    let Ok(order) = std::str::from_utf8(bytes) else {
        push_wanted(text, "a text in UTF-8")?;
        return text.push_str("bytes that are not UTF-8");
    };
    match toml::table_from_str(alloc, order) {
        Ok(table) => push_table_finding(text, fault, &table, sizes),
        Err(error) if error.is_memory() => Err(AllocError),
        Err(error) => push_no_toml(text, bytes, start_of(&error), error.message()),
    }
}

/// The byte at which a text is no TOML.
fn start_of(error: &toml::de::Error) -> usize {
    match error.span() {
        Some(span) => span.start,
        None => 0,
    }
}

/// Adds what is no TOML, at this byte, and why.
fn push_no_toml(
    text: &mut String,
    bytes: &[u8],
    start: usize,
    message: &str,
) -> Result<(), AllocError> {
    let line = line_number(bytes, start);
    push_wanted(text, "lines as 'deadline = 4' and 'prices = [10]'")?;
    write!(text, "line {line}: ")?;
    push_shown(text, line_at(bytes, line))?;
    write!(text, ": {message}")
}

/// The number, from 1, of the line in which this byte stands.
fn line_number(bytes: &[u8], start: usize) -> usize {
    let before = bytes.get(..start).unwrap_or(bytes);
    before.split(is_line_feed).count()
}

/// Adds what a table has to have, and what it has.
fn push_table_finding(
    text: &mut String,
    fault: OrderFault,
    table: &Table,
    sizes: Sizes<'_>,
) -> Result<(), AllocError> {
    match fault {
        OrderFault::Missing => push_missing(text, table),
        OrderFault::Unknown => push_unknown(text, table),
        OrderFault::NotWhole => push_not_whole(text, table),
        OrderFault::Range => push_out_of_range(text, table),
        OrderFault::Count => push_wrong_count(text, table, sizes),
        OrderFault::Version => push_version(text, table),
        _ => push_wanted(text, "enough memory"),
    }
}

/// Adds the version of an order.
fn push_version(text: &mut String, table: &Table) -> Result<(), AllocError> {
    push_wanted(text, "version = 2, or no version")?;
    push_value(text, "version", table.get("version"))
}
