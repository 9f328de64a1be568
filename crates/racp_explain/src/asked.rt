//! What is wrong with an order that is to be written.

use crate::cause::of_network;
use crate::input::Input;
use racp_cpm::longest;
use racp_model::Network;
use racp_model::limits::{LATEST_TIME, MOST_PRICE, MOST_UNITS};
use racp_prices::Factor;
use racp_sm::read_sm;
use std::alloc::{AllocError, Global};

/// What is told of a list of numbers, one for each resource.
#[derive(Clone, Copy)]
pub struct Listed {
    /// How many numbers there are.
    pub count: usize,
    /// The greatest of them; 0 if there are none.
    pub greatest: u32,
}

impl Listed {
    /// What is told of these numbers.
    pub fn of(numbers: &[u32]) -> Listed {
        let mut greatest = 0u32;
        for number in numbers {
            greatest = greatest.max(*number);
        }
        Listed {
            count: numbers.len(),
            greatest,
        }
    }
}

/// What an order is to say, as far as it is told what is wrong with it.
#[derive(Clone, Copy)]
pub struct Numbers {
    /// The deadline, if it is told itself.
    pub deadline: Option<u32>,
    /// By what the critical length is multiplied, if the deadline is told in this way.
    pub factor: Option<Factor>,
    /// The prices.
    pub prices: Listed,
    /// The numbers of owned units, if any are told.
    pub owned: Option<Listed>,
    /// The ceilings, if any are told.
    pub ceilings: Option<Listed>,
}

/// What is wrong with the network, or with the order that is asked for it, in lines that begin with `racp: `: a list with
/// another number of elements than there are resources; if the order is refused, the first number that is out of its range;
/// a deadline that is too late for a deadline or before the critical length; and, if the order is refused for another
/// reason, the ranges of its numbers. Else nothing.
///
/// # Errors
///
/// Memory was refused.
pub fn asked_cause(
    alloc: Global,
    net: &Input<'_>,
    numbers: Numbers,
    is_refused: bool,
) -> Result<String, AllocError> {
    match read_sm(alloc, net.bytes) {
        Ok(network) => of_numbers(alloc, net.name, &network, &numbers, is_refused),
        Err(fault) => of_network(alloc, net, fault),
    }
}

/// What is wrong with the order that is asked for a network.
fn of_numbers(
    alloc: Global,
    name: &str,
    net: &Network,
    numbers: &Numbers,
    is_refused: bool,
) -> Result<String, AllocError> {
    let mut text = String::new(alloc);
    let resources = net.resource_count();
    if let Some((word, found)) = other_count(numbers, resources) {
        push_count(&mut text, name, resources, word, found)?;
        return Ok(text);
    }
    if is_refused && let Some(great) = too_great(numbers) {
        push_great(&mut text, great)?;
        return Ok(text);
    }
    let release = vec![in alloc; 0; net.job_count()]?;
    let critical = longest(alloc, net, &release)?;
    push_deadline(&mut text, name, critical, deadline_of(numbers, critical))?;
    if text.is_empty() && is_refused {
        text.push_str(RANGES)?;
    }
    Ok(text)
}

/// What is told of a deadline.
const LATEST: &str = "a deadline is at most 10,000,000";

/// What is told of a price.
const DEAREST: &str = "a price is at most 1,000,000";

/// What is told of a number of units.
const MOST: &str = "a number of units is at most 10,000,000";

/// The ranges of the numbers of an order.
const RANGES: &str =
    "racp: a deadline and a number of units are at most 10,000,000, and a price is at most 1,000,000\n";

/// A number that is out of its range.
#[derive(Clone, Copy)]
struct TooGreat {
    /// The option that says it, and what stands before the number.
    says: &'static str,
    /// The number.
    found: u32,
    /// The greatest that there may be, in words.
    limit: &'static str,
}

/// The first number that is out of its range, if there is one.
fn too_great(numbers: &Numbers) -> Option<TooGreat> {
    let lists = [
        ("--deadline is", numbers.deadline, LATEST_TIME, LATEST),
        (
            "--prices has",
            Some(numbers.prices.greatest),
            MOST_PRICE,
            DEAREST,
        ),
        ("--owned has", greatest_of(numbers.owned), MOST_UNITS, MOST),
        (
            "--ceiling has",
            greatest_of(numbers.ceilings),
            MOST_UNITS,
            MOST,
        ),
    ];
    for (says, found, most, limit) in lists {
        if let Some(found) = found {
            if found > most {
                return Some(TooGreat { says, found, limit });
            }
        }
    }
    None
}

/// The greatest number of a list, if there is a list.
fn greatest_of(list: Option<Listed>) -> Option<u32> {
    match list {
        Some(list) => Some(list.greatest),
        None => None,
    }
}

/// Adds that a number is out of its range.
fn push_great(text: &mut String, great: TooGreat) -> Result<(), AllocError> {
    let TooGreat { says, found, limit } = great;
    writeln!(text, "racp: {says} {found}; {limit}")
}

/// Adds that a list has another number of elements than there are resources.
fn push_count(
    text: &mut String,
    name: &str,
    resources: usize,
    word: &str,
    found: usize,
) -> Result<(), AllocError> {
    if resources == 1 {
        return writeln!(text, "racp: {name} has 1 resource; {word} has {found}");
    }
    writeln!(
        text,
        "racp: {name} has {resources} resources (R 1 .. R {resources}); {word} has {found}"
    )
}

/// Adds that a deadline is later than one may be, or before the critical length.
fn push_deadline(
    text: &mut String,
    name: &str,
    critical: u64,
    deadline: Option<u32>,
) -> Result<(), AllocError> {
    match deadline {
        Some(deadline) if (deadline as u64) < critical => push_early(
            text, name, critical, deadline,
        ),
        Some(_) => Ok(()),
        None => writeln!(
            text,
            "racp: {name} has the critical length {critical}; a deadline is at most 10,000,000"
        ),
    }
}

/// Adds that a deadline is before the critical length.
fn push_early(
    text: &mut String,
    name: &str,
    critical: u64,
    deadline: u32,
) -> Result<(), AllocError> {
    writeln!(
        text,
        "racp: {name}: the deadline {deadline} is before the critical length {critical}, so nothing can be planned"
    )
}

/// The deadline; `None` if it is later than a deadline may be.
fn deadline_of(numbers: &Numbers, critical: u64) -> Option<u32> {
    match (numbers.deadline, numbers.factor) {
        (Some(deadline), _) => Some(deadline),
        (None, Some(factor)) => factor.deadline(critical),
        (None, None) => None,
    }
}

/// The word of the first list with another number of elements than there are resources, and how many it has.
fn other_count(numbers: &Numbers, resources: usize) -> Option<(&'static str, usize)> {
    let lists = [
        ("--prices", Some(numbers.prices)),
        ("--owned", numbers.owned),
        ("--ceiling", numbers.ceilings),
    ];
    for (word, list) in lists {
        if let Some(list) = list {
            if list.count != resources {
                return Some((word, list.count));
            }
        }
    }
    None
}
