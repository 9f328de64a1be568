//! What an order is to say, by the words for its terms.

use crate::deadline::deadline_of;
use racp_calendar::Calendar;
use racp_cli::{Asked, StreamFault, Time};
use racp_host::failure::{Failure, OptionFault};
use racp_prices::Factor;
use racp_values::{Quantity, ValueFault, values_of};
use racp_words::Terms;
use std::alloc::Global;

/// An option that lists values of the resources.
#[derive(Clone, Copy)]
struct ListOption {
    /// Its name, as it is written.
    name: &'static str,
    /// What it lists.
    quantity: Quantity,
}

/// The option for prices.
const PRICES: ListOption = ListOption {
    name: "--prices",
    quantity: Quantity::Price,
};

/// The option for owned units.
const OWNED: ListOption = ListOption {
    name: "--owned",
    quantity: Quantity::Units,
};

/// The option for ceilings.
const CEILING: ListOption = ListOption {
    name: "--ceiling",
    quantity: Quantity::Units,
};

/// The times from which and by which jobs run, by place from 0, as far as they are said.
#[derive(Drop)]
pub(crate) struct Times {
    /// The time from which each job may start.
    pub(crate) release: Option<Vec<u32>>,
    /// The time by which each job has to end.
    pub(crate) due: Option<Vec<u32>>,
}

impl Times {
    /// None are said.
    pub(crate) fn none() -> Times {
        Times {
            release: None,
            due: None,
        }
    }

    /// Whether some are said.
    pub(crate) fn are_said(&self) -> bool {
        self.release.is_some() || self.due.is_some()
    }
}

/// What an order is to say, by the words for its terms, for resources with these names, and with these times. A deadline may be
/// a date of the calendar.
pub(crate) fn asked_order(
    alloc: Global,
    terms: &Terms<'_>,
    calendar: Calendar<'_>,
    names: &[String],
    times: Times,
) -> Result<Asked, Failure> {
    let time = time_of(alloc, terms, calendar)?;
    let prices = listed(alloc, terms.prices, names, PRICES)?;
    let owned = optional_list(alloc, terms.owned, names, OWNED)?;
    let ceilings = optional_list(alloc, terms.ceiling, names, CEILING)?;
    let Times { release, due } = times;
    Ok(Asked {
        time,
        prices,
        owned,
        ceilings,
        release,
        due,
    })
}

/// The deadline that one of two words tells.
fn time_of(alloc: Global, terms: &Terms<'_>, calendar: Calendar<'_>) -> Result<Time, Failure> {
    match (terms.factor, terms.deadline) {
        (Some(factor), None) => match Factor::read(factor) {
            Some(factor) => Ok(Time::Factor(factor)),
            None => Err(Failure::Option(OptionFault::Factor)),
        },
        (None, Some(word)) => Ok(Time::Deadline(deadline_of(alloc, word, calendar)?)),
        _ => Err(Failure::Option(OptionFault::Time)),
    }
}

/// The values that the word of an option gives to resources with these names. Where there are no names, since the network is
/// refused, none are given by name.
fn listed(
    alloc: Global,
    word: &str,
    names: &[String],
    option: ListOption,
) -> Result<Vec<u32>, Failure> {
    if names.is_empty() && word.contains('=') {
        return Ok(Vec::new(alloc));
    }
    match values_of(alloc, word, names, option.quantity) {
        Ok(values) => Ok(values),
        Err(fault) => Err(refused(alloc, option, &fault)),
    }
}

/// The values that the word of an option gives, if there is one.
fn optional_list(
    alloc: Global,
    word: Option<&str>,
    names: &[String],
    option: ListOption,
) -> Result<Option<Vec<u32>>, Failure> {
    match word {
        Some(word) => Ok(Some(listed(alloc, word, names, option)?)),
        None => Ok(None),
    }
}

/// The failure of the word of an option.
fn refused(alloc: Global, option: ListOption, fault: &ValueFault) -> Failure {
    if matches!(fault, ValueFault::Memory) {
        return Failure::Stream(StreamFault::Memory);
    }
    match format!(in alloc; "{}: {fault}", option.name) {
        Ok(words) => Failure::Value(words),
        Err(_) => Failure::Stream(StreamFault::Memory),
    }
}
