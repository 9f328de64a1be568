//! The order of a table of tasks.

use crate::order::numbers_of;
use crate::terms::{Times, asked_order};
use racp_calendar::Calendar;
use racp_cli::{Asked, DONE, REFUSED, StreamFault, order_over};
use racp_explain::{asked_cause, one_line};
use racp_host::failure::{Failure, OptionFault};
use racp_host::inputs::text;
use racp_words::{TableWords, Terms};
use std::alloc::Global;

/// The text of the order that the words ask for, by a calendar, for the text of a network that is told of by a name, with these
/// resources, and with these times, if they ask for one.
pub(crate) fn order_of(
    alloc: Global,
    words: &TableWords<'_>,
    calendar: Calendar<'_>,
    network: (&str, &[u8]),
    resources: &[String],
    times: Times,
) -> Result<Option<Vec<u8>>, Failure> {
    let Some(prices) = words.prices else {
        return no_order(words, &times);
    };
    let terms = Terms {
        factor: words.factor,
        deadline: words.deadline,
        calendar: words.calendar,
        prices,
        owned: words.owned,
        ceiling: words.ceiling,
    };
    let asked = asked_order(alloc, &terms, calendar, resources, times)?;
    Ok(Some(order_text(alloc, network, asked)?))
}

/// No order, if the words for a table ask for none, which has no prices, and the table says nothing that stands in one.
fn no_order(words: &TableWords<'_>, times: &Times) -> Result<Option<Vec<u8>>, Failure> {
    let is_timed = words.factor.is_some() || words.deadline.is_some();
    if is_timed || words.owned.is_some() || words.ceiling.is_some() {
        return Err(Failure::Option(OptionFault::NoPrices));
    }
    if times.are_said() {
        return Err(Failure::Option(OptionFault::Times));
    }
    Ok(None)
}

/// The text of the order that is asked for, for the text of a network that is told of by a name.
fn order_text(alloc: Global, network: (&str, &[u8]), asked: Asked) -> Result<Vec<u8>, Failure> {
    let (name, network) = network;
    let numbers = numbers_of(&asked);
    let mut order = Vec::new(alloc);
    match order_written(alloc, network, asked, &mut order)? {
        DONE => Ok(order),
        REFUSED => {
            let cause = asked_cause(alloc, &text(name, network), numbers, true)?;
            Err(Failure::Refused(one_line(alloc, &cause)?))
        }
        // The network is read, so memory ran out.
        _ => Err(Failure::Stream(StreamFault::Memory)),
    }
}

/// Writes the order that is asked for, for the text of a network, and tells with which status. A text in memory takes what is
/// written, unless that is refused.
fn order_written(
    alloc: Global,
    network: &[u8],
    asked: Asked,
    order: &mut Vec<u8>,
) -> Result<u8, StreamFault> {
    let mut rest = network;
    match order_over(alloc, &mut rest, asked, order) {
        Err(StreamFault::Write) => Err(StreamFault::Memory),
        status => status,
    }
}
