//! Why there is no plan for an order.

ghost use Rattle.std.specs.Prelude.{◌≡◌};
ghost use Rattle.racp_model.specs.Terms.{AreTermsOf};

use crate::explain::push_title;
use crate::faults::{push_no_room, push_too_late, push_too_long};
use crate::finding::{push_more, push_short};
use crate::subject::{Line, Subject};
use racp_model::Network;
use racp_prices::Order;
use racp_root::{Opening, opening_of};
use std::alloc::{AllocError, Global};

/// Why there is no plan for an order, as far as it is known.
pub(crate) fn of_opening(
    alloc: Global,
    net: &Network,
    name: &str,
    order: &Order,
) -> Result<String, AllocError>
    requires { AreTermsOf net.now order.now }
{
    let mut text = String::new(alloc);
    push_opening(alloc, &mut text, net, name, order)?;
    Ok(text)
}

/// Adds why there is no plan for an order, as far as it is known.
fn push_opening(
    alloc: Global,
    text: &mut String,
    net: &Network,
    name: &str,
    order: &Order,
) -> Result<(), AllocError>
    requires { AreTermsOf net.now order.now }
{
    match opening_of(alloc, net, order)? {
        Opening::TooLong { critical } => push_deadline(text, name, order, critical),
        Opening::TooLate { job } => push_due(alloc, text, net, name, order, job),
        Opening::Root { .. } => push_ceilings(text, name, order),
    }
}

/// Adds that the deadline of an order is too early.
fn push_deadline(
    text: &mut String,
    name: &str,
    order: &Order,
    critical: u64,
) -> Result<(), AllocError> {
    push_line(text, name, Line::TooLate)?;
    push_too_long(text, order, critical)?;
    push_more(text, Subject::Line(Line::TooLate))
}

/// Adds that a job cannot end by its due time.
fn push_due(
    alloc: Global,
    text: &mut String,
    net: &Network,
    name: &str,
    order: &Order,
    job: u32,
) -> Result<(), AllocError>
    requires { AreTermsOf net.now order.now }
{
    push_line(text, name, Line::Due)?;
    push_too_late(alloc, text, net, order, job)?;
    push_more(text, Subject::Line(Line::Due))
}

/// Adds that the ceilings of an order are too low, if it has any.
fn push_ceilings(text: &mut String, name: &str, order: &Order) -> Result<(), AllocError> {
    match &order.ceilings {
        Some(ceilings) => push_low(text, name, order, ceilings),
        None => Ok(()),
    }
}

/// Adds that these ceilings are too low.
fn push_low(
    text: &mut String,
    name: &str,
    order: &Order,
    ceilings: &[u32],
) -> Result<(), AllocError> {
    push_line(text, name, Line::NoRoom)?;
    push_no_room(text, order, ceilings)?;
    push_more(text, Subject::Line(Line::NoRoom))
}

/// Adds a line without a number after the name of a file, what it means, and what stands before what was wanted.
pub(crate) fn push_line(text: &mut String, name: &str, line: Line) -> Result<(), AllocError> {
    write!(text, "racp: {name}: ")?;
    push_title(text, Subject::Line(line))?;
    push_short(text, Subject::Line(line))
}
