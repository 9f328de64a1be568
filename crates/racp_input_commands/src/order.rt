//! `order`: runs it.

ghost use Rattle.std.specs.Prelude.{IfOk};
ghost use Rattle.racp_input_commands.specs.Statuses.{IsStatusOfInput};

use crate::terms::{Times, asked_order};
use racp_calendar::Calendar;
use racp_cli::{Asked, DONE, REFUSED, StreamFault, Time, order_over};
use racp_explain::{Input as Text, Listed, Numbers, asked_cause};
use racp_host::answer::Answer;
use racp_host::dates::{calendar_of, named_calendar};
use racp_host::failure::Failure;
use racp_host::inputs::Inputs;
use racp_host::machine::Machine;
use racp_host::resources::{refused_names, resource_names};
use racp_host::telling::{Manner, end, tell};
use racp_host::undated::{Sources, undated};
use racp_json::Command;
use racp_words::{NamedNet, Terms};
use std::alloc::Global;
use std::io::{Read, Write};

/// Writes the order that the words for its terms ask for, for the network in a file.
pub fn run<R: Machine>(
    rt: &R,
    files: NamedNet<'_>,
    terms: &Terms<'_>,
    manner: Manner,
) -> Result<u8, Failure>
    ensures { IfOk result IsStatusOfInput }
{
    let workdays = named_calendar(rt, terms.calendar)?;
    let calendar = calendar_of(&workdays);
    let paths = [files.names, Some(files.net)];
    let inputs = Inputs::read(rt, &paths)?;
    let (net, names) = (inputs.text(1), inputs.text_if(0));
    match asked_of(rt.alloc(), &net, names, terms, calendar)? {
        Some(asked) => order_told(rt, &net, asked, manner),
        None => {
            tell(rt, manner, refused_names(rt.alloc(), &net, names));
            Err(Failure::Refused(String::new(rt.alloc())))
        }
    }
}

/// What the words for the terms of an order ask for, by a calendar, for the text of a network and perhaps one of names; `None` if that of
/// the names is refused.
fn asked_of(
    alloc: Global,
    net: &Text<'_>,
    names: Option<Text<'_>>,
    terms: &Terms<'_>,
    calendar: Calendar<'_>,
) -> Result<Option<Asked>, Failure> {
    match resource_names(alloc, net, names)? {
        Some(names) => {
            let asked = asked_order(alloc, terms, calendar, &names, Times::none())?;
            Ok(Some(asked))
        },
        None => Ok(None),
    }
}

/// Writes the order that is asked for, for the text of a network, and what is wrong with what is asked.
fn order_told<R: Print + Eprint + AllocGlobal>(
    rt: &R,
    net: &Text<'_>,
    asked: Asked,
    manner: Manner,
) -> Result<u8, Failure>
    ensures { IfOk result IsStatusOfInput }
{
    let numbers = numbers_of(&asked);
    let mut text = Vec::new(rt.alloc());
    let status = order_written(rt, net, asked, manner.is_json, &mut text)?;
    let told = undated(Command::Order, status, &text, Sources::network(*net));
    let cause = if status == DONE || status == REFUSED {
        asked_cause(rt.alloc(), net, numbers, status == REFUSED)
    } else {
        Ok(String::new(rt.alloc()))
    };
    end(rt, manner, &told, cause)?;
    Ok(status)
}

/// Writes the order that is asked for, for the text of a network; to `text`, if it is to be JSON.
fn order_written<R: Print + AllocGlobal>(
    rt: &R,
    net: &Text<'_>,
    asked: Asked,
    is_json: bool,
    text: &mut Vec<u8>,
) -> Result<u8, Failure>
    ensures { IfOk result IsStatusOfInput }
{
    let mut network = net.bytes;
    if is_json {
        Ok(order_of(rt.alloc(), &mut network, asked, text)?)
    } else {
        let mut out = Answer::to(rt);
        let status = order_of(rt.alloc(), &mut network, asked, &mut out);
        out.ended(status)
    }
}

/// Writes the order that is asked for, for a network that is read there.
fn order_of<N: Read, W: Write>(
    alloc: Global,
    net: &mut N,
    asked: Asked,
    out: &mut W,
) -> Result<u8, StreamFault>
    ensures { IfOk result IsStatusOfInput }
{
    order_over(alloc, net, asked, out)
}

/// What is asked, as far as it is told what is wrong with it.
pub(crate) fn numbers_of(asked: &Asked) -> Numbers {
    let (deadline, factor) = match asked.time {
        Time::Deadline(deadline) => (Some(deadline), None),
        Time::Factor(factor) => (None, Some(factor)),
    };
    Numbers {
        deadline,
        factor,
        prices: Listed::of(&asked.prices),
        owned: listed_of(&asked.owned),
        ceilings: listed_of(&asked.ceilings),
    }
}

/// What is told of a list, if there is one.
fn listed_of(list: &Option<Vec<u32>>) -> Option<Listed> {
    match list {
        Some(list) => Some(Listed::of(list)),
        None => None,
    }
}
