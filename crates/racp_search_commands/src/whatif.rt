//! `whatif`: runs it.

ghost use Rattle.std.specs.Prelude.{IfOk};
ghost use Rattle.racp_search_commands.specs.Statuses.{IsStatusOfSearch};

use crate::dated::dated_findings;
use crate::listener::{Best, Kept, Listener};
use racp_calendar::Calendar;
use racp_cli::{StreamFault, WhatIfTexts, whatif_to};
use racp_desk::Open;
use racp_explain::{Input as Text, named_cause, shown_cause};
use racp_host::answer::{Answer, print};
use racp_host::asks::Asks;
use racp_host::failure::Failure;
use racp_host::inputs::Inputs;
use racp_host::limit::Limit;
use racp_host::machine::Crewed;
use racp_host::making::{Making, memory_of, one_worker, time_of, worker_count};
use racp_host::telling::{Manner, end};
use racp_host::undated::{Sources, undated};
use racp_json::{Command, Told};
use racp_lexfix::Crew;
use racp_words::{OrderFiles, WhatIfWords};
use std::alloc::{AllocError, Global};
use std::io::Write;

/// The texts of what is asked.
#[derive(Clone, Copy)]
struct Texts<'a> {
    net: Text<'a>,
    order: Text<'a>,
    /// The plan, if there is one.
    plan: Option<Text<'a>>,
    /// The names; it is empty if there are none.
    names: Text<'a>,
}

/// Writes what becomes of the order in these files if one term is changed, and what is wrong with them.
pub fn run<R: Crewed>(
    rt: &R,
    files: OrderFiles<'_>,
    options: WhatIfWords<'_>,
    making: Making<'_>,
) -> Result<u8, Failure>
    ensures { IfOk result IsStatusOfSearch }
{
    let paths = [
        Some(files.net),
        Some(files.order),
        options.plan,
        options.names,
    ];
    let inputs = Inputs::read(rt, &paths)?;
    let texts = Texts {
        net: inputs.text(0),
        order: inputs.text(1),
        plan: inputs.text_if(2),
        names: inputs.text(3),
    };
    whatif_told(rt, texts, making)
}

/// Writes what becomes of the order in these texts if one term is changed, and what is wrong with them.
fn whatif_told<R: Crewed>(rt: &R, texts: Texts<'_>, making: Making<'_>) -> Result<u8, Failure>
    ensures { IfOk result IsStatusOfSearch }
{
    let mut text = Vec::new(rt.alloc());
    let status = written(rt, texts, making, &mut text)?;
    tell_end(rt, texts, making, status, &text)?;
    Ok(status)
}

/// Writes what becomes of the order in these texts if one term is changed; to `text`, if it is to be JSON or to have dates.
fn written<R: Crewed>(
    rt: &R,
    texts: Texts<'_>,
    making: Making<'_>,
    text: &mut Vec<u8>,
) -> Result<u8, Failure>
    ensures { IfOk result IsStatusOfSearch }
{
    let texts = bytes_of(texts, making.manner);
    if making.manner.is_json || making.calendar.has_dates() {
        Ok(written_to(rt, texts, making, text)?)
    } else {
        let mut out = Answer::to(rt);
        let status = written_to(rt, texts, making, &mut out);
        out.ended(status)
    }
}

/// Writes what becomes of the order in these texts if one term is changed to `out`, by plans that workers make.
fn written_to<'a, R: Crewed, W: Write>(
    rt: &R,
    texts: WhatIfTexts<'a>,
    making: Making<'_>,
    out: &mut W,
) -> Result<u8, StreamFault>
    ensures { IfOk result IsStatusOfSearch }
{
    let crew = making.crew.unwrap_or(one_worker());
    let best = Best::of(Vec::new(rt.alloc()));
    let Ok(time) = time_of(rt.alloc(), making.manner) else {
        return Err(StreamFault::Memory);
    };
    let limit = Limit::of(rt, making.limit, time, Asks::of(rt));
    let kept = Kept {
        net: texts.net,
        order: texts.order,
        path: None,
        in_memory: false,
    };
    let listener = Listener::of(rt, limit.known(), limit.progress(), kept, &best);
    let count = worker_count(rt, crew.workers);
    let workers = Crew {
        workers: count,
        turns: crew.turns,
        memory: memory_of(making.memory, count),
        gate: &Open,
        stop: &limit,
        observer: &listener,
    };
    let status = whatif_to(rt, rt.alloc(), texts, workers, out);
    // Dropped here once, not at each way out.
    drop(limit);
    status
}

/// The bytes of what is asked, and how it is told.
fn bytes_of<'a>(texts: Texts<'a>, manner: Manner) -> WhatIfTexts<'a> {
    WhatIfTexts {
        net: texts.net.bytes,
        order: texts.order.bytes,
        plan: match texts.plan {
            Some(plan) => Some(plan.bytes),
            None => None,
        },
        names: texts.names.bytes,
        is_json: manner.is_json,
    }
}

/// Tells on standard error what is wrong, and writes what is to be JSON or to have dates.
fn tell_end<R: Print + Eprint + AllocGlobal>(
    rt: &R,
    texts: Texts<'_>,
    making: Making<'_>,
    status: u8,
    text: &[u8],
) -> Result<(), Failure> {
    let manner = making.manner;
    if text.starts_with(b"{") || !manner.is_json {
        write_findings(rt, text, making.calendar)?;
    }
    if text.starts_with(b"{") {
        return Ok(());
    }
    let cause = if manner.looks(status) {
        cause(rt.alloc(), texts)
    } else {
        Ok(String::new(rt.alloc()))
    };
    end(rt, manner, &told(texts, status, text), cause)
}

/// Writes what was found, with the days of a calendar.
fn write_findings<R: Print + AllocGlobal>(
    rt: &R,
    text: &[u8],
    calendar: Calendar<'_>,
) -> Result<(), Failure> {
    let dated = dated_findings(rt.alloc(), text, calendar)?;
    print(rt, &dated)
}

/// What was written in place of findings.
fn told<'a>(texts: Texts<'a>, status: u8, text: &'a [u8]) -> Told<'a> {
    let (command, plan) = match texts.plan {
        Some(plan) => (Command::Check, plan.name),
        None => (Command::Plan, ""),
    };
    let sources = Sources {
        net: texts.net,
        order: texts.order,
        plan,
        proof: "",
    };
    undated(command, status, text, sources)
}

/// What is wrong with the texts.
fn cause(alloc: Global, texts: Texts<'_>) -> Result<String, AllocError> {
    let Texts {
        net,
        order,
        plan,
        names,
    } = texts;
    match plan {
        Some(plan) => shown_cause(alloc, &net, &order, &plan, &names),
        None => named_cause(alloc, &net, &order, &names),
    }
}
