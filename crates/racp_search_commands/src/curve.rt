//! `curve`: runs it.

ghost use Rattle.std.specs.Prelude.{IfOk};
ghost use Rattle.racp_search_commands.specs.Statuses.{IsStatusOfSearch};

use crate::earlier::{earlier_plan, note_earlier};
use crate::listener::{Best, Kept, Listener};
use crate::needed::cause_of;
use racp_cli::{CurveForm, StreamFault, curve_crowd_over, curve_over};
use racp_desk::Open;
use racp_explain::Input as Text;
use racp_host::answer::Answer;
use racp_host::asks::Asks;
use racp_host::begun::Begun;
use racp_host::best::begin_best;
use racp_host::failure::Failure;
use racp_host::inputs::Inputs;
use racp_host::limit::Limit;
use racp_host::machine::Crewed;
use racp_host::making::{Making, crew_of, memory_of, progress_of, worker_count};
use racp_host::progress::Progress;
use racp_host::telling::{Manner, end};
use racp_json::{Command, FileNames, Told, Work};
use racp_lexfix::Crew;
use racp_words::{CrewOptions, OrderFiles};
use std::alloc::{AllocError, Global};
use std::io::{Read, Write};

/// How a curve is made.
#[derive(Clone, Copy)]
pub struct Costing<'a> {
    /// How its plans are made.
    pub making: Making<'a>,
    /// Whether it is written as a picture.
    pub is_drawn: bool,
}

impl<'a> Costing<'a> {
    /// What the curve is written as.
    fn form(self) -> CurveForm<'a> {
        if self.is_drawn {
            CurveForm::Picture(self.making.calendar)
        } else {
            CurveForm::Lines
        }
    }
}

/// Writes what each deadline up to that of the order in these files costs.
pub fn run<R: Crewed>(rt: &R, files: OrderFiles<'_>, costing: Costing<'_>) -> Result<u8, Failure>
    ensures { IfOk result IsStatusOfSearch }
{
    let paths = [Some(files.net), Some(files.order)];
    let inputs = Inputs::read(rt, &paths)?;
    let (net, order) = (inputs.text(0), inputs.text(1));
    let before = begin_best(rt, costing.making.best(), &[files.net, files.order])?;
    let earlier = earlier_plan(rt.alloc(), net.bytes, order.bytes, &before);
    let making = Making {
        earlier,
        ..costing.making
    };
    curve_told(rt, &net, &order, Costing { making, ..costing })
}

/// Writes the curve of these texts, and what is wrong with them.
fn curve_told<R: Crewed>(
    rt: &R,
    net: &Text<'_>,
    order: &Text<'_>,
    costing: Costing<'_>,
) -> Result<u8, Failure>
    ensures { IfOk result IsStatusOfSearch }
{
    let manner = costing.making.manner;
    let begun = Begun::now(rt);
    let mut text = Vec::new(rt.alloc());
    let status = curve_written(rt, net.bytes, order.bytes, costing, &mut text)?;
    let cause = if manner.looks(status) {
        cause_of(rt, net, order)
    } else {
        Ok(String::new(rt.alloc()))
    };
    let told = Told {
        command: Command::Curve,
        status,
        text: &text,
        net: net.bytes,
        order: order.bytes,
        best: &[],
        files: FileNames {
            net: net.name,
            order: order.name,
            plan: "",
            proof: "",
        },
        work: Work {
            seconds: begun.seconds(rt),
            ..Work::unknown()
        },
        calendar: costing.making.calendar,
    };
    end(rt, manner, &told, cause)?;
    Ok(status)
}

/// Writes the curve of these texts; to `text`, if it is to be JSON.
fn curve_written<R: Crewed>(
    rt: &R,
    net: &[u8],
    order: &[u8],
    costing: Costing<'_>,
    text: &mut Vec<u8>,
) -> Result<u8, Failure>
    ensures { IfOk result IsStatusOfSearch }
{
    if costing.making.manner.is_json {
        Ok(curve_of(rt, net, order, costing, text)?)
    } else {
        let mut out = Answer::to(rt);
        let status = curve_of(rt, net, order, costing, &mut out);
        out.ended(status)
    }
}

/// Writes what each deadline up to that of the order of these texts costs, by plans that workers make, if there is a
/// crew, and else one thread.
fn curve_of<R: Crewed, W: Write>(
    rt: &R,
    net: &[u8],
    order: &[u8],
    costing: Costing<'_>,
    out: &mut W,
) -> Result<u8, StreamFault>
    ensures { IfOk result IsStatusOfSearch }
{
    match crew_of(rt, costing.making.crew, false) {
        Some(crew) => curve_by(rt, net, order, crew, costing, out),
        None => {
            let (mut network, mut terms) = (net, order);
            curve_alone(rt.alloc(), &mut network, &mut terms, costing, out)
        }
    }
}

/// Writes what each deadline up to that of the order that is read there costs, by plans that one thread makes.
fn curve_alone<N: Read, O: Read, W: Write>(
    alloc: Global,
    net: &mut N,
    order: &mut O,
    costing: Costing<'_>,
    out: &mut W,
) -> Result<u8, StreamFault>
    ensures { IfOk result IsStatusOfSearch }
{
    curve_over(
        alloc,
        net,
        order,
        costing.making.memory.mebibytes,
        costing.form(),
        out,
    )
}

/// Writes what each deadline up to that of the order of these texts costs, by plans that the workers of a crew make. If
/// that is asked for, it goes to standard error how far they have come, and a file keeps the best plan known for the
/// deadline of the order.
fn curve_by<R: Crewed, W: Write>(
    rt: &R,
    net: &[u8],
    order: &[u8],
    crew: CrewOptions<'_>,
    costing: Costing<'_>,
    out: &mut W,
) -> Result<u8, StreamFault>
    ensures { IfOk result IsStatusOfSearch }
{
    let making = costing.making;
    let Ok(progress) = told_progress(rt.alloc(), crew.progress, making.manner) else {
        return Err(StreamFault::Memory);
    };
    let best = Best::of(Vec::new(rt.alloc()));
    let limit = Limit::of(rt, making.limit, progress, Asks::of(rt));
    note_earlier(limit.known(), making.earlier);
    let kept = Kept {
        net,
        order,
        path: crew.best,
        in_memory: false,
    };
    let listener = Listener::of(rt, limit.known(), limit.progress(), kept, &best);
    let count = worker_count(rt, crew.workers);
    let workers = Crew {
        workers: count,
        turns: crew.turns,
        memory: memory_of(making.memory, count),
        gate: &Open,
        stop: &limit,
        observer: &listener,
    };
    let (mut network, mut terms) = (net, order);
    let status = curve_crowd_over(rt, workers, &mut network, &mut terms, costing.form(), out);
    best.tell_end(rt, crew.best);
    // Dropped here once, not at each way out.
    drop(limit);
    status
}

/// What tells how far the plans of a curve have come, if that is asked for or on a terminal; the object of JSON has no counts.
fn told_progress(
    alloc: Global,
    is_asked: bool,
    manner: Manner,
) -> Result<Option<Progress>, AllocError> {
    if is_asked || !manner.is_json {
        progress_of(alloc, is_asked, manner)
    } else {
        Ok(None)
    }
}
