//! `soonest`: runs it.

ghost use Rattle.std.specs.Prelude.{IfOk};
ghost use Rattle.racp_search_commands.specs.Statuses.{IsStatusOfSearch};

use crate::listener::{Best, Kept, Listener};
use crate::needed::cause_of;
use racp_cli::{StreamFault, soonest_to};
use racp_desk::Open;
use racp_explain::Input as Text;
use racp_host::answer::Answer;
use racp_host::asks::Asks;
use racp_host::begun::Begun;
use racp_host::failure::Failure;
use racp_host::inputs::Inputs;
use racp_host::limit::Limit;
use racp_host::machine::Crewed;
use racp_host::making::{Making, memory_of, one_worker, time_of, worker_count};
use racp_host::telling::end;
use racp_json::{Command, FileNames, Told, Work};
use racp_lexfix::Crew;
use racp_words::OrderFiles;
use std::io::Write;

/// Writes the plan of the order in these files with the least deadline, and what is wrong with them.
pub fn run<R: Crewed>(rt: &R, files: OrderFiles<'_>, making: Making<'_>) -> Result<u8, Failure>
    ensures { IfOk result IsStatusOfSearch }
{
    let paths = [Some(files.net), Some(files.order)];
    let inputs = Inputs::read(rt, &paths)?;
    soonest_told(rt, &inputs.text(0), &inputs.text(1), making)
}

/// Writes the plan of these texts with the least deadline, and what is wrong with them.
fn soonest_told<R: Crewed>(
    rt: &R,
    net: &Text<'_>,
    order: &Text<'_>,
    making: Making<'_>,
) -> Result<u8, Failure>
    ensures { IfOk result IsStatusOfSearch }
{
    let manner = making.manner;
    let begun = Begun::now(rt);
    let mut text = Vec::new(rt.alloc());
    let status = soonest_written(rt, net.bytes, order.bytes, making, &mut text)?;
    let cause = if manner.looks(status) {
        cause_of(rt, net, order)
    } else {
        Ok(String::new(rt.alloc()))
    };
    let told = Told {
        command: Command::Soonest,
        status,
        text: &text,
        net: net.bytes,
        order: order.bytes,
        best: &[],
        files: FileNames {
            net: net.name,
            order: order.name,
            plan: "",
            proof: "",
        },
        work: Work {
            seconds: begun.seconds(rt),
            ..Work::unknown()
        },
        calendar: making.calendar,
    };
    end(rt, manner, &told, cause)?;
    Ok(status)
}

/// Writes the plan of these texts with the least deadline; to `text`, if it is to be JSON.
fn soonest_written<'a, R: Crewed>(
    rt: &R,
    net: &'a [u8],
    order: &'a [u8],
    making: Making<'_>,
    text: &mut Vec<u8>,
) -> Result<u8, Failure>
    ensures { IfOk result IsStatusOfSearch }
{
    if making.manner.is_json {
        Ok(soonest_by(rt, net, order, making, text)?)
    } else {
        let mut out = Answer::to(rt);
        let status = soonest_by(rt, net, order, making, &mut out);
        out.ended(status)
    }
}

/// Writes the plan of these texts with the least deadline to `out`, by plans that workers make.
fn soonest_by<'a, R: Crewed, W: Write>(
    rt: &R,
    net: &'a [u8],
    order: &'a [u8],
    making: Making<'_>,
    out: &mut W,
) -> Result<u8, StreamFault>
    ensures { IfOk result IsStatusOfSearch }
{
    let crew = making.crew.unwrap_or(one_worker());
    let best = Best::of(Vec::new(rt.alloc()));
    let Ok(time) = time_of(rt.alloc(), making.manner) else {
        return Err(StreamFault::Memory);
    };
    let limit = Limit::of(rt, making.limit, time, Asks::of(rt));
    let kept = Kept {
        net,
        order,
        path: None,
        in_memory: false,
    };
    let listener = Listener::of(rt, limit.known(), limit.progress(), kept, &best);
    let count = worker_count(rt, crew.workers);
    let workers = Crew {
        workers: count,
        turns: crew.turns,
        memory: memory_of(making.memory, count),
        gate: &Open,
        stop: &limit,
        observer: &listener,
    };
    let status = soonest_to(rt, rt.alloc(), net, order, workers, out);
    // Dropped here once, not at each way out.
    drop(limit);
    status
}
