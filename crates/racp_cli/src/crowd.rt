//! `plan` by workers: the plan of a network on the terms of an order, made on threads of their own.

ghost use Rattle.std.specs.Prelude.{ℕ, ◌≤◌, Bool, List, IfOk};
ghost use Rattle.racp_found.specs.Told.{HearsAll};
ghost use Rattle.racp_lexfix.specs.Printing.{IsCrowdPrinting};
ghost use Rattle.racp_cli.specs.Crowds.{IsCrowdAnswer, IsCrowdRun, IsEffortOf};
ghost use Rattle.racp_cli.specs.Responses.{IsMade};

use crate::refusal::refused;
use crate::respond::respond;
use racp_by_questions::Effort;
use racp_cutset::DEFAULT_MEMORY;
use racp_desk::Gate;
use racp_found::{Observer, Unheard};
use racp_lexfix::{Crew, Printed, Refusal, plan_crowd_by};
use racp_model::Stop;
use racp_streams::{StreamFault, read_whole};
use std::alloc::{AllocError, Global};
use std::io::{Read, Write};
use std::sync::Wait;
use std::thread::Threads;

/// Reads a network text and an order text, all of each before the next, has 1 to 64 workers make the plan with at most
/// this many turns, up to 1,000,000,000,000, and writes to `out` the text that `run_over` writes, or that planning was
/// stopped, or that no thread could be started. Returns the status that belongs to what was written: 0 for a plan, 3
/// if there is none, 4 if planning was stopped, 5 if a text is refused, 6 if memory ran out, 7 if a
/// worker could not be started; and, with a plan or if there is none, how much work was done.
///
/// # Errors
///
/// After these nothing was written: `Read`, a read failed; `TooLong`, a reader has more than 16,777,216 bytes;
/// `Memory`, memory for an input was refused. After `Write`, a write failed or took no byte, and what is out is a
/// beginning of the text.
pub fn crowd_over<
    N: Read,
    O: Read,
    W: Write,
    G: Gate + Sync,
    P: Stop + Sync,
    R: Threads + Wait + Sync,
>(
    rt: &R,
    alloc: Global,
    net: &mut N,
    order: &mut O,
    out: &mut W,
    workers: usize,
    turns: u64,
    gate: &G,
    stop: &P,
) -> Result<(u8, Option<Effort>), StreamFault>
    requires some_workers { 1 ≤ workers }
    requires workers { workers ≤ 64 }
    requires turns { turns ≤ 1000000000000 }
    ensures run { IsCrowdRun turns (P.is_quiet stop.now) (record { unread = N.remaining net.old; left = N.remaining net.new })
        (record { unread = O.remaining order.old; left = O.remaining order.new })
        (W.contents out.old) (W.contents out.new) result }
    ensures effort { IfOk result (λ done. IsEffortOf done.0 done.1) }
{
    let crew = Crew {
        workers,
        turns,
        memory: DEFAULT_MEMORY,
        gate,
        stop,
        observer: &Unheard,
    };
    crowd_over_by(rt, alloc, crew, net, order, out)
}

/// Reads a network text and an order text, all of each before the next, has the workers of a crew make the plan, and
/// writes to `out` the text that `run_over` writes, or that planning was stopped, or that no thread could be started.
/// The crew also says how much memory the records of refuted nodes take; with `crowd_over` they take at most 1,024
/// mebibytes. Returns the status that belongs to what was written: 0 for a plan, 3 if there is none, 4 if planning was
/// stopped, 5 if a text is refused, 6 if memory ran out, 7 if a worker could not be started; and, with a plan or if
/// there is none, how much work was done.
///
/// # Errors
///
/// After these nothing was written: `Read`, a read failed; `TooLong`, a reader has more than 16,777,216 bytes;
/// `Memory`, memory for an input was refused. After `Write`, a write failed or took no byte, and what is out is a
/// beginning of the text.
pub fn crowd_over_by<
    R: Threads + Wait + Sync,
    G: Gate + Sync,
    P: Stop + Sync,
    B: Observer,
    N: Read,
    O: Read,
    W: Write,
>(
    rt: &R,
    alloc: Global,
    crew: Crew<'_, G, P, B>,
    net: &mut N,
    order: &mut O,
    out: &mut W,
) -> Result<(u8, Option<Effort>), StreamFault>
    requires heard { HearsAll B.may_hear }
    ensures run { IsCrowdRun crew.entry.turns (P.is_quiet crew.entry.stop.now) (record { unread = N.remaining net.old; left = N.remaining net.new })
        (record { unread = O.remaining order.old; left = O.remaining order.new })
        (W.contents out.old) (W.contents out.new) result }
    ensures effort { IfOk result (λ done. IsEffortOf done.0 done.1) }
{
    let net = read_whole(alloc, net)?;
    let order = read_whole(alloc, order)?;
    let planned = plan_crowd_by(rt, alloc, &net, &order, crew);
    let (answer, effort) = answer(alloc, planned);
    let status = respond(answer, out)?;
    Ok((status, effort))
}

/// The status and the text of what planning told, and its effort.
fn answer(
    alloc: Global,
    planned: Result<(Printed, Effort), Refusal>,
) -> (Result<(u8, Vec<u8>), AllocError>, Option<Effort>)
    ensures right { (turns : ℕ) (quiet : Bool) (net order : List ℕ) → IsCrowdPrinting turns quiet net order planned →
        IfOk result.0 (λ answer. IsCrowdAnswer turns quiet net order answer.0 answer.1.items) }
    ensures effort { (turns : ℕ) (quiet : Bool) (net order text : List ℕ) (status : ℕ) →
        IsCrowdPrinting turns quiet net order planned →
        IsMade result.0 status text → IsEffortOf status result.1 }
{
    match planned {
        Ok((printed, effort)) => (Ok((printed.status, printed.text)), Some(effort)),
        Err(refusal) => (refused(alloc, refusal), None),
    }
}
