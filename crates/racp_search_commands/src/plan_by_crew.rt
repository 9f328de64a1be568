//! `plan` by workers: runs it.

ghost use Rattle.std.specs.Prelude.{◌≡◌, IfOk};
ghost use Rattle.racp_search_commands.specs.Statuses.{IsStatusOfSearch};

use crate::earlier::note_earlier;
use crate::listener::{Best, Kept, Listener};
use racp_by_questions::Effort;
use racp_cli::{DONE, STOPPED, StreamFault, crowd_over_by};
use racp_desk::Open;
use racp_host::answer::Answer;
use racp_host::asks::Asks;
use racp_host::best::{Earlier, keep};
use racp_host::failure::Failure;
use racp_host::limit::Limit;
use racp_host::machine::Crewed;
use racp_host::making::{Making, memory_of, progress_of, worker_count};
use racp_json::Work;
use racp_streams::write_whole;
use racp_words::CrewOptions;
use std::alloc::{AllocError, Global};
use std::io::Write;

/// What planning came to.
#[derive(Drop)]
pub(crate) struct Made {
    /// The status.
    pub(crate) status: u8,
    /// The text that is still to be written as JSON; empty if it was written.
    pub(crate) text: Vec<u8>,
    /// The text of the best plan that is known, if planning was stopped; else empty.
    pub(crate) best: Vec<u8>,
    /// How much work was done.
    pub(crate) work: Work,
}

impl Made {
    /// An answer with this status was written.
    pub(crate) fn written(alloc: Global, status: u8) -> Self
        ensures { result.status ≡ status }
    {
        Made {
            status,
            text: Vec::new(alloc),
            best: Vec::new(alloc),
            work: Work::unknown(),
        }
    }
}

/// Writes the plan for the texts of a network and an order, or why there is none, made by the workers of a crew; into
/// memory, if it is to be JSON. The plan is also kept in a file, if that is wanted.
pub(crate) fn plan_kept<'a, R: Crewed>(
    rt: &R,
    net: &'a [u8],
    order: &'a [u8],
    crew: CrewOptions<'a>,
    making: Making<'_>,
) -> Result<Made, Failure>
    ensures { IfOk result (λ made. IsStatusOfSearch made.status) }
{
    if crew.best.is_none() && !making.manner.is_json {
        let mut out = Answer::to(rt);
        let made = plan_by(rt, net, order, crew, making, &mut out);
        return out.ended(made);
    }
    let mut text = Vec::new(rt.alloc());
    let made = plan_by(rt, net, order, crew, making, &mut text)?;
    if let Some(path) = crew.best {
        if made.status == DONE {
            keep(rt, path, &text);
        }
    }
    with_text(rt, made, text, making.manner.is_json)
}

/// What planning came to with this text, which is written now unless it is to be JSON.
fn with_text<R: Print>(rt: &R, made: Made, text: Vec<u8>, is_json: bool) -> Result<Made, Failure>
    ensures { IfOk result (λ done. done.status ≡ made.status) }
{
    if is_json {
        return Ok(Made { text, ..made });
    }
    let mut out = Answer::to(rt);
    let written = write_whole(&mut out, &text);
    out.ended(written)?;
    Ok(made)
}

/// Writes the plan for the texts of a network and an order to `out`, or why there is none, made by the workers of a crew.
/// With an answer, the work that was done goes to standard error if that is asked for, and until then how far planning has come. If
/// it is stopped, standard error tells what is known by then.
fn plan_by<'a, R: Crewed, W: Write>(
    rt: &R,
    net: &'a [u8],
    order: &'a [u8],
    crew: CrewOptions<'a>,
    making: Making<'_>,
    out: &mut W,
) -> Result<Made, StreamFault>
    ensures { IfOk result (λ made. IsStatusOfSearch made.status) }
{
    let manner = making.manner;
    let progress = match progress_of(rt.alloc(), crew.progress, manner) {
        Ok(progress) => progress,
        Err(_) => return Err(StreamFault::Memory),
    };
    let Ok(best) = text_before(rt.alloc(), making.earlier) else {
        return Err(StreamFault::Memory);
    };
    let best = Best::of(best);
    let limit = Limit::of(rt, making.limit, progress, Asks::of(rt));
    note_earlier(limit.known(), making.earlier);
    let kept = Kept {
        net,
        order,
        path: crew.best,
        in_memory: manner.is_json,
    };
    let listener = Listener::of(rt, limit.known(), limit.progress(), kept, &best);
    let count = worker_count(rt, crew.workers);
    let workers = racp_lexfix::Crew {
        workers: count,
        turns: crew.turns,
        memory: memory_of(making.memory, count),
        gate: &Open,
        stop: &limit,
        observer: &listener,
    };
    let (mut network, mut terms) = (net, order);
    let made = crowd_over_by(rt, rt.alloc(), workers, &mut network, &mut terms, out);
    if is_stopped(&made) {
        best.tell_end(rt, crew.best);
        if !manner.is_quiet() {
            limit.known().tell(rt);
        }
    }
    let work = limit.work();
    // Dropped here once, not at each way out.
    drop(limit);
    let (status, effort) = made?;
    if crew.stats {
        tell_effort(rt, effort);
    }
    Ok(Made {
        status,
        text: Vec::new(rt.alloc()),
        best: best.into_text(),
        work: with_effort(work, effort),
    })
}

/// The text of a plan that was known before; it is empty if none was.
fn text_before(alloc: Global, earlier: Option<Earlier<'_>>) -> Result<Vec<u8>, AllocError> {
    match earlier {
        Some(earlier) => Vec::from_slice(alloc, earlier.text),
        None => Ok(Vec::new(alloc)),
    }
}

/// Whether planning was stopped.
fn is_stopped(made: &Result<(u8, Option<Effort>), StreamFault>) -> bool {
    match made {
        Ok((status, _)) => *status == STOPPED,
        Err(_) => false,
    }
}

/// Tells on standard error how much work was done; nothing if there was no answer.
fn tell_effort(rt: &impl Eprint, effort: Option<Effort>) {
    if let Some(effort) = effort {
        let _ = rt.eprintln(format_args!("stats pieces {} nodes {}", effort.pieces, effort.nodes));
    }
}

/// The work that was done, with the pieces and nodes of an answer if there is one.
fn with_effort(work: Work, effort: Option<Effort>) -> Work {
    match effort {
        Some(effort) => Work {
            pieces: Some(effort.pieces),
            nodes: Some(effort.nodes),
            ..work
        },
        None => work,
    }
}
