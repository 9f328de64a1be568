//! Reading a network from a text.

ghost use Rattle.racp_sm.specs.Reading.{IsReadingOrMemory, precedence_part, reading, requests_part};
ghost use Rattle.std.specs.Prelude.{◌≡◌, ◌≤◌};
ghost use Rattle.racp_text.specs.Kept.{Keeps};
ghost use Rattle.racp_sm.specs.Steps.{GivesAll, part_stream};

use crate::fault::{SmFault, SmFaultKind};
use crate::head::{Counts, Head};
use crate::line::Lines;
use crate::part::{Mark, Part};
use crate::rows::{read_arcs, read_jobs};
use crate::stream::Stream;
use racp_model::{Job, NetFault, Network};
use std::alloc::Global;

/// The parts of a project, as a text says them.
#[derive(Drop)]
struct ProjectParts {
    resources: u32,
    jobs: Vec<Job>,
    arcs: Vec<(u32, u32)>,
}

/// The project network of a text, in the single-mode `.sm` format (PSPLIB, Kolisch and Sprecher 1997).
///
/// # Errors
///
/// The first rule that the text breaks, with the number of its line, from 1, or 0 if it is no one line: the head is
/// read first, then the precedence part and the requests part, word by word, and a ring of the precedence relation is
/// found last. `Memory`, at line 0, if no rule of these parts is broken and memory was refused.
pub fn read_sm(alloc: Global, bytes: &[u8]) -> Result<Network, SmFault>
    ensures { IsReadingOrMemory bytes.now result }
{
    let Some(parts) = read_project(alloc, bytes)? else {
        return Err(SmFault::at(SmFaultKind::Memory, 0));
    };
    match Network::new(alloc, parts.resources as usize, parts.jobs, parts.arcs) {
        Ok(network) => Ok(network),
        Err(NetFault::Cycle) => Err(SmFault::at(SmFaultKind::Cycle, 0)),
        Err(NetFault::Memory) => Err(SmFault::at(SmFaultKind::Memory, 0)),
        Err(NetFault::Limit) => unreachable!(),
        Err(NetFault::BadJob) => unreachable!(),
    }
}

/// What the text says, before its precedence relation is tested for rings, or `None` if memory was refused for it.
#[tactic(auto, unfolding(crate::specs::Reading::reading))]
fn read_project(alloc: Global, bytes: &[u8]) -> Result<Option<ProjectParts>, SmFault>
    ensures { GivesAll
        (Keeps (λ parts. record { resources = parts.resources; jobs = parts.jobs.items; arcs = parts.arcs.items }))
        result (reading bytes.now) }
{
    let mut lines = Lines::new(bytes);
    let Counts {
        jobs: count,
        resources,
    } = Head::read(&mut lines).counts()?;
    let (arcs, after) = read_precedence(alloc, lines, count)?;
    let mut lines = after;
    lines.skip_to(Mark::Title(Part::Requests));
    let jobs = read_requests(alloc, lines, resources, count)?;
    match (jobs, arcs) {
        (Some(jobs), Some(arcs)) => Ok(Some(ProjectParts {
            resources,
            jobs,
            arcs,
        })),
        _ => Ok(None),
    }
}

/// The pairs of the precedence part of this many jobs, or `None` if memory was refused for them, and the lines after
/// the part. Its title is the first of these lines.
fn read_precedence<'a>(
    alloc: Global,
    lines: Lines<'a>,
    count: u32,
) -> Result<(Option<Vec<(u32, u32)>>, Lines<'a>), SmFault>
    requires { count ≤ 512 }
    ensures { GivesAll (λ part read. Keeps (λ arcs. arcs.items) part.0 read.0 × (part.1 ≡ read.1)) result
        (precedence_part count lines.entry) }
{
    let mut words = part_words(Part::Precedence, SmFaultKind::NoPrecedence, lines)?;
    let arcs = read_arcs(alloc, &mut words, count)?;
    let after = words.end()?;
    Ok((arcs, after))
}

/// The jobs of the requests part, or `None` if memory was refused for them. Its title is the first of these lines.
fn read_requests(
    alloc: Global,
    lines: Lines,
    resources: u32,
    count: u32,
) -> Result<Option<Vec<Job>>, SmFault>
    requires { count ≤ 512 }
    ensures { GivesAll (Keeps (λ jobs. jobs.items)) result (requests_part resources count lines.entry) }
{
    let mut words = part_words(Part::Requests, SmFaultKind::NoRequests, lines)?;
    let jobs = read_jobs(alloc, &mut words, resources, count)?;
    words.end()?;
    Ok(jobs)
}

/// The words of a part whose title is the first of these lines; the heading after it is skipped.
fn part_words<'a>(part: Part, missing: SmFaultKind, lines: Lines<'a>) -> Result<Stream<'a>, SmFault>
    ensures { result ≡ part_stream part missing lines.entry }
{
    let mut lines = lines;
    match lines.next_line() {
        Some(title) => {
            lines.next_line();
            Ok(Stream::new(part, title.number(), lines))
        }
        None => Err(SmFault::at(missing, 0)),
    }
}
