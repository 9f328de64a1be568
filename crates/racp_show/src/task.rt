//! What is said of the jobs of a plan.

ghost use Rattle.std.specs.Prelude.{◌≡◌, ◌<◌, ◌^◌, ◌++◌, IfOk, OnOk, flat_map, length, map};
ghost use Rattle.racp_model.specs.Project.{duration};
ghost use Rattle.racp_show.specs.Tasks.{IsTask, awaited, lagging, precedent, precedents, predecessors};

use crate::latest::Room;
use crate::names::Names;
use crate::predecessor::Predecessor;
use crate::times::Times;
use racp_model::Network;
use std::alloc::{AllocError, Global};

/// What is said of a job of a plan.
#[derive(Drop)]
pub struct Task<'a> {
    /// Its number, from 1.
    pub job: usize,
    /// Its name, or `None` if it has none.
    pub name: Option<&'a str>,
    /// How many time units it runs.
    pub duration: u32,
    /// When it starts, in time units.
    pub start: u32,
    /// Its late start: when it could start at the latest, if only precedence and the due times counted.
    pub latest: u32,
    /// Whether it is on the critical chain.
    pub is_critical: bool,
    /// What it waits for: the tasks right before it, and those before jobs right before it that wait.
    pub predecessors: Vec<Predecessor>,
}

/// What is said of the job at place `i`, where so many jobs are tasks.
pub(crate) fn task_of<'a>(
    alloc: Global,
    times: &Times,
    room: &Room,
    names: &'a Names,
    tasks: usize,
    i: usize,
) -> Result<Task<'a>, AllocError>
    requires job { i < length times.now.net.now.jobs }
    requires latest { length room.now.latest ≡ length times.now.net.now.jobs }
    requires early { length room.now.early ≡ length times.now.net.now.jobs }
    requires late { length room.now.late ≡ length times.now.net.now.jobs }
    ensures { IfOk result (IsTask times.now.net.now times.now.starts.now room.now names.now tasks i) }
{
    prove!(i < times.net.job_count());
    let predecessors = predecessors_of(alloc, times.net, tasks, i)?;
    let latest = room.latest_of(i);
    let is_critical = room.is_critical(i);
    Ok(Task {
        job: i + 1,
        name: names.job(i),
        duration: times.net.duration(i),
        start: times.start(i),
        latest,
        is_critical,
        predecessors,
    })
}

/// What the job at place `i` waits for, where so many jobs are tasks.
fn predecessors_of(
    alloc: Global,
    net: &Network,
    tasks: usize,
    i: usize,
) -> Result<Vec<Predecessor>, AllocError>
    requires { i < length net.now.jobs }
    ensures { IfOk result (λ found. found.items ≡ predecessors net.now tasks i) }
{
    prove!(i < net.job_count());
    let numbers = numbers_before(alloc, net, i)?;
    awaited_by(alloc, net, tasks, &numbers)
}

/// What a task waits for by the jobs with these numbers right before it.
fn awaited_by(
    alloc: Global,
    net: &Network,
    tasks: usize,
    numbers: &[u32],
) -> Result<Vec<Predecessor>, AllocError>
    ensures { IfOk result (λ found. found.items ≡ flat_map (awaited net.now tasks) numbers.now) }
{
    let mut found = Vec::new(alloc);
    for number in numbers {
        push_awaited(alloc, &mut found, net, tasks, *number)?;
    }
    Ok(found)
}

/// Adds what a task waits for by the job with this number right before it.
fn push_awaited(
    alloc: Global,
    found: &mut Vec<Predecessor>,
    net: &Network,
    tasks: usize,
    number: u32,
) -> Result<(), AllocError>
    ensures { OnOk result (found.new.items ≡ found.old.items ++ awaited net.now tasks number) }
{
    if number as usize <= tasks {
        found.push(Predecessor {
            job: number,
            lag: 0,
        })?;
        return Ok(());
    }
    let place = number.saturating_sub(1) as usize;
    let before = numbers_before(alloc, net, place)?;
    push_lagging(found, &before, duration_at(net, place))
}

/// Adds these jobs with a lag.
fn push_lagging(found: &mut Vec<Predecessor>, numbers: &[u32], lag: u32) -> Result<(), AllocError>
    ensures { OnOk result (found.new.items ≡ found.old.items ++ map (lagging lag) numbers.now) }
{
    for number in numbers {
        found.push(Predecessor { job: *number, lag })?;
    }
    Ok(())
}

/// How long the job at a place runs; 0 if there is none.
#[tactic(auto, unfolding(racp_model::specs::Project::duration))]
fn duration_at(net: &Network, place: usize) -> u32
    ensures { result ≡ duration net.now place }
{
    if place < net.job_count() {
        net.duration(place)
    } else {
        0
    }
}

/// The numbers of the jobs that come right before the job at place `i`.
pub(crate) fn numbers_before(alloc: Global, net: &Network, i: usize) -> Result<Vec<u32>, AllocError>
    requires { i < 2 ^ 32 }
    ensures { IfOk result (λ numbers. numbers.items ≡ precedents i net.now.arcs) }
{
    precedents(alloc, net.arcs(), i)
}

/// The numbers of the first jobs of the pairs whose second is the job at place `i`.
fn precedents(alloc: Global, arcs: &[(u32, u32)], i: usize) -> Result<Vec<u32>, AllocError>
    requires { i < 2 ^ 32 }
    ensures { IfOk result (λ numbers. numbers.items ≡ precedents i arcs.now) }
{
    let mut numbers = Vec::new(alloc);
    for arc in arcs {
        push_before(&mut numbers, *arc, i)?;
    }
    Ok(numbers)
}

/// Adds the first job of a pair if its second is the job at place `i`.
fn push_before(numbers: &mut Vec<u32>, arc: (u32, u32), i: usize) -> Result<(), AllocError>
    requires { i < 2 ^ 32 }
    ensures { OnOk result (numbers.new.items ≡ numbers.old.items ++ precedent i arc) }
{
    if arc.1 as usize == i + 1 {
        numbers.push(arc.0)?;
    }
    Ok(())
}
