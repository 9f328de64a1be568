//! The first conflict of starts with capacities.

ghost use Rattle.std.specs.Prelude.{◌≡◌, ◌↔◌, ℕ, ◌+◌, ◌<◌, ◌≤◌, IsTrue, All, length, take, slice_index};
ghost use Rattle.racp_model.specs.Project.{IsNumber, IsSound, duration};
ghost use Rattle.racp_delay.specs.Branching.{IsActiveSet, IsConflictAnswer, KeepsBefore};
ghost use Rattle.racp_model.specs.Limits.{most_load};
ghost use Rattle.racp_delay.specs.Sweeps.{AreEvents, AreFirstLoads, AreTaken, Exceeds, IsExcessAnswer, event_load};

use crate::loads::{Loads, with};
use crate::scans::first_over_from;
use racp_model::limits::{MOST_JOBS, MOST_RESOURCES};
use racp_model::{Capacities, JobSet, Network, Starts};

/// A conflict of starts with capacities: the first time at which the usage of some resource exceeds its capacity, in
/// time units, and the jobs that are active then.
#[derive(Drop)]
pub struct Clash {
    /// The time.
    pub time: u32,
    /// The jobs that are active then, by number from 1.
    pub active: JobSet,
}

/// The first conflict of the starts with the capacities, or `None` if the usage never exceeds them. There is a
/// capacity for each resource and a start for each job, by place from 0; starts are in time units. Takes no memory, and
/// about the time of sorting the starts.
pub fn conflict(net: &Network, capacities: &Capacities, starts: &Starts) -> Option<Clash>
    requires capacities { length capacities.now ≡ net.now.resources }
    requires starts { length starts.now ≡ length net.now.jobs }
    ensures { IsConflictAnswer net.now capacities.now starts.now result }
{
    let starts = starts.as_slice();
    let time = first_excess(net, capacities.as_slice(), starts)?;
    Some(Clash {
        time,
        active: active_at(net, starts, time),
    })
}

/// The first conflict of the starts with the capacities, or `None` if the usage never exceeds them; no usage may exceed
/// its capacity before the time `from`. Capacities and starts stand by place, from 0; times are in time units. Takes no
/// memory, and the time of going over the jobs for each start from that time to the conflict.
pub fn conflict_from(
    net: &Network,
    capacities: &Capacities,
    starts: &Starts,
    from: u32,
) -> Option<Clash>
    requires capacities { length capacities.now ≡ net.now.resources }
    requires starts { length starts.now ≡ length net.now.jobs }
    requires before { KeepsBefore net.now capacities.now starts.now from }
    ensures { IsConflictAnswer net.now capacities.now starts.now result }
{
    first_over_from(net, capacities.as_slice(), starts.as_slice(), from)
}

/// The jobs that are active at a time.
fn active_at(net: &Network, starts: &[u32], time: u32) -> JobSet
    requires { length starts.now ≡ length net.now.jobs }
    ensures { IsActiveSet net.now starts.now time result }
{
    let mut active = JobSet::new();
    for i in 0..net.job_count() {
        if starts[i] <= time && (time as u64) < starts[i] as u64 + net.duration(i) as u64 {
            active.insert(i as u32 + 1);
        }
    }
    active
}

/// Up to this number of jobs, smaller rows are set up for the events.
const FEW_JOBS: usize = 64;

/// A time, and the number, from 1, of a job that starts or ends then.
type Event = (u64, u32);

/// The first time at which the usage of some resource exceeds its capacity.
fn first_excess(net: &Network, capacities: &[u32], starts: &[u32]) -> Option<u32>
    requires capacities { length capacities.now ≡ net.now.resources }
    requires starts { length starts.now ≡ length net.now.jobs }
    ensures { IsExcessAnswer net.now capacities.now starts.now result }
{
    let count = net.job_count();
    if count <= FEW_JOBS {
        let mut by_start = [(0, 0); FEW_JOBS];
        let mut by_end = [(0, 0); FEW_JOBS];
        let (first, second) = (&mut by_start[..count], &mut by_end[..count]);
        return sweep(net, capacities, starts, first, second);
    }
    let mut by_start = [(0, 0); MOST_JOBS];
    let mut by_end = [(0, 0); MOST_JOBS];
    let (first, second) = (&mut by_start[..count], &mut by_end[..count]);
    sweep(net, capacities, starts, first, second)
}

/// The first time at which the usage of some resource exceeds its capacity, found with two rows of memory for the
/// events, in the order of starts and in that of ends. At each start the jobs that started so far are set against the
/// capacities and the jobs that ended so far.
fn sweep(
    net: &Network,
    capacities: &[u32],
    starts: &[u32],
    by_start: &mut [Event],
    by_end: &mut [Event],
) -> Option<u32>
    requires capacities { length capacities.now ≡ net.now.resources }
    requires starts { length starts.now ≡ length net.now.jobs }
    requires sound { IsSound net.now }
    requires by_start { length by_start.old ≡ length net.now.jobs }
    requires by_end { length by_end.old ≡ length net.now.jobs }
    ensures { IsExcessAnswer net.now capacities.now starts.now result }
{
    put_starts(net, starts, by_start);
    put_ends(net, starts, by_end);
    first_exceeding(net, capacities, starts, by_start, by_end)
}

/// The first time at which the usage of some resource exceeds its capacity, from the events in the order of starts and
/// in that of ends.
fn first_exceeding(
    net: &Network,
    capacities: &[u32],
    starts: &[u32],
    by_start: &[Event],
    by_end: &[Event],
) -> Option<u32>
    requires capacities { length capacities.now ≡ net.now.resources }
    requires starts { length starts.now ≡ length net.now.jobs }
    requires sound { IsSound net.now }
    requires by_start { AreEvents net.now (slice_index starts.now) by_start.now }
    requires by_end { AreEvents net.now (λ i. slice_index starts.now i + duration net.now i) by_end.now }
    ensures { IsExcessAnswer net.now capacities.now starts.now result }
{
    let mut started = [0; MOST_RESOURCES];
    let mut ended = Ended {
        count: 0,
        loads: [0; MOST_RESOURCES],
    };
    for &(time, job) in by_start {
        started = with(net, &started, job);
        ended = ended_by(net, by_end, ended, time);
        if exceeds(net, capacities, &started, &ended.loads) {
            return Some(starts[job as usize - 1]);
        }
    }
    None
}

/// How many jobs ended, and what they request together of each resource.
#[derive(Clone, Copy)]
struct Ended {
    count: usize,
    loads: Loads,
}

/// The jobs that ended by a time, from some that ended before.
fn ended_by(net: &Network, by_end: &[Event], ended: Ended, time: u64) -> Ended
    requires within { ended.count ≤ length by_end.now }
    requires sums { AreFirstLoads net.now by_end.now ended.count ended.loads }
    requires numbers { All (λ event. IsNumber (length net.now.jobs) event.1) by_end.now }
    requires small { (m k : ℕ) → k < net.now.resources → event_load net.now k (take m by_end.now) ≤ most_load }
    ensures { AreTaken net.now by_end.now ended.count time result.count result.loads }
{
    let mut count = ended.count;
    let mut loads = ended.loads;
    while count < by_end.len() && by_end[count].0 <= time {
        loads = with(net, &loads, by_end[count].1);
        count += 1;
    }
    Ended { count, loads }
}

/// Whether the started jobs load more of some resource than its capacity and the ended jobs.
fn exceeds(net: &Network, capacities: &[u32], started: &Loads, ended: &Loads) -> bool
    requires { length capacities.now ≡ net.now.resources }
    ensures { IsTrue result ↔ Exceeds net.now capacities.now started.now ended.now }
{
    (0..net.resource_count()).any(|k| capacities[k] as u64 + (ended[k] as u64) < started[k] as u64)
}

/// Puts the jobs in the order of their starts.
fn put_starts(net: &Network, starts: &[u32], events: &mut [Event])
    requires starts { length starts.now ≡ length net.now.jobs }
    requires events { length events.old ≡ length net.now.jobs }
    ensures { AreEvents net.now (slice_index starts.now) events.new }
{
    for i in 0..net.job_count() {
        events[i] = (starts[i] as u64, i as u32 + 1);
    }
    events.sort_unstable_by_key(|event| event.0);
}

/// Puts the jobs in the order of their ends.
fn put_ends(net: &Network, starts: &[u32], events: &mut [Event])
    requires starts { length starts.now ≡ length net.now.jobs }
    requires events { length events.old ≡ length net.now.jobs }
    ensures { AreEvents net.now (λ i. slice_index starts.now i + duration net.now i) events.new }
{
    for i in 0..net.job_count() {
        events[i] = (starts[i] as u64 + net.duration(i) as u64, i as u32 + 1);
    }
    events.sort_unstable_by_key(|event| event.0);
}
