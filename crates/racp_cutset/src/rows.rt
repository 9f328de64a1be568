//! Rows of numbers, one for each job or resource, and the jobs that start before a time.

ghost use Rattle.std.specs.Prelude.{◌≡◌, ◌↔◌, ℕ, ◌+◌, ◌<◌, ◌≤◌, IsTrue, IfOk, length, slice_index};
ghost use Rattle.racp_model.specs.Limits.{most_early};
ghost use Rattle.racp_cutset.specs.Covering.{AreEnds, AreStartedBefore};
ghost use Rattle.racp_cutset.specs.Rows.{IsAtLeastRow, IsSoonerWithin, IsSoonerRow, AreBounds};

use racp_model::{JobSet, Network};
use std::alloc::AllocError;

/// How many places are compared at a time, without a branch for each.
const WIDTH: usize = 8;

/// Whether no number of the second row is above that of the first.
pub(crate) fn is_at_least(high: &[u32], low: &[u32]) -> bool
    requires { length low.now ≡ length high.now }
    ensures { IsTrue result ↔ IsAtLeastRow high.now low.now }
{
    is_sooner_row(low, 0, high)
}

/// Whether at each place the first row's number is at most the limit or the second's.
pub(crate) fn is_sooner_row(first: &[u32], limit: u32, second: &[u32]) -> bool
    requires { length second.now ≡ length first.now }
    ensures { IsTrue result ↔ IsSoonerRow first.now limit second.now }
{
    let whole = first.len() / WIDTH;
    for part in 0..whole {
        if !is_sooner_part(first, limit, second, WIDTH * part) {
            return false;
        }
    }
    is_sooner_rest(first, limit, second, WIDTH * whole)
}

/// Whether at each of the `WIDTH` places from `from` on the first row's number is at most the limit or the second's.
fn is_sooner_part(first: &[u32], limit: u32, second: &[u32], from: usize) -> bool
    requires same { length second.now ≡ length first.now }
    requires within { from + 8 ≤ length first.now }
    ensures { IsTrue result ↔ IsSoonerWithin first.now limit second.now from (from + 8) }
{
    let mut holds = true;
    for i in from..from + WIDTH {
        holds &= first[i] <= limit.max(second[i]);
    }
    holds
}

/// Whether at each place from `from` on the first row's number is at most the limit or the second's.
fn is_sooner_rest(first: &[u32], limit: u32, second: &[u32], from: usize) -> bool
    requires { length second.now ≡ length first.now }
    ensures { IsTrue result ↔ IsSoonerWithin first.now limit second.now from (length first.now) }
{
    (from..first.len()).all(|i| first[i] <= limit.max(second[i]))
}

/// The ends, with the lower bounds in place of those of the jobs that do not start before the time; in the memory of
/// `row`.
///
/// # Errors
///
/// Memory was refused.
pub(crate) fn bounds_of(
    mut row: Vec<u32>,
    ends: &[u32],
    early: &[u32],
    time: u32,
    lower: &[u32],
) -> Result<Vec<u32>, AllocError>
    requires ends { length ends.now ≡ length early.now }
    requires lower { length lower.now ≡ length early.now }
    ensures { IfOk result (λ bounds. AreBounds early.now time ends.now lower.now bounds.items) }
{
    row.clear();
    row.extend_from_slice(ends)?;
    write_lower(&mut row, early, time, lower);
    Ok(row)
}

/// Writes the lower bounds over the ends of the jobs that do not start before the time.
fn write_lower(ends: &mut [u32], early: &[u32], time: u32, lower: &[u32])
    requires ends { length ends.old ≡ length early.now }
    requires lower { length lower.now ≡ length early.now }
    ensures { AreBounds early.now time ends.old lower.now ends.new }
{
    for i in 0..early.len() {
        if time <= early[i] {
            ends[i] = lower[i];
        }
    }
}

/// The jobs that start before a time, by their numbers from 1. There are at most 512 starts, one for each job.
pub fn started_before(early: &[u32], time: u32) -> JobSet
    requires { length early.now ≤ 512 }
    ensures { AreStartedBefore early.now time result }
{
    let mut started = JobSet::new();
    for i in 0..early.len() {
        if early[i] < time {
            started.insert(i as u32 + 1);
        }
    }
    started
}

/// When each job ends in early starts, in the memory of `row`.
///
/// # Errors
///
/// Memory was refused.
pub(crate) fn ends_of(
    mut row: Vec<u32>,
    net: &Network,
    early: &[u32],
) -> Result<Vec<u32>, AllocError>
    requires places { length early.now ≡ length net.now.jobs }
    requires small { (i : ℕ) → i < length net.now.jobs → slice_index early.now i ≤ most_early }
    ensures { IfOk result (λ ends. AreEnds net.now early.now ends.items) }
{
    row.clear();
    row.extend_from_slice(early)?;
    add_durations(net, &mut row);
    Ok(row)
}

/// Adds each job's duration.
fn add_durations(net: &Network, times: &mut [u32])
    requires places { length times.old ≡ length net.now.jobs }
    requires small { (i : ℕ) → i < length net.now.jobs → slice_index times.old i ≤ most_early }
    ensures { AreEnds net.now times.old times.new }
{
    for i in 0..net.job_count() {
        times[i] += net.duration(i);
    }
}

/// A hash of a set of jobs, over its words (Firefox's).
pub(crate) fn hash_of(jobs: &JobSet) -> u64 {
    let mut hash: u64 = 0;
    for word in jobs.words() {
        hash = (hash.rotate_left(5) ^ *word).wrapping_mul(0x517c_c1b7_2722_0a95);
    }
    hash
}
