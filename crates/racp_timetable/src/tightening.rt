//! Tightening a window by core usages, until no bound moves any more.

ghost use Rattle.std.specs.Prelude.{◌≡◌, IfOk, length};
ghost use Rattle.racp_model.specs.Formed.{HasBounds};
ghost use Rattle.racp_timetable.specs.Narrowing.{IsNarrowedOrNo, IsTightened};

use crate::core_times::narrow_at;
use crate::narrowing::{Narrowing, end_of};
use crate::precedence::settle;
use crate::scratch::Scratch;
use racp_model::{Capacities, Network, Window};
use std::alloc::AllocError;
use std::cmp::max;

/// How often all core times are gone over.
const MOST_ROUNDS: usize = 16;

/// What tightening a window tells.
#[derive(Drop)]
pub enum Tightened {
    /// Nothing in the window answers. These are rows of memory to be used again.
    No(Window),
    /// Whatever answers in the window lies in this one, which is inside it.
    Open(Window),
}

/// Tightens a window by the core usage from a time on, and along precedence, until no bound moves any more or all core
/// times were gone over a few times. There is a capacity for each resource and a bound for each job, by place from 0.
/// Upper bounds are taken to leave room before the jobs after them, as they do in the windows of a search: they are
/// looked at along precedence once one has moved. Whatever `scratch` held is written over.
///
/// # Errors
///
/// Memory was refused.
pub fn tighten(
    net: &Network,
    capacities: &Capacities,
    window: Window,
    from: u32,
    scratch: &mut Scratch,
) -> Result<Tightened, AllocError>
    requires capacities { length capacities.now ≡ net.now.resources }
    requires bounds { HasBounds net.now window }
    ensures { IfOk result (IsTightened net.now capacities.now from window) }
{
    let mut window = Narrowing::of(window);
    if narrow(net, capacities.as_slice(), &mut window, from, scratch)? {
        return Ok(Tightened::Open(window.into_window()));
    }
    Ok(Tightened::No(window.into_window()))
}

/// Tightens a window in place, by the core usage from a time on and along precedence. Says whether something may still
/// lie in the window.
fn narrow(
    net: &Network,
    capacities: &[u32],
    window: &mut Narrowing,
    from: u32,
    scratch: &mut Scratch,
) -> Result<bool, AllocError>
    requires capacities { length capacities.now ≡ net.now.resources }
    requires bounds { HasBounds net.now window.old }
    ensures { IfOk result (IsNarrowedOrNo net.now capacities.now from window.old window.new) }
{
    if !settle(net, window) {
        return Ok(false);
    }
    'rounds: for _ in 0..MOST_ROUNDS {
        put_times(net, window, from, &mut scratch.times)?;
        window.watch();
        if !narrow_between(net, capacities, window, from, scratch) || !settle(net, window) {
            return Ok(false);
        }
        if !window.has_moved() {
            return Ok(true);
        }
    }
    Ok(true)
}

/// Writes down, in rising order, when the core times of a job begin or end, from a time on.
fn put_times(
    net: &Network,
    window: &Narrowing,
    from: u32,
    times: &mut Vec<u32>,
) -> Result<(), AllocError>
    requires { HasBounds net.now window.now }
{
    times.clear();
    for i in 0..net.job_count() {
        let begin = max(window.upper(i), from);
        let end = end_of(net, i, window.lower(i));
        if begin < end {
            times.push(begin)?;
            times.push(end)?;
        }
    }
    times.sort_unstable();
    times.dedup();
    Ok(())
}

/// Narrows a window by the core usage at each time from one on, until the next one.
fn narrow_between(
    net: &Network,
    capacities: &[u32],
    window: &mut Narrowing,
    from: u32,
    scratch: &Scratch,
) -> bool
    requires capacities { length capacities.now ≡ net.now.resources }
    requires bounds { HasBounds net.now window.old }
    ensures { IsNarrowedOrNo net.now capacities.now from window.old window.new result }
{
    let Scratch { largest, times } = scratch;
    for k in 1..times.len() {
        let (time, next) = (times[k - 1], times[k]);
        if from <= time && time < next && !narrow_at(net, capacities, largest, window, time, next) {
            return false;
        }
    }
    true
}
