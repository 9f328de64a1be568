//! Bounds that follow along precedence.

ghost use Rattle.std.specs.Prelude.{◌<◌, length};
ghost use Rattle.racp_model.specs.Formed.{HasBounds};
ghost use Rattle.racp_model.specs.Project.{Precedes};
ghost use Rattle.racp_timetable.specs.Narrowing.{IsNarrowedAlong};

use crate::narrowing::{Narrowing, end_of};
use racp_model::Network;

/// Raises lower bounds to the ends of the jobs before them, and lowers upper bounds to leave room before the jobs after
/// them. Says whether something may still lie in the window.
pub(crate) fn settle(net: &Network, window: &mut Narrowing) -> bool
    requires { HasBounds net.now window.old }
    ensures { IsNarrowedAlong net.now window.old window.new result }
{
    raise_along(net, window) && reduce_along(net, window)
}

/// Raises lower bounds, in one sweep; there is nothing to do if none has moved.
fn raise_along(net: &Network, window: &mut Narrowing) -> bool
    requires { HasBounds net.now window.old }
    ensures { IsNarrowedAlong net.now window.old window.new result }
{
    if !window.has_raised() {
        return true;
    }
    for &(i, j) in net.topological_arcs() {
        if !raise_behind(net, window, i as usize, j as usize) {
            return false;
        }
    }
    true
}

/// Raises a lower bound to the end of a job before it.
fn raise_behind(net: &Network, window: &mut Narrowing, i: usize, j: usize) -> bool
    requires bounds { HasBounds net.now window.old }
    requires from { i < length net.now.jobs }
    requires to { j < length net.now.jobs }
    requires order { Precedes net.now i j }
    ensures { IsNarrowedAlong net.now window.old window.new result }
{
    let end = end_of(net, i, window.lower(i));
    if end <= window.lower(j) {
        return true;
    }
    window.raise(j, end)
}

/// Lowers upper bounds, in one sweep from the end; there is nothing to do if none has moved.
fn reduce_along(net: &Network, window: &mut Narrowing) -> bool
    requires { HasBounds net.now window.old }
    ensures { IsNarrowedAlong net.now window.old window.new result }
{
    if !window.has_reduced() {
        return true;
    }
    let arcs = net.topological_arcs();
    for k in (0..arcs.len()).rev() {
        let (i, j) = arcs[k];
        if !reduce_before(net, window, i as usize, j as usize) {
            return false;
        }
    }
    true
}

/// Lowers an upper bound to leave room before a job after it.
fn reduce_before(net: &Network, window: &mut Narrowing, i: usize, j: usize) -> bool
    requires bounds { HasBounds net.now window.old }
    requires from { i < length net.now.jobs }
    requires to { j < length net.now.jobs }
    requires order { Precedes net.now i j }
    ensures { IsNarrowedAlong net.now window.old window.new result }
{
    let (duration, end) = (net.duration(i), window.upper(j));
    if end < duration {
        return false;
    }
    if window.upper(i) <= end - duration {
        return true;
    }
    window.reduce(i, end - duration)
}
