//! Nodes and records of places in windows.

ghost use Rattle.std.specs.Prelude.{◌≡◌, IsTrue};
ghost use Rattle.racp_model.specs.Window.{IsNo};
ghost use Rattle.racp_cutset.specs.Covering.{FitsBeforeTime};

use racp_cutset::{Node, Nogood};
use racp_delay::conflict;
use racp_model::{Network, OfNetwork};
use racp_reference::decide_by_definition;
use racp_samples::question;
use std::alloc::Global;

/// What a node is made of: capacities, lower and upper bounds, and its time.
#[derive(Clone, Copy)]
pub(crate) struct Place<'a> {
    pub(crate) units: &'a [u32],
    pub(crate) lower: &'a [u32],
    pub(crate) upper: &'a [u32],
    pub(crate) time: u32,
}

/// The node of a place; or `None` if there is no such sample, or memory is refused.
pub(crate) fn node<N: OfNetwork>(alloc: Global, net: &Network, place: &Place<'_>) -> Option<Node<N>>
    requires named { net.now ≡ N.network }
{
    match question(alloc, net, place.units, place.lower, place.upper) {
        Ok(asked) => Node::new(alloc, net, asked, place.time).ok(),
        Err(_) => None,
    }
}

/// Whether the early starts of a node keep its capacities before its time, and the jobs that start before it their
/// bounds.
fn fits_before_time<N: OfNetwork>(net: &Network, node: &Node<N>) -> bool
    requires named { net.now ≡ N.network }
    ensures { IsTrue result → FitsBeforeTime N.network node.now }
{
    let upper = node.question().window.upper();
    let early = node.early().as_slice();
    for i in 0..net.job_count() {
        if early[i] < node.time() && upper[i] < early[i] {
            return false;
        }
    }
    match conflict(net, &node.question().capacities, node.early()) {
        Some(first) => node.time() <= first.time,
        None => true,
    }
}

/// Whether the question of a node is infeasible by the definition.
fn is_no<N: OfNetwork>(alloc: Global, net: &Network, node: &Node<N>) -> bool
    requires named { net.now ≡ N.network }
    ensures { IsTrue result → IsNo N.network node.now.capacities node.now.window }
{
    match decide_by_definition(alloc, net, node.question()) {
        Ok(found) => found.is_none(),
        Err(_) => false,
    }
}

/// The record of a node; there is none if its question is a yes by the definition.
fn refuted<N: OfNetwork>(alloc: Global, net: &Network, node: Node<N>) -> Option<Nogood<N>>
    requires named { net.now ≡ N.network }
{
    if is_no(alloc, net, &node) && fits_before_time(net, &node) {
        Some(Nogood::of(node))
    } else {
        None
    }
}

/// The record of the node of a place.
pub(crate) fn nogood<N: OfNetwork>(
    alloc: Global,
    net: &Network,
    place: &Place<'_>,
) -> Option<Nogood<N>>
    requires named { net.now ≡ N.network }
{
    match node(alloc, net, place) {
        Some(node) => refuted(alloc, net, node),
        None => None,
    }
}

/// The bounds of the root window, so much later.
#[derive(Clone, Copy)]
struct Bounds {
    lower: [u32; 5],
    upper: [u32; 5],
}

fn later(time: u32) -> Bounds {
    let (one, two) = (time.saturating_add(1), time.saturating_add(2));
    let (three, four) = (time.saturating_add(3), time.saturating_add(4));
    Bounds {
        lower: [time, time, time, time, three],
        upper: [one, one, two, two, four],
    }
}

/// The node of the root window with this many units, so much later.
pub(crate) fn later_node<N: OfNetwork>(
    alloc: Global,
    net: &Network,
    units: u32,
    time: u32,
) -> Option<Node<N>>
    requires named { net.now ≡ N.network }
{
    let bounds = later(time);
    let place = Place {
        units: &[units],
        lower: &bounds.lower,
        upper: &bounds.upper,
        time: 0,
    };
    node(alloc, net, &place)
}

/// The record of that node.
pub(crate) fn record<N: OfNetwork>(
    alloc: Global,
    net: &Network,
    units: u32,
    time: u32,
) -> Option<Nogood<N>>
    requires named { net.now ≡ N.network }
{
    match later_node(alloc, net, units, time) {
        Some(node) => refuted(alloc, net, node),
        None => None,
    }
}
