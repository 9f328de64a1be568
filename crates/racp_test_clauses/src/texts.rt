//! A stop within the check of a certificate by clauses, for a plan and for a bound.

use racp_delay::Steps;
use racp_derivations::{establishes_by_text_until, least_by_text_until};
use racp_model::{Network, Unfound};
use racp_plan::{Plan, read_plan};
use racp_prices::{Order, read_order};
use racp_samples::parallel;
use racp_samples::texts::{ORDER, PLAN};
use std::alloc::Global;

/// That the plan of the five jobs is the plan for the deadline 4: the lines of examples/a4.clauses.
const TEXT: &[u8] =
    b"proof 2\ncost >= 30\nbudget 1\ntimes 3 1 1 3\nholds\nunits 1 >= 3\ntimes 3 1 1 3\nholds\nunits 1 >= 4\nstart 2 >= 1\nstart 3 >= 1\nstart 4 >= 2\ntimes 4 1 0 2\nholds\nunits 1 >= 4\nstart 2 >= 1\nstart 3 >= 1\nstart 5 >= 4\nclause 3\npair 4 5\nholds\nend\n";

/// The same with numbers in the place of lines that were spelled out before.
const NUMBERED: &[u8] =
    b"proof 2\ncost >= 30\nbudget 1\ntimes 3 1 1 3\nholds\nunits 1 >= 3\n3\nholds\nunits 1 >= 4\nstart 2 >= 1\nstart 3 >= 1\nstart 4 >= 2\ntimes 4 1 0 2\nholds\n5\n6\n7\nstart 5 >= 4\nclause 3\npair 4 5\nholds\nend\n";

/// The same with a number that no line has yet.
const MISNUMBERED: &[u8] =
    b"proof 2\ncost >= 30\nbudget 1\ntimes 3 1 1 3\nholds\nunits 1 >= 3\n3\nholds\nunits 1 >= 4\nstart 2 >= 1\nstart 3 >= 1\nstart 4 >= 2\ntimes 4 1 0 2\nholds\n5\n6\n10\nstart 5 >= 4\nclause 3\npair 4 5\nholds\nend\n";

/// That each plan costs at least 30: the lines of examples/a4.bound.
const BOUND: &[u8] = b"proof 2\nat least 30\ncost >= 30\nbudget 1\ntimes 3 1 1 3\nholds\nend\n";

/// What the second text shows that each plan costs at least, by so many questions whether to stop, and 0 if it was stopped; none
/// if memory is refused or the order is of another network.
fn least_told(alloc: Global, net: &Network, order: &Order, most: u32) -> Option<u64> {
    if !order.is_for(net) {
        return None;
    }
    match least_by_text_until(alloc, net, order, BOUND, &Steps::new(most)) {
        Ok(least) => least,
        Err(Unfound::Stopped) => Some(0),
        Err(Unfound::Memory) => None,
    }
}

/// The same of the order of the five jobs.
fn least_told_by(alloc: Global, most: u32) -> Option<u64> {
    let net = parallel(alloc).ok()?;
    let order = read_order(alloc, ORDER.as_bytes(), 1, 5).ok()?;
    least_told(alloc, &net, &order, most)
}

/// Whether a text shows a plan, by so many questions whether to stop; none if memory is refused or the order is of another network.
fn is_told(
    alloc: Global,
    net: &Network,
    order: &Order,
    plan: &Plan,
    text: &[u8],
    most: u32,
) -> Option<bool> {
    if !order.is_for(net) {
        return None;
    }
    match establishes_by_text_until(alloc, net, order, plan, text, &Steps::new(most)) {
        Ok(shown) => Some(shown),
        Err(Unfound::Stopped) => Some(false),
        Err(Unfound::Memory) => None,
    }
}

/// The same of the order and the plan of the five jobs.
fn is_told_by(alloc: Global, text: &[u8], most: u32) -> Option<bool> {
    let net = parallel(alloc).ok()?;
    let order = read_order(alloc, ORDER.as_bytes(), 1, 5).ok()?;
    let plan = read_plan(alloc, PLAN.as_bytes(), &net).ok()?;
    is_told(alloc, &net, &order, &plan, text, most)
}

#[test]
fn the_stop_is_asked_at_each_line(rt: HostRuntime) {
    let alloc = rt.alloc();
    assert!(rt; is_told_by(alloc, TEXT, 21) == Some(true));
    assert!(rt; is_told_by(alloc, TEXT, 20) == Some(false));
}

#[test]
fn a_number_says_what_its_line_says(rt: HostRuntime) {
    let alloc = rt.alloc();
    assert!(rt; is_told_by(alloc, NUMBERED, 21) == Some(true));
    assert!(rt; is_told_by(alloc, MISNUMBERED, 21) == Some(false));
}

#[test]
fn the_stop_is_asked_at_each_line_behind_a_bound(rt: HostRuntime) {
    let alloc = rt.alloc();
    assert!(rt; least_told_by(alloc, 5) == Some(30));
    assert!(rt; least_told_by(alloc, 4) == Some(0));
}
