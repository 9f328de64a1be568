//! Windows that are tightened by core usage, with bounds worked out by hand.

use crate::samples::sampled;
use crate::timetables::rows::{Bounds, Row, WINDOWS};
use racp_model::{Network, Question};
use racp_samples::question;
use racp_timetable::{Scratch, Tightened, tighten};
use std::alloc::Global;

mod rows;

/// Whether what was told of a window is this.
fn is_told(told: &Tightened, expected: &Option<Bounds>) -> bool {
    match (told, expected) {
        (Tightened::No(_), None) => true,
        (Tightened::Open(window), Some(bounds)) => {
            window.lower() == bounds.lower && window.upper() == bounds.upper
        }
        _ => false,
    }
}

/// Whether the window of a row is tightened in this network to the expected one.
fn is_tightened(alloc: Global, net: &Network, row: &Row) -> bool {
    let asked = question(
        alloc,
        net,
        row.capacities,
        row.window.lower,
        row.window.upper,
    );
    let Ok(Question { capacities, window }) = asked else {
        return false;
    };
    let mut scratch = Scratch::new(alloc, net);
    match tighten(net, &capacities, window, row.from, &mut scratch) {
        Ok(told) => is_told(&told, &row.expected),
        Err(_) => false,
    }
}

/// Whether the window of a row is tightened to the expected one in the network of the row.
fn holds(alloc: Global, row: &Row) -> bool {
    match sampled(alloc, row.sample) {
        Ok(net) => is_tightened(alloc, &net, row),
        Err(_) => false,
    }
}

#[test]
fn tightens_windows(rt: HostRuntime) {
    for row in WINDOWS {
        assert!(rt; holds(rt.alloc(), row), "{}", row.name);
    }
}
