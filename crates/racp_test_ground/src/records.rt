//! Which nodes and records a record covers.

ghost use Rattle.std.specs.Prelude.{◌≡◌};

use crate::records::places::{Place, node, nogood};
use racp_cutset::{Node, Nogood};
use racp_model::{Network, OfNetwork};
use racp_samples::{crossed, parallel};
use std::alloc::Global;
use std::marker::Brand;

mod finding;
mod places;
mod scripts;

/// The root window of the five jobs for the deadline 4, with 2 units.
const ROOT: Place<'static> = Place {
    units: &[2],
    lower: &[0, 0, 0, 0, 3],
    upper: &[1, 1, 2, 2, 4],
    time: 0,
};

/// The root window in which the third job may not start before 2, with 2 units.
const RAISED: Place<'static> = Place {
    lower: &[0, 0, 2, 0, 3],
    ..ROOT
};

/// A place, and whether a record covers its node.
struct Row {
    place: Place<'static>,
    covered: bool,
}

const ROWS: &[Row] = &[
    Row {
        place: ROOT,
        covered: true,
    },
    Row {
        place: Place {
            units: &[1],
            ..ROOT
        },
        covered: true,
    },
    Row {
        place: Place {
            upper: &[0, 0, 1, 1, 3],
            ..ROOT
        },
        covered: true,
    },
    Row {
        place: RAISED,
        covered: true,
    },
    Row {
        place: Place {
            units: &[3],
            ..ROOT
        },
        covered: false,
    },
    Row {
        place: Place {
            upper: &[2, 2, 3, 3, 5],
            ..ROOT
        },
        covered: false,
    },
];

/// Whether the record covers the node of a row as it is to.
fn is_covered<N: OfNetwork>(alloc: Global, net: &Network, known: &Nogood<N>, row: &Row) -> bool
    requires named { net.now ≡ N.network }
{
    match node::<N>(alloc, net, &row.place) {
        Some(other) => known.covers(&other) == row.covered,
        None => false,
    }
}

/// Whether the record covers the node of each row as it is to.
fn covers_each<N: OfNetwork>(alloc: Global, net: &Network, known: &Nogood<N>, rows: &[Row]) -> bool
    requires named { net.now ≡ N.network }
{
    for row in rows {
        if !is_covered(alloc, net, known, row) {
            return false;
        }
    }
    true
}

/// Whether the record of a place covers the nodes of the rows that it is to cover, and no other.
fn covers_rows<N: OfNetwork>(alloc: Global, net: &Network, known: &Place<'_>, rows: &[Row]) -> bool
    requires named { net.now ≡ N.network }
{
    match nogood::<N>(alloc, net, known) {
        Some(known) => covers_each(alloc, net, &known, rows),
        None => false,
    }
}

/// Whether the record of the first place covers that of the second, or not, as it is to.
fn covers_record<N: OfNetwork>(
    alloc: Global,
    net: &Network,
    known: &Place<'_>,
    other: &Place<'_>,
    covered: bool,
) -> bool
    requires named { net.now ≡ N.network }
{
    let Some(known) = nogood::<N>(alloc, net, known) else {
        return false;
    };
    match nogood(alloc, net, other) {
        Some(other) => known.covers_record(&other) == covered,
        None => false,
    }
}

/// Whether records cover nodes and records of the five jobs as they are to.
fn are_covered(alloc: Global) -> bool {
    match parallel(alloc) {
        Ok(net) => {
            covers_rows::<Brand>(alloc, &net, &ROOT, ROWS)
                && covers_record::<Brand>(alloc, &net, &ROOT, &RAISED, true)
                && covers_record::<Brand>(alloc, &net, &RAISED, &ROOT, false)
        }
        Err(_) => false,
    }
}

#[test]
fn covers_less_capacity_and_tighter_bounds(rt: HostRuntime) {
    assert!(rt; are_covered(rt.alloc()));
}

/// A node of the six jobs at time 2, in which the second job is late.
const SECOND_LATE: Place<'static> = Place {
    units: &[1, 1],
    lower: &[0, 1, 0, 1, 1, 2],
    upper: &[1, 1, 1, 2, 2, 3],
    time: 2,
};

/// Nodes at time 2 with a late third job, and at other times, when other jobs are started.
const STARTED: &[Row] = &[
    Row {
        place: THIRD_LATE,
        covered: true,
    },
    Row {
        place: Place {
            time: 1,
            ..THIRD_LATE
        },
        covered: false,
    },
    Row {
        place: Place {
            time: 3,
            ..THIRD_LATE
        },
        covered: false,
    },
];

const THIRD_LATE: Place<'static> = Place {
    lower: &[0, 0, 1, 1, 1, 2],
    ..SECOND_LATE
};

/// What the readers of a node tell: its early starts and ends, and of the third and the fourth job whether it is
/// started.
fn is_told<N: OfNetwork>(node: &Node<N>) -> bool {
    node.early().as_slice() == [0, 1, 0, 2, 2, 3].as_slice()
        && node.ends() == [0, 2, 1, 3, 3, 3].as_slice()
        && node.started().contains(3)
        && !node.started().contains(4)
}

/// The node in which the second job is late, in rows of its own and then in the same rows at time 1.
fn moves<N: OfNetwork>(alloc: Global, net: &Network) -> bool
    requires named { net.now ≡ N.network }
{
    let Some(first) = node::<N>(alloc, net, &SECOND_LATE) else {
        return false;
    };
    let told = is_told(&first);
    let (asked, early, rows) = first.into_rows();
    match Node::<N>::reusing(net, asked, early, rows, 1) {
        Ok(again) => told && again.time() == 1 && is_told(&again),
        Err(_) => false,
    }
}

/// Whether nodes of the six jobs tell what they are, and are covered if the same jobs are started.
fn are_told(alloc: Global) -> bool {
    let Ok(net) = crossed(alloc) else {
        return false;
    };
    moves::<Brand>(alloc, &net) && covers_rows::<Brand>(alloc, &net, &SECOND_LATE, STARTED)
}

#[test]
fn tells_which_jobs_are_started(rt: HostRuntime) {
    assert!(rt; are_told(rt.alloc()));
}
