//! Floors and roofs of small networks.

ghost use Rattle.std.specs.Prelude.{◌≡◌, ◌↔◌, IsTrue, length};
ghost use Rattle.racp_model.specs.Schedule.{EndsBy};

use crate::samples::{Sample, sampled};
use racp_bounds::{floors, roofs};
use racp_model::{Network, Window};
use racp_samples::root_window;
use std::alloc::Global;

/// A network with a deadline, its floors and its roofs.
struct Row {
    name: &'static str,
    sample: Sample,
    deadline: u32,
    floors: &'static [u32],
    roofs: &'static [u32],
}

const BOUNDS: &[Row] = &[
    Row {
        name: "core usage",
        sample: Sample::Parallel,
        deadline: 4,
        floors: &[3],
        roofs: &[4],
    },
    Row {
        name: "two resources, no slack",
        sample: Sample::Crossed,
        deadline: 2,
        floors: &[2, 2],
        roofs: &[2, 2],
    },
    Row {
        name: "two resources, some slack",
        sample: Sample::Crossed,
        deadline: 3,
        floors: &[1, 1],
        roofs: &[2, 2],
    },
    Row {
        name: "two resources, enough slack",
        sample: Sample::Crossed,
        deadline: 4,
        floors: &[1, 1],
        roofs: &[2, 2],
    },
    Row {
        name: "a chain",
        sample: Sample::Chained,
        deadline: 8,
        floors: &[2],
        roofs: &[5],
    },
    Row {
        name: "the largest request",
        sample: Sample::Free(1, &[(0, &[9]), (2, &[7]), (2, &[1])]),
        deadline: 100,
        floors: &[7],
        roofs: &[17],
    },
    Row {
        name: "the energy",
        sample: Sample::Free(1, &[(2, &[3]), (2, &[3]), (2, &[3])]),
        deadline: 4,
        floors: &[5],
        roofs: &[9],
    },
    Row {
        name: "the core usage",
        sample: Sample::Free(1, &[(2, &[1]), (2, &[1]), (2, &[1])]),
        deadline: 3,
        floors: &[3],
        roofs: &[3],
    },
    Row {
        name: "nothing",
        sample: Sample::Free(1, &[(0, &[0]), (0, &[4])]),
        deadline: 0,
        floors: &[0],
        roofs: &[4],
    },
];

/// Whether each job ends by the deadline.
fn end_by(net: &Network, starts: &[u32], deadline: u32) -> bool
    requires { length starts.now ≡ length net.now.jobs }
    ensures { IsTrue result ↔ EndsBy net.now (λ _. deadline) starts.now }
{
    (0..net.job_count()).all(|i| starts[i] as u64 + net.duration(i) as u64 <= deadline as u64)
}

/// Whether a window under the deadline of a row has its floors.
fn has_floors(alloc: Global, net: &Network, window: &Window, row: &Row) -> bool
    requires lower { length window.now.lower ≡ length net.now.jobs }
    requires upper { length window.now.upper ≡ length net.now.jobs }
    requires ends { EndsBy net.now (λ _. row.now.deadline) window.now.lower }
{
    match floors(alloc, net, window, row.deadline) {
        Ok(found) => found.as_slice() == row.floors,
        Err(_) => false,
    }
}

/// Whether a network has the roofs of a row.
fn has_roofs(alloc: Global, net: &Network, row: &Row) -> bool {
    match roofs(alloc, net) {
        Ok(found) => found.as_slice() == row.roofs,
        Err(_) => false,
    }
}

/// Whether a network has the floors and roofs of a row.
fn has_bounds(alloc: Global, net: &Network, row: &Row) -> bool {
    match root_window(alloc, net, row.deadline) {
        Ok(window) => {
            end_by(net, window.lower(), row.deadline)
                && has_floors(alloc, net, &window, row)
                && has_roofs(alloc, net, row)
        }
        Err(_) => false,
    }
}

/// Whether the network of a row has its floors and roofs.
fn holds(alloc: Global, row: &Row) -> bool {
    match sampled(alloc, row.sample) {
        Ok(net) => has_bounds(alloc, &net, row),
        Err(_) => false,
    }
}

#[test]
fn finds_floors_and_roofs(rt: HostRuntime) {
    for row in BOUNDS {
        assert!(rt; holds(rt.alloc(), row), "{}", row.name);
    }
}
