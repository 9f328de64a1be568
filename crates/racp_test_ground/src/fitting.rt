//! Which starts fit.

use crate::samples::{Sample, Setting, set_up};
use racp_model::fits;
use std::alloc::Global;

/// Two jobs that each request nothing of the first resource, and a unit of the second.
const SECOND: Sample = Sample::Free(2, &[(1, &[0, 1]), (1, &[0, 1])]);

/// A network with capacities, starts and a deadline, and whether these starts fit.
struct Fit {
    name: &'static str,
    sample: Sample,
    capacities: &'static [u32],
    starts: &'static [u32],
    deadline: u64,
    fits: bool,
}

const FITS: &[Fit] = &[
    Fit {
        name: "the plan",
        sample: Sample::Parallel,
        capacities: &[3],
        starts: &[0, 0, 0, 2, 4],
        deadline: 4,
        fits: true,
    },
    Fit {
        name: "the deadline is over",
        sample: Sample::Parallel,
        capacities: &[3],
        starts: &[0, 0, 0, 2, 4],
        deadline: 3,
        fits: false,
    },
    Fit {
        name: "job 5 starts before job 4 ends",
        sample: Sample::Parallel,
        capacities: &[3],
        starts: &[0, 0, 0, 2, 3],
        deadline: 4,
        fits: false,
    },
    Fit {
        name: "three units at time 0",
        sample: Sample::Parallel,
        capacities: &[2],
        starts: &[0, 0, 0, 2, 4],
        deadline: 4,
        fits: false,
    },
    Fit {
        name: "four units at time 1",
        sample: Sample::Parallel,
        capacities: &[3],
        starts: &[0, 0, 0, 1, 4],
        deadline: 4,
        fits: false,
    },
    Fit {
        name: "two units of the second resource",
        sample: SECOND,
        capacities: &[0, 1],
        starts: &[0, 0],
        deadline: 1,
        fits: false,
    },
    Fit {
        name: "as many as there are",
        sample: SECOND,
        capacities: &[0, 2],
        starts: &[0, 0],
        deadline: 1,
        fits: true,
    },
];

/// Whether the starts of a row fit as they are to.
fn holds(alloc: Global, row: &Fit) -> bool {
    match set_up(alloc, row.sample, row.capacities, row.starts) {
        Ok(setting) => {
            let Setting {
                net,
                capacities,
                starts,
            } = &setting;
            fits(net, capacities, starts, row.deadline) == row.fits
        }
        Err(_) => false,
    }
}

#[test]
fn tells_which_starts_fit(rt: HostRuntime) {
    for row in FITS {
        assert!(rt; holds(rt.alloc(), row), "{}", row.name);
    }
}
