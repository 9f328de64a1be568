//! Networks with starts, and their first conflict worked out by hand.

use crate::samples::Sample;

/// Jobs that go, and the time to which their lower bounds are raised in the child window, if there is one.
pub(crate) struct Resolution {
    pub(crate) gone: &'static [u32],
    pub(crate) end: Option<u64>,
}

/// A conflict: its time, the active jobs and the alternatives.
pub(crate) struct Expected {
    pub(crate) time: u32,
    pub(crate) active: &'static [u32],
    pub(crate) alternatives: &'static [Resolution],
}

/// A network with capacities and starts, and their first conflict.
pub(crate) struct Row {
    pub(crate) name: &'static str,
    pub(crate) sample: Sample,
    pub(crate) capacities: &'static [u32],
    pub(crate) starts: &'static [u32],
    pub(crate) expected: Option<Expected>,
}

/// Four jobs, of which the first two, or the last two, may go if there are two units of each of two resources.
pub(crate) const FOUR: Sample = Sample::Free(
    2,
    &[(2, &[2, 0]), (2, &[0, 2]), (2, &[1, 1]), (2, &[1, 1])],
);

pub(crate) const CONFLICTS: &[Row] = &[
    Row {
        name: "three jobs beside each other",
        sample: Sample::Parallel,
        capacities: &[2],
        starts: &[0, 0, 0, 0, 3],
        expected: Some(Expected {
            time: 0,
            active: &[2, 3, 4],
            alternatives: &[
                Resolution {
                    gone: &[2],
                    end: Some(2),
                },
                Resolution {
                    gone: &[3, 4],
                    end: Some(3),
                },
            ],
        }),
    },
    Row {
        name: "enough units",
        sample: Sample::Parallel,
        capacities: &[4],
        starts: &[0, 0, 0, 0, 3],
        expected: None,
    },
    Row {
        name: "jobs put off",
        sample: Sample::Parallel,
        capacities: &[2],
        starts: &[0, 0, 3, 3, 5],
        expected: None,
    },
    Row {
        name: "a job beside a chain",
        sample: Sample::Chained,
        capacities: &[2],
        starts: &[0, 0, 0, 1, 4, 8],
        expected: Some(Expected {
            time: 1,
            active: &[2, 4],
            alternatives: &[
                Resolution {
                    gone: &[2],
                    end: Some(4),
                },
                Resolution {
                    gone: &[4],
                    end: Some(4),
                },
            ],
        }),
    },
    Row {
        name: "enough units for a chain",
        sample: Sample::Chained,
        capacities: &[3],
        starts: &[0, 0, 0, 1, 4, 8],
        expected: None,
    },
    Row {
        name: "both resources are exceeded at once",
        sample: FOUR,
        capacities: &[2, 2],
        starts: &[0; 4],
        expected: Some(Expected {
            time: 0,
            active: &[1, 2, 3, 4],
            alternatives: &[
                Resolution {
                    gone: &[1, 2],
                    end: Some(2),
                },
                Resolution {
                    gone: &[3, 4],
                    end: Some(2),
                },
            ],
        }),
    },
    Row {
        name: "only the second resource is exceeded, and not at the first start",
        sample: Sample::Free(2, &[(1, &[1, 0]), (3, &[0, 2]), (3, &[0, 2])]),
        capacities: &[1, 3],
        starts: &[7, 2, 4],
        expected: Some(Expected {
            time: 4,
            active: &[2, 3],
            alternatives: &[
                Resolution {
                    gone: &[2],
                    end: Some(7),
                },
                Resolution {
                    gone: &[3],
                    end: Some(5),
                },
            ],
        }),
    },
    Row {
        name: "one job alone requests more than there is",
        sample: Sample::Free(1, &[(2, &[3]), (2, &[1])]),
        capacities: &[2],
        starts: &[0, 5],
        expected: Some(Expected {
            time: 0,
            active: &[1],
            alternatives: &[Resolution {
                gone: &[1],
                end: None,
            }],
        }),
    },
    Row {
        name: "a job of duration 0 is never active, and one that requests nothing never has to go",
        sample: Sample::Free(1, &[(0, &[9]), (2, &[0]), (2, &[2]), (2, &[2])]),
        capacities: &[3],
        starts: &[0; 4],
        expected: Some(Expected {
            time: 0,
            active: &[2, 3, 4],
            alternatives: &[
                Resolution {
                    gone: &[3],
                    end: Some(2),
                },
                Resolution {
                    gone: &[4],
                    end: Some(2),
                },
            ],
        }),
    },
    Row {
        name: "a job that ends when another starts is no longer active",
        sample: Sample::Free(1, &[(2, &[2]), (2, &[2])]),
        capacities: &[3],
        starts: &[0, 2],
        expected: None,
    },
    Row {
        name: "the last time units that a start can be",
        sample: Sample::Free(1, &[(10_000, &[2]), (1, &[2])]),
        capacities: &[3],
        starts: &[4_294_967_295; 2],
        expected: Some(Expected {
            time: 4_294_967_295,
            active: &[1, 2],
            alternatives: &[
                Resolution {
                    gone: &[1],
                    end: Some(4_294_967_296),
                },
                Resolution {
                    gone: &[2],
                    end: Some(4_294_977_295),
                },
            ],
        }),
    },
];
