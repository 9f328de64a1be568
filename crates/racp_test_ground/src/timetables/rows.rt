//! Windows, and what is left of them, worked out by hand.

use crate::samples::Sample;

/// The bounds of a window.
#[derive(Clone, Copy)]
pub(crate) struct Bounds {
    pub(crate) lower: &'static [u32],
    pub(crate) upper: &'static [u32],
}

/// A network with capacities, a window and a time from which core usages are looked at; and the tightened window, or
/// none if nothing in it answers.
pub(crate) struct Row {
    pub(crate) name: &'static str,
    pub(crate) sample: Sample,
    pub(crate) capacities: &'static [u32],
    pub(crate) window: Bounds,
    pub(crate) from: u32,
    pub(crate) expected: Option<Bounds>,
}

/// The six jobs with a chain, of which the second alone may start at several times.
const SECOND_FREE: Bounds = Bounds {
    lower: &[0, 0, 0, 1, 4, 8],
    upper: &[0, 4, 0, 1, 4, 8],
};

pub(crate) const WINDOWS: &[Row] = &[
    Row {
        name: "a job waits until a core usage is over",
        sample: Sample::Chained,
        capacities: &[2],
        window: SECOND_FREE,
        from: 0,
        expected: Some(Bounds {
            lower: &[0, 4, 0, 1, 4, 8],
            upper: &[0, 4, 0, 1, 4, 8],
        }),
    },
    Row {
        name: "the core usage before a time is not looked at",
        sample: Sample::Chained,
        capacities: &[2],
        window: SECOND_FREE,
        from: 5,
        expected: Some(SECOND_FREE),
    },
    Row {
        name: "enough units",
        sample: Sample::Chained,
        capacities: &[3],
        window: SECOND_FREE,
        from: 0,
        expected: Some(SECOND_FREE),
    },
    Row {
        name: "the core usage itself exceeds the capacity",
        sample: Sample::Chained,
        capacities: &[1],
        window: SECOND_FREE,
        from: 0,
        expected: None,
    },
    Row {
        name: "lower bounds follow along precedence",
        sample: Sample::Chained,
        capacities: &[9],
        window: Bounds {
            lower: &[0, 0, 0, 0, 0, 0],
            upper: &[1, 5, 1, 2, 5, 9],
        },
        from: 0,
        expected: Some(Bounds {
            lower: &[0, 0, 0, 1, 4, 8],
            upper: &[1, 5, 1, 2, 5, 9],
        }),
    },
    Row {
        name: "upper bounds follow along precedence once one has moved",
        sample: Sample::Chained,
        capacities: &[2],
        window: Bounds {
            lower: &[0, 4, 0, 1, 4, 8],
            upper: &[4, 4, 4, 5, 8, 12],
        },
        from: 0,
        expected: Some(Bounds {
            lower: &[0, 4, 0, 1, 4, 8],
            upper: &[0, 4, 0, 1, 8, 12],
        }),
    },
    Row {
        name: "along precedence nothing is left",
        sample: Sample::Chained,
        capacities: &[9],
        window: Bounds {
            lower: &[0, 0, 1, 0, 0, 0],
            upper: &[9, 9, 9, 1, 9, 9],
        },
        from: 0,
        expected: None,
    },
    Row {
        name: "a job ends before a core usage",
        sample: Sample::Free(1, &[(2, &[1]), (2, &[1])]),
        capacities: &[1],
        window: Bounds {
            lower: &[3, 0],
            upper: &[3, 3],
        },
        from: 0,
        expected: Some(Bounds {
            lower: &[3, 0],
            upper: &[3, 1],
        }),
    },
    Row {
        name: "a job has no room before, between and behind two core usages",
        sample: Sample::Free(1, &[(2, &[1]), (2, &[1]), (3, &[1])]),
        capacities: &[1],
        window: Bounds {
            lower: &[2, 5, 0],
            upper: &[2, 5, 6],
        },
        from: 0,
        expected: None,
    },
    Row {
        name: "a bound that moves makes core times, which move another",
        sample: Sample::Free(1, &[(2, &[1]), (3, &[1]), (2, &[1])]),
        capacities: &[1],
        window: Bounds {
            lower: &[0, 0, 2],
            upper: &[0, 3, 9],
        },
        from: 0,
        expected: Some(Bounds {
            lower: &[0, 2, 5],
            upper: &[0, 3, 9],
        }),
    },
    Row {
        name: "only the second resource has no room",
        sample: Sample::Free(2, &[(2, &[1, 2]), (2, &[1, 1])]),
        capacities: &[2, 2],
        window: Bounds {
            lower: &[0, 0],
            upper: &[0, 9],
        },
        from: 0,
        expected: Some(Bounds {
            lower: &[0, 2],
            upper: &[0, 9],
        }),
    },
    Row {
        name: "a job of duration 0 never runs",
        sample: Sample::Free(1, &[(2, &[1]), (0, &[1])]),
        capacities: &[1],
        window: Bounds {
            lower: &[3, 0],
            upper: &[3, 4],
        },
        from: 0,
        expected: Some(Bounds {
            lower: &[3, 0],
            upper: &[3, 4],
        }),
    },
    Row {
        name: "a job does not stand in its own way",
        sample: Sample::Free(1, &[(4, &[1])]),
        capacities: &[1],
        window: Bounds {
            lower: &[0],
            upper: &[2],
        },
        from: 0,
        expected: Some(Bounds {
            lower: &[0],
            upper: &[2],
        }),
    },
    Row {
        name: "far times",
        sample: Sample::Free(1, &[(10_000, &[1]), (10_000, &[1])]),
        capacities: &[1],
        window: Bounds {
            lower: &[9_990_000, 9_985_000],
            upper: &[9_990_000, 10_000_000],
        },
        from: 9_000_000,
        expected: Some(Bounds {
            lower: &[9_990_000, 10_000_000],
            upper: &[9_990_000, 10_000_000],
        }),
    },
];
