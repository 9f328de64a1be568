//! What links between tasks become where memory is at hand: pairs, waiting jobs, and links between the leaves of phases.

use racp_links::{Link, LinkFault, LinkKind, Wait, leaf_links, with_waits};
use std::alloc::Global;

/// A link from a task of 4 to one of 3 time units, and what it becomes. Without pairs it is refused.
struct Row {
    name: &'static str,
    kind: LinkKind,
    lag: u32,
    pairs: &'static [(u32, u32)],
    wait: u32,
}

/// The pairs of a link with a waiting job, and of one without.
const AROUND: &[(u32, u32)] = &[(1, 3), (3, 2)];

const ALONE: &[(u32, u32)] = &[(1, 2)];

const ROWS: &[Row] = &[
    Row {
        name: "from finish to start",
        kind: LinkKind::FinishToStart,
        lag: 0,
        pairs: ALONE,
        wait: 0,
    },
    Row {
        name: "2 time units later",
        kind: LinkKind::FinishToStart,
        lag: 2,
        pairs: AROUND,
        wait: 2,
    },
    Row {
        name: "from start to start, while the first runs",
        kind: LinkKind::StartToStart,
        lag: 3,
        pairs: &[],
        wait: 0,
    },
    Row {
        name: "from start to start, as the first ends",
        kind: LinkKind::StartToStart,
        lag: 4,
        pairs: ALONE,
        wait: 0,
    },
    Row {
        name: "from finish to finish, too soon",
        kind: LinkKind::FinishToFinish,
        lag: 2,
        pairs: &[],
        wait: 0,
    },
    Row {
        name: "from finish to finish, later by the second",
        kind: LinkKind::FinishToFinish,
        lag: 3,
        pairs: ALONE,
        wait: 0,
    },
    Row {
        name: "from start to finish, too soon",
        kind: LinkKind::StartToFinish,
        lag: 6,
        pairs: &[],
        wait: 0,
    },
    Row {
        name: "from start to finish, 1 time unit later than both",
        kind: LinkKind::StartToFinish,
        lag: 8,
        pairs: AROUND,
        wait: 1,
    },
];

/// Whether these are no waiting job, or one of so many time units before task 2.
fn are_waits(waits: &[Wait], units: u32) -> bool {
    match waits.first() {
        None => units == 0,
        Some(wait) => waits.len() == 1 && wait.duration == units && wait.after == 2,
    }
}

/// Whether the link of a row becomes what it says.
fn becomes(alloc: Global, row: &Row) -> bool {
    let link = Link {
        before: 1,
        after: 2,
        kind: row.kind,
        lag: row.lag,
    };
    match with_waits(alloc, &[4, 3], &[link]) {
        Ok(made) => made.pairs.as_slice() == row.pairs && are_waits(&made.waits, row.wait),
        Err(LinkFault::Overlap(place)) => place == 0 && row.pairs.is_empty(),
        Err(_) => false,
    }
}

#[test]
fn makes_pairs_and_waiting_jobs(rt: HostRuntime) {
    for row in ROWS {
        assert!(rt; becomes(rt.alloc(), row), "{}", row.name);
    }
}

/// A link from the first of two tasks to the second, and the links between leaves that it stands for.
struct Spread {
    name: &'static str,
    parents: &'static [u32],
    tasks: (u32, u32),
    leaves: &'static [(u32, u32)],
}

const SPREADS: &[Spread] = &[
    Spread {
        name: "no phase",
        parents: &[0, 0],
        tasks: (1, 2),
        leaves: &[(1, 2)],
    },
    Spread {
        name: "two phases of two tasks",
        parents: &[0, 1, 1, 0, 4, 4],
        tasks: (1, 4),
        leaves: &[(2, 5), (2, 6), (3, 5), (3, 6)],
    },
    Spread {
        name: "a phase in a phase",
        parents: &[0, 1, 2, 2, 1, 0],
        tasks: (1, 6),
        leaves: &[(3, 6), (4, 6), (5, 6)],
    },
];

/// Whether these links are between these tasks, with a lag of 1.
fn are_links(links: &[Link], tasks: &[(u32, u32)]) -> bool {
    links.len() == tasks.len()
        && links.iter().zip(tasks).all(|(link, pair)| (link.before, link.after) == *pair
            && link.lag == 1)
}

/// Whether the link of a row stands for those that it says.
fn stands_for(alloc: Global, row: &Spread) -> bool {
    let link = Link {
        before: row.tasks.0,
        after: row.tasks.1,
        kind: LinkKind::FinishToStart,
        lag: 1,
    };
    match leaf_links(alloc, row.parents, &[link]) {
        Ok(made) => are_links(&made, row.leaves),
        Err(_) => false,
    }
}

#[test]
fn spreads_links_of_phases(rt: HostRuntime) {
    for row in SPREADS {
        assert!(rt; stands_for(rt.alloc(), row), "{}", row.name);
    }
}
