//! Which networks are made, and which are refused and why.

use racp_model::{NetFault, Network, usage_at};
use racp_samples::network;
use std::alloc::Global;

/// The resources, jobs and pairs of a network, and why it is not made.
struct Attempt {
    name: &'static str,
    resources: usize,
    jobs: &'static [(u32, &'static [u32])],
    arcs: &'static [(u32, u32)],
    fault: Option<NetFault>,
}

/// Six equal jobs.
const SIX: [(u32, &[u32]); 6] = [(1, &[1]); 6];

const ATTEMPTS: &[Attempt] = &[
    Attempt {
        name: "no job",
        resources: 1,
        jobs: &[],
        arcs: &[],
        fault: Some(NetFault::Limit),
    },
    Attempt {
        name: "no resource",
        resources: 0,
        jobs: &[(1, &[])],
        arcs: &[],
        fault: Some(NetFault::Limit),
    },
    Attempt {
        name: "16 resources",
        resources: 16,
        jobs: &[(1, &[1; 16])],
        arcs: &[],
        fault: None,
    },
    Attempt {
        name: "17 resources",
        resources: 17,
        jobs: &[(1, &[1; 17])],
        arcs: &[],
        fault: Some(NetFault::Limit),
    },
    Attempt {
        name: "a request is missing",
        resources: 2,
        jobs: &[(1, &[1])],
        arcs: &[],
        fault: Some(NetFault::Limit),
    },
    Attempt {
        name: "one request too many",
        resources: 1,
        jobs: &[(1, &[1, 1])],
        arcs: &[],
        fault: Some(NetFault::Limit),
    },
    Attempt {
        name: "greatest numbers",
        resources: 1,
        jobs: &[(10_000, &[10_000])],
        arcs: &[],
        fault: None,
    },
    Attempt {
        name: "duration",
        resources: 1,
        jobs: &[(10_001, &[1])],
        arcs: &[],
        fault: Some(NetFault::Limit),
    },
    Attempt {
        name: "request",
        resources: 1,
        jobs: &[(1, &[10_001])],
        arcs: &[],
        fault: Some(NetFault::Limit),
    },
    Attempt {
        name: "before job 0",
        resources: 1,
        jobs: &SIX,
        arcs: &[(1, 2), (1, 0)],
        fault: Some(NetFault::BadJob),
    },
    Attempt {
        name: "after job 0",
        resources: 1,
        jobs: &SIX,
        arcs: &[(1, 2), (0, 1)],
        fault: Some(NetFault::BadJob),
    },
    Attempt {
        name: "before job 7",
        resources: 1,
        jobs: &SIX,
        arcs: &[(1, 2), (1, 7)],
        fault: Some(NetFault::BadJob),
    },
    Attempt {
        name: "after job 7",
        resources: 1,
        jobs: &SIX,
        arcs: &[(1, 2), (7, 1)],
        fault: Some(NetFault::BadJob),
    },
    Attempt {
        name: "a job after itself",
        resources: 1,
        jobs: &SIX,
        arcs: &[(2, 2)],
        fault: Some(NetFault::Cycle),
    },
    Attempt {
        name: "a ring of two jobs",
        resources: 1,
        jobs: &SIX,
        arcs: &[(1, 2), (2, 1)],
        fault: Some(NetFault::Cycle),
    },
    Attempt {
        name: "a ring of four jobs",
        resources: 1,
        jobs: &SIX,
        arcs: &[(1, 2), (2, 4), (4, 6), (6, 3), (3, 2), (1, 5)],
        fault: Some(NetFault::Cycle),
    },
    Attempt {
        name: "the same without the last pairs",
        resources: 1,
        jobs: &SIX,
        arcs: &[(1, 2), (2, 4), (4, 6), (6, 3)],
        fault: None,
    },
    Attempt {
        name: "a number before a pair",
        resources: 1,
        jobs: &[(10_001, &[1])],
        arcs: &[(1, 1), (1, 9)],
        fault: Some(NetFault::Limit),
    },
    Attempt {
        name: "a pair before a ring",
        resources: 1,
        jobs: &[(1, &[1])],
        arcs: &[(1, 1), (1, 9)],
        fault: Some(NetFault::BadJob),
    },
];

/// Whether the network of an attempt is made, or refused for its reason.
fn is_refused(alloc: Global, row: &Attempt) -> bool {
    match network(alloc, row.resources, row.jobs, row.arcs) {
        Ok(_) => row.fault.is_none(),
        Err(fault) => row.fault == Some(fault),
    }
}

#[test]
fn tells_why_no_network_is_made(rt: HostRuntime) {
    for row in ATTEMPTS {
        assert!(rt; is_refused(rt.alloc(), row), "{}", row.name);
    }
}

/// Five jobs with one resource, by their durations and requests.
const JOBS: &[(u32, &[u32])] = &[(0, &[0]), (3, &[2]), (2, &[1]), (2, &[1]), (0, &[0])];

/// Their pairs, out of order, two of them twice.
const PAIRS: &[(u32, u32)] = &[
    (4, 5),
    (1, 3),
    (1, 2),
    (4, 5),
    (2, 5),
    (1, 4),
    (3, 5),
    (1, 2),
];

/// Each of these pairs once, in order.
const ONCE: &[(u32, u32)] = &[(1, 2), (1, 3), (1, 4), (2, 5), (3, 5), (4, 5)];

/// Whether these are the durations and the requests of the jobs.
fn are_jobs(net: &Network, jobs: &[(u32, &[u32])]) -> bool {
    if jobs.len() != net.job_count() {
        return false;
    }
    for i in 0..net.job_count() {
        if (net.duration(i), net.requests(i)) != jobs[i] {
            return false;
        }
    }
    true
}

/// Whether each of these pairs stands there once, in order.
fn are_pairs(net: &Network, pairs: &[(u32, u32)]) -> bool {
    net.arcs() == pairs && net.topological_arcs().len() == pairs.len()
}

/// Whether so much of the first resource is used at the times from 0 to 4, if there is a start for each job.
fn are_usages(net: &Network, starts: &[u32], used: [u64; 5]) -> bool {
    if starts.len() != net.job_count() {
        return false;
    }
    for time in 0..5 {
        if usage_at(net, starts, 0, time as u32) != used[time] {
            return false;
        }
    }
    true
}

/// Whether a network of the five jobs is what it was made of.
fn is_read_back(alloc: Global) -> bool {
    match network(alloc, 1, JOBS, PAIRS) {
        Ok(net) => {
            are_jobs(&net, JOBS)
                && are_pairs(&net, ONCE)
                && are_usages(&net, &[0, 0, 0, 2, 4], [3, 3, 3, 1, 0])
        }
        Err(_) => false,
    }
}

#[test]
fn reads_back_what_was_given(rt: HostRuntime) {
    assert!(rt; is_read_back(rt.alloc()));
}

#[test]
fn numbers_its_faults(rt: HostRuntime) {
    assert!(rt; NetFault::Limit as u8 == 1 && NetFault::BadJob as u8 == 2);
    assert!(rt; NetFault::Cycle as u8 == 3 && NetFault::Memory as u8 == 4);
}
