//! Small networks made of literals, and the networks of examples/.

use racp_model::{Job, NetFault, Network};
use std::alloc::{AllocError, Global};

/// A network of jobs that are each given by a duration and a request of each resource, and of pairs of job numbers, the
/// earlier first.
///
/// # Errors
///
/// No network has these jobs and pairs; or memory was refused.
pub fn network(
    alloc: Global,
    resources: usize,
    jobs: &[(u32, &[u32])],
    arcs: &[(u32, u32)],
) -> Result<Network, NetFault> {
    let jobs = listed(alloc, jobs)?;
    Network::new(alloc, resources, jobs, arcs.to_vec(alloc)?)
}

fn listed(alloc: Global, jobs: &[(u32, &[u32])]) -> Result<Vec<Job>, AllocError> {
    let mut list = Vec::new(alloc);
    for (duration, requests) in jobs {
        list.push(Job::new(*duration, requests.to_vec(alloc)?))?;
    }
    Ok(list)
}

/// Five jobs with one resource: 2, 3 and 4, of 3, 2 and 2 time units, come after 1 and before 5.
///
/// # Errors
///
/// Memory was refused.
pub fn parallel(alloc: Global) -> Result<Network, NetFault> {
    let jobs: [(u32, &[u32]); 5] = [(0, &[0]), (3, &[2]), (2, &[1]), (2, &[1]), (0, &[0])];
    let arcs = [(1, 2), (1, 3), (1, 4), (2, 5), (3, 5), (4, 5)];
    network(alloc, 1, &jobs, &arcs)
}

/// Six jobs with two resources: after 1 come 2 and 3, after each of them 4 and 5, then 6. 2 and 3 each use a unit of
/// resource 1 for a time unit, 4 and 5 one of resource 2.
///
/// # Errors
///
/// Memory was refused.
pub fn crossed(alloc: Global) -> Result<Network, NetFault> {
    let (first, second, none): (&[u32], &[u32], &[u32]) = (&[1, 0], &[0, 1], &[0, 0]);
    let jobs = [
        (0, none),
        (1, first),
        (1, first),
        (1, second),
        (1, second),
        (0, none),
    ];
    let arcs = [
        (1, 2),
        (1, 3),
        (2, 4),
        (2, 5),
        (3, 4),
        (3, 5),
        (4, 6),
        (5, 6),
    ];
    network(alloc, 2, &jobs, &arcs)
}

/// Six jobs with one resource: 2 beside the chain 3, 4, 5, between 1 and 6.
///
/// # Errors
///
/// Memory was refused.
pub fn chained(alloc: Global) -> Result<Network, NetFault> {
    let (one, two, none): (&[u32], &[u32], &[u32]) = (&[1], &[2], &[0]);
    let jobs = [(0, none), (4, one), (1, one), (3, two), (4, one), (0, none)];
    let arcs = [(1, 2), (1, 3), (2, 6), (3, 4), (4, 5), (5, 6)];
    network(alloc, 1, &jobs, &arcs)
}
