//! Capacities of another network, and pairs of jobs that are not there.

use crate::flushes::{NETWORK, ORDER};
use racp_json::bound_of;
use racp_model::{Job, NetFault};
use racp_tables::network_text;
use std::alloc::{AllocError, Global};

/// What these capacities cost at 5 a unit, if they are capacities of one resource.
fn bound(alloc: Global, capacities: &[u64]) -> Option<u64> {
    bound_of(alloc, NETWORK, ORDER, capacities).unwrap_or(None)
}

#[test]
fn bounds_are_of_all_resources(rt: HostRuntime) {
    assert!(rt; bound(rt.alloc(), &[2]) == Some(10));
    assert!(rt; bound(rt.alloc(), &[2, 2]) == None);
}

/// One job that requests a unit, and the name of the resource.
fn one_job(alloc: Global) -> Result<(Vec<String>, Vec<Job>), AllocError> {
    let requests = Vec::from_array(alloc, [1])?;
    let jobs = Vec::from_array(alloc, [Job::new(2, requests)])?;
    let mut names = Vec::new(alloc);
    names.push(String::from_str(alloc, "Masons")?)?;
    Ok((names, jobs))
}

/// How one job is refused that waits for a job that is not there.
fn fault_of_pair(alloc: Global, pair: (u32, u32)) -> Option<NetFault> {
    let (names, jobs) = one_job(alloc).ok()?;
    let pairs = Vec::from_array(alloc, [pair]).ok()?;
    network_text(alloc, &names, jobs, pairs).err()
}

#[test]
fn pairs_name_jobs(rt: HostRuntime) {
    assert!(rt; fault_of_pair(rt.alloc(), (1, 9)) == Some(NetFault::BadJob));
    assert!(rt; fault_of_pair(rt.alloc(), (1, 1)) == Some(NetFault::Cycle));
}
