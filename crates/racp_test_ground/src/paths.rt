//! Early and late starts, critical lengths and root windows of small networks.

ghost use Rattle.std.specs.Prelude.{◌≡◌, ◌≤◌, IsTrue, All, length};

use crate::samples::{Sample, sampled};
use racp_cpm::{early, first_late, late, longest, root, settle_early};
use racp_model::Network;
use std::alloc::Global;

/// The times of a network, and what is found from them.
struct Times {
    sample: Sample,
    /// From when each job may start.
    release: &'static [u32],
    /// By when each job has to end.
    due: &'static [u32],
    early: &'static [u32],
    critical: u64,
    /// None if no starts end by the due times.
    late: &'static [u32],
    /// The first job that ends after its due time when it starts early.
    late_job: Option<u32>,
}

const TIMES: &[Times] = &[
    Times {
        sample: Sample::Parallel,
        release: &[0; 5],
        due: &[4; 5],
        early: &[0, 0, 0, 0, 3],
        critical: 3,
        late: &[1, 1, 2, 2, 4],
        late_job: None,
    },
    Times {
        sample: Sample::Parallel,
        release: &[0; 5],
        due: &[3; 5],
        early: &[0, 0, 0, 0, 3],
        critical: 3,
        late: &[0, 0, 1, 1, 3],
        late_job: None,
    },
    Times {
        sample: Sample::Parallel,
        release: &[0; 5],
        due: &[2; 5],
        early: &[0, 0, 0, 0, 3],
        critical: 3,
        late: &[],
        late_job: Some(2),
    },
    Times {
        sample: Sample::Parallel,
        release: &[0; 5],
        due: &[4, 2, 4, 4, 4],
        early: &[0, 0, 0, 0, 3],
        critical: 3,
        late: &[],
        late_job: Some(2),
    },
    Times {
        sample: Sample::Parallel,
        release: &[0, 1, 0, 0, 0],
        due: &[5, 3, 5, 5, 5],
        early: &[0, 1, 0, 0, 4],
        critical: 4,
        late: &[0, 0, 3, 3, 5],
        late_job: Some(2),
    },
    Times {
        sample: Sample::Parallel,
        release: &[0, 1, 0, 0, 0],
        due: &[3, 4, 3, 1, 3],
        early: &[0, 1, 0, 0, 4],
        critical: 4,
        late: &[],
        late_job: Some(4),
    },
    Times {
        sample: Sample::Parallel,
        release: &[0, 3, 0, 0, 0],
        due: &[6; 5],
        early: &[0, 3, 0, 0, 6],
        critical: 6,
        late: &[3, 3, 4, 4, 6],
        late_job: None,
    },
    Times {
        sample: Sample::Crossed,
        release: &[0; 6],
        due: &[2; 6],
        early: &[0, 0, 0, 1, 1, 2],
        critical: 2,
        late: &[0, 0, 0, 1, 1, 2],
        late_job: None,
    },
    Times {
        sample: Sample::Chained,
        release: &[0; 6],
        due: &[8; 6],
        early: &[0, 0, 0, 1, 4, 8],
        critical: 8,
        late: &[0, 4, 0, 1, 4, 8],
        late_job: None,
    },
    Times {
        sample: Sample::Free(1, &[(0, &[0]), (0, &[0])]),
        release: &[0; 2],
        due: &[0; 2],
        early: &[0; 2],
        critical: 0,
        late: &[0; 2],
        late_job: None,
    },
];

/// Whether there is a time for each job, none of them later than times are.
fn are_times(net: &Network, times: &[u32]) -> bool
    ensures places { IsTrue result → length times.now ≡ length net.now.jobs }
    ensures small { IsTrue result → All (λ x. x ≤ 10000000) times.now }
{
    times.len() == net.job_count() && times.iter().all(|time| *time <= 10_000_000)
}

/// Whether the release times settle into the early starts.
fn settle(alloc: Global, net: &Network, times: &Times) -> bool
    requires places { length times.now.release.now ≡ length net.now.jobs }
    requires small { All (λ x. x ≤ 10000000) times.now.release.now }
{
    match times.release.to_vec(alloc) {
        Ok(mut starts) => {
            settle_early(net, &mut starts);
            starts.as_slice() == times.early
        }
        Err(_) => false,
    }
}

/// Whether the early starts are found, and the first job that is late by them.
fn has_early(alloc: Global, net: &Network, times: &Times) -> bool
    requires places { length times.now.release.now ≡ length net.now.jobs }
    requires small { All (λ x. x ≤ 10000000) times.now.release.now }
    requires due { length times.now.due.now ≡ length net.now.jobs }
{
    match early(alloc, net, times.release) {
        Ok(starts) => {
            starts.as_slice() == times.early
                && first_late(net, &starts, times.due) == times.late_job
        }
        Err(_) => false,
    }
}

/// Whether the critical length is found.
fn has_critical(alloc: Global, net: &Network, times: &Times) -> bool
    requires places { length times.now.release.now ≡ length net.now.jobs }
    requires small { All (λ x. x ≤ 10000000) times.now.release.now }
{
    match longest(alloc, net, times.release) {
        Ok(length) => length == times.critical,
        Err(_) => false,
    }
}

/// Whether the late starts are found, or none if there are none.
fn has_late(alloc: Global, net: &Network, times: &Times) -> bool
    requires { length times.now.due.now ≡ length net.now.jobs }
{
    match late(alloc, net, times.due) {
        Ok(Some(starts)) => starts.as_slice() == times.late,
        Ok(None) => times.late.is_empty(),
        Err(_) => false,
    }
}

/// Whether the window goes from the early to the late starts; there is none if a job is late.
fn has_root(alloc: Global, net: &Network, times: &Times) -> bool
    requires release { length times.now.release.now ≡ length net.now.jobs }
    requires release_small { All (λ x. x ≤ 10000000) times.now.release.now }
    requires due { length times.now.due.now ≡ length net.now.jobs }
    requires due_small { All (λ x. x ≤ 10000000) times.now.due.now }
{
    match root(alloc, net, times.release, times.due) {
        Ok(Some(window)) => window.lower() == times.early && window.upper() == times.late,
        Ok(None) => times.late_job.is_some(),
        Err(_) => false,
    }
}

/// Whether all of that is found in a network.
fn are_found(alloc: Global, net: &Network, times: &Times) -> bool {
    are_times(net, times.release)
        && are_times(net, times.due)
        && settle(alloc, net, times)
        && has_early(alloc, net, times)
        && has_critical(alloc, net, times)
        && has_late(alloc, net, times)
        && has_root(alloc, net, times)
}

/// Whether all of that is found in the network of the times.
fn hold(alloc: Global, times: &Times) -> bool {
    match sampled(alloc, times.sample) {
        Ok(net) => are_found(alloc, &net, times),
        Err(_) => false,
    }
}

#[test]
fn finds_starts_and_lengths(rt: HostRuntime) {
    for (row, times) in TIMES.iter().enumerate() {
        assert!(rt; hold(rt.alloc(), times), "row {row}");
    }
}
