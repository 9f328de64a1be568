//! Sets of jobs.

use racp_model::JobSet;
use std::alloc::{AllocError, Global};

/// A set of these jobs, of those that are from 1 to 512.
pub(crate) fn set_of(jobs: &[u32]) -> JobSet {
    let mut set = JobSet::new();
    for job in jobs {
        if 1 <= *job && *job <= 512 {
            set.insert(*job);
        }
    }
    set
}

/// Whether a set has these jobs, rising.
pub(crate) fn has_jobs(alloc: Global, set: &JobSet, expected: &[u32]) -> bool {
    let jobs: Result<Vec<u32>, AllocError> = set.iter().collect(alloc);
    match jobs {
        Ok(jobs) => jobs.as_slice() == expected,
        Err(_) => false,
    }
}

/// Whether a set is a proper part of another one.
fn is_part(part: &JobSet, whole: &JobSet) -> bool {
    part.is_subset(whole) && !whole.is_subset(part) && part != whole
}

/// Whether a set of these jobs has them, and no other.
fn is_set(alloc: Global, set: &JobSet) -> bool {
    has_jobs(alloc, set, &[1, 64, 65, 512])
        && set.contains(65)
        && !set.contains(63)
        && *set == set.copy()
}

#[test]
fn keeps_sets_of_jobs(rt: HostRuntime) {
    let (set, part) = (set_of(&[512, 64, 1, 65, 64]), set_of(&[64, 512]));
    assert!(rt; is_set(rt.alloc(), &set) && is_part(&part, &set));
    assert!(rt; is_part(&JobSet::new(), &part) && JobSet::new().is_empty());
}
