//! The alternative that is found after any list of jobs.

ghost use Rattle.std.specs.Prelude.{◌≡◌, All, length};
ghost use Rattle.racp_model.specs.Project.{IsNumber};

use crate::conflicts::rows::FOUR;
use crate::job_sets::set_of;
use crate::samples::{Setting, set_up};
use racp_delay::{ActiveJobs, Alternative, Clash, conflict};
use racp_model::{JobSet, Never};
use std::alloc::Global;

/// A list of jobs, those of a conflict that are free, and the alternative that is found after the list, if there is
/// one.
struct Behind {
    free: &'static [u32],
    last: &'static [u32],
    found: Option<&'static [u32]>,
}

/// Whether this alternative of free jobs is found after a list, or none.
pub(crate) fn is_behind(
    found: &mut Alternative,
    setting: &Setting,
    conflict: &Clash,
    free: &JobSet,
    last: &[u32],
    expected: Option<&[u32]>,
) -> bool
    requires capacities { length setting.now.capacities ≡ setting.now.net.resources }
    requires active { All (IsNumber (length setting.now.net.jobs)) conflict.now.active }
{
    let active = ActiveJobs {
        all: &conflict.active,
        free,
    };
    match found.find_behind(&setting.net, &setting.capacities, &active, last, &Never) {
        Ok(true) => expected.is_some_and(|jobs| found.jobs() == jobs),
        Ok(false) => expected.is_none(),
        Err(_) => false,
    }
}

/// The active jobs of a conflict with the alternatives 1, 2 and 3, 4.
const ACTIVE: &[u32] = &[1, 2, 3, 4];

/// What is found for this conflict.
const BEHIND: &[Behind] = &[
    Behind {
        free: ACTIVE,
        last: &[],
        found: Some(&[1, 2]),
    },
    Behind {
        free: ACTIVE,
        last: &[1],
        found: Some(&[1, 2]),
    },
    Behind {
        free: ACTIVE,
        last: &[1, 1, 9],
        found: Some(&[1, 2]),
    },
    Behind {
        free: ACTIVE,
        last: &[1, 2],
        found: Some(&[3, 4]),
    },
    Behind {
        free: ACTIVE,
        last: &[1, 2, 3],
        found: Some(&[3, 4]),
    },
    Behind {
        free: ACTIVE,
        last: &[1, 3],
        found: Some(&[3, 4]),
    },
    Behind {
        free: ACTIVE,
        last: &[2],
        found: Some(&[3, 4]),
    },
    Behind {
        free: ACTIVE,
        last: &[3, 3, 7],
        found: Some(&[3, 4]),
    },
    Behind {
        free: ACTIVE,
        last: &[3, 4],
        found: None,
    },
    Behind {
        free: ACTIVE,
        last: &[4],
        found: None,
    },
    Behind {
        free: &[3, 4],
        last: &[],
        found: Some(&[3, 4]),
    },
    Behind {
        free: &[1, 3, 4, 9],
        last: &[1],
        found: Some(&[3, 4]),
    },
    Behind {
        free: &[1, 2, 3],
        last: &[1, 2],
        found: None,
    },
    Behind {
        free: &[2, 3],
        last: &[],
        found: None,
    },
];

/// Whether these are found for a conflict.
fn finds_each_behind(alloc: Global, setting: &Setting, conflict: &Clash) -> bool
    requires capacities { length setting.now.capacities ≡ setting.now.net.resources }
    requires active { All (IsNumber (length setting.now.net.jobs)) conflict.now.active }
{
    let mut found = Alternative::new(alloc);
    for row in BEHIND {
        let free = set_of(row.free);
        if !is_behind(&mut found, setting, conflict, &free, row.last, row.found) {
            return false;
        }
    }
    true
}

/// Whether the alternatives after each list are found for the first conflict of a setting.
fn finds_behind(alloc: Global, setting: &Setting) -> bool
    requires capacities { length setting.now.capacities ≡ setting.now.net.resources }
    requires starts { length setting.now.starts ≡ length setting.now.net.jobs }
{
    match conflict(&setting.net, &setting.capacities, &setting.starts) {
        Some(first) => finds_each_behind(alloc, setting, &first),
        None => false,
    }
}

/// Whether they are found for the four jobs, which start at once.
fn finds_behind_of_four(alloc: Global) -> bool {
    match set_up(alloc, FOUR, &[2, 2], &[0; 4]) {
        Ok(setting) => finds_behind(alloc, &setting),
        Err(_) => false,
    }
}

#[test]
fn finds_the_alternative_behind_any_list(rt: HostRuntime) {
    assert!(rt; finds_behind_of_four(rt.alloc()));
}
