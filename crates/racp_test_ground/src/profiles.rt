//! Profiles of starts.

ghost use Rattle.std.specs.Prelude.{◌≡◌, length};
ghost use Rattle.racp_model.specs.Project.{IsNumber};

use crate::conflicts::are_active;
use crate::samples::{Sample, Setting, set_up};
use racp_delay::Profile;
use std::alloc::Global;

/// A conflict: its time and the active jobs.
struct Found {
    time: u32,
    active: &'static [u32],
}

/// A job, by number, its new start, and the first conflict after that move.
struct Move {
    job: u32,
    start: u32,
    conflict: Option<Found>,
}

/// Moves of two jobs, of 2 and 1 time units, that use one unit each, of one. At first the second starts when the first
/// ends.
const MOVES: &[Move] = &[
    Move {
        job: 2,
        start: 2,
        conflict: None,
    },
    Move {
        job: 2,
        start: 1,
        conflict: Some(Found {
            time: 1,
            active: &[1, 2],
        }),
    },
    Move {
        job: 1,
        start: 2,
        conflict: None,
    },
    Move {
        job: 2,
        start: 2,
        conflict: Some(Found {
            time: 2,
            active: &[1, 2],
        }),
    },
    Move {
        job: 2,
        start: 3,
        conflict: Some(Found {
            time: 3,
            active: &[1, 2],
        }),
    },
    Move {
        job: 2,
        start: 4,
        conflict: None,
    },
    Move {
        job: 1,
        start: u32::MAX,
        conflict: None,
    },
];

/// Whether the first conflict of a profile is the expected one.
fn is_first(alloc: Global, setting: &Setting, profile: &Profile, expected: &Option<Found>) -> bool
    requires capacities { length setting.now.capacities ≡ setting.now.net.resources }
    requires profile { length profile.now ≡ length setting.now.net.jobs }
{
    match (
        profile.first_over(&setting.net, &setting.capacities),
        expected,
    ) {
        (None, None) => true,
        (Some(found), Some(expected)) => {
            found.time == expected.time && are_active(alloc, &found, expected.active)
        }
        _ => false,
    }
}

/// Whether a profile finds the expected conflict after each move.
fn finds_each(alloc: Global, setting: &Setting, profile: &mut Profile) -> bool
    requires capacities { length setting.now.capacities ≡ setting.now.net.resources }
    requires profile { length profile.old ≡ length setting.now.net.jobs }
{
    for step in MOVES {
        if step.job < 1 || setting.net.job_count() < step.job as usize {
            return false;
        }
        let moved = profile.move_job(&setting.net, step.job, step.start);
        if moved.is_err() || !is_first(alloc, setting, profile, &step.conflict) {
            return false;
        }
    }
    true
}

/// Whether a profile of the starts finds the expected conflict after each move.
fn follows(alloc: Global, setting: &Setting) -> bool
    requires capacities { length setting.now.capacities ≡ setting.now.net.resources }
    requires starts { length setting.now.starts ≡ length setting.now.net.jobs }
{
    match Profile::of(alloc, &setting.net, &setting.starts) {
        Ok(mut profile) => finds_each(alloc, setting, &mut profile),
        Err(_) => false,
    }
}

/// Whether a profile of the two jobs finds the expected conflict after each move.
fn follows_two_jobs(alloc: Global) -> bool {
    let two = Sample::Free(1, &[(2, &[1]), (1, &[1])]);
    match set_up(alloc, two, &[1], &[0, 2]) {
        Ok(setting) => follows(alloc, &setting),
        Err(_) => false,
    }
}

#[test]
fn finds_conflicts_after_moves(rt: HostRuntime) {
    assert!(rt; follows_two_jobs(rt.alloc()));
}
