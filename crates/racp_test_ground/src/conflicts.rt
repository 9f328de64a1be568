//! Conflicts and minimal delaying alternatives.

ghost use Rattle.std.specs.Prelude.{◌≡◌, All, length};
ghost use Rattle.racp_model.specs.Project.{IsNumber};

use crate::behind::is_behind;
use crate::conflicts::rows::{CONFLICTS, Expected, Resolution, Row};
use crate::job_sets::has_jobs;
use crate::samples::{Setting, set_up};
use racp_delay::{Alternative, Clash, DelayingAlternatives, alternatives, conflict, first_end};
use smallvec::SmallVec;
use std::alloc::Global;

pub(crate) mod rows;

/// Whether these are the alternatives of a conflict.
fn are_alternatives(
    setting: &Setting,
    conflict: &Clash,
    lists: &[SmallVec<u32, 8>],
    expected: &[Resolution],
) -> bool
    requires starts { length setting.now.starts ≡ length setting.now.net.jobs }
    requires active { All (IsNumber (length setting.now.net.jobs)) conflict.now.active }
{
    for (list, resolution) in lists.iter().zip(expected) {
        let end = first_end(&setting.net, &setting.starts, &conflict.active, list);
        if list.as_slice() != resolution.gone || end != resolution.end {
            return false;
        }
    }
    lists.len() == expected.len()
}

/// Whether these are the active jobs of a conflict.
pub(crate) fn are_active(alloc: Global, conflict: &Clash, jobs: &[u32]) -> bool {
    has_jobs(alloc, &conflict.active, jobs)
}

/// Whether these alternatives are listed.
fn are_listed(alloc: Global, setting: &Setting, conflict: &Clash, expected: &[Resolution]) -> bool
    requires capacities { length setting.now.capacities ≡ setting.now.net.resources }
    requires starts { length setting.now.starts ≡ length setting.now.net.jobs }
    requires active { All (IsNumber (length setting.now.net.jobs)) conflict.now.active }
{
    match alternatives(alloc, &setting.net, &setting.capacities, conflict) {
        Ok(lists) => are_alternatives(setting, conflict, &lists, expected),
        Err(_) => false,
    }
}

/// Whether these alternatives are found in memory of one's own.
fn are_found(alloc: Global, setting: &Setting, conflict: &Clash, expected: &[Resolution]) -> bool
    requires capacities { length setting.now.capacities ≡ setting.now.net.resources }
    requires starts { length setting.now.starts ≡ length setting.now.net.jobs }
    requires active { All (IsNumber (length setting.now.net.jobs)) conflict.now.active }
{
    let mut found = DelayingAlternatives::new(alloc);
    match found.find(&setting.net, &setting.capacities, conflict) {
        Ok(()) => are_alternatives(setting, conflict, found.lists(), expected),
        Err(_) => false,
    }
}

/// Whether these are the alternatives of a conflict, found one after another.
fn follow_each_other(
    alloc: Global,
    setting: &Setting,
    conflict: &Clash,
    expected: &[Resolution],
) -> bool
    requires capacities { length setting.now.capacities ≡ setting.now.net.resources }
    requires active { All (IsNumber (length setting.now.net.jobs)) conflict.now.active }
{
    let mut found = Alternative::new(alloc);
    let mut last: &[u32] = &[];
    for resolution in expected {
        let gone = Some(resolution.gone);
        if !is_behind(&mut found, setting, conflict, &conflict.active, last, gone) {
            return false;
        }
        last = resolution.gone;
    }
    is_behind(&mut found, setting, conflict, &conflict.active, last, None)
}

/// Whether a conflict is this one. The alternatives are found in three ways: listed, in memory of one's own, and one
/// after the other.
fn is_conflict(alloc: Global, setting: &Setting, conflict: &Clash, expected: &Expected) -> bool
    requires capacities { length setting.now.capacities ≡ setting.now.net.resources }
    requires starts { length setting.now.starts ≡ length setting.now.net.jobs }
    requires active { All (IsNumber (length setting.now.net.jobs)) conflict.now.active }
{
    let wanted = expected.alternatives;
    conflict.time == expected.time
        && are_active(alloc, conflict, expected.active)
        && are_listed(alloc, setting, conflict, wanted)
        && are_found(alloc, setting, conflict, wanted)
        && follow_each_other(alloc, setting, conflict, wanted)
}

/// Whether the first conflict is this one, or there is none.
fn is_first(alloc: Global, setting: &Setting, expected: &Option<Expected>) -> bool
    requires capacities { length setting.now.capacities ≡ setting.now.net.resources }
    requires starts { length setting.now.starts ≡ length setting.now.net.jobs }
{
    match conflict(&setting.net, &setting.capacities, &setting.starts) {
        Some(first) => match expected {
            Some(expected) => is_conflict(alloc, setting, &first, expected),
            None => false,
        },
        None => expected.is_none(),
    }
}

/// Whether the first conflict of a row is the expected one.
fn holds(alloc: Global, row: &Row) -> bool {
    match set_up(alloc, row.sample, row.capacities, row.starts) {
        Ok(setting) => is_first(alloc, &setting, &row.expected),
        Err(_) => false,
    }
}

#[test]
fn finds_conflicts_and_alternatives(rt: HostRuntime) {
    for row in CONFLICTS {
        assert!(rt; holds(rt.alloc(), row), "{}", row.name);
    }
}
