//! A search that learns, asked about small random orders, beside all their schedules.

ghost use Rattle.racp_by_clauses.specs.Optima.{IsTaskOf};

use crate::all_schedules::is_any_within;
use crate::asking::{Limits, QUESTIONS, Record, asked, question};
use crate::sums::Sums;
use crate::tasks::{Trial, try_next};
use racp_by_clauses::Task;
use racp_clauses::{Derivation, OfProblem};
use racp_samples::Random;
use std::alloc::AllocError;

/// More conflicts than any of the questions takes.
const ENOUGH: u64 = 100_000;

/// The bits of all questions.
const ALL: u32 = 0xFF;

/// A search with little memory; some with few conflicts, which may leave questions open; and some that are helped.
const LIMITS: &[Limits] = &[
    Limits {
        conflicts: ENOUGH,
        bytes: 1_000_000,
        seed: 1,
        is_helped: false,
    },
    Limits {
        conflicts: ENOUGH,
        bytes: 0,
        seed: 2,
        is_helped: false,
    },
    Limits {
        conflicts: 0,
        bytes: 1_000_000,
        seed: 3,
        is_helped: false,
    },
    Limits {
        conflicts: 1,
        bytes: 1_000_000,
        seed: 4,
        is_helped: false,
    },
    Limits {
        conflicts: 2,
        bytes: 1_000_000,
        seed: 5,
        is_helped: false,
    },
    Limits {
        conflicts: ENOUGH,
        bytes: 1_000_000,
        seed: 6,
        is_helped: true,
    },
    Limits {
        conflicts: 2,
        bytes: 1_000_000,
        seed: 7,
        is_helped: true,
    },
];

/// Whether some schedule answers the next question.
fn is_next_yes<N: OfProblem>(task: Task<'_>, random: &mut Random) -> Result<bool, AllocError>
    requires { IsTaskOf N.problem task }
{
    let next: Derivation<N> = question(task, random)?;
    let is_yes = is_any_within(task.alloc, task.net, task.order, next.bounds());
    drop(next);
    is_yes
}

/// Which of the questions some schedule answers, as bits.
fn wanted<N: OfProblem>(task: Task<'_>, random: &mut Random) -> Result<u32, AllocError>
    requires { IsTaskOf N.problem task }
{
    let (mut wanted, mut bit) = (0u32, 1u32);
    for _question in 0..QUESTIONS {
        if is_next_yes::<N>(task, random)? {
            wanted |= bit;
        }
        bit = bit.wrapping_mul(2);
    }
    Ok(wanted)
}

/// Whether the answers are those that are wanted, and no clause was lost. Where the conflicts are few, a question may stay
/// open.
fn is_right(record: &Record, wanted: u32, conflicts: u64) -> bool {
    let (yes, no) = (record.found, record.refuted);
    let open = if conflicts < ENOUGH { record.spent } else { 0 };
    yes | no | open == ALL && yes & wanted == yes && no & wanted == 0 && record.lost == 0
}

/// How many of the bits are set.
fn count(bits: u32) -> u64 {
    let (mut rest, mut count) = (bits, 0u64);
    for _question in 0..QUESTIONS {
        count = count.saturating_add((rest % 2) as u64);
        rest /= 2;
    }
    count
}

/// Whether random questions about an order are answered as they are to be by each search, and by the same search in the
/// same way.
pub fn are_answered<N: OfProblem>(
    task: Task<'_>,
    random: &mut Random,
    sums: &mut Sums,
) -> Result<bool, AllocError>
    requires { IsTaskOf N.problem task }
{
    let begin = *random;
    let wanted = wanted::<N>(task, random)?;
    for limits in LIMITS {
        let one = asked::<N>(task, begin, *limits)?;
        let again = asked::<N>(task, begin, *limits)?;
        if one.mixed != again.mixed || !is_right(&one, wanted, limits.conflicts) {
            return Ok(false);
        }
        sums.yes = sums.yes.saturating_add(count(one.found));
        sums.no = sums.no.saturating_add(count(one.refuted));
        sums.open = sums.open.saturating_add(count(one.spent));
        sums.conflicts = sums.conflicts.saturating_add(one.conflicts);
    }
    Ok(true)
}

#[test]
fn searches_find_what_there_is(rt: HostRuntime) {
    let (mut random, mut sums) = (Random::new(11), Sums::new());
    for round in 0..1_000 {
        let is_right = try_next(rt.alloc(), Trial::Questions, &mut random, &mut sums);
        assert!(rt; is_right, "round {round}");
    }
    let (yes, no, open, conflicts) = (sums.yes, sums.no, sums.open, sums.conflicts);
    assert!(rt;
        1_000 <= yes && 1_000 <= no && 100 <= open && 500 <= conflicts,
        "{yes} found, {no} refuted, {open} open, {conflicts} conflicts"
    );
}
