//! Runs that are halted: no turn is left, or a stop is asked for.

use crate::desk::runs::{ALL_TURNS, Ended, Numbers, ROWS, run_six};
use crate::desk::stops::AtCall;
use racp_desk::{Cause, Open};
use racp_model::Never;
use std::alloc::Global;
use std::sync::Wait;
use std::thread::Threads;

/// How many turns one worker takes, beside one unit of the second resource, and the question that is left open then. By
/// the third turn the first yes is found, of the question at place 2.
const OPEN: &[(u64, Option<usize>)] = &[(0, Some(0)), (1, Some(1)), (2, Some(2)), (3, None)];

/// Whether a run about the six jobs by one worker with this many turns leaves that question open, or finds the first yes.
fn runs_out<R: Threads + Wait + Sync>(
    rt: &R,
    alloc: Global,
    turns: u64,
    open: Option<usize>,
) -> bool {
    let numbers = Numbers {
        second: 1,
        workers: 1,
        quantum: 1000,
        turns,
    };
    let (yes, halted) = match open {
        Some(_) => (None, Some(Cause::Turns)),
        None => (Some(2), None),
    };
    run_six(rt, alloc, numbers, &Open, &Never) == Some(Ended { yes, open, halted })
}

#[test]
fn turns_run_out(rt: HostRuntime) {
    for &(turns, open) in OPEN {
        assert!(rt; runs_out(&rt, rt.alloc(), turns, open), "{turns} turns");
    }
}

/// Whether a run of a series of four questions, of which the first yes is this one, may end so if a stop came, or
/// not: with the first yes, or none; or, if a stop came, open at a question before which each is infeasible.
fn may_end(ended: Ended, yes: Option<usize>, came: bool) -> bool {
    let halted = if came { Some(Cause::Stop) } else { None };
    let answered = match ended.open {
        Some(open) => came && ended.yes.is_none() && open <= yes.unwrap_or(4),
        None => ended.yes == yes,
    };
    answered && ended.halted == halted
}

/// How a run about the six jobs by two workers beside this many units of the second resource ends.
fn ended_by_two<R: Threads + Wait + Sync>(
    rt: &R,
    alloc: Global,
    second: u32,
    stop: &AtCall,
) -> Option<Ended> {
    let numbers = Numbers {
        second,
        workers: 2,
        quantum: 1000,
        turns: ALL_TURNS,
    };
    run_six(rt, alloc, numbers, &Open, stop)
}

/// Whether the run of each row ends as it may if a stop is asked for at the call of this number.
fn end_as_they_may<R: Threads + Wait + Sync>(rt: &R, alloc: Global, number: u64) -> bool {
    for &(second, yes) in ROWS {
        let stop = AtCall::once(number);
        let Some(ended) = ended_by_two(rt, alloc, second, &stop) else {
            return false;
        };
        if !may_end(ended, yes, stop.came()) {
            return false;
        }
    }
    true
}

/// Whether a stop that is asked for at each call decides nothing.
fn decides_nothing<R: Threads + Wait + Sync>(rt: &R, alloc: Global) -> bool {
    match ended_by_two(rt, alloc, 1, &AtCall::each(true)) {
        Some(ended) => ended.open == Some(0) && ended.halted == Some(Cause::Stop),
        None => false,
    }
}

#[test]
fn stops_leave_questions_open(rt: HostRuntime) {
    for number in 1..21 {
        assert!(rt; end_as_they_may(&rt, rt.alloc(), number), "call {number}");
    }
    assert!(rt; decides_nothing(&rt, rt.alloc()));
}
