//! Runs of a desk with workers on threads of their own, and how they end.

ghost use Rattle.std.specs.Prelude.{◌≡◌};

use crate::desk::series::units_of_the_first;
use racp_core::Outcome;
use racp_cutset::Board;
use racp_desk::{Cause, Closed, Entry, Gate, run};
use racp_model::{Network, OfNetwork, Stop};
use racp_samples::crossed;
use std::alloc::{AllocError, Global};
use std::marker::Brand;
use std::sync::Wait;
use std::thread::Threads;

/// Units of the second resource, and the place of the first number of units of the first that is enough.
pub(crate) const ROWS: &[(u32, Option<usize>)] = &[(0, None), (1, Some(2)), (2, Some(1))];

/// The most turns that there are.
pub(crate) const ALL_TURNS: u64 = 1_000_000_000_000;

/// What a run is about: the units of the second resource, and how many workers, nodes a piece and turns there are.
#[derive(Clone, Copy)]
pub(crate) struct Numbers {
    pub(crate) second: u32,
    pub(crate) workers: usize,
    pub(crate) quantum: u64,
    pub(crate) turns: u64,
}

/// How a run ended: the place of the first yes, or of the first open question, or neither if all are infeasible; and
/// for what it was halted.
#[derive(Clone, Copy, PartialEq)]
pub(crate) struct Ended {
    pub(crate) yes: Option<usize>,
    pub(crate) open: Option<usize>,
    pub(crate) halted: Option<Cause>,
}

fn end_of(closed: &Closed) -> Ended {
    let (yes, open) = match &closed.outcome {
        Outcome::First { index, starts: _ } => (Some(*index), None),
        Outcome::NoYes => (None, None),
        Outcome::Open { first_open } => (None, Some(*first_open)),
    };
    let mut halted = None;
    for entry in &closed.log {
        if let Entry::Halted(cause) = entry {
            halted = Some(*cause);
        }
    }
    Ended { yes, open, halted }
}

/// How a run with these numbers ends; `None` if one of them is out of its range, or memory or a thread was refused.
fn run_with<N: OfNetwork + Send + Sync, G: Gate + Sync, P: Stop + Sync, R: Threads + Wait + Sync>(
    rt: &R,
    alloc: Global,
    net: &Network,
    numbers: Numbers,
    gate: &G,
    stop: &P,
) -> Option<Ended>
    requires named { net.now ≡ N.network }
{
    let Numbers {
        second,
        workers,
        quantum,
        turns,
    } = numbers;
    if workers < 1 || 64 < workers {
        return None;
    }
    if quantum < 1 || 1_000_000 < quantum {
        return None;
    }
    if ALL_TURNS < turns {
        return None;
    }
    let series = units_of_the_first(alloc, net, second)?;
    let Ok(board): Result<Board<N>, AllocError> = Board::new(alloc, net) else {
        return None;
    };
    let closed = run(
        rt, alloc, net, series, workers, quantum, turns, &board, gate, stop,
    );
    drop(board);
    match closed {
        Ok(closed) => Some(end_of(&closed)),
        Err(_) => None,
    }
}

/// How a run about the six jobs ends, or `None` as there.
pub(crate) fn run_six<G: Gate + Sync, P: Stop + Sync, R: Threads + Wait + Sync>(
    rt: &R,
    alloc: Global,
    numbers: Numbers,
    gate: &G,
    stop: &P,
) -> Option<Ended> {
    match crossed(alloc) {
        Ok(net) => run_with::<Brand, G, P, R>(rt, alloc, &net, numbers, gate, stop),
        Err(_) => None,
    }
}
