//! Two pieces that are at work at once, of a desk alone and of a plan that is made by workers.

ghost use Rattle.std.specs.Prelude.{◌≤◌};

use crate::desk::runs::{ALL_TURNS, Ended, Numbers, run_six};
use racp_desk::Gate;
use racp_lexfix::plan_crowd;
use racp_model::Never;
use racp_samples::texts;
use std::alloc::Global;
use std::sync::Wait;
use std::sync::atomic::{AtomicU64, Ordering};
use std::thread;
use std::thread::Threads;

/// Holds the worker of the first piece until the second one is about to be searched. 1 stands for what has happened.
#[derive(Drop)]
struct Pair {
    first: AtomicU64,
    second: AtomicU64,
    gave_up: AtomicU64,
}

/// How often the gate looks for the second piece at most.
const LOOKS: u64 = 1_000_000_000;

impl Pair {
    fn new() -> Self {
        Pair {
            first: AtomicU64::new(0),
            second: AtomicU64::new(0),
            gave_up: AtomicU64::new(0),
        }
    }

    /// Looks until the second piece is there.
    fn hold(&self) {
        for _look in 0..LOOKS {
            if self.second.load(Ordering::SeqCst) == 1 {
                return;
            }
            thread::yield_now();
        }
        self.gave_up.store(1, Ordering::SeqCst);
    }

    /// Whether both pieces came at once.
    fn both(&self) -> bool {
        self.first.load(Ordering::SeqCst) == 1
            && self.second.load(Ordering::SeqCst) == 1
            && self.gave_up.load(Ordering::SeqCst) == 0
    }
}

impl Gate for Pair {
    fn enter(&self, _seat: usize, number: u64) {
        match number {
            0 => {
                self.first.store(1, Ordering::SeqCst);
                self.hold();
            }
            1 => self.second.store(1, Ordering::SeqCst),
            _ => {}
        }
    }
}

/// Whether two of this many workers search the six jobs at once, and find the first yes.
fn are_two_at_once<R: Threads + Wait + Sync>(rt: &R, alloc: Global, workers: usize) -> bool {
    let gate = Pair::new();
    let numbers = Numbers {
        second: 1,
        workers,
        quantum: 1000,
        turns: ALL_TURNS,
    };
    let wanted = Ended {
        yes: Some(2),
        open: None,
        halted: None,
    };
    run_six(rt, alloc, numbers, &gate, &Never) == Some(wanted) && gate.both()
}

/// An order for the six jobs, of which `texts::TWO` is the plan.
const ORDER: &[u8] = b"deadline = 3\nprices = [1, 1]\n";

/// Whether this many workers, who enter the gate, print the plan of the six jobs.
fn is_printed<R: Threads + Wait + Sync>(rt: &R, alloc: Global, workers: usize, gate: &Pair) -> bool
    requires some_workers { 1 ≤ workers }
    requires workers { workers ≤ 64 }
{
    let printed = plan_crowd(
        rt,
        alloc,
        texts::CROSSED,
        ORDER,
        workers,
        ALL_TURNS,
        gate,
        &Never,
    );
    match printed {
        Ok((printed, _)) => printed.status == 0 && printed.text.as_slice() == texts::TWO.as_bytes(),
        Err(_) => false,
    }
}

/// Whether two of this many workers search at once, and print the plan of the six jobs.
fn is_printed_by_two<R: Threads + Wait + Sync>(rt: &R, alloc: Global, workers: usize) -> bool
    requires some_workers { 1 ≤ workers }
    requires workers { workers ≤ 64 }
{
    let gate = Pair::new();
    is_printed(rt, alloc, workers, &gate) && gate.both()
}

#[test]
fn two_pieces_at_once(rt: HostRuntime) {
    assert!(rt; are_two_at_once(&rt, rt.alloc(), 2));
    assert!(rt; are_two_at_once(&rt, rt.alloc(), 8));
    assert!(rt; is_printed_by_two(&rt, rt.alloc(), 2));
    assert!(rt; is_printed_by_two(&rt, rt.alloc(), 8));
}
