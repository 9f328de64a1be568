//! Any number of workers finds the first yes, in whichever order they hand in what they found.

use crate::desk::runs::{ALL_TURNS, Ended, Numbers, ROWS, run_six};
use racp_desk::Gate;
use racp_model::Never;
use std::alloc::Global;
use std::sync::Wait;
use std::thread;
use std::thread::Threads;

/// How many workers there are, and which pieces are held up, by seed after seed: bit k, counted from 0, holds up the
/// pieces of the numbers k, k + 64, and so on.
struct Crew {
    workers: usize,
    seeds: &'static [u64],
}

/// No piece is held up.
const OPEN: &[u64] = &[0];

/// Of the fourth question, which is a yes in two rows, the piece is number 3.
const SEEDS: &[u64] = &[
    0,
    0b0001,
    0b0010,
    0b0100,
    0b0110,
    0b0111,
    0b1010,
    0x5555_5555_5555_5555,
    0xAAAA_AAAA_AAAA_AAAA,
    0x9E37_79B9_7F4A_7C15,
];

const CREWS: &[Crew] = &[
    Crew {
        workers: 1,
        seeds: OPEN,
    },
    Crew {
        workers: 2,
        seeds: SEEDS,
    },
    Crew {
        workers: 3,
        seeds: SEEDS,
    },
    Crew {
        workers: 8,
        seeds: SEEDS,
    },
    Crew {
        workers: 64,
        seeds: OPEN,
    },
];

/// How often a worker that is held up lets others go first.
const HELD: u64 = 3000;

/// Holds up the workers of some pieces, so that others hand in before them.
#[derive(Clone, Copy)]
struct Seeded {
    seed: u64,
}

impl Gate for Seeded {
    fn enter(&self, _seat: usize, number: u64) {
        if (self.seed >> (number % 64)) & 1 == 1 {
            for _look in 0..HELD {
                thread::yield_now();
            }
        }
    }
}

/// Whether this many workers, of which some are held up, find the first yes of each row in pieces of this many nodes.
fn find_each<R: Threads + Wait + Sync>(
    rt: &R,
    alloc: Global,
    workers: usize,
    quantum: u64,
    gate: Seeded,
) -> bool {
    for &(second, yes) in ROWS {
        let numbers = Numbers {
            second,
            workers,
            quantum,
            turns: ALL_TURNS,
        };
        let wanted = Ended {
            yes,
            open: None,
            halted: None,
        };
        if run_six(rt, alloc, numbers, &gate, &Never) != Some(wanted) {
            return false;
        }
    }
    true
}

/// Whether a crew finds the first yes with each of its seeds, in small pieces and in large ones.
fn finds_with_each<R: Threads + Wait + Sync>(rt: &R, alloc: Global, crew: &Crew) -> bool {
    for &seed in crew.seeds {
        let gate = Seeded { seed };
        if !find_each(rt, alloc, crew.workers, 1, gate)
            || !find_each(rt, alloc, crew.workers, 1000, gate)
        {
            return false;
        }
    }
    true
}

#[test]
fn any_crew_finds_the_first_yes(rt: HostRuntime) {
    for crew in CREWS {
        let finds = finds_with_each(&rt, rt.alloc(), crew);
        assert!(rt; finds, "{} workers", crew.workers);
    }
}
