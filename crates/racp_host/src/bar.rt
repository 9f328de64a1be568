//! A bar that shows how much is done where the end is known.

use crate::begun::Begun;
use crate::terminal::{CUT, PassedTime, UNCUT, place};
use std::cell::Cell;
use std::fmt;
use std::fmt::{Display, Formatter};
use std::time::Clock;

/// How many seconds lie between two lines, at least.
const PERIOD: u64 = 2;

/// How many letters a bar has.
const LETTERS: usize = 20;

/// The letters of a bar: `[#####...............]`.
#[derive(Drop)]
struct Letters {
    done: usize,
    all: usize,
}

impl Display for Letters {
    fn fmt<W: fmt::Write>(&self, f: &mut Formatter<W>) -> fmt::Result {
        let full = self.done.saturating_mul(LETTERS) / self.all.max(1);
        f.write_char('[')?;
        for place in 0..LETTERS {
            f.write_char(if place < full { '#' } else { '.' })?;
        }
        f.write_char(']')
    }
}

/// Counts the rows of a table that are done, and tells on a terminal every two seconds how many they are, each line in the place of
/// the one before it.
#[derive(Drop)]
pub struct Bar {
    begun: Begun,
    all: usize,
    done: Cell<usize>,
    due: Cell<u64>,
    is_begun: Cell<bool>,
}

impl Bar {
    /// None of so many rows is done, and the first line is due after two seconds.
    pub fn of<C: Clock>(clock: &C, all: usize) -> Self {
        Bar {
            begun: Begun::now(clock),
            all,
            done: Cell::new(0),
            due: Cell::new(PERIOD),
            is_begun: Cell::new(false),
        }
    }

    /// Counts a row that is done.
    pub fn step(&self) {
        self.done.set(self.done.get().saturating_add(1));
    }

    /// Notes that something else was told since the last line, which stays where it is.
    pub fn leave(&self) {
        self.is_begun.set(false);
    }

    /// Tells how much is done, if that is due.
    pub fn look<R: Clock + Eprint>(&self, rt: &R) {
        let Some(passed) = self.begun.passed(rt) else {
            return;
        };
        let seconds = passed.as_secs();
        if seconds < self.due.get() {
            return;
        }
        self.due.set(seconds.saturating_add(PERIOD));
        let (done, all) = (self.done.get(), self.all);
        let place = place(self.is_begun.replace(true));
        let (time, letters) = (PassedTime::of(seconds), Letters { done, all });
        let _ = rt.eprintln(format_args!(
            "{place}{CUT}{time}  {letters} {done} of {all} rows{UNCUT}"
        ));
    }
}
