//! How times are drawn in columns.

ghost use Rattle.std.specs.Prelude.{◌*◌, ◌^◌, ◌<◌, ◌≤◌};

use std::cmp::{max, min};

/// Which column stands for which times. Column `c`, from 0, stands for the times from `c * span` to before
/// `(c + 1) * span`, in time units.
#[derive(Clone, Copy)]
pub struct Scale {
    /// How many time units a column stands for: at least 1.
    pub span: u32,
    /// How many columns there are.
    pub columns: u32,
    ghost some_time: { 1 ≤ span },
    ghost small: { columns * span < 2 ^ 32 },
}

/// The columns in which a job is drawn.
#[derive(Clone, Copy)]
pub struct Bar {
    /// The first of them, from 0; for a job of duration 0 the column of its mark.
    pub first: u32,
    /// How many they are: none for a job of duration 0.
    pub count: u32,
}

impl Scale {
    ghost use Rattle.racp_model.specs.Limits.{latest_time};
    ghost use Rattle.racp_show.specs.Scales.{IsBar, IsScale};

    /// The scale of all times before a deadline, in time units, with at most `most` columns: each stands for as few
    /// time units as that allows. A deadline of 0 has no columns.
    pub fn of(deadline: u32, most: u32) -> Scale
        requires time { deadline ≤ latest_time }
        requires some_column { 0 < most }
        ensures { IsScale deadline most result.span result.columns }
    {
        let span = max(1, deadline.div_ceil(most));
        let columns = deadline.div_ceil(span);
        Scale { span, columns }
    }

    /// How a job is drawn that runs from `start` to `end`, in time units: in the columns from that of its start to that
    /// of its last time. A job of duration 0 is a mark in the column of its start, or in the last column if it
    /// starts after all of them.
    pub fn bar(&self, start: u32, end: u32) -> Bar
        requires { start ≤ end }
        ensures { IsBar self.now.span self.now.columns start end result }
    {
        let first = start / self.span;
        if start < end {
            let last = (end - 1) / self.span;
            Bar {
                first,
                count: last - first + 1,
            }
        } else {
            Bar {
                first: min(first, self.columns.saturating_sub(1)),
                count: 0,
            }
        }
    }
}

impl Bar {
    ghost use Rattle.std.specs.Prelude.{◌↔◌, ◌+◌, IsTrue};

    /// Whether a column, from 0, is one of those in which the job is drawn.
    pub fn covers(&self, column: u32) -> bool
        ensures { IsTrue result ↔ ((self.now.first ≤ column) × (column < self.now.first + self.now.count)) }
    {
        self.first <= column && column - self.first < self.count
    }
}
