//! A window in the course of narrowing.

ghost use Rattle.std.specs.Prelude.{◌≡◌, ◌+◌, ◌<◌, ◌≤◌, length, slice_index};
ghost use Rattle.racp_model.specs.Limits.{most_bound, most_start};
ghost use Rattle.racp_model.specs.Project.{duration};
ghost use Rattle.racp_timetable.specs.Moving.{IsRaised, IsReduced};

use racp_model::{Network, Starts, Window};
use std::marker::Model;

/// A window that is being narrowed, and which kinds of its bounds have moved. Contracts see the window.
#[derive(Drop)]
pub(crate) struct Narrowing {
    lower: Vec<u32>,
    upper: Vec<u32>,
    raised: bool,
    reduced: bool,
}

impl Model for Narrowing {
    ghost use Rattle.std.specs.Prelude.{◌≤◌, All};
    ghost use Rattle.racp_model.specs.Limits.{most_bound, most_start};
    ghost use Rattle.racp_model.specs.Window.{Bounds};

    ghost Value = { Bounds };

    ghost view = { λ n. record { lower = n.lower.items; upper = n.upper.items } };

    ghost invariant = { λ n. All (λ x. x ≤ most_bound) n.lower.items × All (λ x. x ≤ most_start) n.upper.items };
}

impl Narrowing {
    /// A window of which lower bounds were raised, and upper bounds leave room before the jobs after them. Takes no
    /// memory.
    pub(crate) fn of(window: Window) -> Self
        ensures { result ≡ window }
    {
        prove!(
            window.lower().len() + window.upper().len()
                == window.lower().len() + window.upper().len()
        );
        let (lower, upper) = window.into_bounds();
        Narrowing {
            lower: lower.into_vec(),
            upper: upper.into_vec(),
            raised: true,
            reduced: false,
        }
    }

    /// The window as it is now. Takes no memory.
    pub(crate) fn into_window(self) -> Window
        ensures { result ≡ self }
    {
        Window::new(Starts::new(self.lower), Starts::new(self.upper))
    }

    /// The lower bound of the job at a place.
    pub(crate) fn lower(&self, i: usize) -> u32
        requires { i < length self.now.lower }
        ensures bound { result ≡ slice_index self.now.lower i }
        ensures small { result ≤ most_bound }
    {
        self.lower[i]
    }

    /// The upper bound of the job at a place.
    pub(crate) fn upper(&self, i: usize) -> u32
        requires { i < length self.now.upper }
        ensures bound { result ≡ slice_index self.now.upper i }
        ensures small { result ≤ most_start }
    {
        self.upper[i]
    }

    /// Raises the lower bound of the job at a place, and says whether the time is within its upper bound. Else nothing
    /// moves.
    pub(crate) fn raise(&mut self, i: usize, time: u32) -> bool
        requires lower { i < length self.old.lower }
        requires upper { i < length self.old.upper }
        ensures { IsRaised self.old i time self.new result }
    {
        if self.upper[i] < time {
            return false;
        }
        self.lower[i] = time;
        self.raised = true;
        true
    }

    /// Lowers the upper bound of the job at a place, and says whether the time is within its lower bound. Else nothing
    /// moves.
    pub(crate) fn reduce(&mut self, i: usize, time: u32) -> bool
        requires lower { i < length self.old.lower }
        requires upper { i < length self.old.upper }
        requires down { time ≤ most_start }
        ensures { IsReduced self.old i time self.new result }
    {
        if time < self.lower[i] {
            return false;
        }
        self.upper[i] = time;
        self.reduced = true;
        true
    }

    /// From now on it says which bounds move from now on.
    pub(crate) fn watch(&mut self)
        ensures { self.new ≡ self.old }
    {
        self.raised = false;
        self.reduced = false;
    }

    /// Whether a lower bound has moved since then.
    pub(crate) fn has_raised(&self) -> bool {
        self.raised
    }

    /// Whether an upper bound has moved since then.
    pub(crate) fn has_reduced(&self) -> bool {
        self.reduced
    }

    /// Whether a bound has moved since then.
    pub(crate) fn has_moved(&self) -> bool {
        self.raised || self.reduced
    }
}

/// When the job at a place ends that starts at a time.
pub(crate) fn end_of(net: &Network, i: usize, start: u32) -> u32
    requires job { i < length net.now.jobs }
    requires small { start ≤ most_bound }
    ensures { result ≡ start + duration net.now i }
{
    prove!(i < net.job_count());
    start + net.duration(i)
}
