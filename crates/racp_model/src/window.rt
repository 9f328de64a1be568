//! Windows: a lower and an upper bound on the start of each job.

ghost use Rattle.std.specs.Prelude.{◌≡◌, ◌≤◌, All, IfOk};
ghost use Rattle.racp_model.specs.Limits.{most_bound, most_start};
ghost use Rattle.racp_model.specs.Window.{Bounds};

use crate::starts::Starts;
use std::alloc::AllocError;
use std::marker::Model;

/// A time window for each job: a lower and an upper bound on its start, in time units. Lower bounds are at most
/// 20,000,000, upper bounds at most 10,000,000.
#[derive(Clone, Drop)]
pub struct Window {
    lower: Starts,
    upper: Starts,
}

impl Model for Window {
    ghost use Rattle.std.specs.Prelude.{◌≤◌, All};
    ghost use Rattle.racp_model.specs.Limits.{most_bound, most_start};
    ghost use Rattle.racp_model.specs.Window.{Bounds};

    ghost Value = { Bounds };

    ghost view = { λ window. record { lower = window.lower; upper = window.upper } };

    ghost invariant = { λ window. All (λ x. x ≤ most_bound) window.lower × All (λ x. x ≤ most_start) window.upper };
}

impl Window {
    /// The window of these bounds. Takes no memory.
    pub fn new(lower: Starts, upper: Starts) -> Self
        requires lower { All (λ x. x ≤ most_bound) lower }
        requires upper { All (λ x. x ≤ most_start) upper }
        ensures { result ≡ record { lower = lower; upper = upper } }
    {
        Window { lower, upper }
    }

    /// The lower bounds, by place from 0.
    pub fn lower(&self) -> &[u32]
        ensures bounds { result.now ≡ self.now.lower }
        ensures small { All (λ x. x ≤ most_bound) self.now.lower }
    {
        self.lower.as_slice()
    }

    /// The upper bounds, by place from 0.
    pub fn upper(&self) -> &[u32]
        ensures bounds { result.now ≡ self.now.upper }
        ensures small { All (λ x. x ≤ most_start) self.now.upper }
    {
        self.upper.as_slice()
    }

    /// Gives the bounds back, the lower ones first. Takes no memory.
    pub fn into_bounds(self) -> (Starts, Starts)
        ensures lower { result.0 ≡ self.lower }
        ensures upper { result.1 ≡ self.upper }
    {
        (self.lower, self.upper)
    }

    /// A copy of the window. `Clone` makes one too, but does not promise that it is equal.
    ///
    /// # Errors
    ///
    /// Memory was refused.
    pub fn copy(&self) -> Result<Window, AllocError>
        ensures { IfOk result (λ copy. copy ≡ self.now) }
    {
        self.clone()
    }
}
