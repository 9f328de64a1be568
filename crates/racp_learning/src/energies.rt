//! Bounds on units by the work that jobs have to do at some times.

use crate::bound::{Bound, Why};
use crate::energy_reasons::{runs_within, units_for};
use crate::energy_windows::{Window, Windows};
use crate::problem::Problem;
use crate::rows::short;
use crate::trail::Trail;
use std::alloc::{AllocError, Global};

/// So many windows are kept.
const MOST_KEPT: usize = 64;

/// All windows are looked at once in so many looks, and more rarely where there are many jobs.
const LEAST_BETWEEN: usize = 16;

/// The jobs for which it comes as rarely as their square, divided by this.
const RARER: usize = 400;

/// Looks at windows where starts have moved: at those that it keeps each time, and at all of them from time to time.
#[derive(Drop)]
pub(crate) struct Energies {
    is_on: bool,
    has_moved: bool,
    /// How many looks there were since all windows were looked at.
    looks: usize,
    /// The windows that were of use, and the place of the one that gives way next.
    kept: Vec<Window>,
    next: usize,
    windows: Windows,
    short: bool,
}

impl Energies {
    /// Looks at nothing until it is turned on.
    pub(crate) fn new(alloc: Global, problem: &Problem) -> Result<Energies, AllocError> {
        Ok(Energies {
            is_on: false,
            has_moved: true,
            looks: 0,
            kept: Vec::new(alloc),
            next: 0,
            windows: Windows::new(alloc, problem)?,
            short: false,
        })
    }

    /// From now on it looks.
    pub(crate) fn turn_on(&mut self) {
        self.is_on = true;
    }

    /// Whether memory was refused.
    pub(crate) fn is_short(&self) -> bool {
        self.short
    }

    /// Bounds were taken back.
    pub(crate) fn reset(&mut self) {
        self.has_moved = true;
    }

    /// Notes that a bound has moved.
    #[inline]
    pub(crate) fn note_moved(&mut self, problem: &Problem, bound: Bound) {
        if bound.variable() < problem.jobs {
            self.has_moved = true;
        }
    }

    /// Whether a start has moved since the last look.
    #[inline]
    pub(crate) fn are_due(&self) -> bool {
        self.is_on && self.has_moved
    }

    /// Puts what follows, and says whether there is no conflict.
    pub(crate) fn follow(&mut self, problem: &Problem, trail: &mut Trail) -> bool {
        self.has_moved = false;
        for &window in &self.kept {
            if !raise(problem, trail, window) {
                return false;
            }
        }
        self.looks = self.looks.wrapping_add(1);
        if self.looks < between(problem) {
            return true;
        }
        self.looks = 0;
        self.look_at_all(problem, trail)
    }

    /// Looks at all windows, and keeps the best one of each resource.
    fn look_at_all(&mut self, problem: &Problem, trail: &mut Trail) -> bool {
        self.windows.look(problem, trail);
        for k in 0..problem.resources {
            if let Some(window) = self.windows.best(k) {
                self.keep(window);
                if !raise(problem, trail, window) {
                    return false;
                }
            }
        }
        true
    }

    /// Keeps a window, in place of the oldest one if there are many.
    fn keep(&mut self, window: Window) {
        if self.kept.iter().any(|other| other.is_same(window)) {
            return;
        }
        if self.kept.len() < MOST_KEPT {
            if self.kept.push(window).is_err() {
                self.short = true;
            }
            return;
        }
        let place = self.next.checked_rem(MOST_KEPT).unwrap_or(0);
        if let Some(oldest) = self.kept.get_mut(place) {
            *oldest = window;
        }
        self.next = place.wrapping_add(1);
    }
}

/// How many looks there are from one at all windows to the next.
fn between(problem: &Problem) -> usize {
    (problem.jobs.wrapping_mul(problem.jobs) / RARER).max(LEAST_BETWEEN)
}

/// Raises the least units of a window's resource to what the work in it takes.
fn raise(problem: &Problem, trail: &mut Trail, window: Window) -> bool {
    let (k, span) = (window.resource, window.span);
    let mut work = 0i64;
    for &job in problem.by_request(k).iter().rev() {
        let i = job as usize;
        let request = problem.request(i, k);
        if request <= 0 {
            break;
        }
        let runs = runs_within(span, problem.duration(i), trail.lower(i), trail.upper(i));
        work = work.wrapping_add(request.wrapping_mul(runs));
    }
    let x = problem.units(k);
    let length = span.until.wrapping_sub(span.from);
    if work <= trail.lower(x).wrapping_mul(length) {
        return true;
    }
    let why = Why::Energy(short(span.from), short(span.until));
    trail.put(Bound::at_least(x, units_for(work, span)), why)
}
