//! What to try next: a job of a minimal delaying alternative is put off, or there are fewer units.

use crate::alternatives::Alternatives;
use crate::bound::Bound;
use crate::candidate::Candidate;
use crate::events::Events;
use crate::lanes::{Lanes, lanes_at, set_lanes, set_units};
use crate::problem::Problem;
use crate::view::View;
use std::alloc::{AllocError, Global};

/// What to do where nothing more follows.
#[derive(Clone, Copy)]
pub(crate) enum Choice {
    /// The early starts fit and cost little enough.
    Found,
    /// This is to be tried.
    Try(Bound),
    /// There is nothing to try.
    Nothing,
}

/// Goes over the usage of the early starts.
#[derive(Drop)]
pub(crate) struct Deciding {
    events: Events,
    alternatives: Alternatives,
    loads: Vec<Lanes>,
    peaks: Vec<Lanes>,
    /// The jobs that run at the time that is looked at.
    active: Vec<u32>,
    /// The jobs that were looked at.
    seen: Vec<bool>,
    best: Candidate,
    is_over: bool,
    short: bool,
}

impl Deciding {
    pub(crate) fn new(alloc: Global, problem: &Problem) -> Result<Deciding, AllocError> {
        Ok(Deciding {
            events: Events::new(alloc, problem)?,
            alternatives: Alternatives::new(alloc, problem)?,
            loads: Vec::from_elem(alloc, Lanes::none(), problem.groups)?,
            peaks: Vec::from_elem(alloc, Lanes::none(), problem.groups)?,
            active: Vec::with_capacity(alloc, problem.jobs)?,
            seen: Vec::from_elem(alloc, false, problem.jobs)?,
            best: Candidate::none(),
            is_over: false,
            short: false,
        })
    }

    /// Whether memory was refused.
    pub(crate) fn is_short(&self) -> bool {
        self.short
    }

    /// What to do next. Where the early starts exceed some units, a job is put off that is active then, or there are fewer
    /// units; where they fit but cost too much there are fewer units: whichever took part most. A guide may say that the job
    /// starts sooner instead.
    pub(crate) fn choose(&mut self, view: View<'_>) -> Choice {
        self.begin(view);
        self.sweep(view);
        let problem = view.problem;
        if !self.is_over && self.cost(view) <= view.trail.upper(problem.cost()) {
            return Choice::Found;
        }
        for k in 0..problem.resources {
            self.look_at_units(view, k);
        }
        if !self.best.is_some() {
            return Choice::Nothing;
        }
        let best = self.best;
        Choice::Try(if best.variable < problem.jobs {
            view.side(best.variable, best.threshold)
        } else {
            Bound::at_most(best.variable, best.threshold.wrapping_sub(1))
        })
    }

    fn begin(&mut self, view: View<'_>) {
        self.events.take_early(view.problem, view.trail);
        self.loads.fill(Lanes::none());
        self.peaks.fill(Lanes::none());
        self.active.clear();
        self.seen.fill(false);
        self.best = Candidate::none();
        self.is_over = false;
        for k in 0..view.problem.resources {
            let units = view.trail.upper(view.problem.units(k));
            set_units(self.alternatives.most_mut(), k, units);
        }
    }

    /// Goes over the usage in order of time.
    fn sweep(&mut self, view: View<'_>) {
        let mut from = 0i64;
        for i in 0..self.events.len() {
            let event = self.events.at(i);
            if from < event.time {
                self.look(view, from);
                from = event.time;
            }
            if event.ends {
                self.end(view.problem, event.job);
            } else {
                self.start(view.problem, event.job);
            }
        }
    }

    fn start(&mut self, problem: &Problem, job: u32) {
        if self.active.push(job).is_err() {
            self.short = true;
        }
        for group in 0..problem.groups {
            let lanes = problem.lanes(job as usize, group);
            let loads = lanes_at(&self.loads, group).with(lanes);
            set_lanes(&mut self.loads, group, loads);
        }
    }

    fn end(&mut self, problem: &Problem, job: u32) {
        if let Some(at) = self.active.iter().position(|other| *other == job) {
            if at < self.active.len() {
                self.active.swap_remove(at);
            }
        }
        for group in 0..problem.groups {
            let lanes = problem.lanes(job as usize, group);
            let loads = lanes_at(&self.loads, group).without(lanes);
            set_lanes(&mut self.loads, group, loads);
        }
    }

    /// Looks at the usage from a time on.
    #[inline]
    fn look(&mut self, view: View<'_>, time: i64) {
        let mut is_over = false;
        for group in 0..view.problem.groups {
            let loads = lanes_at(&self.loads, group);
            let peaks = lanes_at(&self.peaks, group).most(loads);
            set_lanes(&mut self.peaks, group, peaks);
            is_over |= !loads.are_within(lanes_at(self.alternatives.most(), group));
        }
        if is_over {
            self.is_over = true;
            for i in 0..self.active.len() {
                let job = self.active.get(i).copied().unwrap_or(0);
                self.look_at_job(view, job, time);
            }
        }
    }

    /// Looks at a job that is active at a time of excess, if it is the first one at which it uses what is exceeded.
    fn look_at_job(&mut self, view: View<'_>, job: u32, time: i64) {
        let x = job as usize;
        let was_seen = self.seen.get(x).copied().unwrap_or(true);
        if was_seen || view.trail.upper(x) <= time || !self.uses_excess(view.problem, x) {
            return;
        }
        if let Some(seen) = self.seen.get_mut(x) {
            *seen = true;
        }
        let (lower, upper) = (view.trail.lower(x), view.trail.upper(x));
        let least = self.best.score;
        let mut best = view.activity.best(x, time.wrapping_add(1), upper, least);
        best.time = time;
        best.start = lower;
        best.slack = upper.wrapping_sub(lower);
        if !best.is_better(&self.best) || !self.alternatives.have(view.problem, job, &self.active) {
            return;
        }
        if best.score <= 0.0 {
            best.threshold = self.first_end(view).min(upper);
        }
        self.best = best;
    }

    /// Whether a job uses some resource that is exceeded.
    fn uses_excess(&self, problem: &Problem, job: usize) -> bool {
        for group in 0..problem.groups {
            let loads = lanes_at(&self.loads, group);
            let most = lanes_at(self.alternatives.most(), group);
            let lanes = problem.lanes(job, group);
            for q in 0..4usize {
                if most.lanes[q] < loads.lanes[q] && 0 < lanes.lanes[q] {
                    return true;
                }
            }
        }
        false
    }

    /// When the first of the active jobs ends.
    fn first_end(&self, view: View<'_>) -> i64 {
        let mut first = i64::MAX;
        for &job in &self.active {
            let x = job as usize;
            let end = view.trail.lower(x).wrapping_add(view.problem.duration(x));
            first = first.min(end);
        }
        first
    }

    /// What the peaks cost, with the least units at least.
    fn cost(&self, view: View<'_>) -> i64 {
        let mut cost = 0i64;
        for k in 0..view.problem.resources {
            let least = view.trail.lower(view.problem.units(k));
            let units = self.peak(k).max(least);
            cost = cost.wrapping_add(view.problem.price_of(k, units));
        }
        cost
    }

    fn peak(&self, k: usize) -> i64 {
        i64::from(lanes_at(&self.peaks, k / 4).of(k))
    }

    /// Looks at fewer units of a resource; where the early starts fit, fewer than they use.
    fn look_at_units(&mut self, view: View<'_>, k: usize) {
        let x = view.problem.units(k);
        let from = view.trail.lower(x).wrapping_add(1);
        let mut until = view.trail.upper(x);
        if !self.is_over {
            until = until.min(self.peak(k));
        }
        let is_free = view.problem.price(k) <= 0;
        if until < from || is_free && !self.is_over {
            return;
        }
        let best = view.activity.best(x, from, until, self.best.score);
        if best.is_better(&self.best) {
            self.best = best;
        }
    }
}
