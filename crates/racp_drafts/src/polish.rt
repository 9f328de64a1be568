//! A schedule that is made cheaper in rounds.

use crate::aiming::Aiming;
use crate::least::Least;
use crate::problem::Problem;
use crate::random::Random;
use crate::rows::{copy, number_at, set_number, stored};
use crate::ruin::Ruin;
use crate::starting::Growths;
use crate::usage::Change;
use crate::usages::Usages;
use crate::windows::Windows;
use racp_model::Stop;
use std::alloc::{AllocError, Global};

/// After so many rounds without a better schedule the aims are set anew, from the schedule as it is then.
const PATIENCE: u32 = 2_000;

/// The heat is the mean work of a job, by this.
const COOLNESS: u64 = 32;

/// A schedule that is made cheaper in rounds, and the best one so far. Starts stand by rank.
#[derive(Drop)]
pub(crate) struct Polish {
    pub(crate) starts: Vec<u32>,
    usages: Usages,
    pub(crate) aiming: Aiming,
    pub(crate) least: Least,
    ruin: Ruin,
    windows: Windows,
    growths: Growths,
    random: Random,
    /// The jobs that are out in a round, and their starts before it.
    going: Vec<u32>,
    old: Vec<u32>,
    peaks: Vec<u32>,
    weights: Vec<u64>,
    /// By how much the excess may grow in a round, on average.
    heat: u64,
    /// How many rounds have gone since the aims were set.
    since: u32,
    pub(crate) best: Vec<u32>,
    pub(crate) best_cost: u64,
}

impl Polish {
    /// A list schedule: the job with most work for its slack first, each where it exceeds the floors least.
    pub(crate) fn new(alloc: Global, problem: &Problem, seed: u64) -> Result<Polish, AllocError> {
        let (mean_work, mean_duration) = problem.means();
        let mut polish = Polish {
            starts: Vec::from_elem(alloc, 0, problem.jobs())?,
            usages: Usages::new(alloc, problem)?,
            aiming: Aiming::new(alloc),
            least: Least::new(alloc),
            ruin: Ruin::new(alloc, mean_duration),
            windows: Windows::new(alloc, problem)?,
            growths: Growths::new(alloc),
            random: Random::new(seed),
            going: Vec::new(alloc),
            old: Vec::new(alloc),
            peaks: Vec::new(alloc),
            weights: Vec::new(alloc),
            heat: mean_work / COOLNESS,
            since: 0,
            best: Vec::new(alloc),
            best_cost: u64::MAX,
        };
        for i in 0..problem.jobs() {
            polish.going.push(stored(i))?;
        }
        polish.recreate(problem)?;
        let _ = polish.keep(problem)?;
        polish.aim(problem)?;
        Ok(polish)
    }

    /// Goes on from another schedule.
    pub(crate) fn take(&mut self, problem: &Problem, starts: &[u32]) -> Result<(), AllocError> {
        copy(&mut self.starts, starts)?;
        self.usages.clear(problem.deadline)?;
        for (i, start) in self.starts.iter().enumerate() {
            self.usages.shift(problem, i, *start, Change::Add)?;
        }
        let _ = self.keep(problem)?;
        self.aim(problem)
    }

    /// At most so many rounds, until nothing can cost less, or so many in turn have brought nothing. The stop is asked before
    /// each.
    pub(crate) fn improve<S: Stop>(
        &mut self,
        problem: &Problem,
        rounds: u32,
        patience: u32,
        stop: &S,
    ) -> Result<(), AllocError> {
        let least = problem.least_cost();
        let mut idle = 0u32;
        for _round in 0..rounds {
            if self.best_cost <= least || patience <= idle || stop.asked() {
                break;
            }
            let is_better = self.round(problem)?;
            idle = if is_better { 0 } else { idle.saturating_add(1) };
        }
        Ok(())
    }

    /// One round. Whether it found a better schedule.
    fn round(&mut self, problem: &Problem) -> Result<bool, AllocError> {
        if PATIENCE <= self.since {
            self.aim(problem)?;
        }
        if problem.jobs().saturating_mul(3) < self.usages.times.len() {
            self.usages.squeeze();
        }
        self.take_out(problem)?;
        let before = self.usages.excess;
        self.shift_going(problem, Change::TakeOff)?;
        self.recreate(problem)?;
        let most = before.saturating_add(self.random.waiting(self.heat));
        if most < self.usages.excess {
            self.undo(problem)?;
        }
        self.least.note(&self.starts, self.usages.excess)?;
        self.since = self.since.saturating_add(1);
        let is_better = self.usages.excess == 0 && self.keep(problem)?;
        if self.usages.excess == 0 {
            self.aim(problem)?;
        }
        Ok(is_better)
    }

    /// Chooses the jobs that go, and notes their starts.
    fn take_out(&mut self, problem: &Problem) -> Result<(), AllocError> {
        self.ruin.choose(
            problem,
            &self.usages,
            &self.starts,
            &mut self.random,
            &mut self.going,
        )?;
        self.old.clear();
        for job in self.going.iter() {
            self.old.push(number_at(&self.starts, *job as usize))?;
        }
        Ok(())
    }

    /// Adds the runs of the jobs that go, or takes them off.
    fn shift_going(&mut self, problem: &Problem, change: Change) -> Result<(), AllocError> {
        for job in self.going.iter() {
            let i = *job as usize;
            let start = number_at(&self.starts, i);
            self.usages.shift(problem, i, start, change)?;
        }
        Ok(())
    }

    /// Puts the jobs that went back where they were.
    fn undo(&mut self, problem: &Problem) -> Result<(), AllocError> {
        self.shift_going(problem, Change::TakeOff)?;
        for (job, start) in self.going.iter().zip(self.old.iter()) {
            set_number(&mut self.starts, *job as usize, *start);
        }
        self.shift_going(problem, Change::Add)
    }

    /// Puts the jobs that went back, one by one.
    fn recreate(&mut self, problem: &Problem) -> Result<(), AllocError> {
        self.windows.open(problem, &self.starts, &self.going);
        for _job in 0..self.going.len() {
            let Some(i) = self.next(problem) else {
                break;
            };
            let window = self.windows.of(i);
            let start = self
                .growths
                .start_of(problem, &self.usages, i, window, &mut self.random)?;
            set_number(&mut self.starts, i, start);
            self.usages.shift(problem, i, start, Change::Add)?;
            self.windows.close(problem, &self.starts, &self.going, i);
        }
        Ok(())
    }

    /// The job that is placed next: of those that are out the one with most work for its slack, somewhat by chance.
    fn next(&mut self, problem: &Problem) -> Option<usize> {
        let (mut most, mut next) = (0u64, None);
        for job in self.going.iter() {
            let i = *job as usize;
            if self.windows.is_out(i) {
                let (lower, upper) = self.windows.of(i);
                let slack = upper.saturating_sub(lower).saturating_add(1) as u64;
                let parts = (self.random.draw() & 1023).saturating_add(512);
                let share = problem.work(i).checked_div(slack).unwrap_or(0);
                let score = share.saturating_mul(parts).saturating_add(1);
                if most < score {
                    most = score;
                    next = Some(i);
                }
            }
        }
        next
    }

    /// Keeps the schedule if it is within the ceilings and costs less than the best one.
    fn keep(&mut self, problem: &Problem) -> Result<bool, AllocError> {
        self.usages.peaks(&mut self.peaks)?;
        for (resource, peak) in problem.resources.iter().zip(self.peaks.iter()) {
            if resource.ceiling < *peak {
                return Ok(false);
            }
        }
        let cost = problem.cost_of(&self.peaks);
        if self.best_cost <= cost {
            return Ok(false);
        }
        self.best_cost = cost;
        copy(&mut self.best, &self.starts)?;
        Ok(true)
    }

    /// Sets the aims, so that they cost less than the best schedule, if there is one.
    fn aim(&mut self, problem: &Problem) -> Result<(), AllocError> {
        self.usages.squeeze();
        let most = if self.best_cost < u64::MAX {
            self.best_cost.saturating_sub(1)
        } else {
            u64::MAX
        };
        self.aiming
            .aim(problem, &mut self.usages, most, &mut self.random)?;
        self.usages.recount(&mut self.weights)?;
        self.since = 0;
        self.least.begin(&self.starts, self.usages.excess)
    }
}
