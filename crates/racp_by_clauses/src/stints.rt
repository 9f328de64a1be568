//! Stints: who works next, the search or what makes drafts better.

ghost use Rattle.racp_found.specs.Told.{MayBeTold};
ghost use Rattle.racp_by_clauses.specs.Optima.{IsTaskOf};

use crate::descent::Descent;
use crate::task::Task;
use crate::telling::tell_draft;
use racp_clauses::OfProblem;
use racp_drafts::Drafting;
use racp_found::{Observer, Wish};
use std::alloc::AllocError;

/// The first conflicts belong to the search alone, so that what is easy ends there: this many by the square of the number of jobs.
const FIRST: u64 = 36_000_000;

/// After a stint that made the best draft better the search has this many conflicts, by the number of jobs.
const CONFLICTS: u64 = 60_000;

/// After stints that brought nothing it has up to so many times as many, by the number of jobs too: 8 with 60 jobs.
const MOST_TIMES: u64 = 480;

/// A better draft is told after so many rounds.
const ROUNDS: u32 = 4_000;

/// The first stint has so many times as many rounds.
const FIRST_TIMES: u32 = 5;

/// Each other one has them once for so many jobs, at least once and at most so many times.
const JOBS_PER_TIME: usize = 50;

const MOST_TIMES_EACH: usize = 4;

/// Stints of what makes drafts better, between the conflicts of a search. They are counted and not timed.
#[derive(Drop)]
pub(crate) struct Stints {
    pub(crate) drafting: Option<Drafting>,
    seed: u64,
    /// The next stint has so many times the rounds.
    times: u32,
    /// How many stints in turn have brought nothing.
    pub(crate) idle: u64,
}

impl Stints {
    /// No stint was made yet.
    pub(crate) fn new(seed: u64) -> Stints {
        Stints {
            drafting: None,
            seed,
            times: FIRST_TIMES,
            idle: 0,
        }
    }

    /// How many conflicts the search has before the next stint.
    pub(crate) fn conflicts(&self, task: Task<'_>) -> u64 {
        let jobs = (task.net.job_count() as u64).max(1);
        let times = self.idle.saturating_add(1).min((MOST_TIMES / jobs).max(1));
        match &self.drafting {
            Some(_) => (CONFLICTS / jobs).saturating_mul(times),
            None => FIRST / jobs / jobs,
        }
    }

    /// How many of the conflicts that are left the search has before the next stint: all where the least cost is known.
    pub(crate) fn share<P: OfProblem>(
        &self,
        task: Task<'_>,
        descent: &Descent<P>,
        left: u64,
    ) -> u64 {
        if descent.is_cost_known() {
            left
        } else {
            left.min(self.conflicts(task))
        }
    }

    /// A stint. A better draft is the best of the descent from now on, and the observer is told of it.
    pub(crate) fn work<P: OfProblem, O: Observer>(
        &mut self,
        task: Task<'_>,
        descent: &mut Descent<P>,
        observer: &O,
    ) -> Result<(), AllocError>
        requires is_of { IsTaskOf P.problem task }
        requires may { MayBeTold P.problem.network P.problem.terms O.may_hear }
    {
        self.begin(task)?;
        self.idle = self.idle.saturating_add(1);
        for _time in 0..self.times {
            if self.improve(task, descent, observer)? {
                self.idle = 0;
            }
        }
        self.times = times_for(task.net.job_count());
        Ok(())
    }

    /// Makes the best draft of a descent better, by some rounds. Whether there is a better one.
    fn improve<P: OfProblem, O: Observer>(
        &mut self,
        task: Task<'_>,
        descent: &mut Descent<P>,
        observer: &O,
    ) -> Result<bool, AllocError>
        requires is_of { IsTaskOf P.problem task }
        requires may { MayBeTold P.problem.network P.problem.terms O.may_hear }
    {
        let Some(drafting) = &mut self.drafting else {
            return Ok(false);
        };
        if let Some(best) = &descent.best {
            drafting.join(best)?;
        }
        let stop = Wish { observer };
        let Some(draft) = drafting.improve(task.net, task.order, ROUNDS, &stop)? else {
            return Ok(false);
        };
        tell_draft::<P, O>(&draft, observer);
        descent.best = Some(draft);
        Ok(true)
    }

    /// Begins with a list schedule, before the first stint.
    fn begin(&mut self, task: Task<'_>) -> Result<(), AllocError> {
        if self.drafting.is_some() {
            return Ok(());
        }
        let Task {
            alloc,
            net,
            order,
            window,
            ..
        } = task;
        self.drafting = Some(Drafting::new(alloc, net, order, window, self.seed)?);
        Ok(())
    }
}

/// How many times the rounds a stint has that is not the first one.
fn times_for(jobs: usize) -> u32 {
    let times = (jobs / JOBS_PER_TIME).clamp(1, MOST_TIMES_EACH);
    u32::try_from(times).unwrap_or(1)
}
