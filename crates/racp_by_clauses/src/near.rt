//! Questions about neighbourhoods of the schedule of least excess.
//!
//! What makes drafts better keeps a schedule that uses little more than some units which cost less than the best draft. The
//! search is asked whether there is one within these units, where most jobs start as in that schedule. Few conflicts answer
//! this, and the fewer jobs are free the fewer. A yes is a better draft. After a no more jobs are free, after an open question
//! fewer. What is learned holds of the whole order.

ghost use Rattle.racp_found.specs.Told.{MayBeTold};
ghost use Rattle.racp_by_clauses.specs.Optima.{AreTasksOf, IsTaskOf};

use crate::descent::Descent;
use crate::places::variable_count;
use crate::questions::bounds_between;
use crate::stints::Stints;
use crate::task::{Task, Tasks};
use crate::telling::tell_draft;
use racp_clauses::OfProblem;
use racp_drafts::{Draft, Drafting, Neighbourhood};
use racp_found::{Observer, Wish};
use racp_learning::{Search, Told};
use racp_model::Starts;
use std::alloc::{AllocError, Global};

/// A stint has at most so many questions,
const QUESTIONS: u32 = 24;

/// of at most so many conflicts each,
const EACH: u64 = 500;

/// and so many in all, by the number of jobs.
const ALL: u64 = 60_000;

impl Stints {
    /// Asks about neighbourhoods, by at most so many conflicts; tells how many it met. A better draft is the best of the descent
    /// from now on, and the observer is told of it.
    pub(crate) fn ask_near<N: OfProblem, P: OfProblem, O: Observer>(
        &mut self,
        search: &mut Search<N>,
        tasks: Tasks<'_>,
        descent: &mut Descent<P>,
        observer: &O,
        conflicts: u64,
    ) -> Result<u64, AllocError>
        requires are_of { AreTasksOf N.problem P.problem tasks }
        requires may { MayBeTold P.problem.network P.problem.terms O.may_hear }
    {
        let Some(drafting) = &mut self.drafting else {
            return Ok(0);
        };
        let jobs = (tasks.part.net.job_count() as u64).max(1);
        let most = conflicts.min(ALL / jobs);
        let before = search.tally().conflicts;
        let mut met = 0;
        for _question in 0..QUESTIONS {
            if most <= met || observer.is_to_stop() || !descent.is_cost_open(tasks.part) {
                break;
            }
            let left = most.saturating_sub(met).min(EACH);
            if ask_once::<N, P, O>(drafting, search, tasks, descent, observer, left)? {
                self.idle = 0;
            }
            met = search.tally().conflicts.saturating_sub(before);
        }
        search.guide(&[])?;
        Ok(met)
    }
}

/// Asks about one neighbourhood. Whether there is a better draft.
fn ask_once<N: OfProblem, P: OfProblem, O: Observer>(
    drafting: &mut Drafting,
    search: &mut Search<N>,
    tasks: Tasks<'_>,
    descent: &mut Descent<P>,
    observer: &O,
    conflicts: u64,
) -> Result<bool, AllocError>
    requires are_of { AreTasksOf N.problem P.problem tasks }
    requires may { MayBeTold P.problem.network P.problem.terms O.may_hear }
{
    let Tasks { whole, part } = tasks;
    if let Some(best) = &descent.best {
        drafting.join(best)?;
    }
    let Some(near) = drafting.neighbourhood(part.net)? else {
        return Ok(false);
    };
    let least = leasts(part.alloc, &near)?;
    let most = mosts(part.alloc, &near, descent.most_cost(part))?;
    let places = variable_count(part.net);
    let bounds = bounds_between(part.alloc, part.root, places, &least, &most)?;
    search.guide(&near.starts)?;
    let stop = Wish { observer };
    match search.ask(whole.net, whole.order, &bounds, conflicts, &stop)? {
        Told::Found(starts, _) => return take(drafting, part, descent, observer, starts),
        Told::Refuted(_) => drafting.grow(),
        Told::Open(_) => drafting.shrink(),
    }
    Ok(false)
}

/// Takes starts as the best draft, if they cost less. Whether they do.
fn take<P: OfProblem, O: Observer>(
    drafting: &mut Drafting,
    task: Task<'_>,
    descent: &mut Descent<P>,
    observer: &O,
    starts: Starts,
) -> Result<bool, AllocError>
    requires is_of { IsTaskOf P.problem task }
    requires may { MayBeTold P.problem.network P.problem.terms O.may_hear }
{
    let Some(draft) = Draft::of_starts(task.alloc, task.net, task.order, starts)? else {
        return Ok(false);
    };
    if descent.most_cost(task) < draft.cost {
        return Ok(false);
    }
    drafting.join(&draft)?;
    tell_draft::<P, O>(&draft, observer);
    descent.best = Some(draft);
    Ok(true)
}

/// What each variable is at least in a neighbourhood: the jobs that are not free have their starts.
fn leasts(alloc: Global, near: &Neighbourhood) -> Result<Vec<u64>, AllocError> {
    let mut row = Vec::with_capacity(alloc, near.starts.len())?;
    for (start, is_free) in near.starts.iter().zip(near.is_free.iter()) {
        row.push(if *is_free { 0 } else { *start as u64 })?;
    }
    Ok(row)
}

/// What each variable is at most in a neighbourhood, where the cost is at most so much.
fn mosts(alloc: Global, near: &Neighbourhood, cost: u64) -> Result<Vec<u64>, AllocError> {
    let mut row = Vec::new(alloc);
    for (start, is_free) in near.starts.iter().zip(near.is_free.iter()) {
        row.push(if *is_free { u64::MAX } else { *start as u64 })?;
    }
    for units in near.units.iter() {
        row.push(*units as u64)?;
    }
    row.push(cost)?;
    Ok(row)
}
