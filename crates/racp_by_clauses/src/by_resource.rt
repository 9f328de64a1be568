//! A question that is parted by resources.
//!
//! What costs less than the best draft has less of some resource than it. So that nothing costs less is shown for each
//! resource alone; where all of that is learned, the whole question has a short answer. In the same way it is asked for less
//! of each resource at the least cost. Searches side by side begin with different resources.

ghost use Rattle.racp_found.specs.Told.{MayBeTold};
ghost use Rattle.racp_by_clauses.specs.Optima.{AreTasksOf};

use crate::asking::Heard;
use crate::descent::Descent;
use crate::places::variable_count;
use crate::task::{Task, Tasks};
use racp_clauses::OfProblem;
use racp_found::Observer;
use racp_learning::Search;
use std::alloc::{AllocError, Global};

/// What the parts of a question ask for.
#[derive(Clone, Copy)]
pub(crate) enum Aim {
    /// Less cost than the best draft has.
    Cost,
    /// As much at most, with no more of the resources before the one that is asked for.
    Units,
}

/// Which resource is asked for first, and what is known of each: less than so many units are too few.
#[derive(Drop)]
pub(crate) struct Parts {
    first: usize,
    /// Whether it is asked for the least units that may be enough, and not for half of what is left.
    pub(crate) rises: bool,
    for_cost: Vec<u64>,
    for_units: Vec<u64>,
}

impl Parts {
    /// Nothing is known yet of so many resources.
    pub(crate) fn new(alloc: Global, first: usize, resources: usize) -> Result<Self, AllocError> {
        let for_cost = Vec::from_elem(alloc, 0, resources)?;
        let for_units = Vec::from_elem(alloc, 0, resources)?;
        Ok(Parts {
            first,
            rises: false,
            for_cost,
            for_units,
        })
    }

    /// Less than so many units of a resource are too few.
    fn floor(&self, aim: Aim, k: usize) -> u64 {
        let floors = match aim {
            Aim::Cost => &self.for_cost,
            Aim::Units => &self.for_units,
        };
        floors.get(k).copied().unwrap_or(u64::MAX)
    }

    /// From now on less than so many units of a resource are too few.
    fn raise(&mut self, aim: Aim, k: usize, floor: u64) {
        match aim {
            Aim::Cost => set(&mut self.for_cost, k, floor),
            Aim::Units => set(&mut self.for_units, k, floor),
        }
    }
}

/// Puts a number at a place of a row, if there is one.
fn set(row: &mut [u64], k: usize, number: u64) {
    if let Some(place) = row.get_mut(k) {
        *place = number;
    }
}

impl<P: OfProblem> Descent<P> {
    /// Asks for less of each resource, from the first one on, until each is known to need what the best draft has. False where
    /// one stays open. Where questions are not parted, nothing is asked.
    pub(crate) fn go_by_parts<N: OfProblem, O: Observer>(
        &mut self,
        search: &mut Search<N>,
        tasks: Tasks<'_>,
        observer: &O,
        aim: Aim,
    ) -> Result<bool, AllocError>
        requires are_of { AreTasksOf N.problem P.problem tasks }
        requires may { MayBeTold P.problem.network P.problem.terms O.may_hear }
    {
        let task = tasks.part;
        for _i in 0..u64::MAX {
            let Some((k, most)) = self.open_part(task, aim) else {
                break;
            };
            self.bound_for(task, aim, k);
            let x = task.net.job_count().saturating_add(k);
            let heard = self.ask(search, tasks, observer, x, most)?;
            self.unbound(task);
            match heard {
                Heard::Less => {}
                Heard::None => self.raise(aim, k, most.saturating_add(1)),
                Heard::Open => return Ok(false),
            }
        }
        Ok(true)
    }

    /// From now on less than so many units of a resource are too few.
    fn raise(&mut self, aim: Aim, k: usize, floor: u64) {
        if let Some(parts) = &mut self.parts {
            parts.raise(aim, k, floor);
        }
    }

    /// The resource that is asked for next, and how many units of it.
    fn open_part(&self, task: Task<'_>, aim: Aim) -> Option<(usize, u64)> {
        let parts = self.parts.as_ref()?;
        let best = self.best.as_ref()?;
        if matches!(aim, Aim::Cost) && self.costs_least(task) {
            return None;
        }
        let resources = task.net.resource_count();
        for turn in 0..resources {
            let k = parts.first.wrapping_add(turn).checked_rem(resources)?;
            let units = best.capacities.as_slice().get(k).copied()? as u64;
            let least = task.root.lower_at(task.net.job_count().saturating_add(k));
            let floor = parts.floor(aim, k).max(least);
            if floor < units {
                let left = units.saturating_sub(1).saturating_sub(floor);
                let half = if parts.rises { 0 } else { left / 2 };
                return Some((k, floor.saturating_add(half)));
            }
        }
        None
    }

    /// Whether nothing can cost less than the best draft: then a part that asks for less would be met by what costs as much.
    fn costs_least(&self, task: Task<'_>) -> bool {
        let x = task
            .net
            .job_count()
            .saturating_add(task.net.resource_count());
        self.value(task, x) <= task.root.lower_at(x)
    }

    /// Bounds what is still of interest as an aim has it: the cost, or the units of the resources before this one.
    fn bound_for(&mut self, task: Task<'_>, aim: Aim, k: usize) {
        let (jobs, resources) = (task.net.job_count(), task.net.resource_count());
        match aim {
            Aim::Cost => {
                let cost = self.value(task, jobs + resources);
                self.bound(jobs + resources, cost.saturating_sub(1));
            }
            Aim::Units => {
                for x in jobs..jobs.saturating_add(k) {
                    let units = self.value(task, x);
                    self.bound(x, units);
                }
            }
        }
    }

    /// The units of all resources are of interest again.
    fn unbound(&mut self, task: Task<'_>) {
        for x in task.net.job_count()..variable_count(task.net).saturating_sub(1) {
            self.bound(x, task.root.upper_at(x));
        }
    }
}
