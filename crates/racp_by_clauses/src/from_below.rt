//! What everything costs at least, asked from below.
//!
//! A question about a cost far below that of the best draft is refuted by fewer conflicts than one about a cost just below it,
//! and what is refuted is a bound to be told when time is up. First, questions halve what is left between the least cost and the
//! best draft, as long as few conflicts refute them. Later a search of its own asks from the least cost on, in steps that grow
//! while few conflicts refute them.

ghost use Rattle.racp_found.specs.Told.{MayBeTold};
ghost use Rattle.racp_by_clauses.specs.Optima.{AreTasksOf, IsTaskOf};

use crate::asking::Heard;
use crate::descent::Descent;
use crate::limits::Limits;
use crate::task::{Task, Tasks};
use racp_clauses::{Clause, Derivation, OfProblem};
use racp_found::Observer;
use racp_learning::{Derivations, Search};
use std::alloc::AllocError;

/// So many conflicts are few.
const FEW: u64 = 20;

/// Its clauses take one part in so many of all bytes.
const SHARE: u64 = 8;

/// What it derives its clauses from, where that is kept, takes one part in so many of the bytes for the other search.
const RECORD_SHARE: usize = 4;

/// A search of its own for what everything costs at least, beside the search from the best draft down.
#[derive(Drop)]
pub(crate) struct Below<N: OfProblem> {
    search: Search<N>,
    /// What it has shown, where what its clauses are derived from is kept: then the other search does not rest on it, whose clauses
    /// are all to be its own.
    apart: Option<u64>,
}

impl<N: OfProblem> Below<N> {
    /// A search that has learned nothing, whose clauses take a share of the bytes. What they are derived from is kept in a share
    /// of so many bytes, if there are such.
    pub(crate) fn new(
        whole: Task<'_>,
        limits: Limits,
        record_bytes: Option<usize>,
    ) -> Result<Self, AllocError>
        requires { IsTaskOf N.problem whole }
    {
        let Task {
            alloc,
            net,
            order,
            root,
            ..
        } = whole;
        let seed = limits.seed.wrapping_add(1);
        let mut search = Search::new(alloc, net, order, root, seed, limits.bytes / SHARE)?;
        search.look_at_energies();
        search.roam();
        let mut below = Below {
            search,
            apart: None,
        };
        if let Some(bytes) = record_bytes {
            below.search.record(net, root, bytes / RECORD_SHARE)?;
            below.apart = Some(root.lower_at(cost_place(whole)));
        }
        Ok(below)
    }

    /// A stint of so many conflicts.
    pub(crate) fn work<P: OfProblem, O: Observer>(
        &mut self,
        tasks: Tasks<'_>,
        descent: &mut Descent<P>,
        observer: &O,
        conflicts: u64,
    ) -> Result<(), AllocError>
        requires are_of { AreTasksOf N.problem P.problem tasks }
        requires may { MayBeTold P.problem.network P.problem.terms O.may_hear }
    {
        let Some(shown) = self.apart else {
            let search = &mut self.search;
            descent.raise_from_below::<N, O>(search, tasks, observer, conflicts)?;
            return descent.raise_floors::<N, O>(search, tasks, observer, conflicts);
        };
        let least = shown.max(descent.least_cost);
        if descent.most_cost(tasks.part) < least {
            return Ok(());
        }
        let mut apart: Descent<P> = Descent::new(tasks.part, 0, None)?;
        apart.least_cost = least;
        apart.raise_from_below::<N, O>(&mut self.search, tasks, observer, conflicts)?;
        self.apart = Some(apart.least_cost);
        Ok(())
    }

    /// What its clauses were derived from, if that was kept.
    pub(crate) fn into_derivations(self) -> Option<Derivations> {
        let Below { search, .. } = self;
        search.into_derivations()
    }
}

impl<P: OfProblem> Descent<P> {
    /// Halves what is left between the least cost and the best draft, as long as few conflicts tell which half it is.
    pub(crate) fn raise_by_halves<N: OfProblem, O: Observer>(
        &mut self,
        search: &mut Search<N>,
        tasks: Tasks<'_>,
        observer: &O,
    ) -> Result<(), AllocError>
        requires are_of { AreTasksOf N.problem P.problem tasks }
        requires may { MayBeTold P.problem.network P.problem.terms O.may_hear }
    {
        if self.is_cost_known() {
            return Ok(());
        }
        let mut most = self.most_cost(tasks.part);
        for _i in 0..u64::BITS {
            if most <= self.least_cost || observer.is_to_stop() {
                break;
            }
            let half = self
                .least_cost
                .saturating_add(most.saturating_sub(self.least_cost) / 2);
            if !self.is_above(search, tasks, observer, half.saturating_sub(1), FEW)? {
                most = half.saturating_sub(1).min(self.most_cost(tasks.part));
            }
        }
        Ok(())
    }

    /// Asks from the least cost on, for so many conflicts. What few conflicts refute is asked in growing steps.
    pub(crate) fn raise_from_below<N: OfProblem, O: Observer>(
        &mut self,
        search: &mut Search<N>,
        tasks: Tasks<'_>,
        observer: &O,
        conflicts: u64,
    ) -> Result<(), AllocError>
        requires are_of { AreTasksOf N.problem P.problem tasks }
        requires may { MayBeTold P.problem.network P.problem.terms O.may_hear }
    {
        let end = search.tally().conflicts.saturating_add(conflicts);
        let mut step = 0;
        for _i in 0..u64::MAX {
            let before = search.tally().conflicts;
            let left = end.saturating_sub(before);
            let most = self.least_cost.saturating_add(step);
            if left == 0 || observer.is_to_stop() || self.most_cost(tasks.part) < most {
                break;
            }
            let few = if step == 0 { left } else { left.min(FEW) };
            let is_above = self.is_above(search, tasks, observer, most, few)?;
            let met = search.tally().conflicts.saturating_sub(before);
            if !is_above && step == 0 {
                break;
            }
            step = if is_above && met <= FEW {
                step.saturating_mul(2).saturating_add(1)
            } else {
                0
            };
        }
        Ok(())
    }

    /// Whether everything is shown to cost more than so much, by so many conflicts at most.
    fn is_above<N: OfProblem, O: Observer>(
        &mut self,
        search: &mut Search<N>,
        tasks: Tasks<'_>,
        observer: &O,
        most: u64,
        conflicts: u64,
    ) -> Result<bool, AllocError>
        requires are_of { AreTasksOf N.problem P.problem tasks }
        requires may { MayBeTold P.problem.network P.problem.terms O.may_hear }
    {
        let task = tasks.part;
        let x = cost_place(task);
        let left = self.left;
        self.left = conflicts;
        let heard = self.ask(search, tasks, observer, x, most)?;
        self.left = left;
        self.bound(x, task.root.upper_at(x));
        if !matches!(heard, Heard::None) {
            return Ok(false);
        }
        self.least_cost = most.saturating_add(1);
        self.close_last(task, observer)?;
        Ok(true)
    }

    /// Takes over a clause of another search, if it shows that everything costs more than is known here.
    pub(crate) fn learn_cost<O: Observer>(
        &mut self,
        task: Task<'_>,
        observer: &O,
        clause: &Clause<P>,
    ) -> Result<(), AllocError>
        requires is_of { IsTaskOf P.problem task }
        requires may { MayBeTold P.problem.network P.problem.terms O.may_hear }
    {
        let Some(least) = clause.least_cost(task.net) else {
            return Ok(());
        };
        if least <= self.least_cost {
            return Ok(());
        }
        let Some(own) = copy_of_clause(task, clause)? else {
            return Ok(());
        };
        self.least_cost = least;
        self.close(task, observer, own)
    }

    /// Whether the least cost is not known, and what is asked from below can raise what is known of it.
    pub(crate) fn is_cost_open(&self, task: Task<'_>) -> bool {
        !self.is_cost_known() && self.least_cost <= self.most_cost(task)
    }

    /// What is still of interest costs at most so much.
    pub(crate) fn most_cost(&self, task: Task<'_>) -> u64 {
        self.value(task, cost_place(task)).saturating_sub(1)
    }
}

/// The place of the cost.
fn cost_place(task: Task<'_>) -> usize {
    task.net
        .job_count()
        .saturating_add(task.net.resource_count())
}

/// A copy of a clause.
pub(crate) fn copy_of_clause<N: OfProblem>(
    task: Task<'_>,
    clause: &Clause<N>,
) -> Result<Option<Clause<N>>, AllocError>
    requires { IsTaskOf N.problem task }
{
    let mut derivation: Derivation<N> = Derivation::new(task.alloc, task.root)?;
    for &literal in clause.literals() {
        derivation.suppose(literal)?;
    }
    derivation.clause(clause);
    derivation.finish(task.alloc)
}
