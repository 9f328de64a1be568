//! What is asked on the way down.

ghost use Rattle.racp_clauses.specs.Roots.{IsPartOf};
ghost use Rattle.racp_clauses.specs.Solutions.{HasPlaces};
ghost use Rattle.racp_found.specs.Told.{MayBeTold};
ghost use Rattle.racp_by_clauses.specs.Optima.{AreTasksOf, IsTaskOf};

use crate::descent::Descent;
use crate::places::{value_of, variable_count};
use crate::questions::bounds_of;
use crate::taken::taken_over;
use crate::task::{Task, Tasks};
use crate::telling::{tell_draft, tell_work};
use racp_clauses::{Clause, Domain, OfProblem};
use racp_drafts::Draft;
use racp_found::{Observer, Wish};
use racp_learning::{Reason, Search, Told};
use racp_model::Starts;
use std::alloc::AllocError;

/// The observer is told what was done once in so many conflicts.
const SLICE: u64 = 1_000;

/// What comes of a question.
#[derive(Clone, Copy)]
pub(crate) enum Heard {
    /// The best draft is a better one.
    Less,
    /// There is nothing less; the clause that shows it is the last one.
    None,
    /// Nothing is known.
    Open,
}

impl<P: OfProblem> Descent<P> {
    /// Asks whether the variable at a place can be at most so much.
    pub(crate) fn ask<N: OfProblem, O: Observer>(
        &mut self,
        search: &mut Search<N>,
        tasks: Tasks<'_>,
        observer: &O,
        x: usize,
        most: u64,
    ) -> Result<Heard, AllocError>
        requires are_of { AreTasksOf N.problem P.problem tasks }
        requires may { MayBeTold P.problem.network P.problem.terms O.may_hear }
    {
        self.bound(x, most);
        match self.told(search, tasks, observer)? {
            Told::Found(starts, _) => self.better(tasks.part, observer, starts, x, most),
            Told::Refuted(clause) => self.take(tasks.part, clause),
            Told::Open(_) => Ok(Heard::Open),
        }
    }

    /// Takes over a clause of the whole order as the last one, if it can be.
    fn take<N: OfProblem>(&mut self, part: Task<'_>, clause: Clause<N>) -> Result<Heard, AllocError>
        requires of_part { IsTaskOf P.problem part }
        requires is_part { IsPartOf P.problem N.problem }
    {
        self.last = taken_over(part, clause)?;
        Ok(if self.last.is_some() {
            Heard::None
        } else {
            Heard::Open
        })
    }

    /// What the search tells of whatever is still of interest.
    pub(crate) fn told<N: OfProblem, O: Observer>(
        &mut self,
        search: &mut Search<N>,
        tasks: Tasks<'_>,
        observer: &O,
    ) -> Result<Told<Clause<N>>, AllocError>
        requires are_of { AreTasksOf N.problem P.problem tasks }
        requires may { MayBeTold P.problem.network P.problem.terms O.may_hear }
    {
        let Task {
            alloc,
            net,
            root,
            ..
        } = tasks.part;
        let bounds = bounds_of(alloc, root, variable_count(net), &self.most)?;
        self.ask_through(search, tasks.whole, observer, &bounds)
    }

    /// Asks whether something lies within bounds, and tells the observer from time to time what was done.
    fn ask_through<N: OfProblem, O: Observer>(
        &mut self,
        search: &mut Search<N>,
        whole: Task<'_>,
        observer: &O,
        bounds: &Domain,
    ) -> Result<Told<Clause<N>>, AllocError>
        requires is_of { IsTaskOf N.problem whole }
        requires places { HasPlaces N.problem.network bounds.now }
        requires may { MayBeTold P.problem.network P.problem.terms O.may_hear }
    {
        for _i in 0..u64::MAX {
            match self.ask_on(search, whole, observer, bounds)? {
                Told::Open(Reason::Budget) if self.left > 0 => {
                    tell_work::<P, O>(search.tally(), observer);
                }
                told => return Ok(told),
            }
        }
        Ok(Told::Open(Reason::Budget))
    }

    /// Asks whether something lies within bounds, for some of the conflicts that are left.
    fn ask_on<N: OfProblem, O: Observer>(
        &mut self,
        search: &mut Search<N>,
        whole: Task<'_>,
        observer: &O,
        bounds: &Domain,
    ) -> Result<Told<Clause<N>>, AllocError>
        requires is_of { IsTaskOf N.problem whole }
        requires places { HasPlaces N.problem.network bounds.now }
    {
        let before = search.tally().conflicts;
        let conflicts = self.left.min(SLICE);
        let stop = Wish { observer };
        let told = search.ask(whole.net, whole.order, bounds, conflicts, &stop)?;
        let met = search.tally().conflicts.saturating_sub(before);
        // Clauses were lost if the search gave up before.
        let is_lost = met < conflicts && matches!(told, Told::Open(Reason::Budget));
        self.left = if is_lost {
            0
        } else {
            self.left.saturating_sub(met)
        };
        Ok(told)
    }

    /// Takes starts as the best draft, if the variable at a place is at most so much in it.
    fn better<O: Observer>(
        &mut self,
        task: Task<'_>,
        observer: &O,
        starts: Starts,
        x: usize,
        most: u64,
    ) -> Result<Heard, AllocError>
        requires is_of { IsTaskOf P.problem task }
        requires may { MayBeTold P.problem.network P.problem.terms O.may_hear }
    {
        let Some(draft) = Draft::of_starts(task.alloc, task.net, task.order, starts)? else {
            return Ok(Heard::Open);
        };
        if most < value_of(task.net, &draft, x) {
            return Ok(Heard::Open);
        }
        if task.net.job_count() <= x {
            tell_draft::<P, O>(&draft, observer);
        }
        self.best = Some(draft);
        Ok(Heard::Less)
    }
}
