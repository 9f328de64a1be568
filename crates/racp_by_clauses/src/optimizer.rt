//! Optima of an order and of parts of it.

ghost use Rattle.std.specs.Prelude.{IfOk, IfSome};
ghost use Rattle.racp_clauses.specs.Roots.{IsPartOf};
ghost use Rattle.racp_drafts.specs.Drafts.{IsDraft};
ghost use Rattle.racp_found.specs.Finds.{IsFound};
ghost use Rattle.racp_found.specs.Told.{MayBeTold};
ghost use Rattle.racp_by_clauses.specs.Optima.{AreAkin, AreTasksOf, IsFeasible, IsOptimum, IsTaskOf};

use crate::descent::Descent;
use crate::feasible::Feasible;
use crate::from_below::Below;
use crate::limits::Limits;
use crate::optimum::Optimum;
use crate::task::{Task, Tasks};
use crate::telling::tell_draft;
use racp_clauses::OfProblem;
use racp_drafts::{Draft, Effort, draft_of};
use racp_found::{Found, News, Observer, Wish};
use racp_learning::{Derivations, Search};
use std::alloc::AllocError;

/// Finds optima of the order of the problem that `N` names, and of parts of it: with shorter deadlines, or lower ceilings.
/// What it has learned of one serves the next.
#[derive(Drop)]
pub struct Optimizer<N: OfProblem> {
    pub(crate) search: Search<N>,
    pub(crate) limits: Limits,
    /// The search from below, once it has begun.
    pub(crate) below: Option<Below<N>>,
    /// In how many bytes what its clauses are derived from is kept, if it is; then those of the plan are all to be of one search.
    pub(crate) record_bytes: Option<usize>,
}

impl<N: OfProblem> Optimizer<N> {
    /// An optimizer that has learned nothing. The limits are those of each optimum, but for the bytes, which are for all.
    ///
    /// # Errors
    ///
    /// Memory was refused.
    pub fn new(whole: Task<'_>, limits: Limits) -> Result<Self, AllocError>
        requires { IsTaskOf N.problem whole }
    {
        let Task {
            alloc,
            net,
            order,
            root,
            ..
        } = whole;
        let search = Search::new(alloc, net, order, root, limits.seed, limits.bytes)?;
        Ok(Optimizer {
            search,
            limits,
            below: None,
            record_bytes: None,
        })
    }

    /// An optimizer that keeps what its clauses are derived from, in at most so many bytes, about.
    pub(crate) fn recording(
        whole: Task<'_>,
        limits: Limits,
        most_bytes: usize,
    ) -> Result<Self, AllocError>
        requires { IsTaskOf N.problem whole }
    {
        let mut optimizer: Optimizer<N> = Optimizer::new(whole, limits)?;
        optimizer.record_bytes = Some(most_bytes);
        match optimizer.search.record(whole.net, whole.root, most_bytes) {
            Ok(()) => Ok(optimizer),
            Err(refused) => {
                // By a call: else each part is dropped here.
                drop(optimizer);
                Err(refused)
            }
        }
    }

    /// What its clauses were derived from, and those of the search from below, as far as that was kept.
    pub(crate) fn into_derivations(self) -> (Option<Derivations>, Option<Derivations>) {
        let Optimizer { search, below, .. } = self;
        let of_below = match below {
            Some(below) => below.into_derivations(),
            None => None,
        };
        (search.into_derivations(), of_below)
    }

    /// The optimum of a part of the order, as `optimum_of` finds it; neither is known where the root bounds of the part do
    /// not lie within those of the whole.
    ///
    /// # Errors
    ///
    /// Memory was refused.
    pub fn optimum<P: OfProblem, O: Observer>(
        &mut self,
        whole: Task<'_>,
        part: Task<'_>,
        observer: &O,
    ) -> Result<Found, AllocError>
        requires whole { IsTaskOf N.problem whole }
        requires part { IsTaskOf P.problem part }
        requires akin { AreAkin P.problem N.problem }
        requires may { MayBeTold P.problem.network P.problem.terms O.may_hear }
        ensures { IfOk result (IsFound P.problem.network P.problem.terms) }
    {
        if !part.root.lies_within(whole.root) {
            return Ok(Found::Open);
        }
        let draft = first_draft::<P, O>(part, self.limits, observer)?;
        let Optimum { found, .. } = self.below::<P, O>(Tasks { whole, part }, draft, observer)?;
        Ok(found)
    }

    /// The optimum of a part of the order, where a draft may be known, with the floors.
    pub(crate) fn below<P: OfProblem, O: Observer>(
        &mut self,
        tasks: Tasks<'_>,
        draft: Option<Draft>,
        observer: &O,
    ) -> Result<Optimum, AllocError>
        requires are_of { AreTasksOf N.problem P.problem tasks }
        requires may { MayBeTold P.problem.network P.problem.terms O.may_hear }
        requires draft { IfSome draft (IsDraft P.problem.network P.problem.terms) }
        ensures { IfOk result (IsOptimum P.problem.network P.problem.terms) }
    {
        let mut descent: Descent<P> = Descent::new(tasks.part, 0, draft)?;
        self.search_in_stints::<P, O>(tasks, &mut descent, observer)?;
        descent.into_optimum(tasks.part)
    }

    /// The optimum of the order, after a first stint of the search from below and the first draft: so a bound is known before.
    pub(crate) fn from_first_stint<O: Observer>(
        &mut self,
        tasks: Tasks<'_>,
        observer: &O,
    ) -> Result<Found, AllocError>
        requires are_of { AreTasksOf N.problem N.problem tasks }
        requires may { MayBeTold N.problem.network N.problem.terms O.may_hear }
        ensures { IfOk result (IsFound N.problem.network N.problem.terms) }
    {
        self.begin_from_below::<O>(tasks, observer)?;
        let draft = first_draft::<N, O>(tasks.part, self.limits, observer)?;
        let Optimum { found, .. } = self.below::<N, O>(tasks, draft, observer)?;
        Ok(found)
    }

    /// Whether a part of the order has a plan at all: starts that fit, or that no capacities are enough; neither is known
    /// where the search gave up or was stopped, or the root bounds of the part do not lie within those of the whole. The
    /// observer is told lower bounds on the cost, and each draft that is found.
    ///
    /// # Errors
    ///
    /// Memory was refused.
    pub fn feasible<P: OfProblem, O: Observer>(
        &mut self,
        whole: Task<'_>,
        part: Task<'_>,
        observer: &O,
    ) -> Result<Feasible, AllocError>
        requires whole { IsTaskOf N.problem whole }
        requires part { IsTaskOf P.problem part }
        requires akin { AreAkin P.problem N.problem }
        requires may { MayBeTold P.problem.network P.problem.terms O.may_hear }
        ensures { IfOk result (IsFeasible P.problem.network P.problem.terms) }
    {
        if !part.root.lies_within(whole.root) {
            return Ok(Feasible::Unknown);
        }
        let mut descent: Descent<P> = Descent::new(part, self.limits.conflicts, None)?;
        descent.find_any::<N, O>(&mut self.search, Tasks { whole, part }, observer)?;
        descent.into_feasible(part)
    }
}

/// The first draft, of which the observer is told, after the least cost at the root.
pub(crate) fn first_draft<P: OfProblem, O: Observer>(
    task: Task<'_>,
    limits: Limits,
    observer: &O,
) -> Result<Option<Draft>, AllocError>
    requires is_of { IsTaskOf P.problem task }
    requires may { MayBeTold P.problem.network P.problem.terms O.may_hear }
    ensures { IfOk result (λ draft. IfSome draft (IsDraft P.problem.network P.problem.terms)) }
{
    let cost_place = task.net.job_count() + task.net.resource_count();
    observer.hear(News::Cost(task.root.lower_at(cost_place)));
    let effort = Effort {
        rounds: limits.rounds,
        seed: limits.seed,
    };
    let stop = Wish { observer };
    let draft = draft_of(task.alloc, task.net, task.order, task.window, effort, &stop)?;
    if let Some(draft) = &draft {
        tell_draft::<P, O>(draft, observer);
    }
    Ok(draft)
}
