//! One of several searches for one optimum.

ghost use Rattle.racp_found.specs.Told.{MayBeTold};
ghost use Rattle.racp_by_clauses.specs.Optima.{AreTasksOf};

use crate::by_resource::Parts;
use crate::common::Common;
use crate::costs::FROM_BELOW;
use crate::descent::Descent;
use crate::stints::Stints;
use crate::task::{Task, Tasks};
use crate::telling::{tell_draft, tell_work};
use racp_clauses::OfProblem;
use racp_drafts::Draft;
use racp_found::Observer;
use racp_learning::Search;
use racp_model::Starts;
use std::alloc::AllocError;
use std::sync::Wait;

/// Searches tell each other what they have learned once in so many conflicts.
const SLICE: u64 = 250;

/// The search in this seat, the fourth one, asks for the units of a resource from their least on.
const RISING: usize = 3;

/// A search among others.
#[derive(Drop)]
pub(crate) struct Worker<N: OfProblem> {
    pub(crate) search: Search<N>,
    pub(crate) descent: Descent<N>,
    pub(crate) seat: usize,
    /// Up to this place it has read what others have shown.
    pub(crate) read: usize,
    /// It has shown the others that everything costs at least so much.
    pub(crate) shown: u64,
    stints: Stints,
    /// So many conflicts are left before the next stint.
    until_stint: u64,
}

impl<N: OfProblem> Worker<N> {
    /// A search that has learned nothing yet, from a draft on.
    pub(crate) fn new(
        common: &Common<'_, N>,
        seat: usize,
        draft: Option<Draft>,
    ) -> Result<Self, AllocError> {
        let Task {
            alloc,
            net,
            order,
            root,
            ..
        } = common.task;
        let descent = parted(common, seat, draft)?;
        let seed = common.limits.seed.wrapping_add(seat as u64);
        let mut search = Search::new(alloc, net, order, root, seed, common.limits.bytes)?;
        search.share();
        if seat == FROM_BELOW {
            search.look_at_energies();
            search.roam();
        }
        let stints = Stints::new(seed);
        Ok(Worker {
            search,
            descent,
            seat,
            read: 0,
            shown: 0,
            until_stint: stints.conflicts(common.task),
            stints,
        })
    }

    /// What it has found. What it has learned is gone.
    pub(crate) fn into_descent(self) -> Descent<N> {
        let Worker {
            search,
            descent,
            ..
        } = self;
        drop(search);
        descent
    }

    /// Searches, and tells the others and learns from them, until it has finished, or is to stop.
    pub(crate) fn work<O: Observer, R: Wait>(
        &mut self,
        rt: &R,
        common: &Common<'_, N>,
        observer: &O,
    ) -> Result<(), AllocError>
        requires may { MayBeTold N.problem.network N.problem.terms O.may_hear }
    {
        let tasks = common.tasks();
        let mut left = common.limits.conflicts;
        for _i in 0..u64::MAX {
            if left == 0 || observer.is_to_stop() {
                break;
            }
            let lost = self.search.tally().lost;
            let slice = left.min(SLICE);
            self.go_on(tasks, observer, slice)?;
            tell_work::<N, O>(self.search.tally(), observer);
            if self.descent.is_finished(common.task) {
                common.finish();
            }
            let is_lost = lost.saturating_add(slice) <= self.search.tally().lost;
            left = if is_lost {
                0
            } else {
                left.saturating_sub(slice)
            };
            self.tell(rt, common, observer)?;
            let met = self.draft(tasks, observer, slice, left)?;
            left = left.saturating_sub(met);
        }
        Ok(())
    }

    /// Counts conflicts, and makes drafts better where it is time for it, as long as the least cost is not known. For that it meets
    /// at most so many as are left, and tells how many.
    fn draft<O: Observer>(
        &mut self,
        tasks: Tasks<'_>,
        observer: &O,
        conflicts: u64,
        left: u64,
    ) -> Result<u64, AllocError>
        requires are_of { AreTasksOf N.problem N.problem tasks }
        requires may { MayBeTold N.problem.network N.problem.terms O.may_hear }
    {
        self.until_stint = self.until_stint.saturating_sub(conflicts);
        if self.until_stint > 0 || self.descent.is_cost_known() || observer.is_to_stop() {
            return Ok(0);
        }
        let (search, descent) = (&mut self.search, &mut self.descent);
        self.stints.work(tasks.part, descent, observer)?;
        let met = self
            .stints
            .ask_near::<N, N, O>(search, tasks, descent, observer, left)?;
        self.until_stint = self.stints.conflicts(tasks.part);
        Ok(met)
    }

    /// Tells the others what was learned and found, and learns from them.
    pub(crate) fn tell<O: Observer, R: Wait>(
        &mut self,
        rt: &R,
        common: &Common<'_, N>,
        observer: &O,
    ) -> Result<(), AllocError>
        requires may { MayBeTold N.problem.network N.problem.terms O.may_hear }
    {
        common.show(rt, self.seat, &mut self.search);
        self.show_cost(rt, common)?;
        let from = self.read;
        self.read = common.read(self.seat, from, &mut self.search)?;
        self.learn_costs(common, observer, from)?;
        match common.better(rt, &self.descent.best)? {
            Some(draft) => self.take(common, observer, draft.starts),
            None => Ok(()),
        }
    }

    /// Takes starts that another search has found as the best draft.
    fn take<O: Observer>(
        &mut self,
        common: &Common<'_, N>,
        observer: &O,
        starts: Starts,
    ) -> Result<(), AllocError>
        requires may { MayBeTold N.problem.network N.problem.terms O.may_hear }
    {
        let Task {
            alloc,
            net,
            order,
            ..
        } = common.task;
        if let Some(draft) = Draft::of_starts(alloc, net, order, starts)? {
            tell_draft::<N, O>(&draft, observer);
            self.descent.best = Some(draft);
        }
        Ok(())
    }
}

/// A descent from a draft on, for the search in a seat, whose questions are parted by resources.
fn parted<N: OfProblem>(
    common: &Common<'_, N>,
    seat: usize,
    draft: Option<Draft>,
) -> Result<Descent<N>, AllocError> {
    let Task { alloc, net, .. } = common.task;
    let mut parts = Parts::new(alloc, seat, net.resource_count())?;
    parts.rises = seat == RISING;
    let mut descent = Descent::new(common.task, common.limits.conflicts, draft)?;
    descent.parts = Some(parts);
    Ok(descent)
}
