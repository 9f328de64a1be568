//! The search for an optimum on one thread: from the best draft down, with stints for better drafts and from below.

ghost use Rattle.racp_found.specs.Told.{MayBeTold};
ghost use Rattle.racp_by_clauses.specs.Optima.{AreTasksOf, IsTaskOf};

use crate::descent::Descent;
use crate::from_below::Below;
use crate::optimizer::Optimizer;
use crate::stints::Stints;
use crate::task::Tasks;
use crate::telling::tell_work;
use racp_clauses::OfProblem;
use racp_found::Observer;
use std::alloc::AllocError;

/// What ends within so many conflicts is not asked from below.
const EASY: u64 = 300;

/// The search from below has one conflict for so many of the search from the best draft down.
const BELOW: u64 = 3;

/// Where it is recorded it has its turn before each so many of these.
const PIECE: u64 = 1_000;

impl<N: OfProblem> Optimizer<N> {
    /// Goes down, with stints of what makes drafts better, and of a search from below, as long as the least cost is not known.
    pub(crate) fn search_in_stints<P: OfProblem, O: Observer>(
        &mut self,
        tasks: Tasks<'_>,
        descent: &mut Descent<P>,
        observer: &O,
    ) -> Result<(), AllocError>
        requires are_of { AreTasksOf N.problem P.problem tasks }
        requires may { MayBeTold P.problem.network P.problem.terms O.may_hear }
    {
        let first = self.limits.conflicts.min(EASY);
        if !self.search_on::<P, O>(tasks, descent, observer, first)? {
            return Ok(());
        }
        let mut left = self.limits.conflicts.saturating_sub(first);
        if left == 0 {
            return Ok(());
        }
        descent.raise_by_halves::<N, O>(&mut self.search, tasks, observer)?;
        if self.record_bytes.is_none() {
            descent.raise_floors::<N, O>(&mut self.search, tasks, observer, EASY)?;
        }
        let mut stints = Stints::new(self.limits.seed);
        for _stint in 0..u64::MAX {
            let conflicts = stints.share(tasks.part, descent, left);
            if !self.search_in_pieces::<P, O>(tasks, descent, observer, conflicts)? {
                break;
            }
            tell_work::<P, O>(self.search.tally(), observer);
            left = left.saturating_sub(conflicts);
            if left == 0 || observer.is_to_stop() {
                break;
            }
            if !descent.is_cost_known() {
                let met = self.draft_on::<P, O>(tasks, descent, observer, &mut stints, left)?;
                left = left.saturating_sub(met);
                self.ask_beside::<P, O>(tasks, descent, observer, conflicts)?;
            }
        }
        Ok(())
    }

    /// The first stint of the search from below, where it is recorded.
    pub(crate) fn begin_from_below<O: Observer>(
        &mut self,
        tasks: Tasks<'_>,
        observer: &O,
    ) -> Result<(), AllocError>
        requires are_of { AreTasksOf N.problem N.problem tasks }
        requires may { MayBeTold N.problem.network N.problem.terms O.may_hear }
    {
        let mut nothing: Descent<N> = Descent::new(tasks.part, 0, None)?;
        self.ask_apart::<N, O>(tasks, &mut nothing, observer, EASY)
    }

    /// Goes down by so many conflicts at most, in pieces with the search from below between them where that is recorded and the
    /// least cost is not known. Whether there is something left to search for with more of them.
    fn search_in_pieces<P: OfProblem, O: Observer>(
        &mut self,
        tasks: Tasks<'_>,
        descent: &mut Descent<P>,
        observer: &O,
        conflicts: u64,
    ) -> Result<bool, AllocError>
        requires are_of { AreTasksOf N.problem P.problem tasks }
        requires may { MayBeTold P.problem.network P.problem.terms O.may_hear }
    {
        let mut left = conflicts;
        for _piece in 0..u64::MAX {
            if self.record_bytes.is_none() || descent.is_cost_known() || left <= PIECE {
                break;
            }
            self.ask_apart::<P, O>(tasks, descent, observer, PIECE)?;
            if !self.search_on::<P, O>(tasks, descent, observer, PIECE)? {
                return Ok(false);
            }
            left = left.saturating_sub(PIECE);
            if observer.is_to_stop() {
                return Ok(true);
            }
        }
        self.ask_apart::<P, O>(tasks, descent, observer, left)?;
        self.search_on::<P, O>(tasks, descent, observer, left)
    }

    /// A stint of what makes drafts better, and of questions about neighbourhoods, for so many conflicts at most. How many they met.
    fn draft_on<P: OfProblem, O: Observer>(
        &mut self,
        tasks: Tasks<'_>,
        descent: &mut Descent<P>,
        observer: &O,
        stints: &mut Stints,
        left: u64,
    ) -> Result<u64, AllocError>
        requires are_of { AreTasksOf N.problem P.problem tasks }
        requires may { MayBeTold P.problem.network P.problem.terms O.may_hear }
    {
        stints.work(tasks.part, descent, observer)?;
        stints.ask_near::<N, P, O>(&mut self.search, tasks, descent, observer, left)
    }

    /// A stint of the search from below where it is recorded, before so many conflicts of the search from the best draft down.
    fn ask_apart<P: OfProblem, O: Observer>(
        &mut self,
        tasks: Tasks<'_>,
        descent: &mut Descent<P>,
        observer: &O,
        conflicts: u64,
    ) -> Result<(), AllocError>
        requires are_of { AreTasksOf N.problem P.problem tasks }
        requires may { MayBeTold P.problem.network P.problem.terms O.may_hear }
    {
        if self.record_bytes.is_none() {
            return Ok(());
        }
        self.ask_from_below::<P, O>(tasks, descent, observer, conflicts)
    }

    /// A stint of the search from below where it is not recorded, after so many conflicts of the search from the best draft down.
    fn ask_beside<P: OfProblem, O: Observer>(
        &mut self,
        tasks: Tasks<'_>,
        descent: &mut Descent<P>,
        observer: &O,
        conflicts: u64,
    ) -> Result<(), AllocError>
        requires are_of { AreTasksOf N.problem P.problem tasks }
        requires may { MayBeTold P.problem.network P.problem.terms O.may_hear }
    {
        if self.record_bytes.is_some() {
            return Ok(());
        }
        self.ask_from_below::<P, O>(tasks, descent, observer, conflicts)
    }

    /// A stint of the search from below, beside so many conflicts of the search from the best draft down.
    fn ask_from_below<P: OfProblem, O: Observer>(
        &mut self,
        tasks: Tasks<'_>,
        descent: &mut Descent<P>,
        observer: &O,
        conflicts: u64,
    ) -> Result<(), AllocError>
        requires are_of { AreTasksOf N.problem P.problem tasks }
        requires may { MayBeTold P.problem.network P.problem.terms O.may_hear }
    {
        if descent.is_cost_known() {
            return Ok(());
        }
        if self.below.is_none() {
            let below: Below<N> = Below::new(tasks.whole, self.limits, self.record_bytes)?;
            self.below = Some(below);
        }
        match &mut self.below {
            Some(below) => below.work::<P, O>(tasks, descent, observer, conflicts / BELOW),
            None => Ok(()),
        }
    }

    /// Goes down by so many conflicts at most. Whether there is something left to search for with more of them.
    fn search_on<P: OfProblem, O: Observer>(
        &mut self,
        tasks: Tasks<'_>,
        descent: &mut Descent<P>,
        observer: &O,
        conflicts: u64,
    ) -> Result<bool, AllocError>
        requires are_of { AreTasksOf N.problem P.problem tasks }
        requires may { MayBeTold P.problem.network P.problem.terms O.may_hear }
    {
        let before = self.search.tally().conflicts;
        descent.left = conflicts;
        descent.go_down::<N, O>(&mut self.search, tasks, observer)?;
        let met = self.search.tally().conflicts.saturating_sub(before);
        Ok(conflicts <= met && !descent.is_finished(tasks.part))
    }
}
