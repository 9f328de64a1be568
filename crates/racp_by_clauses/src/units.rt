//! What units of each resource there are at least, asked from the floors on.
//!
//! Where a run is stopped, it tells floors: units of each resource that all capacities have which are enough. Short questions raise
//! them: is there a schedule with no more units of a resource than its floor, whatever it needs of the others?

ghost use Rattle.racp_clauses.specs.Roots.{IsPartOf};
ghost use Rattle.racp_found.specs.Told.{MayBeTold};
ghost use Rattle.racp_by_clauses.specs.Optima.{AreTasksOf, IsTaskOf};

use crate::descent::Descent;
use crate::taken::taken_over;
use crate::task::{Task, Tasks};
use racp_clauses::{Clause, OfProblem};
use racp_found::{News, Observer};
use racp_learning::{Search, Told};
use std::alloc::{AllocError, Global};

/// The questions of a stint about one resource have at most so many conflicts.
const EACH: u64 = 100;

/// Those about all resources have one conflict for so many of those about the cost.
const SHARE: u64 = 4;

/// A resource passes over at most so many of its turns.
const MOST_PASSED: u64 = 1_000;

/// When a resource is asked for.
#[derive(Clone, Copy)]
struct Turn {
    /// Whether no more units are needed than its floor: then it is not asked for any more.
    is_enough: bool,
    /// So many of its turns it passes over, twice as many each time that a question stays open.
    passes: u64,
    /// So many of these are left.
    left: u64,
}

/// Whose turn it is to be asked for.
#[derive(Drop)]
pub(crate) struct Turns {
    next: usize,
    turns: Vec<Turn>,
}

impl Turns {
    /// The first of so many resources is the next one.
    pub(crate) fn new(alloc: Global, resources: usize) -> Result<Self, AllocError> {
        let turn = Turn {
            is_enough: false,
            passes: 0,
            left: 0,
        };
        let turns = Vec::from_elem(alloc, turn, resources)?;
        Ok(Turns { next: 0, turns })
    }

    /// The next resource that is asked for, if there is one.
    fn take(&mut self) -> Option<usize> {
        let resources = self.turns.len();
        for _i in 0..resources {
            let k = self.next.checked_rem(resources)?;
            self.next = k.wrapping_add(1);
            let turn = self.turns.get_mut(k)?;
            if !turn.is_enough && turn.left == 0 {
                return Some(k);
            }
            turn.left = turn.left.saturating_sub(1);
        }
        None
    }

    /// No more units of a resource are needed than its floor.
    fn settle(&mut self, k: usize) {
        if let Some(turn) = self.turns.get_mut(k) {
            turn.is_enough = true;
        }
    }

    /// A question about a resource stays open.
    fn delay(&mut self, k: usize) {
        if let Some(turn) = self.turns.get_mut(k) {
            turn.passes = turn
                .passes
                .saturating_mul(2)
                .saturating_add(1)
                .min(MOST_PASSED);
            turn.left = turn.passes;
        }
    }
}

/// What comes of a question about units.
#[derive(Clone, Copy)]
enum Asked {
    /// More are needed.
    More,
    /// No more are.
    Enough,
    /// Nothing is known.
    Open,
}

impl<P: OfProblem> Descent<P> {
    /// Asks of one resource after the other whether its floor is enough, beside so many conflicts.
    pub(crate) fn raise_floors<N: OfProblem, O: Observer>(
        &mut self,
        search: &mut Search<N>,
        tasks: Tasks<'_>,
        observer: &O,
        conflicts: u64,
    ) -> Result<(), AllocError>
        requires are_of { AreTasksOf N.problem P.problem tasks }
        requires may { MayBeTold P.problem.network P.problem.terms O.may_hear }
    {
        let before = search.tally().conflicts;
        let end = before.saturating_add(conflicts / SHARE);
        for turns in (0..tasks.part.net.resource_count() as u64).rev() {
            let left = end.saturating_sub(search.tally().conflicts);
            if left == 0 || observer.is_to_stop() {
                break;
            }
            let Some(k) = self.turns.take() else {
                break;
            };
            let each = (left / turns.saturating_add(1)).clamp(1, EACH);
            self.raise_floor(search, tasks, observer, k, each)?;
        }
        Ok(())
    }

    /// Asks for more units of a resource, as long as so many conflicts refute that its floor is enough.
    fn raise_floor<N: OfProblem, O: Observer>(
        &mut self,
        search: &mut Search<N>,
        tasks: Tasks<'_>,
        observer: &O,
        k: usize,
        conflicts: u64,
    ) -> Result<(), AllocError>
        requires are_of { AreTasksOf N.problem P.problem tasks }
        requires may { MayBeTold P.problem.network P.problem.terms O.may_hear }
    {
        let end = search.tally().conflicts.saturating_add(conflicts);
        for _i in 0..u64::MAX {
            let left = end.saturating_sub(search.tally().conflicts);
            if left == 0 || observer.is_to_stop() {
                break;
            }
            match self.ask_units(search, tasks, observer, k, left)? {
                Asked::More => {}
                Asked::Enough => {
                    self.turns.settle(k);
                    break;
                }
                Asked::Open => {
                    self.turns.delay(k);
                    break;
                }
            }
        }
        Ok(())
    }

    /// Asks whether the floor of a resource is enough, by so many conflicts. A floor that is raised is told.
    fn ask_units<N: OfProblem, O: Observer>(
        &mut self,
        search: &mut Search<N>,
        tasks: Tasks<'_>,
        observer: &O,
        k: usize,
        conflicts: u64,
    ) -> Result<Asked, AllocError>
        requires are_of { AreTasksOf N.problem P.problem tasks }
        requires may { MayBeTold P.problem.network P.problem.terms O.may_hear }
    {
        let task = tasks.part;
        let (jobs, resources) = (task.net.job_count(), task.net.resource_count());
        let (x, cost) = (jobs.saturating_add(k), jobs.saturating_add(resources));
        let (floor, left) = (self.floor(k), self.left);
        self.left = conflicts;
        self.bound(cost, task.root.upper_at(cost));
        self.bound(x, floor);
        let told = self.told(search, tasks, observer)?;
        self.left = left;
        self.bound(x, task.root.upper_at(x));
        match told {
            Told::Refuted(clause) => self.take_floor::<N, O>(task, observer, clause),
            Told::Found(_, _) => Ok(Asked::Enough),
            Told::Open(_) => Ok(Asked::Open),
        }
    }

    /// The floor of a resource.
    fn floor(&self, k: usize) -> u64 {
        self.floors.at(k)
    }

    /// Takes over a clause, and tells the floors if it raises one.
    fn take_floor<N: OfProblem, O: Observer>(
        &mut self,
        task: Task<'_>,
        observer: &O,
        clause: Clause<N>,
    ) -> Result<Asked, AllocError>
        requires is_of { IsTaskOf P.problem task }
        requires is_part { IsPartOf P.problem N.problem }
        requires may { MayBeTold P.problem.network P.problem.terms O.may_hear }
    {
        let Some(clause) = taken_over::<N, P>(task, clause)? else {
            return Ok(Asked::Open);
        };
        if !self.floors.raise(task, &clause) {
            return Ok(Asked::Open);
        }
        let floors = self.floors.to_capacities(task.alloc)?;
        observer.hear(News::Floors(&floors));
        Ok(Asked::More)
    }
}
