//! From the best solution that is known down to the least one, variable by variable.

ghost use Rattle.racp_found.specs.Told.{MayBeTold};
ghost use Rattle.racp_by_clauses.specs.Optima.{AreTasksOf, IsTaskOf};

use crate::asking::Heard;
use crate::by_resource::{Aim, Parts};
use crate::floors::Floors;
use crate::places::{place_in_turn, value_of, variable_count};
use crate::questions::uppers;
use crate::serial::serial_starts;
use crate::task::{Task, Tasks};
use crate::units::Turns;
use racp_clauses::{Clause, OfProblem};
use racp_drafts::Draft;
use racp_found::{News, Observer};
use racp_learning::Search;
use std::alloc::AllocError;

/// The best draft that is known, and the clauses that show that nothing is less.
#[derive(Drop)]
pub(crate) struct Descent<P: OfProblem> {
    pub(crate) best: Option<Draft>,
    /// What each variable is at most in whatever is still of interest.
    pub(crate) most: Vec<u64>,
    pub(crate) clauses: Vec<Clause<P>>,
    /// The clause of the last question that was refuted, if it is still of use.
    pub(crate) last: Option<Clause<P>>,
    /// How many conflicts are left.
    pub(crate) left: u64,
    /// For how many variables nothing less is left.
    settled: usize,
    /// How questions are parted by resources, if they are.
    pub(crate) parts: Option<Parts>,
    /// What everything costs at least, as far as it is shown.
    pub(crate) least_cost: u64,
    /// What all capacities that are enough have at least, as far as it is shown.
    pub(crate) floors: Floors<P>,
    /// Whose floor is asked for next.
    pub(crate) turns: Turns,
}

impl<P: OfProblem> Descent<P> {
    /// From a draft down, if one is known, by so many conflicts at most.
    pub(crate) fn new(
        task: Task<'_>,
        conflicts: u64,
        best: Option<Draft>,
    ) -> Result<Self, AllocError>
        requires { IsTaskOf P.problem task }
    {
        let most = uppers(task)?;
        let turns = Turns::new(task.alloc, task.net.resource_count())?;
        let floors = Floors::new(task)?;
        Ok(Descent {
            best,
            most,
            clauses: Vec::new(task.alloc),
            last: None,
            left: conflicts,
            settled: 0,
            parts: None,
            least_cost: task
                .root
                .lower_at(task.net.job_count() + task.net.resource_count()),
            floors,
            turns,
        })
    }

    /// Whether all is known that there is to know.
    pub(crate) fn is_finished(&self, task: Task<'_>) -> bool {
        match &self.best {
            Some(_) => variable_count(task.net) <= self.settled,
            None => 0 < self.settled,
        }
    }

    /// Whether it is known that nothing costs less than the best draft.
    pub(crate) fn is_cost_known(&self) -> bool {
        0 < self.settled
    }

    /// Goes down by each variable in turn, as far as nothing stays open; from where it was left, if it was.
    pub(crate) fn go_down<N: OfProblem, O: Observer>(
        &mut self,
        search: &mut Search<N>,
        tasks: Tasks<'_>,
        observer: &O,
    ) -> Result<(), AllocError>
        requires are_of { AreTasksOf N.problem P.problem tasks }
        requires may { MayBeTold P.problem.network P.problem.terms O.may_hear }
    {
        let net = tasks.part.net;
        let resources = net.resource_count();
        for turn in self.settled..variable_count(net) {
            if turn == resources + 1 {
                self.take_serial(tasks.part)?;
            }
            if turn < 2 && !self.go_by_parts(search, tasks, observer, aim_of(turn))? {
                break;
            }
            if !self.settle(search, tasks, observer, place_in_turn(net, turn))? {
                break;
            }
            self.settled = turn + 1;
            if self.best.is_none() {
                break;
            }
        }
        Ok(())
    }

    /// Takes the starts of a serial schedule within the capacities of the best draft, if they are less.
    fn take_serial(&mut self, task: Task<'_>) -> Result<(), AllocError>
        requires { IsTaskOf P.problem task }
    {
        let Some(best) = &self.best else {
            return Ok(());
        };
        let Some(starts) = serial_starts(task, best.capacities.as_slice())? else {
            return Ok(());
        };
        let Some(draft) = Draft::of_starts(task.alloc, task.net, task.order, starts)? else {
            return Ok(());
        };
        let is_same = draft.capacities.as_slice() == best.capacities.as_slice();
        if is_same && draft.starts.as_slice() < best.starts.as_slice() {
            self.best = Some(draft);
        }
        Ok(())
    }

    /// Finds the least value of the variable at a place, with no more of those before it. False where it stays open.
    fn settle<N: OfProblem, O: Observer>(
        &mut self,
        search: &mut Search<N>,
        tasks: Tasks<'_>,
        observer: &O,
        x: usize,
    ) -> Result<bool, AllocError>
        requires are_of { AreTasksOf N.problem P.problem tasks }
        requires may { MayBeTold P.problem.network P.problem.terms O.may_hear }
    {
        let task = tasks.part;
        let mut least = self.least_value(task, x);
        self.last = None;
        for turn in 0..u64::MAX {
            let value = self.value(task, x);
            if value <= least {
                break;
            }
            let most = below(least, value, is_halved(task, x, turn));
            match self.ask(search, tasks, observer, x, most)? {
                Heard::Less => {}
                Heard::None => least = most.saturating_add(1),
                Heard::Open => return Ok(false),
            }
        }
        let value = self.value(task, x);
        self.bound(x, value);
        self.close_last(task, observer)?;
        Ok(true)
    }

    /// Keeps the clause of the last question that was refuted, if there is one: it shows that nothing is less.
    pub(crate) fn close_last<O: Observer>(
        &mut self,
        task: Task<'_>,
        observer: &O,
    ) -> Result<(), AllocError>
        requires is_of { IsTaskOf P.problem task }
        requires may { MayBeTold P.problem.network P.problem.terms O.may_hear }
    {
        match self.last.take() {
            Some(clause) => self.close(task, observer, clause),
            None => Ok(()),
        }
    }

    /// Keeps a clause that shows that nothing is less.
    pub(crate) fn close<O: Observer>(
        &mut self,
        task: Task<'_>,
        observer: &O,
        clause: Clause<P>,
    ) -> Result<(), AllocError>
        requires is_of { IsTaskOf P.problem task }
        requires may { MayBeTold P.problem.network P.problem.terms O.may_hear }
    {
        if let Some(least) = clause.least_cost(task.net) {
            observer.hear(News::Cost(least));
        }
        self.clauses.push(clause)?;
        Ok(())
    }

    /// The value of the variable at a place in the best draft; where there is none, one more than it can be.
    pub(crate) fn value(&self, task: Task<'_>, x: usize) -> u64 {
        match &self.best {
            Some(draft) => value_of(task.net, draft, x),
            None => task.root.upper_at(x).saturating_add(1),
        }
    }

    /// What the variable at a place is at least, as far as it is known: at the root, and of the cost also what is shown.
    fn least_value(&self, task: Task<'_>, x: usize) -> u64 {
        let least = task.root.lower_at(x);
        if x < task.net.job_count() + task.net.resource_count() {
            least
        } else {
            least.max(self.least_cost)
        }
    }

    /// From now on the variable at a place is at most so much.
    pub(crate) fn bound(&mut self, x: usize, most: u64) {
        if let Some(place) = self.most.get_mut(x) {
            *place = most;
        }
    }
}

/// What the parts of a question ask for before its turn.
fn aim_of(turn: usize) -> Aim {
    if turn == 0 { Aim::Cost } else { Aim::Units }
}

/// Whether a question halves what is left, after so many about the variable at a place.
fn is_halved(task: Task<'_>, x: usize, turn: u64) -> bool {
    let jobs = task.net.job_count();
    if x < jobs {
        turn > 0
    } else {
        turn > 1 && x < jobs + task.net.resource_count()
    }
}

/// What is asked next of a variable whose value is so much, and at least so much: one less, or half of what is left.
fn below(least: u64, value: u64, is_halved: bool) -> u64 {
    let most = value.saturating_sub(1);
    if is_halved {
        least.saturating_add(most.saturating_sub(least) / 2)
    } else {
        most
    }
}
