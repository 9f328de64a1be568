//! Minimal delaying alternatives one at a time, each after a given one.

ghost use Rattle.std.specs.Prelude.{◌≡◌, ℕ, [], IfOk, IsErrOf, IsTrue, All, length, slice_index};
ghost use Rattle.racp_model.specs.Project.{IsNumber};
ghost use Rattle.racp_model.specs.Terms.{IsLexBefore};
ghost use Rattle.racp_delay.specs.Alternatives.{IsFollowing};
ghost use Rattle.racp_delay.specs.Found.{AreWithin, IsChoice, IsExtended};
ghost use Rattle.racp_delay.specs.Reach.{AreRows};

use crate::choosing::Choice;
use crate::delaying::some_have_room;
use crate::extension::branch;
use crate::loads::{are_within, split_free};
use crate::reach::{Divisors, put_rows, reach};
use crate::stop::Steps;
use racp_model::{Capacities, JobSet, Network, Stop, Unfound};
use std::alloc::Global;
use std::marker::Model;

/// How many steps are taken before common divisors are made, which show that more choices lead to nothing.
const FEW_STEPS: u32 = 1_000;

/// Extends `gone` as `extend` does, but to the first alternative whose further jobs stand after `last`.
#[cycle(extending_behind)]
fn extend_behind<S: Stop>(
    choice: &Choice,
    gone: &mut Vec<u32>,
    last: &[u32],
    rows: &[Divisors],
    stop: &S,
) -> Result<bool, Unfound>
    requires choice { IsChoice choice.now }
    requires gone { All (IsNumber (length choice.now.net.now.jobs)) gone.old.items }
    requires rows { AreRows choice.now.net.now choice.now.undecided.now rows.now }
    ensures found { IfOk result (λ found. IsExtended choice.now.net.now choice.now.capacities.now
        (slice_index choice.now.kept) gone.old.items choice.now.undecided.now (IsLexBefore last.now) found
        gone.new.items) }
    ensures quiet { IsTrue (S.is_quiet stop.now) → IsErrOf result Unfound.Stopped → ⊥ }
{
    if stop.asked() {
        return Err(Unfound::Stopped);
    }
    let most = reach(choice, rows);
    if some_have_room(choice.net, choice.capacities, &most, gone)
        || are_within(choice.net, choice.capacities, &choice.left)
    {
        return Ok(false);
    }
    branch_behind(choice, gone, last, rows, stop)
}

/// Extends `gone` as `extend_behind` does, for kept and undecided jobs that together exceed the capacities, so that one
/// of the undecided has to go.
#[cycle(extending_behind)]
fn branch_behind<S: Stop>(
    choice: &Choice,
    gone: &mut Vec<u32>,
    last: &[u32],
    rows: &[Divisors],
    stop: &S,
) -> Result<bool, Unfound>
    requires choice { IsChoice choice.now }
    requires gone { All (IsNumber (length choice.now.net.now.jobs)) gone.old.items }
    requires rows { AreRows choice.now.net.now choice.now.undecided.now rows.now }
    requires over { AreWithin choice.now.net.now choice.now.capacities.now (slice_index choice.now.left) → ⊥ }
    ensures found { IfOk result (λ found. IsExtended choice.now.net.now choice.now.capacities.now
        (slice_index choice.now.kept) gone.old.items choice.now.undecided.now (IsLexBefore last.now) found
        gone.new.items) }
    ensures quiet { IsTrue (S.is_quiet stop.now) → IsErrOf result Unfound.Stopped → ⊥ }
{
    let Some((first, rest)) = last.split_first() else {
        return branch(choice, gone, rows, stop);
    };
    let Some((job, others)) = choice.undecided.split_first() else {
        return Ok(false);
    };
    if *first < *job {
        return branch(choice, gone, rows, stop);
    }
    if *first == *job {
        gone.push(*job)?;
        let less = choice.where_goes(*job, others);
        if extend_behind(&less, gone, rest, rows, stop)? {
            return Ok(true);
        }
        gone.pop();
    }
    let Some(more) = choice.where_stays(*job, others) else {
        return Ok(false);
    };
    branch_behind(&more, gone, last, rows, stop)
}

/// Extends no jobs as `extend_behind` does. Few steps are taken without rows of divisors, for mostly they are enough; the
/// stop is asked about them too.
fn look_behind<S: Stop>(
    choice: &Choice,
    gone: &mut Vec<u32>,
    last: &[u32],
    rows: &mut Vec<Divisors>,
    stop: &S,
) -> Result<bool, Unfound>
    requires choice { IsChoice choice.now }
    requires gone { gone.old.items ≡ [] }
    ensures found { IfOk result (λ found. IsExtended choice.now.net.now choice.now.capacities.now
        (slice_index choice.now.kept) gone.old.items choice.now.undecided.now (IsLexBefore last.now) found
        gone.new.items) }
    ensures quiet { IsTrue (S.is_quiet stop.now) → IsErrOf result Unfound.Stopped → ⊥ }
{
    let few = Steps::new(FEW_STEPS);
    let answer = extend_behind(choice, gone, last, &[], &few);
    for _ in few.left()..FEW_STEPS {
        if stop.asked() {
            return Err(Unfound::Stopped);
        }
    }
    match answer {
        Ok(found) => return Ok(found),
        Err(Unfound::Memory) => return Err(Unfound::Memory),
        Err(Unfound::Stopped) => {}
    }
    gone.clear();
    put_rows(choice.net, choice.undecided, rows)?;
    extend_behind(choice, gone, last, rows, stop)
}

/// The jobs that are active at a conflict, and those that are free: of the active ones these alone may go.
#[derive(Clone, Copy)]
pub struct ActiveJobs<'a> {
    /// The active jobs, by number from 1.
    pub all: &'a JobSet,
    /// The free jobs, by number from 1; others than active ones make no difference.
    pub free: &'a JobSet,
}

/// A minimal delaying alternative, in memory that is used again from one to the next. Contracts see the numbers of the
/// jobs that go.
#[derive(Drop)]
pub struct Alternative {
    free: Vec<u32>,
    gone: Vec<u32>,
    rows: Vec<Divisors>,
}

impl Model for Alternative {
    ghost use Rattle.std.specs.Prelude.{ℕ, List};

    ghost Value = { List ℕ };

    ghost view = { λ alternative. alternative.gone.items };
}

impl Alternative {
    /// No jobs. Takes no memory.
    pub fn new(alloc: Global) -> Self
        ensures { result ≡ [] }
    {
        Alternative {
            free: Vec::new(alloc),
            gone: Vec::new(alloc),
            rows: Vec::new(alloc),
        }
    }

    /// Finds, of the lists that `alternatives` answers for a conflict with these active jobs, the first that stands
    /// after `last` in lexicographic order and in which only free jobs go, in place of what was found before. Answers
    /// `false` if there is none. The empty list stands before all alternatives of a conflict, so a search starts
    /// with it and goes on with what it found last. If all active jobs are free it finds all alternatives.
    ///
    /// The stop is asked about each job that is chosen to go.
    ///
    /// # Errors
    ///
    /// Memory was refused, or the search was stopped; then the alternative is any.
    pub fn find_behind<S: Stop>(
        &mut self,
        net: &Network,
        capacities: &Capacities,
        active: &ActiveJobs,
        last: &[u32],
        stop: &S,
    ) -> Result<bool, Unfound>
        requires capacities { length capacities.now ≡ net.now.resources }
        requires active { All (IsNumber (length net.now.jobs)) active.now.all.now }
        ensures found { IfOk result (λ more.
            IsFollowing net.now capacities.now active.now.all.now active.now.free.now last.now more self.new) }
        ensures quiet { IsTrue (S.is_quiet stop.now) → IsErrOf result Unfound.Stopped → ⊥ }
    {
        self.gone.clear();
        let (kept, left) = split_free(net, active.all, active.free, &mut self.free)?;
        let choice = Choice {
            net,
            capacities: capacities.as_slice(),
            kept,
            left,
            undecided: &self.free,
        };
        look_behind(&choice, &mut self.gone, last, &mut self.rows, stop)
    }

    /// The numbers, from 1 and rising, of the jobs that go.
    pub fn jobs(&self) -> &[u32]
        ensures { result.now ≡ self.now }
    {
        &self.gone
    }
}
