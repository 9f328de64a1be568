//! What capacities that are enough have at least of each resource, as far as clauses show it.

ghost use Rattle.std.specs.Prelude.{◌≡◌, IfOk, IfSome};
ghost use Rattle.racp_found.specs.Told.{AreFloorsOfEnough};
ghost use Rattle.racp_by_clauses.specs.Optima.{AreLeastUnits, IsTaskOf};

use crate::task::Task;
use racp_clauses::laws::clauses_hold_of_fitting;
use racp_clauses::{Clause, Literal, OfProblem};
use racp_model::Capacities;
use std::alloc::{AllocError, Global};
use std::marker::{Model, PhantomData};

/// Floors: so many units of each resource all capacities have that are enough. Contracts see a list.
#[derive(Drop)]
pub(crate) struct Floors<P: OfProblem> {
    units: Vec<u32>,
    of: PhantomData<P>,
}

impl<P: OfProblem> Model for Floors<P> {
    ghost use Rattle.std.specs.Prelude.{ℕ, List};
    ghost use Rattle.racp_found.specs.Told.{AreFloorsOfEnough};

    ghost Value = { List ℕ };

    ghost view = { λ f. f.units.items };

    ghost invariant = { λ f. AreFloorsOfEnough P.problem.network P.problem.terms f.units.items };
}

impl<P: OfProblem> Floors<P> {
    /// The least units at the root.
    pub(crate) fn new(task: Task<'_>) -> Result<Self, AllocError>
        requires { IsTaskOf P.problem task }
    {
        let (jobs, resources) = (task.net.job_count(), task.net.resource_count());
        let units = Vec::from_elem(task.alloc, 0, resources)?;
        let mut floors: Floors<P> = Floors {
            units,
            of: PhantomData,
        };
        for k in 0..resources {
            floors.raise_to(k, task.root.lower_at(jobs + k));
        }
        Ok(floors)
    }

    /// Raises a floor, if the clause is the single literal that there are at least so many units of a resource, and these are
    /// more. Whether it does.
    pub(crate) fn raise(&mut self, task: Task<'_>, clause: &Clause<P>) -> bool
        requires { IsTaskOf P.problem task }
    {
        match least_units(task, clause) {
            Some((k, least)) => self.raise_to(k, least),
            None => false,
        }
    }

    /// Raises each floor to that of others, if that is more.
    pub(crate) fn join(&mut self, others: &Floors<P>) {
        for k in 0..others.units.len() {
            self.raise_to(k, others.at(k));
        }
    }

    /// The floor of a resource; 0 where there is no such resource.
    pub(crate) fn at(&self, k: usize) -> u64
        ensures { AreLeastUnits P.problem k result }
    {
        match self.units.get(k) {
            Some(units) => *units as u64,
            None => 0,
        }
    }

    /// A copy as capacities.
    pub(crate) fn to_capacities(&self, alloc: Global) -> Result<Capacities, AllocError>
        ensures { IfOk result (AreFloorsOfEnough P.problem.network P.problem.terms) }
    {
        let units = Vec::from_slice(alloc, &self.units)?;
        Ok(Capacities::new(units))
    }

    /// The floors as capacities.
    pub(crate) fn into_capacities(self) -> Capacities
        ensures { AreFloorsOfEnough P.problem.network P.problem.terms result }
    {
        Capacities::new(self.units)
    }

    /// Raises the floor of a resource to so many units, if these are more. Whether they are.
    fn raise_to(&mut self, k: usize, least: u64) -> bool
        requires { AreLeastUnits P.problem k least }
    {
        let Ok(units) = u32::try_from(least) else {
            return false;
        };
        if self.units.len() <= k || units <= self.units[k] {
            return false;
        }
        self.units[k] = units;
        true
    }
}

/// A resource and the least units of it, if the clause is the single literal that there are at least so many.
fn least_units<P: OfProblem>(task: Task<'_>, clause: &Clause<P>) -> Option<(usize, u64)>
    requires { IsTaskOf P.problem task }
    ensures { IfSome result (λ told. AreLeastUnits P.problem told.0 told.1) }
{
    clauses_hold_of_fitting();
    let literals = clause.literals();
    if literals.len() != 1 {
        return None;
    }
    let jobs = task.net.job_count();
    match literals[0] {
        Literal::AtLeast(x, least) if jobs <= x as usize => Some((x as usize - jobs, least)),
        _ => None,
    }
}
