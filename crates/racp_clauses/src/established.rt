//! The plan of an order, or that there is none, from clauses.

ghost use Rattle.std.specs.Prelude.{◌≡◌, ◌↔◌, ◌+◌, ◌≤◌, IsTrue, IfOk, [], ◌∷◌, ◌++◌, length, replicate};
ghost use Rattle.racp_model.specs.Terms.{AreTermsOf, cost};
ghost use Rattle.racp_model.specs.Plan.{IsPlan, NoneIsEnough};
ghost use Rattle.racp_clauses.specs.Solutions.{values, cost_place};
ghost use Rattle.racp_clauses.specs.Roots.{IsOpen};
ghost use Rattle.racp_plan.specs.Fitting.{AreFitting};
ghost use Rattle.racp_clauses.specs.Least.{AreLeast, NoneStandBefore};
ghost use Rattle.racp_clauses.specs.Tests.{AreAllOut};

use crate::clause::Clause;
use crate::domain::Domain;
use crate::least::are_least;
use crate::named::OfProblem;
use racp_model::{Capacities, Network, Starts};
use racp_plan::are_fitting;
use racp_prices::{Order, cost_of};
use std::alloc::{AllocError, Global};

/// The values of a plan, or of what may be one: units of each resource, and a start of each job, by place from 0.
#[derive(Clone, Copy)]
pub struct PlanValues<'a> {
    /// The units of each resource.
    pub capacities: &'a Capacities,
    /// The start of each job, in time units.
    pub starts: &'a Starts,
}

/// Whether clauses show that capacities and starts are the plan of an order.
///
/// They are: that the cost is at least that of these capacities; of each resource in turn, that the cost is more, or
/// there are other units of a resource before it, or at least as many of it; of each job in turn, that the cost or the
/// units are others, or a job before it starts at another time, or it starts no earlier. They are in this order, and
/// there may be others between them; one that the root bounds make needless may be missing.
///
/// # Errors
///
/// Memory was refused.
pub fn establishes<N: OfProblem>(
    alloc: Global,
    net: &Network,
    order: &Order,
    root: &Domain,
    plan: &PlanValues,
    clauses: &[Clause<N>],
) -> Result<bool, AllocError>
    requires named { net.now ≡ N.problem.network }
    requires terms { order.now ≡ N.problem.terms }
    requires root { root.now ≡ N.problem.root }
    requires open { IsOpen N.problem }
    ensures plan { IfOk result (λ yes. IsTrue yes → IsPlan net.now order.now plan.now.capacities.now plan.now.starts.now) }
    ensures whole { IfOk result (λ yes. AreFitting net.now order.now plan.now.capacities.now plan.now.starts.now →
        AreAllOut net.now root.now (values order.now plan.now.starts.now plan.now.capacities.now) (cost_place net.now + 1) clauses.now → IsTrue yes) }
    ensures shown { IfOk result (λ yes. IsTrue yes → AreFitting net.now order.now plan.now.capacities.now plan.now.starts.now ×
        AreAllOut net.now root.now (values order.now plan.now.starts.now plan.now.capacities.now) (cost_place net.now + 1) clauses.now) }
{
    if !are_fitting(net, order, plan.capacities, plan.starts) {
        return Ok(false);
    }
    are_the_least(alloc, net, order, root, plan, clauses)
}

/// Whether clauses show that capacities and starts that fit them are the plan of an order.
///
/// # Errors
///
/// Memory was refused.
pub fn are_the_least<N: OfProblem>(
    alloc: Global,
    net: &Network,
    order: &Order,
    root: &Domain,
    plan: &PlanValues,
    clauses: &[Clause<N>],
) -> Result<bool, AllocError>
    requires named { net.now ≡ N.problem.network }
    requires terms { order.now ≡ N.problem.terms }
    requires root { root.now ≡ N.problem.root }
    requires open { IsOpen N.problem }
    requires fit { AreFitting net.now order.now plan.now.capacities.now plan.now.starts.now }
    ensures plan { IfOk result (λ yes. IsTrue yes → IsPlan net.now order.now plan.now.capacities.now plan.now.starts.now) }
    ensures whole { IfOk result (λ yes.
        AreAllOut net.now root.now (values order.now plan.now.starts.now plan.now.capacities.now) (cost_place net.now + 1) clauses.now → IsTrue yes) }
    ensures shown { IfOk result (λ yes. IsTrue yes →
        AreAllOut net.now root.now (values order.now plan.now.starts.now plan.now.capacities.now) (cost_place net.now + 1) clauses.now) }
{
    let row = row_of(
        alloc,
        net,
        order,
        plan.starts.as_slice(),
        plan.capacities.as_slice(),
    )?;
    let turns = net.job_count() + net.resource_count() + 1;
    Ok(are_least(net, root, &row, clauses, turns))
}

/// Whether clauses show that no capacities that are enough stand before these: the first of those that show a plan.
///
/// # Errors
///
/// Memory was refused.
pub fn none_stand_before<N: OfProblem>(
    alloc: Global,
    net: &Network,
    order: &Order,
    root: &Domain,
    capacities: &Capacities,
    clauses: &[Clause<N>],
) -> Result<bool, AllocError>
    requires named { net.now ≡ N.problem.network }
    requires terms { order.now ≡ N.problem.terms }
    requires root { root.now ≡ N.problem.root }
    requires open { IsOpen N.problem }
    requires units { length capacities.now ≡ net.now.resources }
    ensures none { IfOk result (λ yes. IsTrue yes → NoneStandBefore net.now order.now capacities.now) }
    ensures whole { IfOk result (λ yes.
        AreAllOut net.now root.now (values order.now (replicate (length net.now.jobs) 0) capacities.now) (net.now.resources + 1) clauses.now →
        IsTrue yes) }
{
    let starts = vec![in alloc; 0; net.job_count()]?;
    let row = row_of(alloc, net, order, &starts, capacities.as_slice())?;
    Ok(are_least(net, root, &row, clauses, net.resource_count() + 1))
}

/// Whether a clause shows that no capacities are enough: it has no literals.
pub fn leaves_none<N: OfProblem>(clause: &Clause<N>) -> bool
    requires { IsOpen N.problem }
    ensures none { IsTrue result → NoneIsEnough N.problem.network N.problem.terms }
    ensures whole { IsTrue result ↔ (length clause.now ≡ 0) }
{
    clause.literals().is_empty()
}

/// The values of starts and units.
#[tactic(auto, unfolding(crate::specs::Solutions::values))]
fn row_of(
    alloc: Global,
    net: &Network,
    order: &Order,
    starts: &[u32],
    units: &[u32],
) -> Result<Vec<u64>, AllocError>
    requires terms { AreTermsOf net.now order.now }
    requires units { length units.now ≡ net.now.resources }
    ensures { IfOk result (λ row. row.items ≡ values order.now starts.now units.now) }
{
    joined(alloc, starts, units, cost_of(net, order, units))
}

/// Starts, units and what they cost, one behind the other.
fn joined(alloc: Global, starts: &[u32], units: &[u32], cost: u64) -> Result<Vec<u64>, AllocError>
    ensures { IfOk result (λ row. row.items ≡ starts.now ++ (units.now ++ cost ∷ [])) }
{
    let mut row = Vec::new(alloc);
    for &start in starts {
        row.push(start as u64)?;
    }
    for &unit in units {
        row.push(unit as u64)?;
    }
    row.push(cost)?;
    Ok(row)
}
