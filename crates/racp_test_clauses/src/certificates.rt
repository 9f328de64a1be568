//! Certificates by clauses for the five jobs, whose plan was worked out by hand, and what is shown without a clause.

ghost use Rattle.racp_by_clauses.specs.Optima.{IsTaskOf};
ghost use Rattle.racp_model.specs.Terms.{AreTermsOf};

use crate::listener::Listener;
use crate::sums::Sums;
use crate::tasks::{Trial, try_order};
use racp_by_clauses::{Limits, Task, optimum_recorded};
use racp_clauses::{Clause, OfProblem, PlanValues, establishes, none_stand_before};
use racp_derivations::{
    bound_certificate, certificate_by_clauses, establishes_by_text, least_by_text,
};
use racp_learning::Derivations;
use racp_model::{Capacities, NetFault, Network, Starts};
use racp_plan::{Plan, read_plan};
use racp_prices::read_order;
use racp_samples::texts::{ORDER, PLAN};
use racp_samples::{Random, network, parallel};
use std::alloc::{AllocError, Global};

/// A plan that fits, and costs a unit more.
const DEARER: &str =
    "deadline 4\ncritical 3\ncost 40\ncapacity 1 4\nstart 1 0\nstart 2 0\nstart 3 0\nstart 4 0\nstart 5 3\nend\n";

/// Whether a text shows a plan; none does if there is no text.
fn shows(task: Task<'_>, plan: &Plan, text: Option<Vec<u8>>) -> Result<Option<bool>, AllocError>
    requires { AreTermsOf task.net.now task.order.now }
{
    let Some(text) = text else {
        return Ok(None);
    };
    let shown = establishes_by_text(task.alloc, task.net, task.order, plan, &text);
    drop(text);
    Ok(Some(shown?))
}

/// Whether the certificate that is made of derivations shows a plan, if there is one.
fn is_certified(
    task: Task<'_>,
    plan: &Plan,
    derivations: &Derivations,
) -> Result<Option<bool>, AllocError>
    requires { AreTermsOf task.net.now task.order.now }
{
    let (alloc, net, order, root) = (task.alloc, task.net, task.order, task.root);
    let text = certificate_by_clauses(alloc, net, order, root, plan, derivations)?;
    shows(task, plan, text)
}

/// Whether the plan in one text has a certificate that shows it, and that in the other one has none.
fn are_told_apart(task: Task<'_>, derivations: &Derivations) -> Result<bool, AllocError>
    requires { AreTermsOf task.net.now task.order.now }
{
    let Ok(plan) = read_plan(task.alloc, PLAN.as_bytes(), task.net) else {
        return Ok(false);
    };
    let certified = is_certified(task, &plan, derivations);
    drop(plan);
    let Ok(dearer) = read_plan(task.alloc, DEARER.as_bytes(), task.net) else {
        return Ok(false);
    };
    let other = is_certified(task, &dearer, derivations);
    drop(dearer);
    Ok(certified? == Some(true) && other?.is_none())
}

/// Whether what each plan of the five jobs costs at least, 30, has a certificate that shows it.
fn is_bounded(task: Task<'_>, derivations: &Derivations) -> Result<bool, AllocError>
    requires { AreTermsOf task.net.now task.order.now }
{
    let (alloc, net, order) = (task.alloc, task.net, task.order);
    let Some(made) = bound_certificate(alloc, net, order, derivations)? else {
        return Ok(false);
    };
    let shown = least_by_text(alloc, net, order, &made.text);
    let least = made.least;
    drop(made);
    Ok(least == 30 && shown? == Some(30))
}

/// Whether the plan of the five jobs has a certificate that shows it, and so has its cost, and a dearer plan has none, as a search
/// for the plan has recorded it.
pub fn are_certified<N: OfProblem>(task: Task<'_>) -> Result<bool, AllocError>
    requires is_of { IsTaskOf N.problem task }
{
    let listener = Listener::new(u32::MAX);
    let limits = Limits {
        conflicts: u64::MAX,
        bytes: 1_000_000,
        rounds: 0,
        seed: 1,
    };
    let found = optimum_recorded::<N, Listener>(task, limits, 1_000_000, &listener)?;
    match &found.derivations {
        Some(derivations) => {
            Ok(are_told_apart(task, derivations)? && is_bounded(task, derivations)?)
        }
        None => Ok(false),
    }
}

/// Whether the root bounds alone show that no capacities stand before so many units of each resource, and that these are
/// those of the plan if all jobs start at 0.
fn are_first<N: OfProblem>(task: Task<'_>, units: u32) -> Result<bool, AllocError>
    requires { IsTaskOf N.problem task }
{
    let (alloc, net, order, root) = (task.alloc, task.net, task.order, task.root);
    let capacities = Capacities::new(vec![in alloc; units; net.resource_count()]?);
    let starts = Starts::new(vec![in alloc; 0; net.job_count()]?);
    let none: Vec<Clause<N>> = Vec::new(alloc);
    let first = none_stand_before(alloc, net, order, root, &capacities, &none);
    let values = PlanValues {
        capacities: &capacities,
        starts: &starts,
    };
    let plan = establishes(alloc, net, order, root, &values, &none);
    drop((capacities, starts, none));
    Ok(first? && plan?)
}

/// Whether that is so of no unit, and not of one.
pub fn is_rooted<N: OfProblem>(task: Task<'_>) -> Result<bool, AllocError>
    requires { IsTaskOf N.problem task }
{
    Ok(are_first::<N>(task, 0)? && !are_first::<N>(task, 1)?)
}

/// Whether a trial of a network is right, with the order for the five jobs.
fn holds(alloc: Global, net: Result<Network, NetFault>, trial: Trial) -> bool {
    let Ok(net) = net else {
        return false;
    };
    let (resources, jobs) = (net.resource_count(), net.job_count());
    let Ok(order) = read_order(alloc, ORDER.as_bytes(), resources, jobs) else {
        return false;
    };
    let (mut random, mut sums) = (Random::new(1), Sums::new());
    let right = try_order(alloc, &net, &order, trial, &mut random, &mut sums);
    matches!(right, Ok(true)) && sums.unfit == 0
}

#[test]
fn the_plan_alone_has_a_certificate(rt: HostRuntime) {
    let alloc = rt.alloc();
    assert!(rt; holds(alloc, parallel(alloc), Trial::Certificates));
}

#[test]
fn no_units_need_no_clause(rt: HostRuntime) {
    let alloc = rt.alloc();
    let idle = network(alloc, 1, &[(0, &[0]), (0, &[0])], &[(1, 2)]);
    assert!(rt; holds(alloc, idle, Trial::Rooted));
}
