//! Searches that begin anew and forget clauses, on the way down to the least cost of wider random orders.

ghost use Rattle.racp_by_clauses.specs.Optima.{IsTaskOf};

use crate::all_schedules::price;
use crate::sums::Sums;
use crate::tasks::{Trial, try_next};
use racp_by_clauses::Task;
use racp_clauses::{Clause, Derivation, Literal, OfProblem};
use racp_learning::{Reason, Search, Tally, Told};
use racp_model::{Capacities, Never};
use racp_prices::Order;
use racp_samples::Random;
use std::alloc::AllocError;

/// More conflicts than any of the questions takes where clauses are not forgotten early.
const ENOUGH: u64 = 4_000;

/// What is told of less cost.
#[derive(Clone, Copy)]
enum Below {
    /// There is a plan of this cost.
    Cheaper(u64),
    /// There is none.
    None,
    /// The conflicts were spent.
    Spent,
    /// Something else kept the search from its end.
    Other,
}

/// What units cost.
fn cost_of(order: &Order, units: &Capacities) -> u64 {
    let mut cost = 0u64;
    for (k, count) in units.as_slice().iter().enumerate() {
        cost = cost.saturating_add(price(order, k, *count as u64));
    }
    cost
}

/// What is told, where some bounds are left or none.
fn told_of<N: OfProblem>(order: &Order, told: &Told<Clause<N>>, is_empty: bool) -> Below {
    match told {
        Told::Found(_, units) if !is_empty => Below::Cheaper(cost_of(order, units)),
        Told::Open(Reason::Budget) => Below::Spent,
        Told::Open(_) => Below::Other,
        _ => Below::None,
    }
}

/// The root bounds, with less cost than the best that is known. They are those of a derivation, of which nothing is left
/// if there is no less cost.
fn cheaper<N: OfProblem>(task: Task<'_>, best: Option<u64>) -> Result<Derivation<N>, AllocError>
    requires { IsTaskOf N.problem task }
{
    let mut bounds: Derivation<N> = Derivation::new(task.alloc, task.root)?;
    let Some(best) = best else {
        return Ok(bounds);
    };
    let place = task
        .net
        .job_count()
        .saturating_add(task.net.resource_count()) as u32;
    match bounds.suppose(Literal::AtLeast(place, best)) {
        Ok(()) => Ok(bounds),
        Err(fault) => {
            drop(bounds);
            Err(fault)
        }
    }
}

/// Asks for less cost.
fn ask_below<N: OfProblem>(
    task: Task<'_>,
    search: &mut Search<N>,
    best: Option<u64>,
) -> Result<Below, AllocError>
    requires { IsTaskOf N.problem task }
{
    let bounds: Derivation<N> = cheaper(task, best)?;
    let told = search.ask(task.net, task.order, bounds.bounds(), ENOUGH, &Never);
    let is_empty = bounds.is_empty();
    drop(bounds);
    Ok(told_of(task.order, &told?, is_empty))
}

/// The least cost, if it is known; and whether something was not confirmed.
#[derive(Clone, Copy)]
struct Least {
    cost: Option<u64>,
    is_unconfirmed: bool,
}

/// Asks for less and less cost, until that is refuted.
fn go_down<N: OfProblem>(task: Task<'_>, search: &mut Search<N>) -> Result<Least, AllocError>
    requires { IsTaskOf N.problem task }
{
    let mut best = None;
    for _i in 0..1_000 {
        match ask_below(task, search, best)? {
            Below::Cheaper(cost) => best = Some(cost),
            Below::None => {
                return Ok(Least {
                    cost: best,
                    is_unconfirmed: false,
                });
            }
            Below::Spent => break,
            Below::Other => {
                return Ok(Least {
                    cost: None,
                    is_unconfirmed: true,
                });
            }
        }
    }
    Ok(Least {
        cost: None,
        is_unconfirmed: false,
    })
}

/// The least cost that a search with so much memory finds, and what it did.
fn least_cost<N: OfProblem>(
    task: Task<'_>,
    bytes: u64,
    seed: u64,
) -> Result<(Least, Tally), AllocError>
    requires { IsTaskOf N.problem task }
{
    let (net, order, root) = (task.net, task.order, task.root);
    let mut search: Search<N> = Search::new(task.alloc, net, order, root, seed, bytes)?;
    let least = go_down(task, &mut search);
    let tally = search.tally();
    drop(search);
    Ok((least?, tally))
}

/// Whether a search with much memory finds the least cost, and one with little the same, or none; and no clause is lost.
pub fn agree<N: OfProblem>(task: Task<'_>, sums: &mut Sums) -> Result<bool, AllocError>
    requires { IsTaskOf N.problem task }
{
    let (much, one) = least_cost::<N>(task, 100_000_000, 1)?;
    let (little, other) = least_cost::<N>(task, 20_000, 2)?;
    sums.restarts = sums
        .restarts
        .saturating_add(one.restarts)
        .saturating_add(other.restarts);
    sums.forgotten = sums
        .forgotten
        .saturating_add(one.forgotten)
        .saturating_add(other.forgotten);
    sums.plans = sums.plans.saturating_add(1);
    let is_same = little.cost.is_none() || much.cost == little.cost;
    let is_confirmed = !little.is_unconfirmed && one.lost == 0 && other.lost == 0;
    Ok(much.cost.is_some() && is_same && is_confirmed)
}

#[test]
fn forgetful_searches_lose_nothing(rt: HostRuntime) {
    let (mut random, mut sums) = (Random::new(17), Sums::new());
    for round in 0..20 {
        let is_right = try_next(rt.alloc(), Trial::Descents, &mut random, &mut sums);
        assert!(rt; is_right, "round {round}");
    }
    let (plans, restarts, forgotten) = (sums.plans, sums.restarts, sums.forgotten);
    assert!(rt;
        10 <= plans && 10 <= restarts && 100 <= forgotten,
        "{plans} orders, {restarts} restarts, {forgotten} clauses forgotten"
    );
}
