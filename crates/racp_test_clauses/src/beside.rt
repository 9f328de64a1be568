//! Two searches side by side for the optimum of an order: what one of them learns and finds comes to the other.

ghost use Rattle.racp_by_clauses.specs.Optima.{IsTaskOf};

use crate::orders::{wide_network, wide_order};
use crate::pausing::{Pausing, Received};
use racp_by_clauses::{Limits, Task, optimum_beside};
use racp_clauses::{OfProblem, root_of};
use racp_model::Network;
use racp_prices::Order;
use racp_root::{Opening, opening_of};
use racp_samples::Random;
use std::alloc::{AllocError, Global};
use std::marker::Brand;
use std::sync::Wait;
use std::thread::Threads;
use std::time::Clock;

/// Its first draft is not made better, so that there are better ones to find.
const LIMITS: Limits = Limits {
    conflicts: u64::MAX,
    bytes: 100_000_000,
    rounds: 0,
    seed: 1,
};

/// Of this seed is an order whose optimum takes thousands of conflicts. A search has less than 600 before it pauses.
const SEED: u64 = 3;

/// What comes to a search from the one beside it.
fn received_of<N: OfProblem + Send + Sync, R: Clock + Threads + Wait + Sync>(
    rt: &R,
    task: Task<'_>,
) -> Result<Received, AllocError>
    requires { IsTaskOf N.problem task }
{
    let listener = Pausing::new(rt);
    let optimum = optimum_beside::<N, Pausing<'_, R>, R>(rt, task, LIMITS, 2, &listener)?;
    drop(optimum);
    Ok(listener.received())
}

/// The same of an order for a network. Nothing if no starts are in time.
fn received_by<R: Clock + Threads + Wait + Sync>(
    rt: &R,
    alloc: Global,
    net: &Network,
    order: &Order,
) -> Result<Option<Received>, AllocError> {
    if !order.is_for(net) {
        return Ok(None);
    }
    let Opening::Root { window, .. } = opening_of(alloc, net, order)? else {
        return Ok(None);
    };
    let floors = vec![in alloc; 0; net.resource_count()]?;
    let root = root_of(alloc, net, order, &window, &floors)?;
    let task = Task {
        alloc,
        net,
        order,
        window: &window,
        root: &root,
    };
    let received = received_of::<Brand, R>(rt, task)?;
    Ok(Some(received))
}

/// The same of a random order.
fn received<R: Clock + Threads + Wait + Sync>(rt: &R, alloc: Global) -> Option<Received> {
    let mut random = Random::new(SEED);
    let Ok(net) = wide_network(alloc, &mut random) else {
        return None;
    };
    let Ok(order) = wide_order(alloc, &mut random, &net) else {
        return None;
    };
    match received_by(rt, alloc, &net, &order) {
        Ok(received) => received,
        Err(_) => None,
    }
}

#[test]
fn searches_tell_each_other(rt: HostRuntime) {
    let received = received(&rt, rt.alloc());
    let (is_clause, is_draft) = match received {
        Some(it) => (it.is_clause, it.is_draft),
        None => (false, false),
    };
    assert!(rt;
        is_clause && is_draft,
        "a clause came: {is_clause}, a draft came: {is_draft}"
    );
}
