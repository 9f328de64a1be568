//! Orders with their root bounds, and what is tried of them.

ghost use Rattle.std.specs.Prelude.{◌≡◌};
ghost use Rattle.racp_model.specs.Terms.{AreTermsOf};
ghost use Rattle.racp_by_clauses.specs.Optima.{IsTaskOf};

use crate::certificates::{are_certified, is_rooted};
use crate::descents::agree;
use crate::floors::are_shown;
use crate::optima::is_optimum;
use crate::orders::{wide_network, wide_order};
use crate::searches::are_answered;
use crate::sums::Sums;
use racp_by_clauses::Task;
use racp_clauses::{OfProblem, root_of};
use racp_model::{NetFault, Network};
use racp_prices::Order;
use racp_root::{Opening, opening_of};
use racp_samples::{Random, SampleFault, random_network, random_order};
use std::alloc::{AllocError, Global};
use std::marker::Brand;

/// What is tried of an order.
#[derive(Clone, Copy, PartialEq)]
pub enum Trial {
    /// Questions by chance, by searches with several limits.
    Questions,
    /// The way down to the least cost, with much memory and with little.
    Descents,
    /// The optimum.
    Optima,
    /// The floors where a search is cut off.
    Floors,
    /// Certificates for two plans of the five jobs.
    Certificates,
    /// What the root bounds show without a clause.
    Rooted,
}

/// Tries this of a task.
fn tried<N: OfProblem>(
    task: Task<'_>,
    trial: Trial,
    random: &mut Random,
    sums: &mut Sums,
) -> Result<bool, AllocError>
    requires { IsTaskOf N.problem task }
{
    match trial {
        Trial::Questions => are_answered::<N>(task, random, sums),
        Trial::Descents => agree::<N>(task, sums),
        Trial::Optima => is_optimum::<N>(task, sums),
        Trial::Floors => are_shown::<N>(task),
        Trial::Certificates => are_certified::<N>(task),
        Trial::Rooted => is_rooted::<N>(task),
    }
}

/// Tries this of an order for a network, and says whether all is right. So it is if no starts are in time.
pub fn try_order(
    alloc: Global,
    net: &Network,
    order: &Order,
    trial: Trial,
    random: &mut Random,
    sums: &mut Sums,
) -> Result<bool, AllocError> {
    if !order.is_for(net) {
        return Ok(false);
    }
    let Opening::Root { window, .. } = opening_of(alloc, net, order)? else {
        sums.unfit = sums.unfit.saturating_add(1);
        return Ok(true);
    };
    let floors = vec![in alloc; 0; net.resource_count()]?;
    let root = root_of(alloc, net, order, &window, &floors)?;
    let task = Task {
        alloc,
        net,
        order,
        window: &window,
        root: &root,
    };
    tried::<Brand>(task, trial, random, sums)
}

/// Tries this of a random order for a network.
fn try_network(
    alloc: Global,
    net: &Network,
    trial: Trial,
    random: &mut Random,
    sums: &mut Sums,
) -> Result<bool, AllocError> {
    let order = match trial {
        Trial::Descents => wide_order(alloc, random, net),
        _ => random_order(alloc, random, net),
    }?;
    try_order(alloc, net, &order, trial, random, sums)
}

/// A random network for a trial.
fn network_for(alloc: Global, trial: Trial, random: &mut Random) -> Result<Network, SampleFault> {
    let extra = random.below(3);
    match trial {
        Trial::Descents => Ok(wide_network(alloc, random)?),
        Trial::Optima => {
            let resources = random.below(3).saturating_add(3) as usize;
            random_network(alloc, random, resources, extra.saturating_add(2))
        }
        _ => {
            let resources = random.below(3).saturating_add(1) as usize;
            random_network(alloc, random, resources, extra.saturating_add(3))
        }
    }
}

/// Tries this of a random order for a random network, and says whether all is right.
pub fn try_next(alloc: Global, trial: Trial, random: &mut Random, sums: &mut Sums) -> bool {
    match network_for(alloc, trial, random) {
        Ok(net) => matches!(try_network(alloc, &net, trial, random, sums), Ok(true)),
        Err(_) => false,
    }
}
