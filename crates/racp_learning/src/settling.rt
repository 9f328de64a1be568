//! What follows at the root.

ghost use Rattle.std.specs.Prelude.{◌≡◌};
ghost use Rattle.racp_model.specs.Terms.{AreTermsOf};

use racp_clauses::{Derivation, Domain, OfProblem, Times};
use racp_model::Network;
use racp_prices::Order;
use std::alloc::{AllocError, Global};

/// About so many uses of jobs are looked at to find energies.
const MOST_LOOKS: usize = 20_000_000;

/// Takes what follows at the root into a derivation: requests, energies and prices.
pub(crate) fn settle<N: OfProblem>(
    alloc: Global,
    net: &Network,
    order: &Order,
    root: &Domain,
    ground: &mut Derivation<N>,
) -> Result<(), AllocError>
    requires named { net.now ≡ N.problem.network }
    requires terms { order.now ≡ N.problem.terms }
    requires fit { AreTermsOf net.now order.now }
{
    let starts = times_of(alloc, net, root, false)?;
    let ends = times_of(alloc, net, root, true)?;
    for k in 0..net.resource_count() {
        for i in 0..net.job_count() {
            ground.request(net, i, k);
        }
        settle_energy(net, ground, k, &starts, &ends);
    }
    ground.cost(net, order);
    for k in 0..net.resource_count() {
        ground.units(net, order, k);
    }
    Ok(())
}

/// The energy of a resource between all times of two rows.
fn settle_energy<N: OfProblem>(
    net: &Network,
    ground: &mut Derivation<N>,
    k: usize,
    starts: &[u64],
    ends: &[u64],
)
    requires named { net.now ≡ N.problem.network }
{
    for &from in starts {
        for &until in ends {
            if from < until {
                ground.energy(net, k, Times { from, until });
            }
        }
    }
}

/// The times at which jobs start, or end, at their bounds, each once; where these are too many, some of them.
pub(crate) fn times_of(
    alloc: Global,
    net: &Network,
    root: &Domain,
    ends: bool,
) -> Result<Vec<u64>, AllocError> {
    let mut times = Vec::new(alloc);
    for i in 0..net.job_count() {
        let duration = if ends { u64::from(net.duration(i)) } else { 0 };
        times.push(root.lower_at(i).wrapping_add(duration))?;
        times.push(root.upper_at(i).wrapping_add(duration))?;
    }
    times.sort_unstable();
    times.dedup();
    let most = most_times(net);
    let step = times.len().div_ceil(most.max(1)).max(1);
    let mut some = Vec::new(alloc);
    for i in 0..times.len() {
        if i.checked_rem(step).unwrap_or(0) == 0 {
            some.push(times[i])?;
        }
    }
    Ok(some)
}

/// How many times there may be of each kind.
fn most_times(net: &Network) -> usize {
    let looks = net.job_count().wrapping_mul(net.resource_count());
    for most in 0..MOST_LOOKS {
        if MOST_LOOKS < most.wrapping_mul(most).wrapping_mul(looks) {
            return most;
        }
    }
    MOST_LOOKS
}
