//! Whether starts and units answer a question.

ghost use Rattle.std.specs.Prelude.{◌≡◌, ◌↔◌, IsTrue, length};
ghost use Rattle.racp_model.specs.Terms.{AreTermsOf};
ghost use Rattle.racp_model.specs.Window.{LiesIn};
ghost use Rattle.racp_clauses.specs.Solutions.{HasPlaces};
ghost use Rattle.racp_learning.specs.Answers.{UnitsLie, CostLies, IsAnswer};

use racp_clauses::Domain;
use racp_model::{Capacities, Network, Starts, fits};
use racp_prices::{Order, cost_of};

/// Whether starts and units lie within bounds, with what the units cost, and the starts fit the units.
pub(crate) fn answers(
    net: &Network,
    order: &Order,
    bounds: &Domain,
    starts: &Starts,
    units: &Capacities,
) -> bool
    requires terms { AreTermsOf net.now order.now }
    requires places { HasPlaces net.now bounds.now }
    ensures { IsTrue result → IsAnswer net.now order.now bounds.now starts.now units.now }
{
    if starts.as_slice().len() != net.job_count()
        || units.as_slice().len() != net.resource_count()
    {
        return false;
    }
    if !starts_lie(net, bounds, starts.as_slice())
        || !units_lie(net, bounds, units.as_slice())
        || !cost_lies(net, order, bounds, units.as_slice())
    {
        return false;
    }
    fits(net, units, starts, u64::MAX)
}

/// Whether each start lies within its bounds.
fn starts_lie(net: &Network, bounds: &Domain, starts: &[u32]) -> bool
    requires { length starts.now ≡ length net.now.jobs }
    ensures { IsTrue result → LiesIn net.now bounds.now starts.now }
{
    (0..net.job_count()).all(|i| {
        bounds.lower_at(i) <= starts[i] as u64 && starts[i] as u64 <= bounds.upper_at(i)
    })
}

/// Whether the units of each resource lie within their bounds.
fn units_lie(net: &Network, bounds: &Domain, units: &[u32]) -> bool
    requires { length units.now ≡ net.now.resources }
    ensures { IsTrue result ↔ UnitsLie net.now bounds.now units.now }
{
    (0..net.resource_count()).all(|k| {
        let x = net.job_count() + k;
        bounds.lower_at(x) <= units[k] as u64 && units[k] as u64 <= bounds.upper_at(x)
    })
}

/// Whether what the units cost lies within its bounds.
fn cost_lies(net: &Network, order: &Order, bounds: &Domain, units: &[u32]) -> bool
    requires terms { AreTermsOf net.now order.now }
    requires units { length units.now ≡ net.now.resources }
    ensures { IsTrue result ↔ CostLies net.now order.now bounds.now units.now }
{
    let x = net.job_count() + net.resource_count();
    let cost = cost_of(net, order, units);
    bounds.lower_at(x) <= cost && cost <= bounds.upper_at(x)
}
