//! Bounds that follow along precedence.

ghost use Rattle.std.specs.Prelude.{◌≡◌, ◌<◌, length};
ghost use Rattle.racp_model.specs.Project.{Precedes};
ghost use Rattle.racp_model.specs.Terms.{Terms};
ghost use Rattle.racp_clauses.specs.Solutions.{HasPlaces};
ghost use Rattle.racp_clauses.specs.Inferences.{Follows};
ghost use Rattle.racp_clauses.specs.Rules.{start_behind, start_before};

use crate::domain::Domain;
use crate::inference::Inference;
use crate::literal::Literal;
use racp_model::Network;

/// A job starts when one before it has ended at the earliest.
pub(crate) fn start_behind(net: &Network, bounds: &Domain, i: usize, j: usize) -> Inference
    requires bounds { HasPlaces net.now bounds.now }
    requires from { i < length net.now.jobs }
    requires to { j < length net.now.jobs }
    requires order { Precedes net.now i j }
    ensures exact { result ≡ start_behind net.now bounds.now i j }
    ensures follows { (terms : Terms) → Follows net.now terms bounds.now result }
{
    prove!(j < net.job_count());
    let duration = net.duration(i) as u64;
    Inference::Narrow(Literal::AtLeast(j as u32, bounds.lower(i) + duration))
}

/// A job starts early enough for one behind it.
pub(crate) fn start_before(net: &Network, bounds: &Domain, i: usize, j: usize) -> Inference
    requires bounds { HasPlaces net.now bounds.now }
    requires from { i < length net.now.jobs }
    requires to { j < length net.now.jobs }
    requires order { Precedes net.now i j }
    ensures exact { result ≡ start_before net.now bounds.now i j }
    ensures follows { (terms : Terms) → Follows net.now terms bounds.now result }
{
    let duration = net.duration(i) as u64;
    prove!(i < net.job_count());
    let end = bounds.upper(j);
    if end < duration {
        return Inference::Close;
    }
    Inference::Narrow(Literal::AtMost(i as u32, end - duration))
}
