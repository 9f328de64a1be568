//! Whether clauses show what all capacities that are enough cost at least.

ghost use Rattle.std.specs.Prelude.{◌≡◌, ◌↔◌, Any, IsTrue};
ghost use Rattle.racp_clauses.specs.Roots.{IsOpen};
ghost use Rattle.racp_clauses.specs.Solutions.{cost_place};
ghost use Rattle.racp_clauses.specs.Uses.{IsLeastCost};
ghost use Rattle.racp_derivations.specs.BoundTexts.{LeavesOutLess, SaysLeast};

use racp_clauses::{Clause, Literal, OfProblem};
use racp_model::Network;

/// Whether some clause leaves out all that costs less than so much; then no capacities that are enough cost less.
pub(crate) fn show_least<N: OfProblem>(net: &Network, least: u64, clauses: &[Clause<N>]) -> bool
    requires named { net.now ≡ N.problem.network }
    requires open { IsOpen N.problem }
    ensures exact { IsTrue result ↔ Any (LeavesOutLess net.now least) clauses.now }
    ensures least { IsTrue result → IsLeastCost N.problem least }
{
    for clause in clauses {
        if leaves_out_less(net, least, clause) {
            return true;
        }
    }
    false
}

/// Whether each literal of a clause says that the cost is at least so much, or more.
fn leaves_out_less<N: OfProblem>(net: &Network, least: u64, clause: &Clause<N>) -> bool
    requires named { net.now ≡ N.problem.network }
    requires open { IsOpen N.problem }
    ensures exact { IsTrue result ↔ LeavesOutLess net.now least clause.now }
    ensures least { IsTrue result → IsLeastCost N.problem least }
{
    all_say_least(net, least, clause.literals())
}

/// The same of its literals.
fn all_say_least(net: &Network, least: u64, literals: &[Literal]) -> bool
    ensures { IsTrue result ↔ LeavesOutLess net.now least literals.now }
{
    literals
        .iter()
        .all(|literal| says_least(net, least, *literal))
}

/// Whether a literal says so.
fn says_least(net: &Network, least: u64, literal: Literal) -> bool
    ensures { IsTrue result ↔ SaysLeast net.now least literal }
{
    match literal {
        Literal::AtLeast(x, value) => is_cost(net, x as usize) && least <= value,
        Literal::AtMost(..) => false,
    }
}

/// Whether the variable at a place is the cost.
fn is_cost(net: &Network, x: usize) -> bool
    ensures { IsTrue result ↔ (x ≡ cost_place net.now) }
{
    x == net.job_count() + net.resource_count()
}
