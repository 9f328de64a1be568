//! Whether no solution is less than values by any of the first variables.

ghost use Rattle.std.specs.Prelude.{◌≡◌, ◌↔◌, ◌+◌, ◌<◌, ◌≤◌, IsTrue, IfSome, length};
ghost use Rattle.racp_clauses.specs.Solutions.{HasPlaces, cost_place};
ghost use Rattle.racp_clauses.specs.Least.{AreLeast, NoneIsLessBy};
ghost use Rattle.racp_clauses.specs.Tests.{IsAllOut, AreAllOut, IsNextOut, IsPlaceOf, clause_at};

use crate::clause::Clause;
use crate::domain::Domain;
use crate::leaving_out::leaves_out;
use crate::named::OfProblem;
use racp_model::Network;

/// The place of the variable before which so many come.
fn place_at(net: &Network, t: usize) -> usize
    requires { t ≤ cost_place net.now }
    ensures { IsPlaceOf net.now t result }
{
    let resources = net.resource_count();
    if t == 0 {
        net.job_count() + resources
    } else if t <= resources {
        net.job_count() + (t - 1)
    } else {
        t - 1 - resources
    }
}

/// Whether a clause leaves out all solutions that are less than these values by the variable at a place.
fn is_least_by<N: OfProblem>(net: &Network, row: &[u64], x: usize, clause: &Clause<N>) -> bool
    requires named { net.now ≡ N.problem.network }
    requires row { length row.now ≡ cost_place net.now + 1 }
    requires place { x ≤ cost_place net.now }
    ensures none { IsTrue result → NoneIsLessBy N.problem x row.now }
    ensures out { IsTrue result ↔ IsAllOut net.now x row.now clause.now }
{
    leaves_out(net, x, row, clause.literals())
}

/// The place of the first clause, from one on, that does.
fn next_for<N: OfProblem>(
    net: &Network,
    row: &[u64],
    x: usize,
    clauses: &[Clause<N>],
    from: usize,
) -> Option<usize>
    requires named { net.now ≡ N.problem.network }
    requires row { length row.now ≡ cost_place net.now + 1 }
    requires place { x ≤ cost_place net.now }
    ensures none { IfSome result (λ _. NoneIsLessBy N.problem x row.now) }
    ensures next { IsNextOut net.now x row.now clauses.now from result }
    ensures out { IfSome result (λ at. (from ≤ at) × (at < length clauses.now) × IsAllOut net.now x row.now (clause_at clauses.now at)) }
{
    for at in from..clauses.len() {
        if is_least_by(net, row, x, &clauses[at]) {
            return Some(at);
        }
    }
    None
}

/// Whether no solution is less than these values by any of the first so many variables: for each of them, in turn, the
/// root bounds show it, or the clause that showed it for the one before, or one behind that.
pub(crate) fn are_least<N: OfProblem>(
    net: &Network,
    root: &Domain,
    row: &[u64],
    clauses: &[Clause<N>],
    turns: usize,
) -> bool
    requires named { net.now ≡ N.problem.network }
    requires root { root.now ≡ N.problem.root }
    requires places { HasPlaces net.now root.now }
    requires row { length row.now ≡ cost_place net.now + 1 }
    requires turns { turns ≤ cost_place net.now + 1 }
    ensures least { IsTrue result → AreLeast N.problem turns row.now }
    ensures whole { AreAllOut net.now root.now row.now turns clauses.now → IsTrue result }
    ensures shown { IsTrue result → AreAllOut net.now root.now row.now turns clauses.now }
{
    let mut next = 0;
    for t in 0..turns {
        let x = place_at(net, t);
        if root.lower(x) < row[x] {
            match next_for(net, row, x, clauses, next) {
                Some(at) => next = at,
                None => return false,
            }
        }
    }
    true
}
