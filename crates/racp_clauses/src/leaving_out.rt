//! Whether a clause leaves out what is less by a variable.

ghost use Rattle.std.specs.Prelude.{◌≡◌, ◌↔◌, ◌+◌, ◌<◌, ◌≤◌, IsTrue, length};
ghost use Rattle.racp_clauses.specs.Solutions.{cost_place};
ghost use Rattle.racp_clauses.specs.Least.{turn};
ghost use Rattle.racp_clauses.specs.Tests.{IsEarlier, IsOut, IsLowerOut, IsUpperOut, IsAllOut};

use crate::literal::Literal;
use racp_model::Network;

/// How many variables come before the one at a place, in the order of the cost, the units and the starts.
fn turn(net: &Network, x: usize) -> usize
    requires { x ≤ cost_place net.now }
    ensures { result ≡ turn net.now x }
{
    let jobs = net.job_count();
    let resources = net.resource_count();
    if x < jobs {
        resources + 1 + x
    } else if x < jobs + resources {
        x - jobs + 1
    } else {
        0
    }
}

/// Whether there is a variable at a place, and it comes before another.
fn comes_before(net: &Network, y: usize, x: usize) -> bool
    requires { x ≤ cost_place net.now }
    ensures { IsTrue result ↔ IsEarlier net.now x y }
{
    y <= net.job_count() + net.resource_count() && turn(net, y) < turn(net, x)
}

/// Whether a literal is about a variable that comes before the one at a place and false of these values, or says that
/// it is at least its value or more.
fn is_out(net: &Network, x: usize, row: &[u64], literal: Literal) -> bool
    requires place { x ≤ cost_place net.now }
    requires row { length row.now ≡ cost_place net.now + 1 }
    ensures { IsTrue result ↔ IsOut net.now x row.now literal }
{
    match literal {
        Literal::AtLeast(y, v) => is_lower_out(net, x, row, y as usize, v),
        Literal::AtMost(y, v) => is_upper_out(net, x, row, y as usize, v),
    }
}

/// The same, of the literal that the variable at a place is at least so much.
fn is_lower_out(net: &Network, x: usize, row: &[u64], y: usize, v: u64) -> bool
    requires place { x ≤ cost_place net.now }
    requires row { length row.now ≡ cost_place net.now + 1 }
    ensures { IsTrue result ↔ IsLowerOut net.now x row.now y v }
{
    if y == x {
        row[y] <= v
    } else {
        comes_before(net, y, x) && row[y] < v
    }
}

/// The same, of the literal that it is at most so much.
fn is_upper_out(net: &Network, x: usize, row: &[u64], y: usize, v: u64) -> bool
    requires place { x ≤ cost_place net.now }
    requires row { length row.now ≡ cost_place net.now + 1 }
    ensures { IsTrue result ↔ IsUpperOut net.now x row.now y v }
{
    comes_before(net, y, x) && v < row[y]
}

/// Whether each literal of a clause is so; then it leaves out all values that are less than these by the variable.
pub(crate) fn leaves_out(net: &Network, x: usize, row: &[u64], clause: &[Literal]) -> bool
    requires place { x ≤ cost_place net.now }
    requires row { length row.now ≡ cost_place net.now + 1 }
    ensures { IsTrue result ↔ IsAllOut net.now x row.now clause.now }
{
    for &literal in clause {
        if !is_out(net, x, row, literal) {
            return false;
        }
    }
    true
}
