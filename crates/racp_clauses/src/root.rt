//! The root bounds of an order.

ghost use Rattle.std.specs.Prelude.{◌≡◌, ◌++◌, [], ◌∷◌, ◌≤◌, IfOk, All};
ghost use Rattle.racp_model.specs.Terms.{AreTermsOf, release_of, due_of};
ghost use Rattle.racp_model.specs.Window.{IsRootWindow};
ghost use Rattle.racp_clauses.specs.Solutions.{most_value};
ghost use Rattle.racp_clauses.specs.Roots.{AreNeeded, IsOpen, IsRootOf};

use crate::domain::Domain;
use racp_model::{Network, Window};
use racp_prices::{Order, cost_of, most_units};
use std::alloc::{AllocError, Global};

/// The root bounds of an order: its root window; of each resource the units from a floor, which each plan needs and is
/// at most the sum of all requests, to that sum, or to the ceiling if that is less; and the costs of these. They leave
/// nothing out.
///
/// # Errors
///
/// Memory was refused.
pub fn root_of(
    alloc: Global,
    net: &Network,
    order: &Order,
    window: &Window,
    floors: &[u32],
) -> Result<Domain, AllocError>
    requires terms { AreTermsOf net.now order.now }
    requires root { IsRootWindow net.now (release_of order.now) (due_of order.now) window.now }
    requires floors { AreNeeded net.now order.now floors.now }
    ensures root { IfOk result (IsRootOf net.now order.now window.now floors.now) }
    ensures open { IfOk result (λ root. IsOpen (record { network = net.now; terms = order.now; root = root })) }
{
    let starts = window.lower();
    prove!(starts.len() == net.job_count());
    let units = most_units(alloc, net, order)?;
    let least = cost_of(net, order, floors);
    let lower = row_of(alloc, starts, floors, least)?;
    let most = cost_of(net, order, units.as_slice());
    let upper = row_of(alloc, window.upper(), units.as_slice(), most)?;
    Ok(Domain::new(lower, upper))
}

/// Bounds of the starts, of the units and of the cost.
fn row_of(alloc: Global, starts: &[u32], units: &[u32], cost: u64) -> Result<Vec<u64>, AllocError>
    requires starts { All (λ x. x ≤ most_value) starts.now }
    requires units { All (λ x. x ≤ most_value) units.now }
    requires cost { cost ≤ most_value }
    ensures row { IfOk result (λ row. row.items ≡ starts.now ++ (units.now ++ cost ∷ [])) }
    ensures small { IfOk result (λ row. All (λ x. x ≤ most_value) row.items) }
{
    let places = starts.len().saturating_add(units.len()).saturating_add(1);
    let mut row = Vec::with_capacity(alloc, places)?;
    for &start in starts {
        row.push(start as u64)?;
    }
    for &unit in units {
        row.push(unit as u64)?;
    }
    row.push(cost)?;
    Ok(row)
}
