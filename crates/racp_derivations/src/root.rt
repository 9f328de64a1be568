//! The root bounds with which derivations begin.

ghost use Rattle.std.specs.Prelude.{◌≡◌, IfOk, IfSome, MatchOption, length, replicate};
ghost use Rattle.racp_model.specs.Terms.{AreTermsOf, release_of, due_of};
ghost use Rattle.racp_model.specs.Window.{Bounds, IsRootWindow};
ghost use Rattle.racp_cpm.specs.Ends.{IsRootAnswer};
ghost use Rattle.racp_clauses.specs.Roots.{IsOpen, IsRootOf};
ghost use Rattle.racp_derivations.specs.Texts.{IsOrderRoot};

use racp_clauses::{Domain, root_of};
use racp_cpm::root;
use racp_model::{Network, Window};
use racp_prices::{Order, due_times};
use std::alloc::{AllocError, Global};

/// The root bounds of an order whose floors are 0, or `None` if no starts are in time. Derivations of a text begin with them.
///
/// # Errors
///
/// Memory was refused.
pub fn root_bounds(
    alloc: Global,
    net: &Network,
    order: &Order,
) -> Result<Option<Domain>, AllocError>
    requires { AreTermsOf net.now order.now }
    ensures root { IfOk result (λ found. MatchOption found
        ((root : Bounds) → IsOrderRoot net.now order.now root → ⊥)
        (λ root. IsOrderRoot net.now order.now root)) }
    ensures open { IfOk result (λ found. IfSome found (λ root. IsOpen (record { network = net.now; terms = order.now; root = root }))) }
{
    let Some(window) = window_of(alloc, net, order)? else {
        return Ok(None);
    };
    let floors = vec![in alloc; 0; net.resource_count()]?;
    let bounds = root_of(alloc, net, order, &window, &floors)?;
    Ok(Some(bounds))
}

/// The root window of an order, if some starts are in time.
fn window_of(alloc: Global, net: &Network, order: &Order) -> Result<Option<Window>, AllocError>
    requires { AreTermsOf net.now order.now }
    ensures { IfOk result (IsRootAnswer net.now (release_of order.now) (due_of order.now)) }
{
    let due = due_times(alloc, order)?;
    root(alloc, net, order.release.as_slice(), due.as_slice())
}
