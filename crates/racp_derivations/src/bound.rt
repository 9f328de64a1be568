//! Whether a text shows what all capacities that are enough cost at least.

ghost use Rattle.std.specs.Prelude.{◌≡◌, ◌≤◌, IfOk, IfSome, IsErrOf, IsTrue, List, ℕ};
ghost use Rattle.racp_model.specs.Terms.{AreTermsOf, cost};
ghost use Rattle.racp_model.specs.Plan.{IsEnough};
ghost use Rattle.racp_clauses.specs.Roots.{IsOpen};
ghost use Rattle.racp_clauses.specs.Uses.{IsLeastCost};
ghost use Rattle.racp_derivations.specs.BoundTexts.{IsLeastByText, IsLeastIn};

use crate::bounding::show_least;
use crate::checking::Checking;
use crate::reading::read_bound;
use crate::root::root_bounds;
use crate::stepping::Given;
use racp_clauses::{Domain, OfProblem};
use racp_model::{Network, Never, Stop, Unfound};
use racp_prices::Order;
use std::alloc::{AllocError, Global};
use std::marker::Brand;

/// What all capacities that are enough for an order cost at least, if a text of clauses with their derivations says so and
/// shows it. Takes time and memory as `establishes_by_text` does.
///
/// # Errors
///
/// Memory was refused.
pub fn least_by_text(
    alloc: Global,
    net: &Network,
    order: &Order,
    text: &[u8],
) -> Result<Option<u64>, AllocError>
    requires terms { AreTermsOf net.now order.now }
    ensures exact { IfOk result (IsLeastByText net.now order.now text.now) }
    ensures least { IfOk result (λ found. IfSome found (λ least.
        (capacities : List ℕ) → IsEnough net.now order.now capacities → least ≤ cost order.now capacities)) }
{
    // It is never stopped, so memory was refused.
    match least_by_text_until(alloc, net, order, text, &Never) {
        Ok(found) => Ok(found),
        Err(_) => Err(AllocError),
    }
}

/// What `least_by_text` tells, unless it is stopped. The stop is asked at each line.
///
/// # Errors
///
/// Memory was refused, or the stop said so; a quiet one never does.
pub fn least_by_text_until<S: Stop>(
    alloc: Global,
    net: &Network,
    order: &Order,
    text: &[u8],
    stop: &S,
) -> Result<Option<u64>, Unfound>
    requires terms { AreTermsOf net.now order.now }
    ensures exact { IfOk result (IsLeastByText net.now order.now text.now) }
    ensures least { IfOk result (λ found. IfSome found (λ least.
        (capacities : List ℕ) → IsEnough net.now order.now capacities → least ≤ cost order.now capacities)) }
    ensures quiet { IsTrue (S.is_quiet stop.now) → IsErrOf result Unfound.Stopped → ⊥ }
{
    let Some(root) = root_bounds(alloc, net, order)? else {
        return Ok(None);
    };
    let given = Given { net, order };
    least_in(alloc, &given, &root, text, stop)
}

/// The same, from the root bounds of the order.
fn least_in<S: Stop>(
    alloc: Global,
    given: &Given,
    root: &Domain,
    text: &[u8],
    stop: &S,
) -> Result<Option<u64>, Unfound>
    requires terms { AreTermsOf given.now.net.now given.now.order.now }
    requires open { IsOpen (record { network = given.now.net.now; terms = given.now.order.now; root = root.now }) }
    ensures exact { IfOk result (IsLeastIn given.now.net.now given.now.order.now root.now text.now) }
    ensures least { IfOk result (λ found. IfSome found
        (IsLeastCost (record { network = given.now.net.now; terms = given.now.order.now; root = root.now }))) }
    ensures quiet { IsTrue (S.is_quiet stop.now) → IsErrOf result Unfound.Stopped → ⊥ }
{
    least_of::<Brand, S>(alloc, given, root, text, stop)
}

/// The same, of the problem that `N` names.
fn least_of<N: OfProblem, S: Stop>(
    alloc: Global,
    given: &Given,
    root: &Domain,
    text: &[u8],
    stop: &S,
) -> Result<Option<u64>, Unfound>
    requires named { given.now.net.now ≡ N.problem.network }
    requires of_order { given.now.order.now ≡ N.problem.terms }
    requires root { root.now ≡ N.problem.root }
    requires fit { AreTermsOf given.now.net.now given.now.order.now }
    requires open { IsOpen N.problem }
    ensures exact { IfOk result (IsLeastIn given.now.net.now given.now.order.now root.now text.now) }
    ensures least { IfOk result (λ found. IfSome found (IsLeastCost N.problem)) }
    ensures quiet { IsTrue (S.is_quiet stop.now) → IsErrOf result Unfound.Stopped → ⊥ }
{
    let mut checking: Checking<N> = Checking::new(alloc, root)?;
    let Some(least) = read_bound(alloc, given, &mut checking, text, stop)? else {
        return Ok(None);
    };
    if show_least(given.net, least, checking.clauses()) {
        return Ok(Some(least));
    }
    Ok(None)
}
