//! Whether a text shows that a plan is the plan of its order.

ghost use Rattle.std.specs.Prelude.{◌≡◌, ◌↔◌, IfOk, IsErrOf, IsTrue, replicate};
ghost use Rattle.racp_model.specs.Terms.{AreTermsOf};
ghost use Rattle.racp_model.specs.Plan.{IsPlan};
ghost use Rattle.racp_clauses.specs.Roots.{IsOpen};
ghost use Rattle.racp_derivations.specs.Texts.{IsDerivationText, IsOrderRoot, ShowsIn};

use crate::checking::Checking;
use crate::reading::read_text;
use crate::root::root_bounds;
use crate::stepping::Given;
use racp_clauses::{Domain, OfProblem, PlanValues, establishes};
use racp_model::{Network, Never, Stop, Unfound};
use racp_plan::Plan;
use racp_prices::Order;
use std::alloc::{AllocError, Global};
use std::marker::Brand;

/// Whether a text of clauses with their derivations shows that the capacities and starts of a plan are the plan of an
/// order. Its deadline, critical length and cost are not looked at. Takes time in proportion to the text, where a step
/// takes time for each job or resource or, at most, for each literal of the clause that it names, and memory in proportion.
///
/// # Errors
///
/// Memory was refused.
pub fn establishes_by_text(
    alloc: Global,
    net: &Network,
    order: &Order,
    plan: &Plan,
    text: &[u8],
) -> Result<bool, AllocError>
    requires terms { AreTermsOf net.now order.now }
    ensures exact { IfOk result (λ yes. IsTrue yes ↔ IsDerivationText net.now order.now plan.now.capacities plan.now.starts text.now) }
    ensures plan { IfOk result (λ yes. IsTrue yes → IsPlan net.now order.now plan.now.capacities plan.now.starts) }
{
    // It is never stopped, so memory was refused.
    match establishes_by_text_until(alloc, net, order, plan, text, &Never) {
        Ok(shown) => Ok(shown),
        Err(_) => Err(AllocError),
    }
}

/// What `establishes_by_text` tells, unless it is stopped. The stop is asked at each line.
///
/// # Errors
///
/// Memory was refused, or the stop said so; a quiet one never does.
pub fn establishes_by_text_until<S: Stop>(
    alloc: Global,
    net: &Network,
    order: &Order,
    plan: &Plan,
    text: &[u8],
    stop: &S,
) -> Result<bool, Unfound>
    requires terms { AreTermsOf net.now order.now }
    ensures exact { IfOk result (λ yes. IsTrue yes ↔ IsDerivationText net.now order.now plan.now.capacities plan.now.starts text.now) }
    ensures plan { IfOk result (λ yes. IsTrue yes → IsPlan net.now order.now plan.now.capacities plan.now.starts) }
    ensures quiet { IsTrue (S.is_quiet stop.now) → IsErrOf result Unfound.Stopped → ⊥ }
{
    let Some(root) = root_bounds(alloc, net, order)? else {
        return Ok(false);
    };
    let given = Given { net, order };
    establishes_in(alloc, &given, &root, plan, text, stop)
}

/// The same, from the root bounds of the order.
fn establishes_in<S: Stop>(
    alloc: Global,
    given: &Given,
    root: &Domain,
    plan: &Plan,
    text: &[u8],
    stop: &S,
) -> Result<bool, Unfound>
    requires terms { AreTermsOf given.now.net.now given.now.order.now }
    requires open { IsOpen (record { network = given.now.net.now; terms = given.now.order.now; root = root.now }) }
    ensures exact { IfOk result (λ yes. IsTrue yes ↔ ShowsIn given.now.net.now given.now.order.now root.now plan.now.capacities plan.now.starts text.now) }
    ensures plan { IfOk result (λ yes. IsTrue yes → IsPlan given.now.net.now given.now.order.now plan.now.capacities plan.now.starts) }
    ensures quiet { IsTrue (S.is_quiet stop.now) → IsErrOf result Unfound.Stopped → ⊥ }
{
    establishes_of::<Brand, S>(alloc, given, root, plan, text, stop)
}

/// The same, of the problem that `N` names.
fn establishes_of<N: OfProblem, S: Stop>(
    alloc: Global,
    given: &Given,
    root: &Domain,
    plan: &Plan,
    text: &[u8],
    stop: &S,
) -> Result<bool, Unfound>
    requires named { given.now.net.now ≡ N.problem.network }
    requires of_order { given.now.order.now ≡ N.problem.terms }
    requires root { root.now ≡ N.problem.root }
    requires fit { AreTermsOf given.now.net.now given.now.order.now }
    requires open { IsOpen N.problem }
    ensures exact { IfOk result (λ yes. IsTrue yes ↔ ShowsIn given.now.net.now given.now.order.now root.now plan.now.capacities plan.now.starts text.now) }
    ensures plan { IfOk result (λ yes. IsTrue yes → IsPlan given.now.net.now given.now.order.now plan.now.capacities plan.now.starts) }
    ensures quiet { IsTrue (S.is_quiet stop.now) → IsErrOf result Unfound.Stopped → ⊥ }
{
    let mut checking: Checking<N> = Checking::new(alloc, root)?;
    if !read_text(alloc, given, &mut checking, text, stop)? {
        return Ok(false);
    }
    let values = PlanValues {
        capacities: &plan.capacities,
        starts: &plan.starts,
    };
    let clauses = checking.clauses();
    let is_shown = establishes(alloc, given.net, given.order, root, &values, clauses)?;
    Ok(is_shown)
}
