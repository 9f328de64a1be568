//! The check of a certificate against a network, an order and a plan.

ghost use Rattle.std.specs.Prelude.{◌≡◌, ◌↔◌, IfOk, IsErrOf, IsTrue, length};
ghost use Rattle.racp_model.specs.Terms.{AreTermsOf, release_of, due_of};
ghost use Rattle.racp_model.specs.Window.{IsRootWindow};
ghost use Rattle.racp_prices.specs.Units.{AreMostUnits};
ghost use Rattle.racp_trees.specs.Certificates.{IsCertificate};
ghost use Rattle.racp_trees.specs.Enough.{IsClaim};
ghost use Rattle.racp_check.specs.Leastness.{HasNoneEnoughBefore, IsLongEnough};

use racp_cpm::laws::critical_is_greatest_finish;
use racp_model::{Network, Never, Stop, Unfound, Window};
use racp_plan::Plan;
use racp_prices::{Order, most_units};
use racp_root::{Opening, opening_of};
use racp_trees::laws::certificate_proves;
use racp_trees::{Claim, are_enough_until, block_vectors_until};
use std::alloc::{AllocError, Global};

/// Whether a text is a certificate that no capacities before the plan's are enough on the order's terms. Of the plan
/// only the capacities are looked at: whether it is one is for `check_plan`. Takes time and memory in proportion to the
/// text, but for the search of alternatives and the test whether its blocks are enough; `check_proof_until` can stop them.
///
/// # Errors
///
/// Memory was refused.
pub fn check_proof(
    alloc: Global,
    net: &Network,
    order: &Order,
    plan: &Plan,
    bytes: &[u8],
) -> Result<bool, AllocError>
    requires terms { AreTermsOf net.now order.now }
    requires capacities { length plan.now.capacities ≡ net.now.resources }
    ensures exact { IfOk result (λ yes. IsTrue yes ↔ IsCertificate net.now order.now plan.now.capacities bytes.now) }
    ensures leastness { IfOk result (λ yes. IsTrue yes → HasNoneEnoughBefore net.now order.now plan.now.capacities) }
    ensures in_time { IfOk result (λ yes. IsTrue yes → IsLongEnough net.now order.now) }
{
    // It is never stopped, so memory was refused.
    match check_proof_until(alloc, net, order, plan, bytes, &Never) {
        Ok(found) => Ok(found),
        Err(_) => Err(AllocError),
    }
}

/// What `check_proof` tells, unless it is stopped. The stop is asked at each line of a tree, about each job that is
/// chosen to go where a child of a node is looked for, and at each box of capacities while it is told whether the
/// blocks are enough.
///
/// # Errors
///
/// Memory was refused, or the stop said so; a quiet one never does.
pub fn check_proof_until<S: Stop>(
    alloc: Global,
    net: &Network,
    order: &Order,
    plan: &Plan,
    bytes: &[u8],
    stop: &S,
) -> Result<bool, Unfound>
    requires terms { AreTermsOf net.now order.now }
    requires capacities { length plan.now.capacities ≡ net.now.resources }
    ensures exact { IfOk result (λ yes. IsTrue yes ↔ IsCertificate net.now order.now plan.now.capacities bytes.now) }
    ensures leastness { IfOk result (λ yes. IsTrue yes → HasNoneEnoughBefore net.now order.now plan.now.capacities) }
    ensures in_time { IfOk result (λ yes. IsTrue yes → IsLongEnough net.now order.now) }
    ensures quiet { IsTrue (S.is_quiet stop.now) → IsErrOf result Unfound.Stopped → ⊥ }
{
    certificate_proves();
    critical_is_greatest_finish();
    prove!(net.job_count() == net.job_count());
    let proved = is_certificate(alloc, net, order, plan.capacities.as_slice(), bytes, stop)?;
    Ok(proved)
}

/// Whether a text is a certificate that no capacities before these are enough.
fn is_certificate<S: Stop>(
    alloc: Global,
    net: &Network,
    order: &Order,
    capacities: &[u32],
    text: &[u8],
    stop: &S,
) -> Result<bool, Unfound>
    requires terms { AreTermsOf net.now order.now }
    requires capacities { length capacities.now ≡ net.now.resources }
    ensures exact { IfOk result (λ yes. IsTrue yes ↔ IsCertificate net.now order.now capacities.now text.now) }
    ensures quiet { IsTrue (S.is_quiet stop.now) → IsErrOf result Unfound.Stopped → ⊥ }
{
    critical_is_greatest_finish();
    prove!(net.job_count() == net.job_count());
    let window = match opening_of(alloc, net, order)? {
        Opening::Root { window, .. } => window,
        Opening::TooLong { .. } => return Ok(false),
        Opening::TooLate { .. } => return Ok(false),
    };
    let roofs = most_units(alloc, net, order)?;
    let claim = Claim {
        net,
        order,
        roofs: roofs.as_slice(),
        capacities,
    };
    let holds = holds_in(alloc, &claim, &window, text, stop)?;
    Ok(holds)
}

/// Whether a text is a certificate for a claim, given the root window of the order.
fn holds_in<S: Stop>(
    alloc: Global,
    claim: &Claim,
    root: &Window,
    text: &[u8],
    stop: &S,
) -> Result<bool, Unfound>
    requires claim { IsClaim claim.now }
    requires roofs { AreMostUnits claim.now.net.now claim.now.order.now claim.now.roofs.now }
    requires root { IsRootWindow claim.now.net.now (release_of claim.now.order.now) (due_of claim.now.order.now) root.now }
    ensures exact { IfOk result (λ yes. IsTrue yes ↔ IsCertificate claim.now.net.now claim.now.order.now claim.now.capacities.now text.now) }
    ensures quiet { IsTrue (S.is_quiet stop.now) → IsErrOf result Unfound.Stopped → ⊥ }
{
    prove!(claim.net.job_count() == claim.net.job_count());
    let Some(blocks) = block_vectors_until(alloc, claim.net, root, text, stop)? else {
        return Ok(false);
    };
    let enough = are_enough_until(alloc, claim, &blocks, stop)?;
    Ok(enough)
}
