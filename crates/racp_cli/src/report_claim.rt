//! What a certificate shows of a plan that a page is made of.

ghost use Rattle.std.specs.Prelude.{◌≡◌, IfOk, IfSome, length, option_map};
ghost use Rattle.racp_model.specs.Terms.{AreTermsOf};
ghost use Rattle.racp_report.specs.Claims.{IsClaim};
ghost use Rattle.racp_cli.specs.ReportAnswers.{IsBoundBy, IsClaimBy, IsShownBy};

use crate::check::Checked;
use crate::verdict::is_proved;
use racp_derivations::least_by_text;
use racp_model::Never;
use racp_report::Claim;
use std::alloc::{AllocError, Global};

/// What a text shows of what a plan costs, or nothing is known without one; `None` if there is one and it shows nothing.
pub(crate) fn claim_of(
    alloc: Global,
    found: &Checked,
    proof: Option<&[u8]>,
) -> Result<Option<Claim>, AllocError>
    requires terms { AreTermsOf found.now.net found.now.order }
    requires capacities { length found.now.plan.capacities ≡ found.now.net.resources }
    ensures exact { IfOk result (IsClaimBy found.now.net found.now.order found.now.plan
        (option_map (λ proof. proof.now) proof.entry)) }
    ensures shown { IfOk result (λ claim. IfSome claim (IsClaim found.now.net found.now.order found.now.plan)) }
{
    match proof {
        Some(proof) => shown_by(alloc, found, proof),
        None => Ok(Some(Claim::Unknown)),
    }
}

/// What a text shows: that the plan is the cheapest, or else a bound.
fn shown_by(alloc: Global, found: &Checked, proof: &[u8]) -> Result<Option<Claim>, AllocError>
    requires terms { AreTermsOf found.now.net found.now.order }
    requires capacities { length found.now.plan.capacities ≡ found.now.net.resources }
    ensures exact { IfOk result (IsShownBy found.now.net found.now.order found.now.plan proof.now) }
    ensures shown { IfOk result (λ claim. IfSome claim (IsClaim found.now.net found.now.order found.now.plan)) }
{
    match is_proved(alloc, found, proof, &Never) {
        Ok(true) => Ok(Some(Claim::Cheapest)),
        Ok(false) => bound_by(alloc, found, proof),
        // It is never stopped, so memory was refused.
        Err(_) => Err(AllocError),
    }
}

/// What each plan costs at least, if a text shows that.
fn bound_by(alloc: Global, found: &Checked, proof: &[u8]) -> Result<Option<Claim>, AllocError>
    requires terms { AreTermsOf found.now.net found.now.order }
    ensures exact { IfOk result (IsBoundBy found.now.net found.now.order proof.now) }
    ensures shown { IfOk result (λ claim. IfSome claim (IsClaim found.now.net found.now.order found.now.plan)) }
{
    match least_by_text(alloc, &found.net, &found.order, proof)? {
        Some(least) => Ok(Some(Claim::AtLeast(least))),
        None => Ok(None),
    }
}
