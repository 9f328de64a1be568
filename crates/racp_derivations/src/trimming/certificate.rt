//! A certificate by clauses for a plan.

ghost use Rattle.std.specs.Prelude.{IfOk, IfSome};
ghost use Rattle.racp_model.specs.Terms.{AreTermsOf};
ghost use Rattle.racp_derivations.specs.Texts.{IsDerivationText};

use crate::trimming::closing::Shown;
use crate::trimming::needed::needed_for;
use crate::trimming::writer::Writer;
use crate::verdict::establishes_by_text;
use racp_clauses::Domain;
use racp_learning::Derivations;
use racp_model::Network;
use racp_plan::Plan;
use racp_prices::Order;
use std::alloc::{AllocError, Global};

/// A certificate by clauses for the plan of an order, made of the derivations of a search from its root bounds with floors
/// of 0; or `None`, if these do not show the plan, not all of them were recorded, or the text would have more than 16,777,216
/// bytes.
///
/// # Errors
///
/// Memory was refused.
pub fn certificate_by_clauses(
    alloc: Global,
    net: &Network,
    order: &Order,
    root: &Domain,
    plan: &Plan,
    derivations: &Derivations,
) -> Result<Option<Vec<u8>>, AllocError>
    requires { AreTermsOf net.now order.now }
    ensures { IfOk result (λ text. IfSome text (λ text. IsDerivationText net.now order.now plan.now.capacities plan.now.starts text.items)) }
{
    let shown = Shown { net, root, plan };
    let Some(text) = text_of(alloc, &shown, derivations)? else {
        return Ok(None);
    };
    if establishes_by_text(alloc, net, order, plan, &text)? {
        return Ok(Some(text));
    }
    Ok(None)
}

/// The text of the derivations that are needed, if there are such.
fn text_of(
    alloc: Global,
    shown: &Shown,
    derivations: &Derivations,
) -> Result<Option<Vec<u8>>, AllocError> {
    if derivations.is_full() {
        return Ok(None);
    }
    let Some(closing) = shown.closing(alloc, derivations)? else {
        return Ok(None);
    };
    let needed = needed_for(alloc, derivations, &closing)?;
    Writer::text_of(alloc, shown.net, derivations, &needed)
}
