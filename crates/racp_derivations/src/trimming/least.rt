//! A certificate by clauses of what all capacities that are enough cost at least.

ghost use Rattle.std.specs.Prelude.{IfOk, IfSome};
ghost use Rattle.racp_model.specs.Terms.{AreTermsOf};
ghost use Rattle.racp_derivations.specs.BoundTexts.{IsBoundText};

use crate::bound::least_by_text;
use crate::trimming::needed::needed_for;
use crate::trimming::writer::Writer;
use racp_clauses::Literal;
use racp_learning::Derivations;
use racp_model::Network;
use racp_prices::Order;
use std::alloc::{AllocError, Global};

/// A certificate by clauses of what all capacities that are enough cost at least.
#[derive(Drop)]
pub struct BoundCertificate {
    /// What they cost at least.
    pub least: u64,
    /// The text.
    pub text: Vec<u8>,
}

/// A certificate by clauses of what all capacities that are enough for an order cost at least, made of the derivations of a
/// search from its root bounds with floors of 0. Of the bounds that were told it is the greatest whose text has at most
/// 16,777,216 bytes, about; or `None`, if there is none.
///
/// # Errors
///
/// Memory was refused.
pub fn bound_certificate(
    alloc: Global,
    net: &Network,
    order: &Order,
    derivations: &Derivations,
) -> Result<Option<BoundCertificate>, AllocError>
    requires { AreTermsOf net.now order.now }
    ensures { IfOk result (λ found. IfSome found (λ made. IsBoundText net.now order.now made.least made.text.items)) }
{
    let Some(text) = greatest_text(alloc, net, derivations)? else {
        return Ok(None);
    };
    match least_by_text(alloc, net, order, &text)? {
        Some(least) => Ok(Some(BoundCertificate { least, text })),
        None => Ok(None),
    }
}

/// A derivation whose clause says alone that the cost is at least so much.
#[derive(Clone, Copy)]
struct Told {
    at: u32,
    least: u64,
}

/// The text of the greatest bound that is short enough: the greatest of all is tried first, and then what is left is halved.
fn greatest_text(
    alloc: Global,
    net: &Network,
    derivations: &Derivations,
) -> Result<Option<Vec<u8>>, AllocError> {
    let bounds = bounds_told(alloc, net, derivations)?;
    let (mut low, mut high) = (0, bounds.len());
    let mut at = high.saturating_sub(1);
    let mut found = None;
    for _i in 0..u64::BITS {
        if high <= low {
            break;
        }
        match text_at(alloc, net, derivations, &bounds, at)? {
            Some(text) => {
                found = Some(text);
                low = at.saturating_add(1);
            }
            None => high = at,
        }
        at = low.saturating_add(high.saturating_sub(low) / 2);
    }
    Ok(found)
}

/// The derivations that were told whose clauses say alone that the cost is at least so much, each more than those before it.
fn bounds_told(
    alloc: Global,
    net: &Network,
    derivations: &Derivations,
) -> Result<Vec<Told>, AllocError> {
    let mut bounds = Vec::new(alloc);
    let mut most = 0;
    for &at in derivations.told() {
        if let Some(least) = least_said(net, derivations.literals(at as usize)) {
            if most < least {
                most = least;
                bounds.push(Told { at, least })?;
            }
        }
    }
    Ok(bounds)
}

/// What a clause says that the cost is at least, if it says that alone.
fn least_said(net: &Network, literals: &[Literal]) -> Option<u64> {
    match literals {
        [Literal::AtLeast(x, least)] if *x as usize == net.job_count() + net.resource_count() => {
            Some(*least)
        }
        _ => None,
    }
}

/// The text of the bound at a place, if it is short enough.
fn text_at(
    alloc: Global,
    net: &Network,
    derivations: &Derivations,
    bounds: &[Told],
    at: usize,
) -> Result<Option<Vec<u8>>, AllocError> {
    let Some(told) = bounds.get(at) else {
        return Ok(None);
    };
    let needed = needed_for(alloc, derivations, &[told.at])?;
    Writer::bound_text_of(alloc, net, derivations, &needed, told.least)
}
