//! Values in the order of the resources, or by name.

ghost use Rattle.std.specs.Prelude.{◌≡◌, ◌⊎◌, IfOk, Some, length};
ghost use Rattle.racp_prices.specs.WantedNumbers.{numbers_of};

use crate::fault::ValueFault;
use crate::named::values_by_name;
use crate::number::{no_value, value_in};
use crate::quantity::Quantity;
use racp_prices::numbers_of;
use std::alloc::Global;

/// The values that a word gives: by name, if there is a `=` in it, to resources with these names, or else in their order.
///
/// # Errors
///
/// What is wrong with the word, or that memory was refused.
pub fn values_of(
    alloc: Global,
    word: &str,
    names: &[String],
    quantity: Quantity,
) -> Result<Vec<u32>, ValueFault>
    ensures { IfOk result (λ values. (numbers_of word.now ≡ Some values.items) ⊎ (length values.items ≡ length names.now)) }
{
    if word.contains('=') {
        values_by_name(alloc, word, names, quantity)
    } else {
        in_order(alloc, word, quantity)
    }
}

/// The values that stand between the commas of a word.
fn in_order(alloc: Global, word: &str, quantity: Quantity) -> Result<Vec<u32>, ValueFault>
    ensures { IfOk result (λ values. numbers_of word.now ≡ Some values.items) }
{
    match numbers_of(alloc, word)? {
        Some(values) => Ok(values),
        None => Err(first_fault(alloc, word, quantity)),
    }
}

/// What is wrong with the first part of a word that is no value.
fn first_fault(alloc: Global, word: &str, quantity: Quantity) -> ValueFault {
    let wrong = word.split(',').find(is_no_value).unwrap_or(word);
    match no_value(alloc, wrong, quantity) {
        Ok(fault) => fault,
        Err(_) => ValueFault::Memory,
    }
}

/// Whether a part of a word is no value.
fn is_no_value(part: &&str) -> bool {
    value_in(part).is_none()
}
