//! The values themselves.

use crate::fault::ValueFault;
use crate::quantity::Quantity;
use racp_text::number;
use std::alloc::{AllocError, Global};

/// The most digits of whole units that are told in cents.
const MOST_DIGITS: usize = 9;

/// The value that decimal digits are, if 32 bits hold it.
pub(crate) fn value_in(digits: &str) -> Option<u32> {
    match number(digits.as_bytes()) {
        Some(value) if value <= u32::MAX as u64 => Some(value as u32),
        _ => None,
    }
}

/// Why a text is no value.
pub(crate) fn no_value(
    alloc: Global,
    text: &str,
    quantity: Quantity,
) -> Result<ValueFault, AllocError> {
    let value = String::from_str(alloc, text)?;
    if are_digits(text) {
        let limit = quantity.limit();
        return Ok(ValueFault::TooGreat { value, limit });
    }
    match (quantity, cents_of(text)) {
        (Quantity::Price, Some(cents)) => Ok(ValueFault::NotCents { value, cents }),
        _ => Ok(ValueFault::NotWhole { value }),
    }
}

/// Whether a text has digits, and nothing else.
fn are_digits(text: &str) -> bool {
    !text.is_empty() && text.bytes().all(|byte| byte.is_ascii_digit())
}

/// How many cents a decimal with one or two digits after its point is; `None` if the text is none.
fn cents_of(text: &str) -> Option<u64> {
    let (units, part) = text.split_once('.')?;
    if units.len() > MOST_DIGITS || part.len() > 2 {
        return None;
    }
    let (units, cents) = (number(units.as_bytes())?, number(part.as_bytes())?);
    let cents = if part.len() == 1 {
        cents.saturating_mul(10)
    } else {
        cents
    };
    Some(units.saturating_mul(100).saturating_add(cents))
}
