//! Numbers in decimal, and what stands after words and numbers.

ghost use Rattle.std.specs.Prelude.{◌≡◌, ◌++◌, bytes_eq, codes};
ghost use Rattle.std.specs.Fmt.{decimal};
ghost use Rattle.racp_plan.specs.PlanReading.{has_zero_in_front, is_decimal};
ghost use Rattle.racp_text.specs.Numbers.{IsCapped};
ghost use Rattle.racp_plan.specs.Steps.{after_words, contents};

use racp_text::{cut_at, number};

/// What stands after these words, or `None` if the line begins with others.
pub fn after_words<'a>(line: &'a [u8], words: &str) -> Option<&'a [u8]>
    ensures { contents result ≡ after_words words.now line.now }
{
    line.strip_prefix(words.as_bytes())
}

/// What stands after this number and a blank, or `None` if the bytes begin otherwise.
pub(crate) fn after_number(bytes: &[u8], wanted: u32) -> Option<&[u8]>
    ensures { contents result ≡ after_words (decimal wanted ++ codes " ") bytes.now }
{
    let (digits, rest) = cut_at(bytes, b' ')?;
    if are_digits_of(digits, wanted) {
        Some(rest)
    } else {
        None
    }
}

/// Whether a number is written so.
fn are_digits_of(digits: &[u8], wanted: u32) -> bool
    ensures { result ≡ bytes_eq digits.now (decimal wanted) }
{
    match plain_number(digits) {
        Some(number) => number == wanted as u64,
        None => false,
    }
}

/// The number that digits stand for, or the greatest of 64 bits if it is greater; `None` if they are no number,
/// or begin with a zero that is not all of them.
pub fn plain_number(digits: &[u8]) -> Option<u64>
    ensures { IsCapped is_decimal digits.now result }
{
    if has_zero_in_front(digits) {
        None
    } else {
        number(digits)
    }
}

/// Whether a zero stands first, and not alone.
fn has_zero_in_front(digits: &[u8]) -> bool
    ensures { result ≡ has_zero_in_front digits.now }
{
    1 < digits.len() && digits[0] == b'0'
}
