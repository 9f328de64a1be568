//! Words and numbers on a line.

ghost use Rattle.std.specs.Prelude.{◌≡◌, ◌≤◌, ◌<◌, IfSome};
ghost use Rattle.racp_plan.specs.PlanReading.{has_zero_in_front, is_decimal};
ghost use Rattle.racp_text.specs.Numbers.{IsCapped};
ghost use Rattle.racp_derivations.specs.Words.{behind_word, first_word, number_of, place_of};

use racp_text::{cut_at, number};

/// The greatest number of a text.
pub(crate) const MOST_NUMBER: u64 = 1_000_000_000_000_000;

/// What stands before the first blank.
pub(crate) fn first_word(bytes: &[u8]) -> &[u8]
    ensures { result.now ≡ first_word bytes.now }
{
    match cut_at(bytes, b' ') {
        Some((word, _)) => word,
        None => bytes,
    }
}

/// What stands behind it, or nothing if there is no blank.
pub(crate) fn behind_word(bytes: &[u8]) -> &[u8]
    ensures { result.now ≡ behind_word bytes.now }
{
    match cut_at(bytes, b' ') {
        Some((_, rest)) => rest,
        None => &bytes[bytes.len()..],
    }
}

/// The number that a word is, up to the greatest.
pub(crate) fn number_of(word: &[u8]) -> Option<u64>
    ensures { result ≡ number_of word.now }
{
    let number = plain_number(word)?;
    if number <= MOST_NUMBER {
        Some(number)
    } else {
        None
    }
}

/// The number that a word is, or the greatest of 64 bits if it is greater; `None` if it is no number, or has a zero in
/// front.
fn plain_number(word: &[u8]) -> Option<u64>
    ensures { IsCapped is_decimal word.now result }
{
    if has_zero_in_front(word) {
        return None;
    }
    number(word)
}

/// Whether a zero stands first, and not alone.
fn has_zero_in_front(digits: &[u8]) -> bool
    ensures { result ≡ has_zero_in_front digits.now }
{
    1 < digits.len() && digits[0] == b'0'
}

/// The place of one of so many things that a number names.
#[tactic(auto, unfolding(crate::specs::Words::place_of))]
pub(crate) fn place_of(count: usize, word: &[u8]) -> Option<usize>
    ensures place { result ≡ place_of count word.now }
    ensures small { IfSome result (λ place. place < count) }
{
    let number = number_of(word)?;
    if 1 <= number && number <= count as u64 {
        Some(number as usize - 1)
    } else {
        None
    }
}
