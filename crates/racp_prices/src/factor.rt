//! Factors, and the deadlines that they make of a critical length.

ghost use Rattle.std.specs.Prelude.{◌≡◌, ℕ, ◌*◌, ◌/◌, ◌^◌, ◌<◌, ◌≤◌, IfSome, length};
ghost use Rattle.racp_prices.specs.Factors.{billionths_of, deadline_by, if_early, part_billionths, short_number, sum_of, whole_billionths};

use racp_model::limits::LATEST_TIME;
use racp_text::{cut_at, number};
use std::marker::Model;

/// The most digits before the point, and the most after it.
const MOST_DIGITS: usize = 9;

/// How many billionths one is.
const BILLION: u64 = 1_000_000_000;

/// A decimal number, read exactly. Contracts see the number of billionths that it is.
#[derive(Clone, Copy, PartialEq, Eq)]
pub struct Factor {
    billionths: u64,
}

impl Model for Factor {
    ghost Value = { ℕ };

    ghost view = { λ factor. factor.billionths };

    ghost inverse = { λ n. record { billionths = n } };
}

impl Factor {
    /// The number that a word is: decimal digits, or decimal digits, a point and decimal digits; one to nine of them
    /// before the point, and one to nine after it. `None` if the word is anything else, as with a sign, an exponent
    /// or a blank. `1.20` and `1.2` are the same number.
    pub fn read(word: &str) -> Option<Factor>
        ensures { result ≡ billionths_of word.now }
    {
        let billionths = billionths_of(word.as_bytes())?;
        Some(Factor { billionths })
    }

    /// The deadline, in time units, that is this many times a critical length: the whole part of their product. `None`
    /// if that is later than a deadline may be, 10,000,000.
    pub fn deadline(self, critical: u64) -> Option<u32>
        ensures { result ≡ deadline_by self critical }
    {
        if_early(whole_part(self.billionths, critical))
    }
}

/// The whole part of this many billionths of a length.
fn whole_part(billionths: u64, length: u64) -> u128
    ensures { result ≡ length * billionths / 1000000000 }
{
    length as u128 * billionths as u128 / BILLION as u128
}

/// The time, if a deadline may be as late.
fn if_early(time: u128) -> Option<u32>
    ensures { result ≡ if_early time }
{
    if time <= LATEST_TIME as u128 {
        Some(time as u32)
    } else {
        None
    }
}

/// The billionths of the number that a word is.
fn billionths_of(word: &[u8]) -> Option<u64>
    ensures { result ≡ billionths_of word.now }
{
    match cut_at(word, b'.') {
        Some((whole, part)) => sum_of(whole_billionths(whole), part_billionths(part)),
        None => whole_billionths(word),
    }
}

/// The sum of two numbers of billionths, if there are both.
fn sum_of(whole: Option<u64>, part: Option<u64>) -> Option<u64>
    requires whole { IfSome whole (λ x. x < 1000000000000000000) }
    requires part { IfSome part (λ x. x < 1000000000) }
    ensures { result ≡ sum_of whole part }
{
    Some(whole? + part?)
}

/// The billionths of what stands before the point.
fn whole_billionths(digits: &[u8]) -> Option<u64>
    ensures value { result ≡ whole_billionths digits.now }
    ensures small { IfSome result (λ x. x < 1000000000000000000) }
{
    Some(short_number(digits)? * BILLION)
}

/// The billionths of what stands after the point.
fn part_billionths(digits: &[u8]) -> Option<u64>
    ensures value { result ≡ part_billionths digits.now }
    ensures small { IfSome result (λ x. x < 1000000000) }
{
    let number = short_number(digits)?;
    Some(number * 10u64.pow((MOST_DIGITS - digits.len()) as u32))
}

/// The number that one to nine decimal digits are.
fn short_number(digits: &[u8]) -> Option<u64>
    ensures value { result ≡ short_number digits.now }
    ensures few { IfSome result (λ _. length digits.now ≤ 9) }
    ensures places { IfSome result (λ x. x < 10 ^ length digits.now) }
    ensures small { IfSome result (λ x. x < 1000000000) }
{
    if digits.len() > MOST_DIGITS {
        return None;
    }
    number(digits)
}
