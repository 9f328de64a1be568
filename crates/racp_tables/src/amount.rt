//! Numbers as spreadsheets write them.

ghost use Rattle.std.specs.Prelude.{◌≡◌, ◌<◌, IfOk, length, map, string_bytes};
ghost use Rattle.racp_tables.specs.Amounts.{amount_said, are_threes, grouped, number_or, is_mark, one_marked, so_many, whole_number, wholly, with_decimals};
ghost use Rattle.racp_tables.specs.Pieces.{between};

use crate::pieces::{between, parts_at};
use racp_text::number;
use std::alloc::{AllocError, Global};

/// What a word says, if it is a number.
#[derive(Clone, Copy)]
pub(crate) enum Amount {
    /// So many hundredths.
    Hundredths(u64),
    /// A number with a mark that may stand before thousands or before decimals.
    Ambiguous,
    /// No number.
    Nothing,
}

/// A whole number, one with one or two decimals after a point or a comma, or one with blanks or apostrophes before each three
/// digits.
pub(crate) fn amount_of(alloc: Global, word: &str) -> Result<Amount, AllocError>
    ensures { IfOk result (λ amount. amount ≡ amount_said word.now) }
{
    if let Some(ones) = whole_number(word) {
        return Ok(so_many(ones, 0));
    }
    if let Some((front, back)) = parts_at(word, '.') {
        return Ok(decimal(front, back));
    }
    if let Some((front, back)) = parts_at(word, ',') {
        return Ok(decimal(front, back));
    }
    in_threes(alloc, word)
}

/// The number that a word of digits says.
pub(crate) fn whole_number(word: &str) -> Option<u64>
    ensures { result ≡ whole_number word.now }
{
    number(word.as_bytes())
}

/// So many whole ones and hundredths.
fn so_many(ones: u64, hundredths: u64) -> Amount
    ensures { result ≡ so_many ones hundredths }
{
    Amount::Hundredths(ones.saturating_mul(100).saturating_add(hundredths))
}

/// A number with these digits before and behind its mark.
fn decimal(front: &str, back: &str) -> Amount
    ensures { result ≡ with_decimals (whole_number front.now) (whole_number back.now) (length back.now) }
{
    let Some(ones) = whole_number(front) else {
        return Amount::Nothing;
    };
    let Some(part) = whole_number(back) else {
        return Amount::Nothing;
    };
    with_decimals(ones, part, back.len())
}

/// A number of so many whole ones, and so many digits behind its mark.
fn with_decimals(ones: u64, part: u64, digits: usize) -> Amount
    ensures { result ≡ with_decimals (Some ones) (Some part) digits }
{
    if digits == 1 {
        so_many(ones, part.saturating_mul(10))
    } else if digits == 2 {
        so_many(ones, part)
    } else if digits == 3 {
        Amount::Ambiguous
    } else {
        Amount::Nothing
    }
}

/// A whole number with blanks or apostrophes before each three digits.
fn in_threes(alloc: Global, word: &str) -> Result<Amount, AllocError>
    ensures { IfOk result (λ amount. amount ≡ grouped (between 39 (one_marked word.now))) }
{
    let marked = one_marked(alloc, word)?;
    let groups = between(alloc, marked.as_str(), '\'')?;
    if !are_threes(&groups) {
        return Ok(Amount::Nothing);
    }
    let digits = groups.concat(alloc)?;
    Ok(whole_or_nothing(digits.as_str()))
}

/// What a word of digits says.
fn whole_or_nothing(word: &str) -> Amount
    ensures { result ≡ number_or (whole_number word.now) Amount.Nothing }
{
    match whole_number(word) {
        Some(ones) => so_many(ones, 0),
        None => Amount::Nothing,
    }
}

/// Whether all groups have three digits but the first that has some.
fn are_threes(groups: &[&str]) -> bool
    ensures { result ≡ are_threes (map (λ group. group.now) groups.now) }
{
    let mut has_begun = false;
    for group in groups {
        if has_begun && group.len() != 3 {
            return false;
        }
        has_begun |= !group.is_empty();
    }
    true
}

/// A word with an apostrophe in place of each blank or apostrophe.
fn one_marked(alloc: Global, word: &str) -> Result<String, AllocError>
    ensures { IfOk result (λ marked. string_bytes marked ≡ one_marked word.now) }
{
    word.chars()
        .map(|letter| if is_mark(letter) { '\'' } else { letter })
        .collect(alloc)
}

/// Whether a letter may stand before three digits.
fn is_mark(letter: char) -> bool
    ensures { result ≡ is_mark letter }
{
    letter == '\'' || letter == '\u{2019}' || letter.is_whitespace()
}

/// How often the lower number goes into the upper one, if it does so wholly and at most so often.
pub(crate) fn wholly(above: u64, below: u64, most: u32) -> Option<u32>
    requires { 0 < below }
    ensures { result ≡ wholly above below most }
{
    if above % below != 0 {
        return None;
    }
    let times = above / below;
    if times <= most as u64 {
        Some(times as u32)
    } else {
        None
    }
}
