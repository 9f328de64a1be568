//! The lines of a text.

ghost use Rattle.std.specs.Prelude.{◌<◌, ◌≤◌, IfOk};
ghost use Rattle.racp_trees.specs.Reading.{IsBehind, IsSpelled, IsNumberBefore, IsNumberOn, IsStepAnswer, IsVectorAnswer};

use crate::step::Step;
use racp_plan::number::{after_words, plain_number};
use racp_text::cut_at;
use std::alloc::{AllocError, Global};

/// What stands after these words, or `None` if a text begins otherwise.
pub(crate) fn behind<'a>(text: &'a [u8], words: &str) -> Option<&'a [u8]>
    ensures { IsBehind words.now text.now result }
{
    after_words(text, words)
}

/// The number that digits spell, or `None` if they spell none of 32 bits.
fn spelled(digits: &[u8]) -> Option<u32>
    ensures { IsSpelled digits.now result }
{
    let number = plain_number(digits)?;
    if number <= u32::MAX as u64 {
        Some(number as u32)
    } else {
        None
    }
}

/// The number that a text begins with, and what stands after it and this byte, or `None` if it begins otherwise.
fn number_before(text: &[u8], end: u8) -> Option<(u32, &[u8])>
    requires { end < 48 }
    ensures { IsNumberBefore end text.now result }
{
    let (digits, rest) = cut_at(text, end)?;
    let number = spelled(digits)?;
    Some((number, rest))
}

/// The number after these words on the first line, and what stands after that line, or `None` if it is another.
fn number_on<'a>(text: &'a [u8], words: &str) -> Option<(u32, &'a [u8])>
    ensures { IsNumberOn words.now text.now result }
{
    number_before(behind(text, words)?, b'\n')
}

/// The line of a tree that a text begins with, and what stands after it, or `None` if it begins with none.
pub(crate) fn read_step(text: &[u8]) -> Option<(Step, &[u8])>
    ensures { IsStepAnswer text.now result }
{
    if let Some((job, rest)) = number_on(text, "L ") {
        return Some((Step::L(job), rest));
    }
    if let Some((time, rest)) = number_on(text, "D ") {
        return Some((Step::D(time), rest));
    }
    let (node, rest) = number_on(text, "C ")?;
    Some((Step::C(node), rest))
}

/// The vector of this many numbers on the line that a text begins with, and what stands after it, or `None` if it
/// begins otherwise.
pub(crate) fn read_vector(
    alloc: Global,
    text: &[u8],
    count: usize,
) -> Result<Option<(Vec<u32>, &[u8])>, AllocError>
    requires { 1 ≤ count }
    ensures { IfOk result (IsVectorAnswer count text.now) }
{
    let mut vector = Vec::new(alloc);
    let Some(mut rest) = behind(text, "vector ") else {
        return Ok(None);
    };
    for _ in 1..count {
        let Some((number, more)) = number_before(rest, b' ') else {
            return Ok(None);
        };
        vector.push(number)?;
        rest = more;
    }
    let Some((number, more)) = number_before(rest, b'\n') else {
        return Ok(None);
    };
    vector.push(number)?;
    Ok(Some((vector, more)))
}
