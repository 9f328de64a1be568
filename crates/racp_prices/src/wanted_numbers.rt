//! Lists of whole numbers, as they are written in a word.

ghost use Rattle.std.specs.Prelude.{◌≡◌, IfOk, option_map};
ghost use Rattle.racp_prices.specs.WantedNumbers.{number_of, numbers_of};

use racp_text::{cut_at, number};
use std::alloc::{AllocError, Global};

/// The whole numbers that stand between the commas of a word, as 3, 5, 2 and 7 in `3,5,2,7`. `None` if the word is
/// no such list: what stands before, between and after the commas has to be decimal digits alone, one or more, and
/// their number at most 4,294,967,295. Zeros may stand in front.
///
/// # Errors
///
/// Memory was refused.
pub fn numbers_of(alloc: Global, word: &str) -> Result<Option<Vec<u32>>, AllocError>
    ensures { IfOk result (λ found. option_map (λ numbers. numbers.items) found ≡ numbers_of word.now) }
{
    let mut numbers = Vec::new(alloc);
    let mut rest = word.as_bytes();
    while let Some((front, back)) = cut_at(rest, b',') {
        let Some(number) = number_of(front) else {
            return Ok(None);
        };
        numbers.push(number)?;
        rest = back;
    }
    let Some(number) = number_of(rest) else {
        return Ok(None);
    };
    numbers.push(number)?;
    Ok(Some(numbers))
}

/// The number that decimal digits are, if it is one of 32 bits.
fn number_of(digits: &[u8]) -> Option<u32>
    ensures { result ≡ number_of digits.now }
{
    let number = number(digits)?;
    if number <= u32::MAX as u64 {
        Some(number as u32)
    } else {
        None
    }
}
