//! How long a command may take.

use crate::failure::OptionFault;
use std::time::Duration;

/// The most seconds that can be asked for.
const MOST: u64 = 1_000_000_000;

/// How many digits of a second count at most.
const DIGITS: usize = 9;

/// The time that a word for seconds tells, such as 60 or 0.5; none without a word.
///
/// # Errors
///
/// The word is no decimal, with at most nine digits after the point, above 0 and up to 1,000,000,000.
pub fn time_limit(word: Option<&str>) -> Result<Option<Duration>, OptionFault> {
    match word {
        Some(word) => match seconds(word) {
            Some(limit) => Ok(Some(limit)),
            None => Err(OptionFault::TimeLimit),
        },
        None => Ok(None),
    }
}

/// The time of a decimal number of seconds, if it is one that can be asked for.
fn seconds(word: &str) -> Option<Duration> {
    let (whole, part) = word.split_once('.').unwrap_or((word, "0"));
    if !is_of_digits(whole) || !is_of_digits(part) || part.len() > DIGITS {
        return None;
    }
    let time = Duration::from_secs(whole.parse().ok()?).saturating_add(Duration::from_nanos(
        billionths(part),
    ));
    if Duration::ZERO < time && time <= Duration::from_secs(MOST) {
        Some(time)
    } else {
        None
    }
}

/// Whether a word is one or more decimal digits.
fn is_of_digits(word: &str) -> bool {
    !word.is_empty() && word.as_bytes().iter().all(is_digit)
}

/// Whether a byte is a decimal digit.
fn is_digit(byte: &u8) -> bool {
    b'0' <= *byte && *byte <= b'9'
}

/// The billionths that digits after a point write.
fn billionths(digits: &str) -> u64 {
    let mut sum = 0u64;
    for place in 0..DIGITS {
        let digit = match digits.as_bytes().get(place) {
            Some(byte) => byte.saturating_sub(b'0'),
            None => 0,
        };
        sum = sum.saturating_mul(10).saturating_add(digit as u64);
    }
    sum
}
