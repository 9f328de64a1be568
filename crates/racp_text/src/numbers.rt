//! Decimal numbers.

ghost use Rattle.std.specs.Prelude.{◌≡◌, true, min};
ghost use Rattle.std.specs.List.{list_all};
ghost use Rattle.std.specs.Char.{is_ascii_digit};
ghost use Rattle.racp_text.specs.Numbers.{IsCapped, is_number, value};

/// The number that a word stands for, or the greatest of 64 bits if it is greater; `None` if the word is no
/// number, that is, not of decimal digits alone, one or more. Zeros may stand in front.
pub fn number(word: &[u8]) -> Option<u64>
    ensures { IsCapped is_number word.now result }
{
    if is_number(word) {
        Some(value(word))
    } else {
        None
    }
}

/// Whether a word is made of decimal digits, one or more.
fn is_number(word: &[u8]) -> bool
    ensures { result ≡ is_number word.now }
{
    !word.is_empty() && are_digits(word)
}

/// Whether there are decimal digits alone.
fn are_digits(bytes: &[u8]) -> bool
    ensures { result ≡ list_all is_ascii_digit bytes.now }
{
    bytes.iter().all(|digit| digit.is_ascii_digit())
}

/// The number that digits stand for, or the greatest of 64 bits if it is greater.
fn value(digits: &[u8]) -> u64
    requires { list_all is_ascii_digit digits.now ≡ true }
    ensures { result ≡ min (value digits.now) 18446744073709551615 }
{
    let mut number = 0u64;
    for digit in digits {
        number = number
            .saturating_mul(10)
            .saturating_add((*digit - b'0') as u64);
    }
    number
}
