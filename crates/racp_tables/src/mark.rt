//! Marks, by which a text is known as one that was written for a table and not changed since.

ghost use Rattle.std.specs.Prelude.{◌≡◌, IfOk, Ok, string_bytes};
ghost use Rattle.racp_model.specs.Project.{Project};
ghost use Rattle.racp_sm.specs.Reading.{IsReading};

use crate::tested::is_text_of;
use racp_sm::read_sm;
use std::alloc::{AllocError, Global};

/// How the mark of a network begins.
const NETWORK: &[u8] = b"made by racp import: ";

/// How the mark of an order begins.
const ORDER: &[u8] = b"# made by racp import: ";

/// How many digits a checksum has.
const DIGITS: usize = 16;

/// What a checksum begins with, and is multiplied by at each byte.
const BASIS: u64 = 0xcbf2_9ce4_8422_2325;

const PRIME: u64 = 0x0100_0000_01b3;

/// The text of a network with a mark above it, which tells the checksums of this text and of that of the names.
///
/// # Errors
///
/// Memory was refused.
pub fn marked_network(alloc: Global, network: &str, names: &str) -> Result<String, AllocError>
    ensures { IfOk result (λ text. (net : Project) × IsReading network.now (Ok net) × IsReading (string_bytes text) (Ok net)) }
{
    let (own, other) = (checksum(network.as_bytes()), checksum(names.as_bytes()));
    let text = format!(in alloc; "made by racp import: {own:016x} {other:016x}\n{network}")?;
    same_network(alloc, network, text)
}

/// A text that is read as the same network as another.
fn same_network(alloc: Global, network: &str, text: String) -> Result<String, AllocError>
    ensures { IfOk result (λ text. (net : Project) × IsReading network.now (Ok net) × IsReading (string_bytes text) (Ok net)) }
{
    match read_sm(alloc, network.as_bytes()) {
        Ok(net) => {
            if is_text_of(alloc, &net, text.as_bytes()) {
                Ok(text)
            } else {
                Err(AllocError)
            }
        }
        Err(_) => Err(AllocError),
    }
}

/// The text of an order with a mark above it, which tells the checksum of this text.
///
/// # Errors
///
/// Memory was refused.
pub fn marked_order(alloc: Global, order: &[u8]) -> Result<Vec<u8>, AllocError> {
    let mark = format!(in alloc; "# made by racp import: {:016x}\n", checksum(order))?;
    let mut text = mark.into_bytes();
    text.extend_from_slice(order)?;
    Ok(text)
}

/// Whether a text is a network with a mark that tells its checksum.
pub fn is_own_network(text: &[u8]) -> bool {
    is_own(text, NETWORK)
}

/// Whether a text is an order with a mark that tells its checksum.
pub fn is_own_order(text: &[u8]) -> bool {
    is_own(text, ORDER)
}

/// Whether the mark of a network tells the checksum of these names.
pub fn are_own_names(network: &[u8], names: &[u8]) -> bool {
    match network.strip_prefix(NETWORK) {
        Some(rest) => {
            let second = rest.get(DIGITS + 1..DIGITS + 1 + DIGITS);
            second.is_some() && second.and_then(hexadecimal) == Some(checksum(names))
        }
        None => false,
    }
}

/// Whether a text has a mark that begins so and tells the checksum of what stands below it.
fn is_own(text: &[u8], begin: &[u8]) -> bool {
    let Some(rest) = text.strip_prefix(begin) else {
        return false;
    };
    let Some(told) = rest.get(..DIGITS) else {
        return false;
    };
    hexadecimal(told) == Some(checksum(below(rest)))
}

/// What stands below the first line.
fn below(text: &[u8]) -> &[u8] {
    match text.iter().position(is_line_feed) {
        Some(place) => text.get(place.saturating_add(1)..).unwrap_or(&[]),
        None => &[],
    }
}

/// Whether a byte ends a line.
fn is_line_feed(byte: &u8) -> bool {
    *byte == b'\n'
}

/// The number that these digits of base 16 write, if they are such.
fn hexadecimal(digits: &[u8]) -> Option<u64> {
    let mut number = 0u64;
    for digit in digits {
        let digit = (*digit as char).to_digit(16)?;
        number = number.wrapping_mul(16).wrapping_add(digit as u64);
    }
    Some(number)
}

/// The checksum of a text: from a first number on, each byte is joined by exclusive or, and the result multiplied.
fn checksum(text: &[u8]) -> u64 {
    let mut sum = BASIS;
    for byte in text {
        sum = (sum ^ *byte as u64).wrapping_mul(PRIME);
    }
    sum
}
