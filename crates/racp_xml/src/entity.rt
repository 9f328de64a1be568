//! Entities.

use std::alloc::{AllocError, Global};

/// A text with the five entities, and references to characters by numbers, as what they stand for; `None` if another entity
/// stands there, or no character has a number.
///
/// # Errors
///
/// Memory was refused.
pub fn unescaped(alloc: Global, text: &str) -> Result<Option<String>, AllocError> {
    let mut out = String::new(alloc);
    let mut is_first = true;
    for piece in text.split('&') {
        if is_first {
            is_first = false;
            out.push_str(piece)?;
        } else {
            let Some((name, rest)) = piece.split_once(';') else {
                return Ok(None);
            };
            let Some(character) = character_of(name) else {
                return Ok(None);
            };
            out.push(character)?;
            out.push_str(rest)?;
        }
    }
    Ok(Some(out))
}

/// The character of an entity.
fn character_of(name: &str) -> Option<char> {
    match name {
        "lt" => Some('<'),
        "gt" => Some('>'),
        "amp" => Some('&'),
        "quot" => Some('"'),
        "apos" => Some('\''),
        _ => numbered(name),
    }
}

/// The character of a reference such as `#228` or `#xE4`.
fn numbered(name: &str) -> Option<char> {
    let digits = name.strip_prefix('#')?;
    if digits.starts_with('+') || digits.starts_with("x+") {
        return None;
    }
    let code = match digits.strip_prefix('x') {
        Some(hex) => u32::from_str_radix(hex, 16).ok()?,
        None => digits.parse::<u32>().ok()?,
    };
    char::from_u32(code)
}
