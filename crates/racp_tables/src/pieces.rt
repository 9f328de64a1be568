//! Pieces of texts.

ghost use Rattle.std.specs.Prelude.{◌≡◌, ◌<◌, ◌++◌, IfOk, OnOk, map, flat_map, string_bytes, chars, encode_utf8_all, option_map};
ghost use Rattle.racp_tables.specs.Pieces.{between, parts_at, parts_at_last, without_end, without_last};

use std::alloc::{AllocError, Global};

/// The parts of a text before and behind the first of these letters, if it has one.
pub(crate) fn parts_at(text: &str, letter: char) -> Option<(&str, &str)>
    requires { letter < 128 }
    ensures { option_map (λ parts. (parts.0.now, parts.1.now)) result ≡ parts_at letter text.now }
{
    text.split_once(letter)
}

/// What stands between these letters.
pub(crate) fn between(alloc: Global, text: &str, letter: char) -> Result<Vec<&str>, AllocError>
    requires { letter < 128 }
    ensures { IfOk result (λ parts. map (λ part. part.now) parts.items ≡ between letter text.now) }
{
    text.split(letter).collect(alloc)
}

/// A text without these letters at its end.
pub(crate) fn without_end(text: &str, letter: u8) -> &str
    requires { letter < 128 }
    ensures { result.now ≡ without_end letter text.now }
{
    let bytes = text.as_bytes();
    let mut end = bytes.len();
    while end > 0 && bytes[end - 1] == letter {
        end -= 1;
    }
    let (front, _back) = text.split_at(end);
    front
}

/// The text of these letters.
pub(crate) fn text_of(alloc: Global, letters: &[char]) -> Result<String, AllocError>
    ensures { IfOk result (λ text. string_bytes text ≡ encode_utf8_all letters.now) }
{
    letters.iter().copied().collect(alloc)
}

/// The parts of a text before and behind the last of these letters, if it has one.
pub(crate) fn parts_at_last(text: &str, letter: u8) -> Option<(&str, &str)>
    requires { letter < 128 }
    ensures { option_map (λ parts. (parts.0.now, parts.1.now)) result ≡ parts_at_last letter text.now }
{
    let bytes = text.as_bytes();
    let mut end = bytes.len();
    while end > 0 && bytes[end - 1] != letter {
        end -= 1;
    }
    if end == 0 {
        return None;
    }
    let (front, _rest) = text.split_at(end - 1);
    let (_front, back) = text.split_at(end);
    Some((front, back))
}

/// A text without its last letter, if it is this one.
pub(crate) fn without_last(text: &str, letter: u8) -> Option<&str>
    requires low { 0 < letter }
    requires ascii { letter < 128 }
    ensures { option_map (λ front. front.now) result ≡ without_last letter text.now }
{
    let bytes = text.as_bytes();
    if bytes.is_empty() || bytes[bytes.len() - 1] != letter {
        return None;
    }
    let (front, _back) = text.split_at(bytes.len() - 1);
    Some(front)
}
