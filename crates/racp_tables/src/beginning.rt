//! The beginning of a text, as messages tell it.

use std::alloc::{AllocError, Global};

/// So many letters of a cell are told.
const MOST_LETTERS: usize = 60;

/// A text as it is told: of a long one the beginning.
pub(crate) fn beginning(alloc: Global, text: &str) -> Result<String, AllocError> {
    let mut told = String::new(alloc);
    for letter in text.chars().take(MOST_LETTERS) {
        told.push(letter)?;
    }
    if told.len() < text.len() {
        told.push_str(" ..")?;
    }
    Ok(told)
}
