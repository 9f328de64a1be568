//! What looks wrong in a table that is taken.

use std::alloc::{AllocError, Global};

/// Something that looks wrong in a table.
#[derive(Drop)]
pub struct Warning {
    /// The line of the text where it shows, from 1; 0 if it is no one line.
    pub line: u64,
    /// What it is, in words.
    pub words: String,
}

/// Adds a warning.
pub(crate) fn warn(
    warnings: &mut Vec<Warning>,
    line: u64,
    words: Result<String, AllocError>,
) -> Result<(), AllocError> {
    let words = words?;
    warnings.push(Warning { line, words })?;
    Ok(())
}

/// The words between commas, in quotes.
pub(crate) fn listed(alloc: Global, words: &[String]) -> Result<String, AllocError> {
    let mut list = String::new(alloc);
    for word in words {
        if !list.is_empty() {
            list.push_str(", ")?;
        }
        write!(list, "'{word}'")?;
    }
    Ok(list)
}
