//! Names that are like a word.

use crate::row::Row;
use std::alloc::{AllocError, Global};
use strsim::levenshtein;

/// A longer word or name is like no other: edits are counted in time that grows with the product of both lengths.
const MOST_BYTES: usize = 200;

/// The first name of a task that takes the fewest edits from a word, if these are at most a third of its letters, or
/// one. A word of more than 200 bytes is like none, and no word is like such a name.
pub(crate) fn similar_name<'a>(
    alloc: Global,
    rows: &'a [Row],
    word: &str,
) -> Result<Option<&'a str>, AllocError> {
    let mut least = (word.len() / 3).max(1).saturating_add(1);
    let mut found = None;
    if word.len() > MOST_BYTES {
        return Ok(found);
    }
    for row in rows.iter().filter(|row| row.name.len() <= MOST_BYTES) {
        let edits = levenshtein(alloc, row.name.as_str(), word)?;
        if edits < least {
            least = edits;
            found = Some(row.name.as_str());
        }
    }
    Ok(found)
}
