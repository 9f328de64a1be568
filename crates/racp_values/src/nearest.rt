//! Names that are like a name.

use crate::fault::ValueFault;
use caseless::default_case_fold_str;
use std::alloc::{AllocError, Global};
use strsim::levenshtein;

/// What is wrong with a name that is that of no resource: it is told which is the nearest, or else all.
pub(crate) fn unknown(
    alloc: Global,
    names: &[String],
    name: &str,
) -> Result<ValueFault, AllocError> {
    let near = nearest(alloc, names, name)?;
    let name = String::from_str(alloc, name)?;
    match near {
        Some(near) => {
            let near = String::from_str(alloc, near)?;
            Ok(ValueFault::Misspelt { name, near })
        }
        None => {
            let known = list_of(alloc, names)?;
            Ok(ValueFault::Unknown { name, known })
        }
    }
}

/// The first name that takes the fewest edits from this one, large and small letters being the same, if these are at
/// most a third of its letters, or one.
fn nearest<'a>(
    alloc: Global,
    names: &'a [String],
    name: &str,
) -> Result<Option<&'a str>, AllocError> {
    let name = default_case_fold_str(alloc, name)?;
    let mut least = (name.chars().count() / 3).max(1).saturating_add(1);
    let mut found = None;
    for known in names {
        let folded = default_case_fold_str(alloc, known.as_str())?;
        let edits = levenshtein(alloc, folded.as_str(), name.as_str())?;
        if edits < least {
            least = edits;
            found = Some(known.as_str());
        }
    }
    Ok(found)
}

/// The names between commas, in quotes.
fn list_of(alloc: Global, names: &[String]) -> Result<String, AllocError> {
    let mut list = String::new(alloc);
    for name in names {
        if !list.is_empty() {
            list.push_str(", ")?;
        }
        write!(list, "'{name}'")?;
    }
    Ok(list)
}
