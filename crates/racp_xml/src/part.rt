//! Elements among marks.

use crate::mark::{Kind, Mark};
use std::alloc::{AllocError, Global};

/// The marks of each element of a name at a depth, from the one that opens it to the one that closes it.
///
/// # Errors
///
/// Memory was refused.
pub fn parts<'b, 'a>(
    alloc: Global,
    marks: &'b [Mark<'a>],
    depth: usize,
    name: &str,
) -> Result<Vec<&'b [Mark<'a>]>, AllocError> {
    let mut found = Vec::new(alloc);
    let mut begin = None;
    for (place, mark) in marks.iter().enumerate() {
        if mark.depth == depth && mark.name == name {
            match mark.kind {
                Kind::Opens => begin = Some(place),
                Kind::Closes => keep(&mut found, marks, begin, place)?,
                Kind::Empty | Kind::Passed => {}
            }
        }
    }
    Ok(found)
}

/// Adds the marks from one that opens an element to one that closes it.
fn keep<'b, 'a>(
    found: &mut Vec<&'b [Mark<'a>]>,
    marks: &'b [Mark<'a>],
    begin: Option<usize>,
    end: usize,
) -> Result<(), AllocError> {
    let part = match begin {
        Some(begin) => marks.get(begin..end),
        None => None,
    };
    if let Some(part) = part {
        found.push(part)?;
    }
    Ok(())
}

/// The text at the begin of the first element of a name at a depth, without the blanks around it; `None` if there is no such element, or
/// it has no text.
pub fn text_of<'a>(marks: &[Mark<'a>], depth: usize, name: &str) -> Option<&'a str> {
    for mark in marks {
        if mark.depth == depth && mark.name == name && mark.kind == Kind::Opens {
            let text = mark.text.trim();
            return if text.is_empty() { None } else { Some(text) };
        }
    }
    None
}
