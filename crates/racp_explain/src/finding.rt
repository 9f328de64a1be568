//! The words of a cause that follow the place and the name of the fault.

use crate::explain::push_title;
use crate::subject::Subject;
use crate::topic::topic_of;
use std::alloc::AllocError;

/// Adds what a fault means, in short, and what stands before what was wanted.
pub(crate) fn push_short(text: &mut String, subject: Subject) -> Result<(), AllocError> {
    let short = topic_of(subject).short;
    write!(text, ": {short}\nracp: wanted: ")
}

/// Adds the words by which more is told of a fault, after what is there.
pub(crate) fn push_more(text: &mut String, subject: Subject) -> Result<(), AllocError> {
    text.push_str("\nracp: 'racp explain ")?;
    match subject.number() {
        Some(number) => push_number(text, subject.format(), number)?,
        None => push_title(text, subject)?,
    }
    text.push_str("' says more\n")
}

/// Adds the kind of text that is refused, and the number of its fault.
fn push_number(text: &mut String, format: &str, number: u8) -> Result<(), AllocError> {
    write!(text, "{format} {number}")
}
