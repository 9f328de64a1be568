//! Causes in one line.

use std::alloc::{AllocError, Global};

/// How many lines of a cause say what is wrong, what was wanted and what is there.
const LINES: usize = 3;

/// What a cause says, part by part; empty what it does not say.
#[derive(Clone, Copy)]
pub struct Parts<'a> {
    /// What is wrong, and where.
    pub says: &'a str,
    /// What was wanted there.
    pub wanted: &'a str,
    /// What is there.
    pub found: &'a str,
}

/// The parts of a cause: its first three lines, without the words that each begins with.
pub fn parts_of(cause: &str) -> Parts<'_> {
    let mut lines = cause.lines();
    Parts {
        says: behind(lines.next(), "racp: "),
        wanted: behind(lines.next(), "racp: wanted: "),
        found: behind(lines.next(), "racp: there:  "),
    }
}

/// A line without the words that it begins with; nothing of no line.
fn behind<'a>(line: Option<&'a str>, front: &str) -> &'a str {
    match line {
        Some(line) => line.strip_prefix(front).unwrap_or(line),
        None => "",
    }
}

/// A cause in one line: what is wrong, what was wanted, and what is there; nothing of an empty cause. The words by which
/// `explain` says more are left out.
///
/// # Errors
///
/// Memory was refused.
pub fn one_line(alloc: Global, cause: &str) -> Result<String, AllocError> {
    let mut text = String::new(alloc);
    push_parts(&mut text, cause)?;
    Ok(text)
}

/// Adds the lines of a cause that say what is wrong, as one line.
fn push_parts(text: &mut String, cause: &str) -> Result<(), AllocError> {
    for line in cause.lines().take(LINES) {
        push_part(text, line)?;
    }
    if text.is_empty() {
        return Ok(());
    }
    text.push('\n')
}

/// Adds a line of a cause: the first as it is, and the others without what each line begins with.
fn push_part(text: &mut String, line: &str) -> Result<(), AllocError> {
    if text.is_empty() {
        return text.push_str(line);
    }
    text.push_str("; ")?;
    match line.strip_prefix("racp: there:  ") {
        Some(there) => write!(text, "there: {there}"),
        None => text.push_str(line.strip_prefix("racp: ").unwrap_or(line)),
    }
}
