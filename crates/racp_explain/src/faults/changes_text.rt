//! What is wrong with a text of changes.

use crate::faults::THERE;
use crate::faults::line_of::push_with_end;
use std::alloc::AllocError;

/// Adds what a text of changes has to begin with, and the line with which it begins.
///
/// # Errors
///
/// Memory was refused.
pub(crate) fn push_changes_finding(text: &mut String, bytes: &[u8]) -> Result<(), AllocError> {
    text.push_str("first the line of this plan, as racp whatif NET ORDER PLAN prints it")?;
    text.push_str(THERE)?;
    push_with_end(text, bytes, 1)
}
