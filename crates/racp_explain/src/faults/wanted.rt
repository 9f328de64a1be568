//! What was wanted, before what is there.

use crate::faults::THERE;
use std::alloc::AllocError;

/// Adds what was wanted, and what stands between it and what is there.
pub(crate) fn push_wanted(text: &mut String, wanted: &str) -> Result<(), AllocError> {
    text.push_str(wanted)?;
    text.push_str(THERE)
}
