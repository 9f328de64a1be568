//! A plan as JSON.

use crate::sheet::Sheet;
use std::alloc::{AllocError, Global};

/// The sheet of a plan as one line of JSON: an object with the deadline, the critical length, the cost, an array of the
/// jobs and one of the resources.
///
/// # Errors
///
/// Memory was refused.
pub fn json_text(alloc: Global, sheet: &Sheet<'_>) -> Result<String, AllocError> {
    match serde_json::to_string(alloc, sheet) {
        Ok(mut text) => {
            text.push('\n')?;
            Ok(text)
        }
        // A sheet has no value that JSON cannot say.
        Err(_) => Err(AllocError),
    }
}
