//! Faults that show at a line of a text.

ghost use Rattle.std.specs.Prelude.{◌≡◌};
ghost use Rattle.racp_text.specs.Faults.{fault_at};

use std::fmt::Display;
use thiserror::Error;

/// Why a text was not read: what is wrong, and the number of the line where that shows, from 1; 0 if it is no one
/// line.
#[derive(Debug, Clone, Copy, PartialEq, Eq, Drop, Error)]
#[error_bound(K: Display)]
#[error("line {line}: {kind}")]
pub struct LineFault<K> {
    /// What is wrong.
    pub kind: K,
    /// The number of the line, from 1, or 0.
    pub line: usize,
}

impl<K> LineFault<K> {
    /// A fault of this kind at this line.
    pub fn at(kind: K, line: usize) -> Self
        ensures { result ≡ fault_at kind line }
    {
        LineFault { kind, line }
    }
}
