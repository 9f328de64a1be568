//! Days that are free.

use jiff_core::civil::Date;

/// Days that are free, from a first to a last one.
#[derive(Clone, Copy)]
pub struct Holiday {
    /// The first of them.
    pub first: Date,
    /// The last of them.
    pub last: Date,
}
