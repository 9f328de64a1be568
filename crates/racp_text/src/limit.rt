//! How long a text may be.

/// The most bytes of a text that the program reads, and of a certificate: 16 mebibytes.
pub const MOST_TEXT_BYTES: usize = 16_777_216;
