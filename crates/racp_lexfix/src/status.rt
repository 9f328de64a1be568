//! The statuses with which the program ends.

/// An answer was written.
pub const DONE: u8 = 0;

/// There is no plan.
pub const IMPOSSIBLE: u8 = 3;

/// It was stopped, and what is written is what was known by then.
pub const STOPPED: u8 = 4;

/// The input is refused, and the line that was written says why.
pub const REFUSED: u8 = 5;

/// Memory ran out.
pub const OUT_OF_MEMORY: u8 = 6;

/// The input could not be read, the answer could not be written, or a thread could not be started.
pub const STREAM_FAILED: u8 = 7;

/// A plan or a certificate has a fault, or there is no certificate.
pub const CHECK_FAILED: u8 = 8;
