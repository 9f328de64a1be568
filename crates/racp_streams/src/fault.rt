//! Why reading or writing stopped.

ghost use Rattle.std.specs.Prelude.{◌≡◌};
ghost use Rattle.racp_streams.specs.Streams.{fault_line, fault_status};

use racp_lexfix::status::{OUT_OF_MEMORY, STREAM_FAILED};
use thiserror::Error;

/// Why no answer, or only a beginning of it, was written.
#[derive(Debug, Clone, Copy, PartialEq, Eq, Drop, Error)]
pub enum StreamFault {
    /// A read failed.
    #[error("the input cannot be read")]
    Read = 1,
    /// A write failed, or took no byte. What is out is a beginning of the text.
    #[error("the answer cannot be written")]
    Write = 2,
    /// The input is longer than 16,777,216 bytes.
    #[error("the input is longer than 16,777,216 bytes")]
    TooLong = 3,
    /// Memory for the input was refused.
    #[error("out of memory")]
    Memory = 4,
}

impl StreamFault {
    /// The line that tells of the fault, without its line feed.
    pub fn line(self) -> &'static str
        ensures { result.now ≡ fault_line self }
    {
        match self {
            StreamFault::Read => "read fault",
            StreamFault::Write => "write fault",
            StreamFault::TooLong => "too long",
            StreamFault::Memory => "memory",
        }
    }

    /// The status with which the program ends: 6 if memory was refused, else 7.
    pub fn status(self) -> u8
        ensures { result ≡ fault_status self }
    {
        match self {
            StreamFault::Read | StreamFault::Write | StreamFault::TooLong => STREAM_FAILED,
            StreamFault::Memory => OUT_OF_MEMORY,
        }
    }
}
