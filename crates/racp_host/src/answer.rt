//! Answers that are written to standard output.

ghost use Rattle.std.specs.Prelude.{◌≡◌, IfOk, IsErrAnd, MatchResult, Ok};
ghost use Rattle.racp_host.specs.Statuses.{IsFailureOf};

use crate::failure::Failure;
use racp_streams::StreamFault;
use std::io;
use std::io::{Error, ErrorKind, Write};

/// Standard output, to which an answer is written. It knows whether a write failed since nobody reads there any more.
#[derive(Drop)]
pub struct Answer<'a, R: Print> {
    to: &'a R,
    is_unread: bool,
}

impl<'a, R: Print> Answer<'a, R> {
    /// Nothing is written yet.
    pub fn to(to: &'a R) -> Self {
        Answer {
            to,
            is_unread: false,
        }
    }

    /// What a command came to that wrote its answer here.
    ///
    /// # Errors
    ///
    /// The command failed.
    pub fn ended<T>(&self, came_to: Result<T, StreamFault>) -> Result<T, Failure>
        ensures ok { IfOk result (λ value. came_to ≡ Ok value) }
        ensures told { MatchResult came_to (λ value. result ≡ Ok value) (λ fault. IsErrAnd result (IsFailureOf fault)) }
    {
        match came_to {
            Ok(value) => Ok(value),
            Err(fault) => Err(self.failure(fault)),
        }
    }

    /// Why an answer is not written that ended with this fault: a write that failed since nobody reads is told apart from others.
    pub fn failure(&self, fault: StreamFault) -> Failure
        ensures { IsFailureOf fault result }
    {
        match fault {
            StreamFault::Write if self.is_unread => Failure::Unread,
            fault => Failure::Stream(fault),
        }
    }
}

impl<R: Print> Write for Answer<'_, R> {
    fn write(&mut self, bytes: &[u8]) -> io::Result<usize> {
        match self.to.write_some(bytes) {
            Ok(count) => Ok(count),
            Err(error) => {
                self.is_unread = is_unread(&error);
                Err(error)
            }
        }
    }

    fn flush(&mut self) -> io::Result<()> {
        Ok(())
    }
}

/// Whether a write failed since nobody reads what is written.
pub(crate) fn is_unread(error: &Error) -> bool {
    error.kind() == ErrorKind::BrokenPipe
}

/// Prints a whole text as an answer.
///
/// # Errors
///
/// It cannot be written, or nobody reads it.
pub fn print<R: Print>(rt: &R, text: &str) -> Result<(), Failure> {
    match rt.print(text) {
        Ok(()) => Ok(()),
        Err(error) if is_unread(&error) => Err(Failure::Unread),
        Err(_) => Err(Failure::Stream(StreamFault::Write)),
    }
}
