//! Whole texts of readers and for writers, and why one cannot be read or written.
//!
//! Sizes are in bytes. `read_whole` takes all that a reader has, piece by piece, through a buffer of 65,536 bytes; more than
//! 16,777,216 bytes are `TooLong`. `write_whole` writes a text by a loop over `write`, and flushes once. A call that takes no byte,
//! or fails, is `Write`; a call that is interrupted counts as failed.
//!
//! ```text
//! read_whole(alloc, &mut "abc".as_bytes())    the bytes of abc, and the reader is at its end
//! write_whole(&mut out, b"abc")               abc is in out, or a beginning of it and `Write`
//! ```
//!
//! `IsRun` of `specs/` says what a command does with its readers and its writer: all of each reader is read, one after another, and
//! an answer is written; or the first fault ends it.
//!
//! Proved: what is read is all of the reader, and after a fault a beginning of it; what is written is the text, and after a fault a
//! beginning of it; the line and the status that tell of a fault are those of its kind. Both calls return.
#![tactic(auto)]

mod fault;
mod streams;

pub use fault::StreamFault;
pub use streams::{read_whole, write_whole};
