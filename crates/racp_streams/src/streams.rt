//! Reading all of a reader, and writing all of a text.

ghost use Rattle.std.specs.Prelude.{◌≡◌, ℕ, ◌+◌, ◌<◌, ◌≤◌, length, All, MatchResult};
ghost use Rattle.racp_streams.specs.Streams.{IsInput, IsReadUntil, IsWritten, input_limit};
ghost use Rattle.racp_streams.specs.Pieces.{IsPieceRead};

use crate::fault::StreamFault;
use racp_text::MOST_TEXT_BYTES;
use std::alloc::Global;
use std::io::{Read, Write};

/// How many bytes one call reads at most.
const PIECE: usize = 65_536;

/// All that is left of a reader, at most 16,777,216 bytes.
///
/// # Errors
///
/// `Read`, a read failed; `TooLong`, there are more bytes, of which one was read; `Memory`, memory for them was refused. What was
/// read until then is a beginning of what was left.
pub fn read_whole<R: Read>(alloc: Global, reader: &mut R) -> Result<Vec<u8>, StreamFault>
    ensures { MatchResult result (λ input. IsInput (R.remaining reader.old) (R.remaining reader.new) input.items)
        (IsReadUntil (R.remaining reader.old) (R.remaining reader.new)) }
{
    let mut input = Vec::new(alloc);
    let mut buffer = [0; PIECE];
    while input.len() <= MOST_TEXT_BYTES {
        let room = PIECE.min(MOST_TEXT_BYTES + 1 - input.len());
        if !read_piece(reader, &mut buffer[..room], &mut input)? {
            return Ok(input);
        }
    }
    Err(StreamFault::TooLong)
}

/// Reads a piece, through the buffer, to the end of the input; false at the end of the reader.
fn read_piece<R: Read>(
    reader: &mut R,
    buffer: &mut [u8],
    input: &mut Vec<u8>,
) -> Result<bool, StreamFault>
    requires { 0 < length buffer.old }
    ensures bytes { All (λ byte. byte < 256) input.new.items }
    ensures piece { IsPieceRead (R.remaining reader.old) (R.remaining reader.new) (length buffer.old) input.old.items
        input.new.items result }
{
    let Ok(count) = reader.read(buffer) else {
        return Err(StreamFault::Read);
    };
    if input.extend_from_slice(&buffer[..count]).is_err() {
        return Err(StreamFault::Memory);
    }
    Ok(count > 0)
}

/// Writes all of a text, and flushes the writer.
///
/// # Errors
///
/// `Write`, a write or the flush failed, or a write took no byte. What is out is a beginning of the text.
pub fn write_whole<W: Write>(writer: &mut W, text: &[u8]) -> Result<(), StreamFault>
    ensures { IsWritten (W.contents writer.old) (W.contents writer.new) text.now result }
{
    let mut rest = text;
    while !rest.is_empty() {
        match writer.write(rest) {
            Ok(0) | Err(_) => return Err(StreamFault::Write),
            Ok(count) => rest = &rest[count..],
        }
    }
    match writer.flush() {
        Ok(()) => Ok(()),
        Err(_) => Err(StreamFault::Write),
    }
}
