//! Writing an answer.

ghost use Rattle.racp_cli.specs.Responses.{IsMade};
ghost use Rattle.racp_streams.specs.Streams.{IsAnswerWritten};

use crate::status::OUT_OF_MEMORY;
use racp_streams::{StreamFault, write_whole};
use std::alloc::AllocError;
use std::io::Write;

/// Writes the text of an answer, or that memory ran out if it could not be made, and returns the status.
pub(crate) fn respond<W: Write>(
    answer: Result<(u8, Vec<u8>), AllocError>,
    out: &mut W,
) -> Result<u8, StreamFault>
    ensures { IsAnswerWritten (IsMade answer) (W.contents out.old) (W.contents out.new) result }
{
    match answer {
        Ok((status, text)) => {
            write_whole(out, &text)?;
            Ok(status)
        }
        Err(AllocError) => {
            write_whole(out, b"memory\n")?;
            Ok(OUT_OF_MEMORY)
        }
    }
}
