//! `prove --facts`: a certificate by clauses for the plan of a network on the terms of an order, made on one thread.

ghost use Rattle.std.specs.Prelude.{IfOk};
ghost use Rattle.racp_cli.specs.ClauseProofs.{IsClauseProofAnswer, IsClauseProofRun};

use crate::refusal::refused;
use crate::respond::respond;
use racp_model::Stop;
use racp_prove::prove_by_clauses;
use racp_streams::{StreamFault, read_whole};
use std::alloc::{AllocError, Global};
use std::io::{Read, Write};

/// Reads a network text and an order text, all of each before the next, makes the plan on the calling thread, and
/// writes to `out` a certificate by clauses that it is the plan of the order, or a line that says why there is none. Where the
/// plan is not found, since the search for it was stopped or takes too much memory, it writes a certificate of what each plan
/// costs at least, if it has one. Returns the status that belongs to what was written: 0 for a certificate of the plan, 3 if
/// there is no plan, 4 for a certificate of a bound, 5 if a text is refused, 6 if memory ran out, 8 if no certificate was made,
/// or that of the plan would have more than 16,777,216 bytes.
///
/// # Errors
///
/// After these nothing was written: `Read`, a read failed; `TooLong`, a reader has more than 16,777,216 bytes;
/// `Memory`, memory for an input was refused. After `Write`, a write failed or took no byte, and what is out is a
/// beginning of the text.
pub fn prove_by_clauses_over<N: Read, O: Read, W: Write, S: Stop>(
    alloc: Global,
    net: &mut N,
    order: &mut O,
    out: &mut W,
    stop: &S,
) -> Result<u8, StreamFault>
    ensures { IsClauseProofRun (record { unread = N.remaining net.old; left = N.remaining net.new })
        (record { unread = O.remaining order.old; left = O.remaining order.new })
        (W.contents out.old) (W.contents out.new) result }
{
    let net = read_whole(alloc, net)?;
    let order = read_whole(alloc, order)?;
    respond(answer(alloc, &net, &order, stop), out)
}

/// The status and the text of the answer to the texts of a network and an order.
fn answer<S: Stop>(
    alloc: Global,
    net: &[u8],
    order: &[u8],
    stop: &S,
) -> Result<(u8, Vec<u8>), AllocError>
    ensures { IfOk result (λ answer. IsClauseProofAnswer net.now order.now answer.0 answer.1.items) }
{
    match prove_by_clauses(alloc, net, order, stop) {
        Ok(printed) => Ok((printed.status, printed.text)),
        Err(refusal) => refused(alloc, refusal),
    }
}
