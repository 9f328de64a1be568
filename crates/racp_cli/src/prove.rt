//! `prove`: a certificate for the plan of a network on the terms of an order, made on one thread.

ghost use Rattle.std.specs.Prelude.{IfOk};
ghost use Rattle.racp_cli.specs.Proofs.{IsProofAnswer, IsProofAnswerUntil, IsProofRun, IsProofRunUntil};

use crate::refusal::refused;
use crate::respond::respond;
use racp_model::Stop;
use racp_prove::{prove_alone, prove_until};
use racp_streams::{StreamFault, read_whole};
use std::alloc::{AllocError, Global};
use std::io::{Read, Write};

/// Reads a network text and an order text, all of each before the next, makes the plan on the calling thread, and
/// writes to `out` a certificate that no capacities before those of the plan are enough, or a line that says why there
/// is none. Returns the status that belongs to what was written: 0 for a certificate, 3 if there is no plan, 5 if
/// a text is refused, 6 if memory ran out, 8 if the certificate would have more than 16,777,216 bytes.
///
/// # Errors
///
/// After these nothing was written: `Read`, a read failed; `TooLong`, a reader has more than 16,777,216 bytes;
/// `Memory`, memory for an input was refused. After `Write`, a write failed or took no byte, and what is out is a
/// beginning of the text.
pub fn prove_over<N: Read, O: Read, W: Write>(
    alloc: Global,
    net: &mut N,
    order: &mut O,
    out: &mut W,
) -> Result<u8, StreamFault>
    ensures { IsProofRun (record { unread = N.remaining net.old; left = N.remaining net.new })
        (record { unread = O.remaining order.old; left = O.remaining order.new })
        (W.contents out.old) (W.contents out.new) result }
{
    let net = read_whole(alloc, net)?;
    let order = read_whole(alloc, order)?;
    respond(answer(alloc, &net, &order), out)
}

/// What `prove_over` does, unless it is stopped: then it writes that no certificate was made, and returns 8.
///
/// # Errors
///
/// As with `prove_over`.
pub fn prove_over_until<N: Read, O: Read, W: Write, S: Stop>(
    alloc: Global,
    net: &mut N,
    order: &mut O,
    out: &mut W,
    stop: &S,
) -> Result<u8, StreamFault>
    ensures { IsProofRunUntil (S.is_quiet stop.now) (record { unread = N.remaining net.old; left = N.remaining net.new })
        (record { unread = O.remaining order.old; left = O.remaining order.new })
        (W.contents out.old) (W.contents out.new) result }
{
    let net = read_whole(alloc, net)?;
    let order = read_whole(alloc, order)?;
    respond(answer_until(alloc, &net, &order, stop), out)
}

/// The status and the text of the answer to the texts of a network and an order.
fn answer(alloc: Global, net: &[u8], order: &[u8]) -> Result<(u8, Vec<u8>), AllocError>
    ensures { IfOk result (λ answer. IsProofAnswer net.now order.now answer.0 answer.1.items) }
{
    match prove_alone(alloc, net, order) {
        Ok(printed) => Ok((printed.status, printed.text)),
        Err(refusal) => refused(alloc, refusal),
    }
}

/// The same, unless it is stopped.
fn answer_until<S: Stop>(
    alloc: Global,
    net: &[u8],
    order: &[u8],
    stop: &S,
) -> Result<(u8, Vec<u8>), AllocError>
    ensures { IfOk result (λ answer. IsProofAnswerUntil (S.is_quiet stop.now) net.now order.now answer.0 answer.1.items) }
{
    match prove_until(alloc, net, order, stop) {
        Ok(printed) => Ok((printed.status, printed.text)),
        Err(refusal) => refused(alloc, refusal),
    }
}
