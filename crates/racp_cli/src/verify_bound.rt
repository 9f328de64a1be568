//! `verify` of a bound: what each plan costs at least, as a text shows.

ghost use Rattle.std.specs.Prelude.{◌≡◌, IfOk};
ghost use Rattle.racp_model.specs.Terms.{AreTermsOf};
ghost use Rattle.racp_cli.specs.VerifyBounds.{IsBoundAnswer, IsBoundRun, IsBoundTold, bound_status, bound_text};

use crate::lines::{at_least_line, stopped_line};
use crate::respond::respond;
use crate::status::{CHECK_FAILED, DONE, STOPPED};
use crate::texts::read_texts;
use racp_derivations::least_by_text_until;
use racp_model::{Network, Stop, Unfound};
use racp_prices::Order;
use racp_streams::{StreamFault, read_whole};
use std::alloc::{AllocError, Global};
use std::io::{Read, Write};

/// Reads a network text, an order text and a certificate of a bound, all of each before the next, and writes to `out` what all
/// capacities that are enough cost at least, if the certificate says so and shows it. Returns the status that belongs to the
/// line that was written: 0 for `at least N`, 8 for `unproved`, 5 if a text is refused, 6 if memory ran out, and 4 if it was
/// stopped while it looked at the certificate. A quiet stop never stops it.
///
/// # Errors
///
/// After these nothing was written: `Read`, a read failed; `TooLong`, a reader has more than 16,777,216 bytes;
/// `Memory`, memory for an input was refused. After `Write`, a write failed or took no byte, and what is out is a
/// beginning of the line.
pub fn verify_bound_over<N: Read, O: Read, C: Read, W: Write, S: Stop>(
    alloc: Global,
    net: &mut N,
    order: &mut O,
    proof: &mut C,
    out: &mut W,
    stop: &S,
) -> Result<u8, StreamFault>
    ensures { IsBoundRun (S.is_quiet stop.now) (record { unread = N.remaining net.old; left = N.remaining net.new })
        (record { unread = O.remaining order.old; left = O.remaining order.new })
        (record { unread = C.remaining proof.old; left = C.remaining proof.new }) (W.contents out.old)
        (W.contents out.new) result }
{
    let net = read_whole(alloc, net)?;
    let order = read_whole(alloc, order)?;
    let proof = read_whole(alloc, proof)?;
    respond(answer(alloc, &net, &order, &proof, stop), out)
}

/// The status and the line of the answer to the texts of a network, an order and a certificate of a bound.
fn answer<S: Stop>(
    alloc: Global,
    net: &[u8],
    order: &[u8],
    proof: &[u8],
    stop: &S,
) -> Result<(u8, Vec<u8>), AllocError>
    ensures { IfOk result (λ answer. IsBoundAnswer (S.is_quiet stop.now) net.now order.now proof.now answer.0 answer.1.items) }
{
    match read_texts(alloc, net, order) {
        Ok((net, order)) => told(alloc, &net, &order, proof, stop),
        Err(refused) => refused,
    }
}

/// The status and the line for a text that may be a certificate of a bound for a network and an order.
fn told<S: Stop>(
    alloc: Global,
    net: &Network,
    order: &Order,
    proof: &[u8],
    stop: &S,
) -> Result<(u8, Vec<u8>), AllocError>
    requires terms { AreTermsOf net.now order.now }
    ensures { IfOk result (λ answer. IsBoundTold (S.is_quiet stop.now) net.now order.now proof.now answer.0 answer.1.items) }
{
    match least_by_text_until(alloc, net, order, proof, stop) {
        Ok(found) => Ok((status_of(found), line_of(alloc, found)?)),
        Err(Unfound::Stopped) => Ok((STOPPED, stopped_line(alloc, &[])?)),
        Err(Unfound::Memory) => Err(AllocError),
    }
}

/// The status that tells of a bound that is shown, or that none is.
fn status_of(found: Option<u64>) -> u8
    ensures { result ≡ bound_status found }
{
    match found {
        Some(_) => DONE,
        None => CHECK_FAILED,
    }
}

/// The line that tells of it.
fn line_of(alloc: Global, found: Option<u64>) -> Result<Vec<u8>, AllocError>
    ensures { IfOk result (λ text. text.items ≡ bound_text found) }
{
    match found {
        Some(least) => at_least_line(alloc, least),
        None => b"unproved\n".to_vec(alloc),
    }
}
