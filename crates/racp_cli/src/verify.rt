//! `verify`: whether a text is a certificate for a plan.

ghost use Rattle.std.specs.Prelude.{◌≡◌, IfOk};
ghost use Rattle.racp_cli.specs.Runs.{IsVerifyRun, IsVerifyRunUntil};
ghost use Rattle.racp_cli.specs.Verifies.{IsVerifyAnswerUntil, IsVerifyUntil, until_status, until_text};

use crate::check::read_checked;
use crate::check_fault::CheckFault;
use crate::lines::stopped_line;
use crate::respond::respond;
use crate::status::{CHECK_FAILED, DONE, STOPPED};
use crate::verdict::is_proved;
use racp_model::{Never, Stop, Unfound};
use racp_streams::{StreamFault, read_whole};
use std::alloc::{AllocError, Global};
use std::io::{Read, Write};

/// A certificate to be checked, and what may stop that.
#[derive(Clone, Copy)]
pub struct Certificate<'a, S> {
    /// Its text.
    pub text: &'a [u8],
    /// What is asked whether to stop.
    pub stop: &'a S,
}

/// Reads a network text, an order text, a plan text and a certificate, all of each before the next, and writes to `out`
/// whether the certificate shows that the plan is the plan of the order, if its first line is `proof 2`, or else that
/// no capacities before the plan's are enough; or, if something is wrong with the plan, what `check_over` writes.
/// Returns the status that belongs to the line that was written: 0 for `verified`, 8 for `unproved`, else that of
/// `check_over`.
///
/// # Errors
///
/// After these nothing was written: `Read`, a read failed; `TooLong`, a reader has more than 16,777,216 bytes;
/// `Memory`, memory for an input was refused. After `Write`, a write failed or took no byte, and what is out is a
/// beginning of the line.
pub fn verify_over<N: Read, O: Read, P: Read, C: Read, W: Write>(
    alloc: Global,
    net: &mut N,
    order: &mut O,
    plan: &mut P,
    proof: &mut C,
    out: &mut W,
) -> Result<u8, StreamFault>
    ensures { IsVerifyRun (record { unread = N.remaining net.old; left = N.remaining net.new })
        (record { unread = O.remaining order.old; left = O.remaining order.new })
        (record { unread = P.remaining plan.old; left = P.remaining plan.new })
        (record { unread = C.remaining proof.old; left = C.remaining proof.new }) (W.contents out.old)
        (W.contents out.new) result }
{
    let net = read_whole(alloc, net)?;
    let order = read_whole(alloc, order)?;
    let plan = read_whole(alloc, plan)?;
    let proof = read_whole(alloc, proof)?;
    respond(answer(alloc, &net, &order, &plan, &proof, &Never), out)
}

/// Does what `verify_over` does for the text of a certificate, unless it is stopped while it looks at that: then it
/// writes the line `stopped`, with status 4. A quiet stop never stops it.
///
/// # Errors
///
/// After these nothing was written: `Read`, a read failed; `TooLong`, a reader has more than 16,777,216 bytes;
/// `Memory`, memory for an input was refused. After `Write`, a write failed or took no byte, and what is out is a
/// beginning of the line.
pub fn verify_over_until<N: Read, O: Read, P: Read, W: Write, S: Stop>(
    alloc: Global,
    net: &mut N,
    order: &mut O,
    plan: &mut P,
    certificate: Certificate<'_, S>,
    out: &mut W,
) -> Result<u8, StreamFault>
    ensures { IsVerifyRunUntil (S.is_quiet certificate.entry.stop.now) certificate.entry.text.now
        (record { unread = N.remaining net.old; left = N.remaining net.new })
        (record { unread = O.remaining order.old; left = O.remaining order.new })
        (record { unread = P.remaining plan.old; left = P.remaining plan.new }) (W.contents out.old)
        (W.contents out.new) result }
{
    let net = read_whole(alloc, net)?;
    let order = read_whole(alloc, order)?;
    let plan = read_whole(alloc, plan)?;
    let Certificate { text, stop } = certificate;
    respond(answer(alloc, &net, &order, &plan, text, stop), out)
}

/// The status and the line of the answer to the texts of a network, an order, a plan and a certificate.
fn answer<S: Stop>(
    alloc: Global,
    net: &[u8],
    order: &[u8],
    plan: &[u8],
    proof: &[u8],
    stop: &S,
) -> Result<(u8, Vec<u8>), AllocError>
    ensures { IfOk result (λ answer. IsVerifyAnswerUntil (S.is_quiet stop.now) net.now order.now plan.now proof.now answer.0 answer.1.items) }
{
    let outcome = verify(alloc, net, order, plan, proof, stop);
    Ok((status_of(&outcome), line_of(alloc, &outcome)?))
}

/// Reads the texts of a network, an order and a plan, checks the plan, and tells whether the last text is a certificate
/// for it; `None` if it was stopped before that was known.
fn verify<S: Stop>(
    alloc: Global,
    net: &[u8],
    order: &[u8],
    plan: &[u8],
    proof: &[u8],
    stop: &S,
) -> Result<Option<bool>, CheckFault>
    ensures { IsVerifyUntil (S.is_quiet stop.now) net.now order.now plan.now proof.now result }
{
    let found = read_checked(alloc, net, order, plan)?;
    let proved = is_proved(alloc, &found, proof, stop);
    // Dropped here once, not at each way out.
    drop(found);
    match proved {
        Ok(proved) => Ok(Some(proved)),
        Err(Unfound::Memory) => Err(CheckFault::OutOfMemory),
        Err(Unfound::Stopped) => Ok(None),
    }
}

/// The status that tells of an outcome.
fn status_of(outcome: &Result<Option<bool>, CheckFault>) -> u8
    ensures { result ≡ until_status outcome.now }
{
    match outcome {
        Ok(Some(true)) => DONE,
        Ok(Some(false)) => CHECK_FAILED,
        Ok(None) => STOPPED,
        Err(fault) => fault.status(),
    }
}

/// The line that tells of an outcome.
fn line_of(alloc: Global, outcome: &Result<Option<bool>, CheckFault>) -> Result<Vec<u8>, AllocError>
    ensures { IfOk result (λ text. text.items ≡ until_text outcome.now) }
{
    match outcome {
        Ok(Some(true)) => b"verified\n".to_vec(alloc),
        Ok(Some(false)) => b"unproved\n".to_vec(alloc),
        Ok(None) => stopped_line(alloc, &[]),
        Err(fault) => fault.line(alloc),
    }
}
