//! `plan`: the plan of a network on the terms of an order, made on one thread.

ghost use Rattle.std.specs.Prelude.{◌≤◌, IfOk};
ghost use Rattle.racp_cli.specs.Plans.{IsPlanAnswer};
ghost use Rattle.racp_cli.specs.Runs.{IsPlanRun};

use crate::refusal::refused;
use crate::respond::respond;
use racp_cutset::DEFAULT_MEMORY;
use racp_lexfix::plan_alone_within;
use racp_streams::{StreamFault, read_whole};
use std::alloc::{AllocError, Global};
use std::io::{Read, Write};

/// Reads a network text and an order text, all of each before the next, makes the plan on the calling thread, and
/// writes to `out` the text of the plan, or a line that says why there is none. Returns the status that belongs to what
/// was written: 0 for a plan, 3 if there is none, 5 if a text is refused, 6 if memory ran out.
///
/// # Errors
///
/// After these nothing was written: `Read`, a read failed; `TooLong`, a reader has more than 16,777,216 bytes;
/// `Memory`, memory for an input was refused. After `Write`, a write failed or took no byte, and what is out is a
/// beginning of the text.
pub fn run_over<N: Read, O: Read, W: Write>(
    alloc: Global,
    net: &mut N,
    order: &mut O,
    out: &mut W,
) -> Result<u8, StreamFault>
    ensures { IsPlanRun (record { unread = N.remaining net.old; left = N.remaining net.new })
        (record { unread = O.remaining order.old; left = O.remaining order.new })
        (W.contents out.old) (W.contents out.new) result }
{
    run_over_within(alloc, net, order, out, DEFAULT_MEMORY)
}

/// Reads a network text and an order text, all of each before the next, makes the plan on the calling thread, and
/// writes to `out` the text of the plan, or a line that says why there is none. The records of refuted nodes take at
/// most about `mebibytes`, up to 1,048,576; with `run_over` they take 1,024. If there is no room for a further record,
/// records give way, and the text stays as it is. Returns the status that belongs to what was written: 0 for a plan, 3
/// if there is none, 5 if a text is refused, 6 if memory ran out.
///
/// # Errors
///
/// After these nothing was written: `Read`, a read failed; `TooLong`, a reader has more than 16,777,216 bytes;
/// `Memory`, memory for an input was refused. After `Write`, a write failed or took no byte, and what is out is a
/// beginning of the text.
pub fn run_over_within<N: Read, O: Read, W: Write>(
    alloc: Global,
    net: &mut N,
    order: &mut O,
    out: &mut W,
    mebibytes: usize,
) -> Result<u8, StreamFault>
    requires { mebibytes ≤ 1048576 }
    ensures { IsPlanRun (record { unread = N.remaining net.old; left = N.remaining net.new })
        (record { unread = O.remaining order.old; left = O.remaining order.new })
        (W.contents out.old) (W.contents out.new) result }
{
    let net = read_whole(alloc, net)?;
    let order = read_whole(alloc, order)?;
    respond(answer(alloc, &net, &order, mebibytes), out)
}

/// The status and the text of the answer to the texts of a network and an order.
fn answer(
    alloc: Global,
    net: &[u8],
    order: &[u8],
    mebibytes: usize,
) -> Result<(u8, Vec<u8>), AllocError>
    requires { mebibytes ≤ 1048576 }
    ensures { IfOk result (λ answer. IsPlanAnswer net.now order.now answer.0 answer.1.items) }
{
    match plan_alone_within(alloc, net, order, mebibytes) {
        Ok(printed) => Ok((printed.status, printed.text)),
        Err(refusal) => refused(alloc, refusal),
    }
}
