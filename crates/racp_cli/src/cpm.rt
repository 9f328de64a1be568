//! `cpm`: the critical length and the early starts of a network.

ghost use Rattle.std.specs.Prelude.{◌≡◌, ℕ, ◌++◌, IfOk};
ghost use Rattle.racp_cli.specs.Answers.{IsCpmAnswer, IsEarlyText};
ghost use Rattle.racp_cli.specs.Runs.{IsCpmRun};

use crate::lines::early_lines;
use crate::refusal::network_refused;
use crate::respond::respond;
use crate::status::DONE;
use racp_cpm::{early, last_end};
use racp_model::Network;
use racp_sm::read_sm;
use racp_streams::{StreamFault, read_whole};
use std::alloc::{AllocError, Global};
use std::io::{Read, Write};

/// Reads a network text from `net`, all of it, and writes the answer to `out`: the critical length and the early
/// starts, if each job may start at 0, or a line that says why there are none. Returns the status that belongs to
/// what was written: 0 for the early starts, 5 if the text is refused, 6 if memory ran out.
///
/// # Errors
///
/// After these nothing was written: `Read`, a read failed; `TooLong`, there are more than 16,777,216 bytes; `Memory`,
/// memory for the input was refused. After `Write`, a write failed or took no byte, and what is out is a beginning of
/// the answer.
pub fn cpm_over<R: Read, W: Write>(
    alloc: Global,
    net: &mut R,
    out: &mut W,
) -> Result<u8, StreamFault>
    ensures { IsCpmRun (record { unread = R.remaining net.old; left = R.remaining net.new }) (W.contents out.old)
        (W.contents out.new) result }
{
    let input = read_whole(alloc, net)?;
    respond(answer(alloc, &input), out)
}

/// The status and the text of the answer to a network text.
fn answer(alloc: Global, input: &[u8]) -> Result<(u8, Vec<u8>), AllocError>
    ensures { IfOk result (λ answer. IsCpmAnswer input.now answer.0 answer.1.items) }
{
    match read_sm(alloc, input) {
        Ok(network) => Ok((DONE, early_answer(alloc, &network)?)),
        Err(fault) => network_refused(alloc, fault),
    }
}

/// The critical length and the early starts of a network, all jobs released at 0.
fn early_answer(alloc: Global, network: &Network) -> Result<Vec<u8>, AllocError>
    ensures { IfOk result (λ text. IsEarlyText network.now text.items) }
{
    let release = vec![in alloc; 0; network.job_count()]?;
    let starts = early(alloc, network, &release)?;
    let critical = last_end(network, &starts);
    early_lines(alloc, critical, starts.as_slice())
}
