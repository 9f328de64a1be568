//! `cpm`: runs it.

ghost use Rattle.std.specs.Prelude.{IfOk};
ghost use Rattle.racp_plan_commands.specs.Statuses.{IsStatusOfPlan};

use racp_cli::{StreamFault, cpm_over};
use racp_explain::{Input as Text, network_cause};
use racp_host::answer::Answer;
use racp_host::failure::Failure;
use racp_host::inputs::{STANDARD_INPUT, read_file, text, whole};
use racp_host::machine::Machine;
use racp_host::telling::{Manner, end};
use racp_host::undated::{Sources, undated};
use racp_json::Command;
use racp_words::Source;
use std::alloc::Global;
use std::io::{Read, Write};
use std::rt::Files;

/// The critical length and the early starts of the network that is read there.
pub fn run<R: Machine + Input>(rt: &R, network: Source<'_>, manner: Manner) -> Result<u8, Failure>
    ensures { IfOk result IsStatusOfPlan }
{
    let name = match &network {
        Source::StandardInput => STANDARD_INPUT,
        Source::File(path) => *path,
    };
    let bytes = network_read(rt, network, name)?;
    cpm_told(rt, &text(name, &bytes), manner)
}

/// All bytes of the network that is read there, with this name.
fn network_read<R: Files + Input + AllocGlobal>(
    rt: &R,
    network: Source<'_>,
    name: &str,
) -> Result<Vec<u8>, Failure> {
    match network {
        Source::StandardInput => whole(rt.alloc(), &mut rt.reader(), name),
        Source::File(path) => read_file(rt, path),
    }
}

/// The critical length and the early starts of this text.
fn cpm_told<R: Print + Eprint + AllocGlobal>(
    rt: &R,
    net: &Text<'_>,
    manner: Manner,
) -> Result<u8, Failure>
    ensures { IfOk result IsStatusOfPlan }
{
    let mut text = Vec::new(rt.alloc());
    let status = cpm_written(rt, net, manner.is_json, &mut text)?;
    let cause = if manner.looks(status) {
        network_cause(rt.alloc(), net)
    } else {
        Ok(String::new(rt.alloc()))
    };
    let told = undated(Command::Cpm, status, &text, Sources::network(*net));
    end(rt, manner, &told, cause)?;
    Ok(status)
}

/// Writes the critical length and the early starts of this text; to `text`, if it is to be JSON.
fn cpm_written<R: Print + AllocGlobal>(
    rt: &R,
    net: &Text<'_>,
    is_json: bool,
    text: &mut Vec<u8>,
) -> Result<u8, Failure>
    ensures { IfOk result IsStatusOfPlan }
{
    let mut bytes = net.bytes;
    if is_json {
        Ok(cpm_of(rt.alloc(), &mut bytes, text)?)
    } else {
        let mut out = Answer::to(rt);
        let status = cpm_of(rt.alloc(), &mut bytes, &mut out);
        out.ended(status)
    }
}

/// Writes the critical length and the early starts of the network that is read there.
fn cpm_of<N: Read, W: Write>(alloc: Global, net: &mut N, out: &mut W) -> Result<u8, StreamFault>
    ensures { IfOk result IsStatusOfPlan }
{
    cpm_over(alloc, net, out)
}
