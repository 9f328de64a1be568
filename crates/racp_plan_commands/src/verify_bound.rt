//! `verify` of a bound: runs it.

ghost use Rattle.std.specs.Prelude.{IfOk};
ghost use Rattle.racp_plan_commands.specs.Statuses.{IsStatusOfPlan};

use racp_cli::{StreamFault, verify_bound_over};
use racp_explain::{Input as Text, bound_cause};
use racp_host::alone_limit::AloneLimit;
use racp_host::answer::Answer;
use racp_host::asks::Asks;
use racp_host::failure::Failure;
use racp_host::inputs::Inputs;
use racp_host::machine::Machine;
use racp_host::telling::{Manner, end};
use racp_host::undated::{Sources, undated};
use racp_json::Command;
use racp_words::BoundFiles;
use std::io::{Read, Write};
use std::time::Duration;

/// Which certificate of a bound is looked at, and after what time that stops, if it does.
#[derive(Drop)]
pub struct Bounding<'a> {
    /// The paths of its files.
    pub files: BoundFiles<'a>,
    /// The time.
    pub limit: Option<Duration>,
    /// How it is told.
    pub manner: Manner,
}

/// What each plan of these files costs at least, if the certificate shows it.
pub fn run<R: Machine>(rt: &R, asked: Bounding<'_>) -> Result<u8, Failure>
    ensures { IfOk result IsStatusOfPlan }
{
    let files = &asked.files;
    let paths = [Some(files.net), Some(files.order), Some(files.proof)];
    let inputs = Inputs::read(rt, &paths)?;
    verify_told(
        rt,
        &inputs.text(0),
        &inputs.text(1),
        &inputs.text(2),
        &asked,
    )
}

/// The same of these texts; it stops after so much time, if that is asked, or when the user asks for it.
fn verify_told<'a, R: Machine>(
    rt: &R,
    net: &Text<'a>,
    order: &Text<'a>,
    proof: &Text<'a>,
    asked: &Bounding<'_>,
) -> Result<u8, Failure>
    ensures { IfOk result IsStatusOfPlan }
{
    let manner = asked.manner;
    let mut text = Vec::new(rt.alloc());
    let status = verify_written(rt, net, order, proof, asked, &mut text)?;
    let cause = if manner.looks(status) {
        bound_cause(rt.alloc(), net, order, proof)
    } else {
        Ok(String::new(rt.alloc()))
    };
    let sources = Sources {
        net: *net,
        order: *order,
        plan: "",
        proof: proof.name,
    };
    let told = undated(Command::Bound, status, &text, sources);
    end(rt, manner, &told, cause)?;
    Ok(status)
}

/// Writes it; to `text`, if it is to be JSON.
fn verify_written<R: Machine>(
    rt: &R,
    net: &Text<'_>,
    order: &Text<'_>,
    proof: &Text<'_>,
    asked: &Bounding<'_>,
    text: &mut Vec<u8>,
) -> Result<u8, Failure>
    ensures { IfOk result IsStatusOfPlan }
{
    let (mut network, mut terms, mut certificate) = (net.bytes, order.bytes, proof.bytes);
    if asked.manner.is_json {
        Ok(verify_of(
            rt,
            &mut network,
            &mut terms,
            &mut certificate,
            asked.limit,
            text,
        )?)
    } else {
        let mut out = Answer::to(rt);
        let status = verify_of(
            rt,
            &mut network,
            &mut terms,
            &mut certificate,
            asked.limit,
            &mut out,
        );
        out.ended(status)
    }
}

/// Writes it of what is read there; or that it was stopped, after so much time or by the user.
fn verify_of<R: Machine, N: Read, O: Read, C: Read, W: Write>(
    rt: &R,
    net: &mut N,
    order: &mut O,
    proof: &mut C,
    limit: Option<Duration>,
    out: &mut W,
) -> Result<u8, StreamFault>
    ensures { IfOk result IsStatusOfPlan }
{
    let until = AloneLimit::of(rt, limit, Asks::of(rt));
    let status = verify_bound_over(rt.alloc(), net, order, proof, out, &until);
    // Dropped here once, not at each way out.
    drop(until);
    status
}
