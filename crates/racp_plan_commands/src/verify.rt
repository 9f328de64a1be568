//! `verify`: runs it.

ghost use Rattle.std.specs.Prelude.{IfOk};
ghost use Rattle.racp_plan_commands.specs.Statuses.{IsStatusOfPlan};

use racp_cli::{Certificate, StreamFault, verify_over_until};
use racp_explain::{Input as Text, proof_cause};
use racp_host::alone_limit::AloneLimit;
use racp_host::answer::Answer;
use racp_host::asks::Asks;
use racp_host::failure::Failure;
use racp_host::inputs::Inputs;
use racp_host::machine::Machine;
use racp_host::telling::{Manner, end};
use racp_host::undated::{Sources, undated};
use racp_json::Command;
use racp_words::ProofFiles;
use std::alloc::{AllocError, Global};
use std::io::Write;
use std::time::Duration;

/// The texts of a certificate, and of what it is about.
#[derive(Clone, Copy)]
struct Texts<'a> {
    net: Text<'a>,
    order: Text<'a>,
    plan: Text<'a>,
    proof: Text<'a>,
}

/// Which certificate is looked at, and after what time that stops, if it does.
#[derive(Drop)]
pub struct Verifying<'a> {
    /// The paths of its files.
    pub files: ProofFiles<'a>,
    /// The time.
    pub limit: Option<Duration>,
    /// How it is told.
    pub manner: Manner,
}

/// Whether the plan in these files is right, and the certificate proves it.
pub fn run<R: Machine>(rt: &R, asked: Verifying<'_>) -> Result<u8, Failure>
    ensures { IfOk result IsStatusOfPlan }
{
    let files = &asked.files;
    let paths = [
        Some(files.net),
        Some(files.order),
        Some(files.plan),
        Some(files.proof),
    ];
    let inputs = Inputs::read(rt, &paths)?;
    let texts = Texts {
        net: inputs.text(0),
        order: inputs.text(1),
        plan: inputs.text(2),
        proof: inputs.text(3),
    };
    verify_told(rt, &texts, &asked)
}

/// Whether the plan in these texts is right, and the certificate proves it; it stops after so much time, if that is
/// asked, or when the user asks for it.
fn verify_told<R: Machine>(rt: &R, texts: &Texts<'_>, asked: &Verifying<'_>) -> Result<u8, Failure>
    ensures { IfOk result IsStatusOfPlan }
{
    let manner = asked.manner;
    let mut text = Vec::new(rt.alloc());
    let status = verify_written(rt, texts, asked, &mut text)?;
    let cause = if manner.looks(status) {
        cause(rt.alloc(), texts)
    } else {
        Ok(String::new(rt.alloc()))
    };
    let sources = Sources {
        net: texts.net,
        order: texts.order,
        plan: texts.plan.name,
        proof: texts.proof.name,
    };
    let told = undated(Command::Verify, status, &text, sources);
    end(rt, manner, &told, cause)?;
    Ok(status)
}

/// What is wrong with the texts.
fn cause(alloc: Global, texts: &Texts<'_>) -> Result<String, AllocError> {
    let proof = texts.proof.name;
    proof_cause(alloc, &texts.net, &texts.order, &texts.plan, proof)
}

/// Writes whether the plan in these texts is right, and the certificate proves it; to `text`, if it is to be JSON.
fn verify_written<R: Machine>(
    rt: &R,
    texts: &Texts<'_>,
    asked: &Verifying<'_>,
    text: &mut Vec<u8>,
) -> Result<u8, Failure>
    ensures { IfOk result IsStatusOfPlan }
{
    if asked.manner.is_json {
        Ok(verify_of(rt, texts, asked.limit, text)?)
    } else {
        let mut out = Answer::to(rt);
        let status = verify_of(rt, texts, asked.limit, &mut out);
        out.ended(status)
    }
}

/// Writes whether the plan in these texts is right, and the certificate shows what it is to show; or that it was stopped,
/// after so much time or by the user.
fn verify_of<R: Machine, W: Write>(
    rt: &R,
    texts: &Texts<'_>,
    limit: Option<Duration>,
    out: &mut W,
) -> Result<u8, StreamFault>
    ensures { IfOk result IsStatusOfPlan }
{
    let until = AloneLimit::of(rt, limit, Asks::of(rt));
    let (mut net, mut order) = (texts.net.bytes, texts.order.bytes);
    let mut plan = texts.plan.bytes;
    let certificate = Certificate {
        text: texts.proof.bytes,
        stop: &until,
    };
    let status = verify_over_until(
        rt.alloc(),
        &mut net,
        &mut order,
        &mut plan,
        certificate,
        out,
    );
    // Dropped here once, not at each way out.
    drop(until);
    status
}
