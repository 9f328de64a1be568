//! `check`: runs it.

ghost use Rattle.std.specs.Prelude.{IfOk};
ghost use Rattle.racp_plan_commands.specs.Statuses.{IsStatusOfPlan};

use racp_cli::{StreamFault, check_over};
use racp_explain::{Input as Text, plan_cause};
use racp_host::answer::Answer;
use racp_host::failure::Failure;
use racp_host::inputs::Inputs;
use racp_host::machine::Machine;
use racp_host::telling::{Manner, end};
use racp_host::undated::{Sources, undated};
use racp_json::Command;
use racp_words::PlanFiles;
use std::alloc::Global;
use std::io::{Read, Write};

/// Whether the plan in these files is right.
pub fn run<R: Machine>(rt: &R, files: PlanFiles<'_>, manner: Manner) -> Result<u8, Failure>
    ensures { IfOk result IsStatusOfPlan }
{
    let paths = [Some(files.net), Some(files.order), Some(files.plan)];
    let inputs = Inputs::read(rt, &paths)?;
    check_told(
        rt,
        &inputs.text(0),
        &inputs.text(1),
        &inputs.text(2),
        manner,
    )
}

/// Whether the plan in these texts is right.
fn check_told<'a, R: Print + Eprint + AllocGlobal>(
    rt: &R,
    net: &Text<'a>,
    order: &Text<'a>,
    plan: &Text<'a>,
    manner: Manner,
) -> Result<u8, Failure>
    ensures { IfOk result IsStatusOfPlan }
{
    let mut text = Vec::new(rt.alloc());
    let status = check_written(rt, net, order, plan, manner.is_json, &mut text)?;
    let cause = if manner.looks(status) {
        plan_cause(rt.alloc(), net, order, plan)
    } else {
        Ok(String::new(rt.alloc()))
    };
    let sources = Sources {
        net: *net,
        order: *order,
        plan: plan.name,
        proof: "",
    };
    let told = undated(Command::Check, status, &text, sources);
    end(rt, manner, &told, cause)?;
    Ok(status)
}

/// Writes whether the plan in these texts is right; to `text`, if it is to be JSON.
fn check_written<R: Print + AllocGlobal>(
    rt: &R,
    net: &Text<'_>,
    order: &Text<'_>,
    plan: &Text<'_>,
    is_json: bool,
    text: &mut Vec<u8>,
) -> Result<u8, Failure>
    ensures { IfOk result IsStatusOfPlan }
{
    let (mut network, mut terms, mut planned) = (net.bytes, order.bytes, plan.bytes);
    if is_json {
        Ok(check_of(rt.alloc(), &mut network, &mut terms, &mut planned, text)?)
    } else {
        let mut out = Answer::to(rt);
        let status = check_of(rt.alloc(), &mut network, &mut terms, &mut planned, &mut out);
        out.ended(status)
    }
}

/// Writes whether the plan that is read there is right.
fn check_of<N: Read, O: Read, P: Read, W: Write>(
    alloc: Global,
    net: &mut N,
    order: &mut O,
    plan: &mut P,
    out: &mut W,
) -> Result<u8, StreamFault>
    ensures { IfOk result IsStatusOfPlan }
{
    check_over(alloc, net, order, plan, out)
}
