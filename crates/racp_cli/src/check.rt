//! `check`: whether a plan, whoever made it, is one of a network on the terms of an order.

ghost use Rattle.std.specs.Prelude.{◌≡◌, ◌↔◌, IfOk, IsTrue, length};
ghost use Rattle.racp_model.specs.Terms.{AreTermsOf};
ghost use Rattle.racp_cli.specs.Checks.{HasRightHead, IsCheck, IsCheckAnswer, IsCheckOf, check_status, check_text};
ghost use Rattle.racp_cli.specs.Verifies.{AreChecked};
ghost use Rattle.racp_cli.specs.Runs.{IsCheckRun};

use crate::check_fault::CheckFault;
use crate::respond::respond;
use crate::status::DONE;
use racp_check::check_plan;
use racp_cpm::longest;
use racp_model::Network;
use racp_plan::{Plan, read_plan};
use racp_prices::{Order, read_order};
use racp_sm::read_sm;
use racp_streams::{StreamFault, read_whole};
use std::alloc::{AllocError, Global};
use std::io::{Read, Write};

/// Reads a network text, an order text and a plan text, all of each before the next, and writes to `out` whether
/// nothing is wrong with the plan, and else what is. Returns the status that belongs to the line that was written: 0
/// for `ok`, 5 if a text is refused, 6 if memory ran out, 8 if the plan has a fault.
///
/// # Errors
///
/// After these nothing was written: `Read`, a read failed; `TooLong`, a reader has more than 16,777,216 bytes;
/// `Memory`, memory for an input was refused. After `Write`, a write failed or took no byte, and what is out is a
/// beginning of the line.
pub fn check_over<N: Read, O: Read, P: Read, W: Write>(
    alloc: Global,
    net: &mut N,
    order: &mut O,
    plan: &mut P,
    out: &mut W,
) -> Result<u8, StreamFault>
    ensures { IsCheckRun (record { unread = N.remaining net.old; left = N.remaining net.new })
        (record { unread = O.remaining order.old; left = O.remaining order.new })
        (record { unread = P.remaining plan.old; left = P.remaining plan.new }) (W.contents out.old)
        (W.contents out.new) result }
{
    let net = read_whole(alloc, net)?;
    let order = read_whole(alloc, order)?;
    let plan = read_whole(alloc, plan)?;
    respond(answer(alloc, &net, &order, &plan), out)
}

/// The status and the line of the answer to the texts of a network, an order and a plan.
fn answer(alloc: Global, net: &[u8], order: &[u8], plan: &[u8]) -> Result<(u8, Vec<u8>), AllocError>
    ensures { IfOk result (λ answer. IsCheckAnswer net.now order.now plan.now answer.0 answer.1.items) }
{
    let outcome = check(alloc, net, order, plan);
    Ok((status_of(&outcome), line_of(alloc, &outcome)?))
}

/// Reads the texts of a network, an order and a plan, and checks the plan.
pub(crate) fn check(alloc: Global, net: &[u8], order: &[u8], plan: &[u8]) -> Result<(), CheckFault>
    ensures { IsCheck net.now order.now plan.now result }
{
    read_checked(alloc, net, order, plan)?;
    Ok(())
}

/// A network, an order for it, and a plan with which nothing is wrong.
#[derive(Drop)]
pub(crate) struct Checked {
    pub(crate) net: Network,
    pub(crate) order: Order,
    pub(crate) plan: Plan,
}

/// What the texts of a network, an order and a plan are read as, if nothing is wrong with the plan.
pub(crate) fn read_checked(
    alloc: Global,
    net: &[u8],
    order: &[u8],
    plan: &[u8],
) -> Result<Checked, CheckFault>
    ensures { AreChecked net.now order.now plan.now result }
{
    let net = read_sm(alloc, net)?;
    let order = read_order(alloc, order, net.resource_count(), net.job_count())?;
    let plan = read_plan(alloc, plan, &net)?;
    let found = Checked { net, order, plan };
    match check_read(alloc, &found.net, &found.order, &found.plan) {
        Ok(()) => Ok(found),
        Err(fault) => {
            // Dropped here once, not at each way out.
            drop(found);
            Err(fault)
        }
    }
}

/// Checks a plan that was read.
fn check_read(alloc: Global, net: &Network, order: &Order, plan: &Plan) -> Result<(), CheckFault>
    requires terms { AreTermsOf net.now order.now }
    requires capacities { length plan.now.capacities ≡ net.now.resources }
    requires starts { length plan.now.starts ≡ length net.now.jobs }
    ensures { IsCheckOf net.now order.now plan.now result }
{
    if !has_right_head(alloc, net, order, plan)? {
        return Err(CheckFault::Head);
    }
    check_plan(net, order, plan)?;
    Ok(())
}

/// Whether the plan names the order's deadline and the project's critical length.
fn has_right_head(
    alloc: Global,
    net: &Network,
    order: &Order,
    plan: &Plan,
) -> Result<bool, AllocError>
    requires { AreTermsOf net.now order.now }
    ensures { IfOk result (λ right. IsTrue right ↔ HasRightHead net.now order.now plan.now) }
{
    Ok(plan.deadline == order.deadline && plan.critical == longest(alloc, net, &order.release)?)
}

/// The status that tells of an outcome.
fn status_of(outcome: &Result<(), CheckFault>) -> u8
    ensures { result ≡ check_status outcome.now }
{
    match outcome {
        Ok(()) => DONE,
        Err(fault) => fault.status(),
    }
}

/// The line that tells of an outcome.
fn line_of(alloc: Global, outcome: &Result<(), CheckFault>) -> Result<Vec<u8>, AllocError>
    ensures { IfOk result (λ text. text.items ≡ check_text outcome.now) }
{
    match outcome {
        Ok(()) => b"ok\n".to_vec(alloc),
        Err(fault) => fault.line(alloc),
    }
}
