//! `export`: a plan for other programs.

ghost use Rattle.std.specs.Prelude.{◌≡◌, IfOk, length};
ghost use Rattle.racp_model.specs.Terms.{AreTermsOf};
ghost use Rattle.racp_check.specs.PlanFaults.{IsFitting};
ghost use Rattle.racp_show.specs.Entries.{outlined};
ghost use Rattle.racp_show.specs.Outlines.{IsOutlineOf};
ghost use Rattle.racp_cli.specs.ExportAnswers.{IsCountedExport, IsExportAnswer, IsExportRun, IsNamedExport, IsToldExport};

use crate::check::{Checked, read_checked};
use crate::respond::respond;
use crate::status::{DONE, REFUSED};
use racp_calendar::Calendar;
use racp_export::{Export, Format, export_text, is_told};
use racp_show::{Names, Outline};
use racp_streams::{StreamFault, read_whole};
use std::alloc::{AllocError, Global};
use std::io::{Read, Write};

/// How a plan is exported.
#[derive(Clone, Copy)]
pub struct Target<'a> {
    /// In which format.
    pub format: Format,
    /// Which days its times are.
    pub calendar: Calendar<'a>,
    /// The text of the names of the jobs and then of the resources, one a line, or an empty one. Other lines tell which
    /// jobs are tasks, and which phases there are.
    pub names: &'a [u8],
}

/// Reads a network text, an order text and a plan text, all of each before the next, and writes to `out` the plan in the
/// format that is asked for; or, if something is wrong with the plan, what `check_over` writes. Returns the status that
/// belongs to what was written: 0 for a plan, 5 if the names are refused as by `show_over`, or the calendar has no date for the
/// last day of the deadline or for the day behind it, else that of `check_over`.
///
/// # Errors
///
/// After these nothing was written: `Read`, a read failed; `TooLong`, a reader has more than 16,777,216 bytes;
/// `Memory`, memory for an input was refused. After `Write`, a write failed or took no byte, and what is out is a
/// beginning of the text.
pub fn export_over<N: Read, O: Read, P: Read, W: Write>(
    alloc: Global,
    net: &mut N,
    order: &mut O,
    plan: &mut P,
    target: Target<'_>,
    out: &mut W,
) -> Result<u8, StreamFault>
    ensures { IsExportRun target.entry (record { unread = N.remaining net.old; left = N.remaining net.new })
        (record { unread = O.remaining order.old; left = O.remaining order.new })
        (record { unread = P.remaining plan.old; left = P.remaining plan.new }) (W.contents out.old)
        (W.contents out.new) result }
{
    let net = read_whole(alloc, net)?;
    let order = read_whole(alloc, order)?;
    let plan = read_whole(alloc, plan)?;
    respond(answer(alloc, &net, &order, &plan, target), out)
}

/// The status and the text of the answer to the texts of a network, an order and a plan.
fn answer(
    alloc: Global,
    net: &[u8],
    order: &[u8],
    plan: &[u8],
    target: Target<'_>,
) -> Result<(u8, Vec<u8>), AllocError>
    ensures { IfOk result (λ answer. IsExportAnswer target.entry net.now order.now plan.now answer.0 answer.1.items) }
{
    match read_checked(alloc, net, order, plan) {
        Ok(found) => named(alloc, &found, target),
        Err(fault) => {
            let line = fault.line(alloc)?;
            Ok((fault.status(), line))
        }
    }
}

/// The status and the text if nothing is wrong with a plan.
#[tactic(auto, unfolding(racp_plan::specs::Texts::line))]
fn named(alloc: Global, found: &Checked, target: Target<'_>) -> Result<(u8, Vec<u8>), AllocError>
    requires terms { AreTermsOf found.now.net found.now.order }
    requires capacities { length found.now.plan.capacities ≡ found.now.net.resources }
    requires fitting { IsFitting found.now.net found.now.order found.now.plan }
    ensures { IfOk result (λ answer. IsNamedExport target.entry found.now.net found.now.order found.now.plan target.entry.names.now answer.0 answer.1.items) }
{
    match std::str::from_utf8(target.names) {
        Ok(text) => counted(alloc, found, text, target),
        Err(_) => Ok((REFUSED, b"refused names 1 NotUtf8\n".to_vec(alloc)?)),
    }
}

/// The status and the text if nothing is wrong with a plan, for the text of its names.
#[tactic(auto, unfolding(racp_plan::specs::Texts::line))]
fn counted(
    alloc: Global,
    found: &Checked,
    text: &str,
    target: Target<'_>,
) -> Result<(u8, Vec<u8>), AllocError>
    requires terms { AreTermsOf found.now.net found.now.order }
    requires capacities { length found.now.plan.capacities ≡ found.now.net.resources }
    requires fitting { IsFitting found.now.net found.now.order found.now.plan }
    ensures { IfOk result (λ answer. IsCountedExport target.entry found.now.net found.now.order found.now.plan text.now answer.0 answer.1.items) }
{
    let names = Names::of_text(alloc, text)?;
    if !names.are_for(found.net.job_count() + found.net.resource_count()) {
        return Ok((REFUSED, b"refused names 2 Count\n".to_vec(alloc)?));
    }
    let outline = Outline::of_text(alloc, text, found.net.job_count())?;
    let export = Export {
        format: target.format,
        calendar: target.calendar,
        names: &names,
        outline: &outline,
    };
    told(alloc, found, export)
}

/// The status and the text for names that are right.
#[tactic(auto, unfolding(racp_plan::specs::Texts::line))]
fn told(alloc: Global, found: &Checked, export: Export<'_>) -> Result<(u8, Vec<u8>), AllocError>
    requires terms { AreTermsOf found.now.net found.now.order }
    requires capacities { length found.now.plan.capacities ≡ found.now.net.resources }
    requires fitting { IsFitting found.now.net found.now.order found.now.plan }
    requires outline { IsOutlineOf found.now.net (outlined export.outline.now) }
    ensures { IfOk result (λ answer. IsToldExport export.entry.format export.entry.calendar found.now.net found.now.order found.now.plan
        export.entry.names.now (outlined export.entry.outline.now) answer.0 answer.1.items) }
{
    let (net, order, plan) = (&found.net, &found.order, &found.plan);
    if !is_told(alloc, export.calendar, order.deadline as u128)? {
        return Ok((REFUSED, b"refused calendar 1 NoDay\n".to_vec(alloc)?));
    }
    let text = export_text(alloc, net, order, plan, export)?;
    Ok((DONE, text))
}
