//! `report`: a page about a plan.

ghost use Rattle.std.specs.Prelude.{◌≡◌, ◌==◌, IfOk, Option, length, option_map};
ghost use Rattle.std.specs.List.{list_all};
ghost use Rattle.racp_model.specs.Terms.{AreTermsOf};
ghost use Rattle.racp_check.specs.PlanFaults.{IsFitting};
ghost use Rattle.racp_show.specs.Entries.{outlined};
ghost use Rattle.racp_show.specs.Outlines.{IsOutlineOf};
ghost use Rattle.racp_report.specs.Claims.{IsClaim};
ghost use Rattle.racp_report.specs.declared.claim.Claim.{Claim};
ghost use Rattle.racp_cli.specs.ReportAnswers.{IsClaimBy, IsClaimed, IsCountedReport, IsCurved, IsNamedReport, IsReportAnswer, IsReportRun, IsStepped, are_steps};

use crate::check::{Checked, read_checked};
use crate::report_claim::claim_of;
use crate::report_page::changed;
use crate::respond::respond;
use crate::status::{CHECK_FAILED, REFUSED};
use racp_calendar::Calendar;
use racp_json::rows_of;
use racp_report::Claim;
use racp_show::{Names, Outline};
use racp_streams::{StreamFault, read_whole};
use std::alloc::{AllocError, Global};
use std::io::{Read, Write};

/// What a page has beside a plan.
#[derive(Clone, Copy)]
pub struct Page<'a> {
    /// The text of the names of the jobs and then of the resources, one a line, or an empty one. Other lines tell which
    /// jobs are tasks, and which phases there are.
    pub names: &'a [u8],
    /// The text of what each deadline costs, if there is one.
    pub curve: Option<&'a [u8]>,
    /// The text of what changes cost, as `whatif` writes it, if there is one.
    pub changes: Option<&'a [u8]>,
    /// The text of a certificate for the plan, or of a bound, if there is one.
    pub proof: Option<&'a [u8]>,
    /// How times are told.
    pub calendar: Calendar<'a>,
}

/// A page, and what is shown of what its plan costs.
#[derive(Clone, Copy)]
pub(crate) struct ClaimedPage<'a> {
    /// What the page has beside the plan.
    pub(crate) page: Page<'a>,
    /// What is shown.
    pub(crate) claim: Claim,
}

/// Reads a network text, an order text and a plan text, all of each before the next, and writes to `out` a page in HTML
/// about the plan, with the steps of a curve and with changes, if there are such texts, with what a certificate shows of its
/// cost, and times as the calendar tells them; or, if something is wrong with the plan, what `check_over` writes; or the line
/// `unproved`, if there is a text for a certificate that is none. Returns the status that belongs to what was
/// written: 0 for a page, 8 for `unproved`, 5 if the names are refused as by `show_over`, or the curve is not UTF-8 or has no line that begins with
/// `deadline`, or the text of changes is not UTF-8 or does not begin with the line of the plan, else that of
/// `check_over`.
///
/// # Errors
///
/// After these nothing was written: `Read`, a read failed; `TooLong`, a reader has more than 16,777,216 bytes;
/// `Memory`, memory for an input was refused. After `Write`, a write failed or took no byte, and what is out is a
/// beginning of the text.
pub fn report_over<N: Read, O: Read, P: Read, W: Write>(
    alloc: Global,
    net: &mut N,
    order: &mut O,
    plan: &mut P,
    page: Page<'_>,
    out: &mut W,
) -> Result<u8, StreamFault>
    ensures { IsReportRun page.entry (record { unread = N.remaining net.old; left = N.remaining net.new })
        (record { unread = O.remaining order.old; left = O.remaining order.new })
        (record { unread = P.remaining plan.old; left = P.remaining plan.new }) (W.contents out.old)
        (W.contents out.new) result }
{
    let net = read_whole(alloc, net)?;
    let order = read_whole(alloc, order)?;
    let plan = read_whole(alloc, plan)?;
    respond(answer(alloc, &net, &order, &plan, page), out)
}

/// The status and the text of the answer to the texts of a network, an order and a plan, and what a page has beside.
fn answer(
    alloc: Global,
    net: &[u8],
    order: &[u8],
    plan: &[u8],
    page: Page<'_>,
) -> Result<(u8, Vec<u8>), AllocError>
    ensures { IfOk result (λ answer. IsReportAnswer page.entry net.now order.now plan.now answer.0 answer.1.items) }
{
    match read_checked(alloc, net, order, plan) {
        Ok(found) => claimed(alloc, &found, page),
        Err(fault) => {
            let line = fault.line(alloc)?;
            Ok((fault.status(), line))
        }
    }
}

/// The status and the text if nothing is wrong with a plan.
#[tactic(auto, unfolding(racp_plan::specs::Texts::line, crate::specs::Texts::unproved_line))]
fn claimed(alloc: Global, found: &Checked, page: Page<'_>) -> Result<(u8, Vec<u8>), AllocError>
    requires terms { AreTermsOf found.now.net found.now.order }
    requires capacities { length found.now.plan.capacities ≡ found.now.net.resources }
    requires fitting { IsFitting found.now.net found.now.order found.now.plan }
    ensures { IfOk result (λ answer. (claim : Option Claim) ×
        IsClaimBy found.now.net found.now.order found.now.plan (option_map (λ proof. proof.now) page.entry.proof) claim ×
        IsClaimed page.entry claim found.now.net found.now.order found.now.plan answer.0 answer.1.items) }
{
    match claim_of(alloc, found, page.proof)? {
        Some(claim) => named(alloc, found, ClaimedPage { page, claim }),
        None => Ok((CHECK_FAILED, b"unproved\n".to_vec(alloc)?)),
    }
}

/// The status and the text for what is shown of the cost of a plan.
#[tactic(auto, unfolding(racp_plan::specs::Texts::line))]
fn named(alloc: Global, found: &Checked, page: ClaimedPage<'_>) -> Result<(u8, Vec<u8>), AllocError>
    requires terms { AreTermsOf found.now.net found.now.order }
    requires capacities { length found.now.plan.capacities ≡ found.now.net.resources }
    requires fitting { IsFitting found.now.net found.now.order found.now.plan }
    requires shown { IsClaim found.now.net found.now.order found.now.plan page.claim }
    ensures { IfOk result (λ answer. IsNamedReport page.entry.claim page.entry.page found.now.net found.now.order
        found.now.plan page.entry.page.names.now answer.0 answer.1.items) }
{
    match std::str::from_utf8(page.page.names) {
        Ok(text) => counted(alloc, found, text, page),
        Err(_) => Ok((REFUSED, b"refused names 1 NotUtf8\n".to_vec(alloc)?)),
    }
}

/// The same for the text of the names.
#[tactic(auto, unfolding(racp_plan::specs::Texts::line))]
fn counted(
    alloc: Global,
    found: &Checked,
    text: &str,
    page: ClaimedPage<'_>,
) -> Result<(u8, Vec<u8>), AllocError>
    requires terms { AreTermsOf found.now.net found.now.order }
    requires capacities { length found.now.plan.capacities ≡ found.now.net.resources }
    requires fitting { IsFitting found.now.net found.now.order found.now.plan }
    requires shown { IsClaim found.now.net found.now.order found.now.plan page.claim }
    ensures { IfOk result (λ answer. IsCountedReport page.entry.claim page.entry.page found.now.net found.now.order found.now.plan
        text.now answer.0 answer.1.items) }
{
    let names = Names::of_text(alloc, text)?;
    if !names.are_for(found.net.job_count() + found.net.resource_count()) {
        return Ok((REFUSED, b"refused names 2 Count\n".to_vec(alloc)?));
    }
    let outline = Outline::of_text(alloc, text, found.net.job_count())?;
    curved(alloc, found, &names, &outline, page)
}

/// The status and the text for names that are right.
#[tactic(auto, unfolding(racp_plan::specs::Texts::line))]
fn curved(
    alloc: Global,
    found: &Checked,
    names: &Names,
    outline: &Outline,
    page: ClaimedPage<'_>,
) -> Result<(u8, Vec<u8>), AllocError>
    requires terms { AreTermsOf found.now.net found.now.order }
    requires capacities { length found.now.plan.capacities ≡ found.now.net.resources }
    requires fitting { IsFitting found.now.net found.now.order found.now.plan }
    requires shown { IsClaim found.now.net found.now.order found.now.plan page.claim }
    requires outline { IsOutlineOf found.now.net (outlined outline.now) }
    ensures { IfOk result (λ answer. IsCurved page.entry.claim page.entry.page found.now.net found.now.order found.now.plan names.now
        (outlined outline.now) answer.0 answer.1.items) }
{
    let Some(bytes) = page.page.curve else {
        return changed(alloc, found, names, outline, "", page);
    };
    match std::str::from_utf8(bytes) {
        Ok(text) => stepped(alloc, found, names, outline, text, page),
        Err(_) => Ok((REFUSED, b"refused curve 1 NotUtf8\n".to_vec(alloc)?)),
    }
}

/// The status and the text for the text of a curve.
#[tactic(auto, unfolding(racp_plan::specs::Texts::line))]
fn stepped(
    alloc: Global,
    found: &Checked,
    names: &Names,
    outline: &Outline,
    curve: &str,
    page: ClaimedPage<'_>,
) -> Result<(u8, Vec<u8>), AllocError>
    requires terms { AreTermsOf found.now.net found.now.order }
    requires capacities { length found.now.plan.capacities ≡ found.now.net.resources }
    requires fitting { IsFitting found.now.net found.now.order found.now.plan }
    requires shown { IsClaim found.now.net found.now.order found.now.plan page.claim }
    requires outline { IsOutlineOf found.now.net (outlined outline.now) }
    ensures { IfOk result (λ answer. IsStepped page.entry.claim page.entry.page curve.now found.now.net found.now.order found.now.plan
        names.now (outlined outline.now) answer.0 answer.1.items) }
{
    if !are_steps(alloc, curve, found.net.resource_count() + 2)? {
        return Ok((REFUSED, b"refused curve 2 NoSteps\n".to_vec(alloc)?));
    }
    changed(alloc, found, names, outline, curve, page)
}

/// Whether some lines of a text begin with `deadline`, and each of these has so many numbers.
fn are_steps(alloc: Global, text: &str, wanted: usize) -> Result<bool, AllocError>
    ensures { IfOk result (λ are. are ≡ are_steps wanted text.now) }
{
    let rows = rows_of(alloc, text, "deadline")?;
    Ok(!rows.is_empty() & are_so_long(rows.as_slice(), wanted))
}

/// Whether each row has so many numbers.
fn are_so_long(rows: &[Vec<u64>], wanted: usize) -> bool
    ensures { result ≡ list_all (λ row. length row.items == wanted) rows.now }
{
    rows.iter().all(|row| row.len() == wanted)
}
