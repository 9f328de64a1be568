//! The page of `report`, with what stands beside a plan.

ghost use Rattle.std.specs.Prelude.{◌≡◌, ℕ, List, IfOk, length, option_map};
ghost use Rattle.racp_model.specs.Project.{Project};
ghost use Rattle.racp_model.specs.Terms.{AreTermsOf, Terms};
ghost use Rattle.racp_plan.specs.declared.plan.Plan.{Plan};
ghost use Rattle.racp_show.specs.Entries.{outlined};
ghost use Rattle.racp_show.specs.Outlines.{IsOutlineOf, Outlined};
ghost use Rattle.racp_report.specs.Claims.{IsClaim};
ghost use Rattle.racp_report.specs.Reports.{IsReport};
ghost use Rattle.racp_report.specs.declared.claim.Claim.{Claim};
ghost use Rattle.racp_check.specs.PlanFaults.{IsFitting};
ghost use Rattle.racp_cli.specs.ReportAnswers.{AreBehind, IsBegun, IsChanged, IsPageOf};

use crate::check::Checked;
use crate::report::ClaimedPage;
use crate::status::{DONE, REFUSED};
use racp_calendar::Calendar;
use racp_charts::Drawing;
use racp_report::{Beside, Report, report_of, report_text};
use racp_show::{Names, Outline};
use racp_whatif::base_line;
use std::alloc::{AllocError, Global};

/// The status and the text for the text of a curve that is right, or empty if there is none.
#[tactic(auto, unfolding(racp_plan::specs::Texts::line))]
pub(crate) fn changed(
    alloc: Global,
    found: &Checked,
    names: &Names,
    outline: &Outline,
    curve: &str,
    page: ClaimedPage<'_>,
) -> Result<(u8, Vec<u8>), AllocError>
    requires terms { AreTermsOf found.now.net found.now.order }
    requires capacities { length found.now.plan.capacities ≡ found.now.net.resources }
    requires fitting { IsFitting found.now.net found.now.order found.now.plan }
    requires shown { IsClaim found.now.net found.now.order found.now.plan page.claim }
    requires outline { IsOutlineOf found.now.net (outlined outline.now) }
    ensures { IfOk result (λ answer. IsChanged page.entry.claim page.entry.page curve.now found.now.net found.now.order found.now.plan
        names.now (outlined outline.now) answer.0 answer.1.items) }
{
    let Some(bytes) = page.page.changes else {
        let beside = Beside {
            outline,
            curve,
            changes: "",
            claim: page.claim,
        };
        let text = page_text(alloc, found, names, beside, page.page.calendar)?;
        return Ok((DONE, text));
    };
    match std::str::from_utf8(bytes) {
        Ok(changes) => {
            let beside = Beside {
                outline,
                curve,
                changes,
                claim: page.claim,
            };
            begun(alloc, found, names, beside, page.page.calendar)
        }
        Err(_) => Ok((REFUSED, b"refused whatif 1 NotUtf8\n".to_vec(alloc)?)),
    }
}

/// The status and the text for the text of a curve and the whole text of changes, which has to begin with the line of
/// the plan.
#[tactic(auto, unfolding(racp_plan::specs::Texts::line))]
fn begun(
    alloc: Global,
    found: &Checked,
    names: &Names,
    beside: Beside<'_>,
    calendar: Calendar<'_>,
) -> Result<(u8, Vec<u8>), AllocError>
    requires terms { AreTermsOf found.now.net found.now.order }
    requires capacities { length found.now.plan.capacities ≡ found.now.net.resources }
    requires fitting { IsFitting found.now.net found.now.order found.now.plan }
    requires shown { IsClaim found.now.net found.now.order found.now.plan beside.claim }
    requires outline { IsOutlineOf found.now.net (outlined beside.outline.now) }
    ensures { IfOk result (λ answer. IsBegun beside.entry.claim calendar.entry beside.entry.curve.now beside.entry.changes.now found.now.net
        found.now.order found.now.plan names.now (outlined beside.entry.outline.now) answer.0 answer.1.items) }
{
    let Some(changes) = behind_plan(alloc, found, beside.changes)? else {
        return Ok((REFUSED, b"refused whatif 2 OtherPlan\n".to_vec(alloc)?));
    };
    let Beside {
        outline,
        curve,
        claim,
        ..
    } = beside;
    let beside = Beside {
        outline,
        curve,
        changes,
        claim,
    };
    let text = page_text(alloc, found, names, beside, calendar)?;
    Ok((DONE, text))
}

/// What stands behind the line of the plan with which a text of changes begins, if it does.
fn behind_plan<'a>(
    alloc: Global,
    found: &Checked,
    changes: &'a str,
) -> Result<Option<&'a str>, AllocError>
    ensures { IfOk result (λ rest. AreBehind found.now.plan changes.now (option_map (λ rest. rest.now) rest)) }
{
    let line = base_line(alloc, &found.plan)?;
    Ok(changes.strip_prefix(line.as_str()))
}

/// The page about a plan, with what stands beside it.
fn page_text(
    alloc: Global,
    found: &Checked,
    names: &Names,
    beside: Beside<'_>,
    calendar: Calendar<'_>,
) -> Result<Vec<u8>, AllocError>
    requires terms { AreTermsOf found.now.net found.now.order }
    requires capacities { length found.now.plan.capacities ≡ found.now.net.resources }
    requires fitting { IsFitting found.now.net found.now.order found.now.plan }
    requires shown { IsClaim found.now.net found.now.order found.now.plan beside.claim }
    requires outline { IsOutlineOf found.now.net (outlined beside.outline.now) }
    ensures { IfOk result (λ text. IsPageOf beside.entry.claim calendar.entry beside.entry.curve.now beside.entry.changes.now found.now.net
        found.now.order found.now.plan names.now (outlined beside.entry.outline.now) text.items) }
{
    let report = report_of(alloc, &found.net, &found.order, &found.plan, names, beside)?;
    let report = dated(report, calendar);
    let text = report_text(alloc, &report)?;
    Ok(text.into_bytes())
}

/// A report whose times a calendar tells.
fn dated<'a>(report: Report<'a>, calendar: Calendar<'a>) -> Report<'a>
    ensures told { result.plan.calendar ≡ calendar.entry }
    ensures right { (network : Project) (terms : Terms) (plan : Plan) (names : List (List ℕ)) (outline : Outlined)
        (curve changes : List ℕ) (claim : Claim) → IsReport network terms plan names outline curve changes claim report.entry →
        IsReport network terms plan names outline curve changes claim result }
{
    let Report {
        plan,
        costs,
        changes,
        claim,
    } = report;
    let Drawing {
        deadline,
        critical,
        cost,
        task_count,
        rows,
        choices,
        ..
    } = plan;
    let plan = Drawing {
        deadline,
        critical,
        cost,
        calendar,
        task_count,
        rows,
        choices,
    };
    Report {
        plan,
        costs,
        changes,
        claim,
    }
}
