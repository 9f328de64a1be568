//! What a page says of a plan.

ghost use Rattle.std.specs.Prelude.{◌≡◌, IfOk, length};
ghost use Rattle.racp_model.specs.Terms.{AreTermsOf};
ghost use Rattle.racp_model.specs.Plan.{FitsTerms};
ghost use Rattle.racp_show.specs.Entries.{outlined};
ghost use Rattle.racp_show.specs.Outlines.{IsOutlineOf};
ghost use Rattle.racp_report.specs.Claims.{IsClaim};
ghost use Rattle.racp_report.specs.Reports.{IsReport};

use crate::claim::Claim;
use racp_charts::{Drawing, drawing_of};
use racp_json::{Step, steps_of};
use racp_model::Network;
use racp_plan::Plan;
use racp_prices::Order;
use racp_show::{Names, Outline};
use std::alloc::{AllocError, Global};

/// What a page says of a plan.
#[derive(Drop)]
pub struct Report<'a> {
    /// What is drawn of the plan, and said in tables too; its calendar tells how times are told in them.
    pub plan: Drawing<'a>,
    /// The steps of a curve; none if there is no curve.
    pub costs: Vec<Step>,
    /// The lines of what changes would cost; empty if there are none.
    pub changes: &'a str,
    /// What is shown of what the plan costs.
    pub claim: Claim,
}

/// What is told beside a plan.
#[derive(Clone, Copy)]
pub struct Beside<'a> {
    /// Which jobs are tasks, and in which phases they stand.
    pub outline: &'a Outline,
    /// The text of a curve; empty if there is none.
    pub curve: &'a str,
    /// The lines of what changes would cost; empty if there are none.
    pub changes: &'a str,
    /// What is shown of what the plan costs.
    pub claim: Claim,
}

/// What a page says of a plan that fits the order, with these names and what is told beside it.
///
/// # Errors
///
/// Memory was refused.
pub fn report_of<'a>(
    alloc: Global,
    net: &Network,
    order: &Order,
    plan: &Plan,
    names: &'a Names,
    beside: Beside<'a>,
) -> Result<Report<'a>, AllocError>
    requires terms { AreTermsOf net.now order.now }
    requires capacities { length plan.now.capacities ≡ net.now.resources }
    requires fits { FitsTerms net.now order.now plan.now.capacities plan.now.starts }
    requires outline { IsOutlineOf net.now (outlined beside.outline.now) }
    requires shown { IsClaim net.now order.now plan.now beside.claim }
    ensures { IfOk result (IsReport net.now order.now plan.now names.now (outlined beside.entry.outline.now)
        beside.entry.curve.now beside.entry.changes.now beside.entry.claim) }
{
    let costs = steps_of(alloc, beside.curve)?;
    let plan = drawing_of(alloc, net, order, plan, names, beside.outline)?;
    Ok(Report {
        plan,
        costs,
        changes: beside.changes,
        claim: beside.claim,
    })
}
