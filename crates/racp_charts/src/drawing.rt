//! What is drawn of a plan.

ghost use Rattle.std.specs.Prelude.{◌≡◌, IfOk, length};
ghost use Rattle.racp_model.specs.Terms.{AreTermsOf};
ghost use Rattle.racp_model.specs.Plan.{FitsTerms};
ghost use Rattle.racp_show.specs.Entries.{outlined};
ghost use Rattle.racp_show.specs.Outlines.{IsOutlineOf};
ghost use Rattle.racp_charts.specs.Choices.{IsDrawing};

use crate::choice::{Choice, choices_of};
use racp_calendar::Calendar;
use racp_model::Network;
use racp_plan::Plan;
use racp_prices::Order;
use racp_show::{Names, Outline, Row, rows_of};
use std::alloc::{AllocError, Global};

/// What is drawn of a plan.
#[derive(Drop)]
pub struct Drawing<'a> {
    /// The deadline of the order, in time units.
    pub deadline: u32,
    /// The critical length that the plan says, in time units.
    pub critical: u64,
    /// What the capacities cost, as the plan says.
    pub cost: u64,
    /// How times are told.
    pub calendar: Calendar<'a>,
    /// How many tasks there are.
    pub task_count: usize,
    /// The phases and the tasks, in the order in which they stand.
    pub rows: Vec<Row<'a>>,
    /// The resources, by place from 0.
    pub choices: Vec<Choice<'a>>,
}

/// What is drawn of a plan that fits the order, as `check_plan` of racp_check tells, with these names and this outline. Times are told by
/// their numbers; who wants dates sets the calendar.
///
/// # Errors
///
/// Memory was refused.
pub fn drawing_of<'a>(
    alloc: Global,
    net: &Network,
    order: &Order,
    plan: &Plan,
    names: &'a Names,
    outline: &'a Outline,
) -> Result<Drawing<'a>, AllocError>
    requires terms { AreTermsOf net.now order.now }
    requires capacities { length plan.now.capacities ≡ net.now.resources }
    requires fits { FitsTerms net.now order.now plan.now.capacities plan.now.starts }
    requires outline { IsOutlineOf net.now (outlined outline.now) }
    ensures { IfOk result (IsDrawing net.now order.now plan.now names.now (outlined outline.now)) }
{
    let rows = rows_of(alloc, net, order, plan, names, outline)?;
    let choices = choices_of(alloc, net, order, plan, names)?;
    Ok(Drawing {
        deadline: order.deadline,
        critical: plan.critical,
        cost: plan.cost,
        calendar: Calendar::Numbers,
        task_count: outline.task_count(),
        rows,
        choices,
    })
}
