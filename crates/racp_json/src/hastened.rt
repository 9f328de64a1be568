//! The sheet of a soonest plan.

use crate::sheet::fitting_sheet;
use racp_calendar::Calendar;
use racp_plan::read_plan;
use racp_prices::read_order;
use racp_show::{Names, Sheet};
use racp_sm::read_sm;
use std::alloc::{AllocError, Global};

/// The sheet of the plan in a text, beside the order of another with the plan's own deadline, if that is sooner; `None` as with
/// `sheet_of_plan`.
pub(crate) fn sheet_of_soonest<'a>(
    alloc: Global,
    net: &[u8],
    order: &[u8],
    plan: &[u8],
    names: &'a Names,
    calendar: Calendar<'_>,
) -> Result<Option<Sheet<'a>>, AllocError> {
    let Ok(net) = read_sm(alloc, net) else {
        return Ok(None);
    };
    let Ok(mut order) = read_order(alloc, order, net.resource_count(), net.job_count()) else {
        return Ok(None);
    };
    let Ok(plan) = read_plan(alloc, plan, &net) else {
        return Ok(None);
    };
    if plan.deadline < order.deadline {
        order.deadline = plan.deadline;
    }
    if !order.is_for(&net) {
        return Ok(None);
    }
    fitting_sheet(alloc, &net, &order, &plan, names, calendar)
}
