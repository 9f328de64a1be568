//! The sheet of a plan text.

ghost use Rattle.std.specs.Prelude.{◌≡◌, IfOk, IfSome, length};
ghost use Rattle.racp_model.specs.Terms.{AreTermsOf};
ghost use Rattle.racp_show.specs.Sheets.{IsSheet};
ghost use Rattle.racp_json.specs.Plans.{IsSheetIn};

use racp_calendar::Calendar;
use racp_check::check_plan;
use racp_model::Network;
use racp_plan::{Plan, read_plan};
use racp_prices::{Order, read_order};
use racp_show::{Names, Sheet, sheet_of};
use racp_sm::read_sm;
use std::alloc::{AllocError, Global};

/// The sheet of the plan in a text, for the texts of a network and an order, with these names and the days of a calendar; `None` if a
/// text is refused, the plan has a fault, or memory ran out while they were read.
///
/// # Errors
///
/// Memory was refused.
pub fn sheet_of_plan<'a>(
    alloc: Global,
    net: &[u8],
    order: &[u8],
    plan: &[u8],
    names: &'a Names,
    calendar: Calendar<'_>,
) -> Result<Option<Sheet<'a>>, AllocError>
    ensures { IfOk result (λ sheet. IfSome sheet (IsSheetIn net.now order.now plan.now names.now calendar.entry)) }
{
    let Ok(net) = read_sm(alloc, net) else {
        return Ok(None);
    };
    let Ok(order) = read_order(alloc, order, net.resource_count(), net.job_count()) else {
        return Ok(None);
    };
    let Ok(plan) = read_plan(alloc, plan, &net) else {
        return Ok(None);
    };
    fitting_sheet(alloc, &net, &order, &plan, names, calendar)
}

/// The sheet of a plan with these names; `None` if it has a fault.
pub(crate) fn fitting_sheet<'a>(
    alloc: Global,
    net: &Network,
    order: &Order,
    plan: &Plan,
    names: &'a Names,
    calendar: Calendar<'_>,
) -> Result<Option<Sheet<'a>>, AllocError>
    requires terms { AreTermsOf net.now order.now }
    requires capacities { length plan.now.capacities ≡ net.now.resources }
    requires starts { length plan.now.starts ≡ length net.now.jobs }
    ensures { IfOk result (λ sheet. IfSome sheet (IsSheet calendar.entry net.now order.now plan.now names.now)) }
{
    if check_plan(net, order, plan).is_err() {
        return Ok(None);
    }
    Ok(Some(sheet_of(alloc, net, order, plan, names, calendar)?))
}
