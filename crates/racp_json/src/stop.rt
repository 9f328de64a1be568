//! What is told of a plan that is not known.

ghost use Rattle.std.specs.Prelude.{IfOk};
ghost use Rattle.racp_json.specs.Stops.{IsStopOf};

use crate::bound::bound_of;
use crate::sheet::sheet_of_plan;
use crate::told::Told;
use crate::work::Work;
use racp_show::{Names, Sheet};
use serde::Serialize;
use std::alloc::{AllocError, Global};

/// A plan that is not known.
#[derive(Drop, Serialize)]
pub(crate) struct StopAnswer<'a> {
    status: &'static str,
    not_before: Vec<u64>,
    bound: Option<u64>,
    best: Option<Sheet<'a>>,
    #[serde(flatten)]
    work: Work,
}

/// What is told of a plan that is not known: no capacities that are enough stand before these.
pub(crate) fn stop_of<'a>(
    alloc: Global,
    told: &Told<'_>,
    not_before: Vec<u64>,
    names: &'a Names,
) -> Result<StopAnswer<'a>, AllocError>
    ensures { IfOk result (IsStopOf told.now.net.now told.now.order.now told.now.best.now not_before.items names.now told.now.calendar) }
{
    Ok(StopAnswer {
        status: "stopped",
        bound: bound_of(alloc, told.net, told.order, &not_before)?,
        not_before,
        best: sheet_of_plan(alloc, told.net, told.order, told.best, names, told.calendar)?,
        work: told.work,
    })
}
