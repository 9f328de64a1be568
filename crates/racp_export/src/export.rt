//! A plan in the formats of other programs.

ghost use Rattle.std.specs.Prelude.{◌≡◌, IfOk, length};
ghost use Rattle.racp_model.specs.Plan.{FitsTerms};
ghost use Rattle.racp_model.specs.Terms.{AreTermsOf};
ghost use Rattle.racp_show.specs.Entries.{outlined};
ghost use Rattle.racp_show.specs.Outlines.{IsOutlineOf};
ghost use Rattle.racp_export.specs.Exports.{IsExport, IsIn};
ghost use Rattle.racp_export.specs.Told.{told_by};

use crate::events::events_text;
use crate::format::Format;
use crate::ground::Ground;
use crate::markdown::markdown_text;
use crate::ms_project::project_text;
use crate::table::csv_text;
use crate::task_juggler::juggler_text;
use racp_calendar::Calendar;
use racp_model::Network;
use racp_plan::Plan;
use racp_prices::Order;
use racp_show::{Names, Outline, Row, rows_of};
use std::alloc::{AllocError, Global};

/// How a plan is exported.
#[derive(Clone, Copy)]
pub struct Export<'a> {
    /// In which format.
    pub format: Format,
    /// Which days its times are. Where a day has no date, the number of its time stands in its place, or nothing;
    /// `is_told` says whether each has one.
    pub calendar: Calendar<'a>,
    /// What jobs and resources are called.
    pub names: &'a Names,
    /// Which jobs are tasks, and in which phases they stand.
    pub outline: &'a Outline,
}

/// The phases and tasks of a plan that fits the order, as `check_plan` of racp_check tells, in a format.
///
/// # Errors
///
/// Memory was refused.
pub fn export_text(
    alloc: Global,
    net: &Network,
    order: &Order,
    plan: &Plan,
    export: Export<'_>,
) -> Result<Vec<u8>, AllocError>
    requires terms { AreTermsOf net.now order.now }
    requires fits { FitsTerms net.now order.now plan.now.capacities plan.now.starts }
    requires outline { IsOutlineOf net.now (outlined export.outline.now) }
    ensures { IfOk result (λ text. IsExport export.entry.format export.entry.calendar net.now order.now plan.now
        export.entry.names.now (outlined export.entry.outline.now) text.items) }
{
    let rows = rows_of(alloc, net, order, plan, export.names, export.outline)?;
    let ground = Ground {
        net,
        names: export.names,
        calendar: export.calendar,
        starts: plan.starts.as_slice(),
        capacities: plan.capacities.as_slice(),
        deadline: order.deadline,
    };
    text_in(alloc, export.format, &ground, rows.as_slice())
}

/// Rows in a format.
fn text_in(
    alloc: Global,
    format: Format,
    ground: &Ground<'_>,
    rows: &[Row<'_>],
) -> Result<Vec<u8>, AllocError>
    ensures { IfOk result (λ text. IsIn format (told_by ground.now) rows.now text.items) }
{
    match format {
        Format::Csv => csv_text(alloc, ground, rows),
        Format::Events => {
            let text = events_text(alloc, ground, rows)?;
            Ok(text.into_bytes())
        }
        Format::Markdown => {
            let text = markdown_text(alloc, ground, rows)?;
            Ok(text.into_bytes())
        }
        Format::MsProject => {
            let text = project_text(alloc, ground, rows)?;
            Ok(text.into_bytes())
        }
        Format::TaskJuggler => {
            let text = juggler_text(alloc, ground, rows)?;
            Ok(text.into_bytes())
        }
    }
}
