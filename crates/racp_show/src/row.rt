//! The rows of a chart.

ghost use Rattle.std.specs.Prelude.{◌≡◌, IfOk, length};
ghost use Rattle.racp_model.specs.Terms.{AreTermsOf};
ghost use Rattle.racp_model.specs.Plan.{FitsTerms};
ghost use Rattle.racp_show.specs.Entries.{IsWithin, line_of, outlined};
ghost use Rattle.racp_show.specs.Outlines.{IsOutlineOf};
ghost use Rattle.racp_show.specs.Rows.{AreRows, IsRow, shown};

use crate::entry::Entry;
use crate::latest::{Room, room_of};
use crate::names::Names;
use crate::order::deadline_of;
use crate::outline::Outline;
use crate::task::{Task, task_of};
use crate::times::Times;
use racp_model::Network;
use racp_plan::Plan;
use racp_prices::Order;
use std::alloc::{AllocError, Global};

/// A row of a chart.
#[derive(Drop)]
pub enum Row<'a> {
    /// A phase begins.
    Heading {
        /// In how many phases it stands.
        depth: usize,
        /// What it is called.
        title: &'a str,
    },
    /// A task.
    Bar {
        /// In how many phases it stands.
        depth: usize,
        /// What is said of it.
        task: Task<'a>,
    },
}

/// The rows of an outline, with what is said of each task of a plan that fits the order, as `check_plan` of racp_check
/// tells, with these names. Late starts are those by the due times and the deadline. A job is on the critical chain
/// exactly if its early start is its late start by the critical length. What a job waits for that waits itself, a task
/// behind that waits for with a lag.
///
/// # Errors
///
/// Memory was refused.
pub fn rows_of<'a>(
    alloc: Global,
    net: &Network,
    order: &Order,
    plan: &Plan,
    names: &'a Names,
    outline: &'a Outline,
) -> Result<Vec<Row<'a>>, AllocError>
    requires terms { AreTermsOf net.now order.now }
    requires fits { FitsTerms net.now order.now plan.now.capacities plan.now.starts }
    requires outline { IsOutlineOf net.now (outlined outline.now) }
    ensures { IfOk result (λ rows. AreRows net.now order.now plan.now.starts names.now (outlined outline.now) rows.items) }
{
    let room = room_of(alloc, net, order, plan)?;
    let times = Times {
        net,
        starts: plan.starts.as_slice(),
        deadline: deadline_of(order),
    };
    let tasks = outline.task_count();
    let mut rows = Vec::new(alloc);
    let entries = outline.rows();
    for entry in entries {
        rows.push(row_of(alloc, &times, &room, names, tasks, entry)?)?;
    }
    Ok(rows)
}

/// The row of an entry, where so many jobs are tasks.
fn row_of<'a>(
    alloc: Global,
    times: &Times,
    room: &Room,
    names: &'a Names,
    tasks: usize,
    entry: &'a Entry,
) -> Result<Row<'a>, AllocError>
    requires job { IsWithin (length times.now.net.now.jobs) (line_of entry.now) }
    requires latest { length room.now.latest ≡ length times.now.net.now.jobs }
    requires early { length room.now.early ≡ length times.now.net.now.jobs }
    requires late { length room.now.late ≡ length times.now.net.now.jobs }
    ensures shown { IfOk result (λ row. shown row ≡ line_of entry.now) }
    ensures right { IfOk result (IsRow times.now.net.now times.now.starts.now room.now names.now tasks) }
{
    match entry {
        Entry::Heading { depth, title } => Ok(Row::Heading {
            depth: *depth,
            title: title.as_str(),
        }),
        Entry::Bar { depth, job } => {
            let task = task_of(alloc, times, room, names, tasks, *job - 1)?;
            Ok(Row::Bar {
                depth: *depth,
                task,
            })
        }
    }
}
