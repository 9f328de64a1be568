//! A plan as a project of TaskJuggler.

ghost use Rattle.std.specs.Prelude.{◌≡◌, ◌++◌, IfOk, OnOk, flat_map, string_bytes};
ghost use Rattle.racp_export.specs.TaskJuggler.{IsJuggled, juggler_text, plan_row, remark};
ghost use Rattle.racp_export.specs.Letters.{spelled};
ghost use Rattle.racp_export.specs.declared.letters.Letters.TheVariants.{TaskJuggler};
ghost use Rattle.racp_export.specs.Told.{told_by};

use crate::book::Book;
use crate::booking::books_of;
use crate::ground::Ground;
use crate::juggler_frame::{push_frame, push_staff};
use crate::juggler_tasks::push_task;
use crate::letters::{Letters, spelled};
use racp_show::Row;
use std::alloc::{AllocError, Global};

/// What is told of the tasks when they are scheduled.
const REPORT: &str =
    "taskreport \"tasks\" {\n  formats csv\n  timeformat \"%Y-%m-%d %H:%M\"\n  columns id, name, start, end, resources\n}\n";

/// The phases and the tasks of a plan as a project of TaskJuggler, with the units that serve each task.
pub(crate) fn juggler_text(
    alloc: Global,
    ground: &Ground<'_>,
    rows: &[Row<'_>],
) -> Result<String, AllocError>
    ensures { IfOk result (λ text. IsJuggled (told_by ground.now) rows.now (string_bytes text)) }
{
    let books = books_of(alloc, ground.net, ground.starts, ground.capacities)?;
    written(alloc, ground, books.as_slice(), rows)
}

/// The project of which these units serve the tasks.
#[tactic(auto, unfolding(crate::specs::TaskJuggler::juggler_text), using(crate::proofs::Pieces::in_four))]
fn written(
    alloc: Global,
    ground: &Ground<'_>,
    books: &[Book],
    rows: &[Row<'_>],
) -> Result<String, AllocError>
    ensures { IfOk result (λ text. string_bytes text ≡ juggler_text (told_by ground.now) books.now rows.now) }
{
    let mut text = String::new(alloc);
    push_frame(alloc, &mut text, ground)?;
    push_staff(alloc, &mut text, ground)?;
    push_rows(alloc, &mut text, ground, books, rows)?;
    text.push_str(REPORT)?;
    Ok(text)
}

/// Adds each row.
fn push_rows(
    alloc: Global,
    text: &mut String,
    ground: &Ground<'_>,
    books: &[Book],
    rows: &[Row<'_>],
) -> Result<(), AllocError>
    ensures { OnOk result (string_bytes text.new ≡ string_bytes text.old ++ flat_map (plan_row (told_by ground.now) books.now) rows.now) }
{
    for row in rows {
        push_row(alloc, text, ground, books, row)?;
    }
    Ok(())
}

/// Adds a row.
fn push_row(
    alloc: Global,
    text: &mut String,
    ground: &Ground<'_>,
    books: &[Book],
    row: &Row<'_>,
) -> Result<(), AllocError>
    ensures { OnOk result (string_bytes text.new ≡ string_bytes text.old ++ plan_row (told_by ground.now) books.now row.now) }
{
    match row {
        Row::Heading { title, .. } => push_remark(alloc, text, title),
        Row::Bar { task, .. } => push_task(alloc, text, ground, books, task),
    }
}

/// Adds a phase, as a remark.
#[tactic(auto, unfolding(crate::specs::TaskJuggler::remark))]
fn push_remark(alloc: Global, text: &mut String, title: &str) -> Result<(), AllocError>
    ensures { OnOk result (string_bytes text.new ≡ string_bytes text.old ++ remark (spelled TaskJuggler title.now)) }
{
    let title = spelled(alloc, Letters::TaskJuggler, title)?;
    write!(text, "# {title}\n")
}
