//! The ties between the tasks of rows, as their cells name them.

ghost use Rattle.std.specs.Prelude.{◌≡◌, ◌++◌, ◌∷◌, [], IfOk, OnOk, map};
ghost use Rattle.racp_tables.specs.CellTies.{AreTiesOf, all_ties, cell_ties, part_ties};
ghost use Rattle.racp_tables.specs.LinkWords.{without_lag};
ghost use Rattle.racp_tables.specs.Pieces.{between};

use crate::beginning::beginning;
use crate::fault::TableFault;
use crate::link_cells::{Cell, called, keep_tie, push_part};
use crate::link_words::without_lag;
use crate::named::{Named, task_of};
use crate::pieces::between;
use crate::reading::Scale;
use crate::row::Row;
use crate::ties::{Tie, Ties};
use crate::warning::{Warning, warn};
use racp_links::LinkKind;
use std::alloc::{AllocError, Global};

/// The ties that the rows of tasks name.
pub(crate) fn ties_of(
    alloc: Global,
    rows: &[Row],
    scale: Scale,
    warnings: &mut Vec<Warning>,
) -> Result<Vec<Ties>, TableFault>
    ensures { IfOk result (λ all. AreTiesOf rows.now scale all.items) }
{
    let mut all = Vec::new(alloc);
    for (place, row) in rows.iter().enumerate() {
        let before = Cell {
            rows,
            scale,
            place,
            line: row.line,
            text: row.predecessors.as_str(),
            is_before: true,
        };
        let after = Cell {
            text: row.successors.as_str(),
            is_before: false,
            ..before
        };
        let before = ties_in(alloc, &before, warnings)?;
        let after = ties_in(alloc, &after, warnings)?;
        keep_ties(&mut all, Ties { before, after })?;
    }
    Ok(all)
}

/// Adds the ties of a row.
fn keep_ties(all: &mut Vec<Ties>, ties: Ties) -> Result<(), AllocError>
    ensures { OnOk result (all.new.items ≡ all.old.items ++ ties ∷ []) }
{
    all.push(ties)?;
    Ok(())
}

/// The ties of a cell. If it is the name of a task, that is the one; else names stand between commas and semicolons.
fn ties_in(
    alloc: Global,
    cell: &Cell<'_>,
    warnings: &mut Vec<Warning>,
) -> Result<Vec<Tie>, TableFault>
    ensures { IfOk result (λ ties. cell_ties cell.now.rows.now cell.now.scale cell.now.text.now ≡ Some ties.items) }
{
    match task_of(cell.rows, cell.text) {
        Named::One(place) => Ok(one_tie(alloc, place)?),
        Named::Several => ties_of_words(alloc, cell, warnings),
        Named::None => ties_of_words(alloc, cell, warnings),
    }
}

/// The tie from the end of the task at a place.
fn one_tie(alloc: Global, place: usize) -> Result<Vec<Tie>, AllocError>
    ensures { IfOk result (λ ties. ties.items ≡ without_lag place LinkKind.FinishToStart ∷ []) }
{
    let mut ties = Vec::new(alloc);
    keep_tie(&mut ties, without_lag(place, LinkKind::FinishToStart))?;
    Ok(ties)
}

/// The ties of the words of a cell.
fn ties_of_words(
    alloc: Global,
    cell: &Cell<'_>,
    warnings: &mut Vec<Warning>,
) -> Result<Vec<Tie>, TableFault>
    ensures { IfOk result (λ ties. all_ties (map (part_ties cell.now.rows.now cell.now.scale) (between 59 cell.now.text.now)) ≡ Some ties.items) }
{
    let mut ties = Vec::new(alloc);
    let parts = between(alloc, cell.text, ';')?;
    for part in &parts {
        push_part(alloc, &mut ties, cell, part)?;
    }
    warn_of_twins(alloc, cell, &ties, warnings)?;
    Ok(ties)
}

/// Adds a warning if two of these ties are to the same task.
fn warn_of_twins(
    alloc: Global,
    cell: &Cell<'_>,
    ties: &[Tie],
    warnings: &mut Vec<Warning>,
) -> Result<(), AllocError> {
    if has_twin(ties) {
        let words = format!(in alloc;
            "{} '{}' names a task twice; a spreadsheet may have made 1,1 of 1,10",
            called(cell),
            beginning(alloc, cell.text)?
        );
        warn(warnings, cell.line, words)?;
    }
    Ok(())
}

/// Whether two of these are ties to the same task.
fn has_twin(ties: &[Tie]) -> bool {
    for (count, tie) in ties.iter().enumerate() {
        for other in ties.iter().take(count) {
            if other.place == tie.place {
                return true;
            }
        }
    }
    false
}

/// The name of the task at a place.
pub(crate) fn name_at(rows: &[Row], place: usize) -> &str {
    match rows.get(place) {
        Some(row) => row.name.as_str(),
        None => "",
    }
}

/// What is wrong with a link with which a task could start before another has ended.
pub(crate) fn overlap(alloc: Global, before: &str, after: &str) -> Result<String, AllocError> {
    format!(in alloc; "'{after}' could start before '{before}' has ended; split that task")
}
