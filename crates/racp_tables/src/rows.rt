//! The table that rows make.

ghost use Rattle.std.specs.Prelude.{◌≡◌, IfOk, map};
ghost use Rattle.racp_tables.specs.CellTies.{AreTiesOf};
ghost use Rattle.racp_tables.specs.Outlines.{AreParts};
ghost use Rattle.racp_tables.specs.Rows.{IsOfRows, IsTableOf, id_of};

use crate::columns_tested::too_many;
use crate::fault::TableFault;
use crate::faults::{Linked, made_fault};
use crate::leaves::{Found, put_together};
use crate::links::ties_of;
use crate::looks::warn_of_rows;
use crate::made::{Made, MadeFault, made_of};
use crate::outline::{Outline, count_leaves, parents_of_rows};
use crate::reading::Scale;
use crate::ring::test_rings;
use crate::row::Row;
use crate::table::Table;
use crate::taken::Taken;
use crate::ties::{Ties, links_of};
use crate::warning::{Warning, warn};
use racp_links::{Link, leaf_links};
use racp_model::limits::{MOST_JOBS, MOST_RESOURCES};
use std::alloc::{AllocError, Global};

/// The table of these rows, which are parts of each other by their ids or levels, as they were read.
pub(crate) fn table_of(
    alloc: Global,
    taken: Taken<'_>,
    rows: &[Row],
    outline: &Outline,
) -> Result<Table, TableFault>
    ensures { IfOk result (IsTableOf outline.now taken.entry.parents.now taken.entry.scale rows.now) }
{
    let Taken {
        columns,
        roster,
        parents,
        scale,
        ..
    } = taken;
    let resources = columns.resources.len().saturating_add(roster.len());
    test_counts(alloc, columns.line, resources, rows.len())?;
    test_parents(alloc, rows, outline, parents)?;
    let mut warnings = Vec::new(alloc);
    let ties = tested_ties(alloc, rows, parents, scale, &mut warnings)?;
    let made = made_tested(alloc, rows, &ties, parents, resources)?;
    let found = Found {
        made,
        parents: Vec::from_slice(alloc, parents)?,
        warnings,
        is_half_day: scale.is_half_day,
    };
    Ok(put_together(alloc, columns, roster, rows, found)?)
}

/// Tests that rows are parts of each other so. The ids of their cells are theirs, so they are.
fn test_parents(
    alloc: Global,
    rows: &[Row],
    outline: &Outline,
    parents: &[u32],
) -> Result<(), AllocError>
    ensures { IfOk result (λ _. AreParts outline.now (map id_of rows.now) parents.now) }
{
    let own = parents_of_rows(alloc, rows, outline)?;
    if own.as_slice() == parents {
        Ok(())
    } else {
        Err(AllocError)
    }
}

/// Tests that there is a task, and how many resources there are.
pub(crate) fn test_counts(
    alloc: Global,
    line: u64,
    resources: usize,
    tasks: usize,
) -> Result<(), TableFault> {
    if tasks == 0 {
        let words = String::from_str(alloc, "the table has no task");
        return Err(TableFault::at(0, words));
    }
    if resources == 0 {
        let words = String::from_str(alloc, "no task needs a resource");
        return Err(TableFault::at(line, words));
    }
    if resources > MOST_RESOURCES {
        return Err(TableFault::at(line, too_many(alloc, resources)));
    }
    Ok(())
}

/// The ties of rows, if links can tie them, and no task waits for itself.
fn tested_ties(
    alloc: Global,
    rows: &[Row],
    parents: &[u32],
    scale: Scale,
    warnings: &mut Vec<Warning>,
) -> Result<Vec<Ties>, TableFault>
    ensures { IfOk result (λ ties. AreTiesOf rows.now scale ties.items) }
{
    let ties = ties_of(alloc, rows, scale, warnings)?;
    test_ties(alloc, rows, &ties, parents, warnings)?;
    Ok(ties)
}

/// Tests that links can tie rows so, and that no task waits for itself. Adds warnings of what looks wrong.
pub(crate) fn test_ties(
    alloc: Global,
    rows: &[Row],
    ties: &[Ties],
    parents: &[u32],
    warnings: &mut Vec<Warning>,
) -> Result<(), TableFault> {
    let links = links_of(alloc, ties)?;
    match leaf_links(alloc, parents, &links) {
        Ok(links) => test_rings(alloc, rows, &pairs_of(alloc, &links)?)?,
        Err(fault) => {
            let linked = Linked {
                rows,
                ties,
                parents,
            };
            return Err(made_fault(alloc, linked, MadeFault::Phase(fault)));
        }
    }
    warn_of_rows(alloc, rows, parents, warnings)?;
    warn_of_links(alloc, parents, &links, warnings)?;
    Ok(())
}

/// The pairs of the tasks that links tie.
fn pairs_of(alloc: Global, links: &[Link]) -> Result<Vec<(u32, u32)>, AllocError> {
    let mut pairs = Vec::new(alloc);
    for link in links {
        pairs.push((link.before, link.after))?;
    }
    Ok(pairs)
}

/// Adds a warning if there are tasks, and none waits for another.
fn warn_of_links(
    alloc: Global,
    parents: &[u32],
    links: &[Link],
    warnings: &mut Vec<Warning>,
) -> Result<(), AllocError> {
    if links.is_empty() && count_leaves(parents)? > 1 {
        let words = String::from_str(alloc, "no task waits for another");
        warn(warnings, 0, words)?;
    }
    Ok(())
}

/// What rows make that are parts of each other so and have these ties, if a network may have so many jobs.
pub(crate) fn made_tested(
    alloc: Global,
    rows: &[Row],
    ties: &[Ties],
    parents: &[u32],
    resources: usize,
) -> Result<Made, TableFault>
    ensures { IfOk result (λ made. IsOfRows parents.now rows.now ties.now resources made.jobs.items made.pairs.items) }
{
    match made_of(alloc, rows, ties, parents, resources) {
        Ok(made) => {
            test_jobs(alloc, made.jobs.len())?;
            Ok(made)
        }
        Err(fault) => {
            let linked = Linked {
                rows,
                ties,
                parents,
            };
            Err(made_fault(alloc, linked, fault))
        }
    }
}

/// Tests how many jobs there are with those that wait.
fn test_jobs(alloc: Global, jobs: usize) -> Result<(), TableFault> {
    if jobs <= MOST_JOBS {
        return Ok(());
    }
    let words = format!(in alloc;
        "with those of links with lags there are {jobs} jobs; a network has at most {MOST_JOBS}"
    );
    Err(TableFault::at(0, words))
}
