//! The resources that rows name.

ghost use Rattle.std.specs.Prelude.{◌≡◌, ◌++◌, ◌∷◌, [], if◌then◌else◌, IfOk, OnOk, bytes_eq, fold, map, string_bytes};
ghost use Rattle.std.specs.List.{list_any};
ghost use Rattle.csv.specs.Records.{fields_of};
ghost use Rattle.racp_tables.specs.Assigned.{mention_of, mentions};
ghost use Rattle.racp_tables.specs.Records.{with_text};
ghost use Rattle.racp_tables.specs.Rosters.{names_in, roster_said, with_name};

use crate::cell::{is_empty_from, line_of, optional_cell};
use crate::fault::TableFault;
use crate::mention::{Mention, mentions_of};
use crate::outline::is_phase_at;
use csv::StringRecord;
use racp_model::limits::MOST_RESOURCES;
use std::alloc::{AllocError, Global};

/// The resources that the cells of a column name in rows that are no phases, each once, in the order in which they are named first.
/// Rows are parts of each other so; records without text are none. More are refused than a network may have.
pub(crate) fn roster_of(
    alloc: Global,
    column: Option<usize>,
    parents: &[u32],
    records: &[StringRecord],
) -> Result<Vec<String>, TableFault>
    ensures { IfOk result (λ roster. map string_bytes roster.items ≡ roster_said column parents.now (with_text (map fields_of records.now))) }
{
    let mut roster = Vec::new(alloc);
    let mut place = 0usize;
    for record in records {
        if !is_empty_from(record, 0) {
            let is_phase = is_phase_at(parents, place)?;
            add_leaf(alloc, &mut roster, column, record, is_phase)?;
            place = place.saturating_add(1);
        }
    }
    Ok(roster)
}

/// Adds the names in the cell of a column that are not there yet, unless the row is a phase.
fn add_leaf(
    alloc: Global,
    roster: &mut Vec<String>,
    column: Option<usize>,
    record: &StringRecord,
    is_phase: bool,
) -> Result<(), TableFault>
    ensures { OnOk result (map string_bytes roster.new.items ≡
        fold with_name (map string_bytes roster.old.items) (if is_phase then [] else names_in column (fields_of «record».now))) }
{
    if is_phase {
        Ok(())
    } else {
        add_row(
            alloc,
            roster,
            line_of(record),
            optional_cell(record, column),
        )
    }
}

/// Adds the names in a cell of the row at a line that are not there yet.
fn add_row(alloc: Global, roster: &mut Vec<String>, line: u64, cell: &str) -> Result<(), TableFault>
    ensures { OnOk result (map string_bytes roster.new.items ≡
        fold with_name (map string_bytes roster.old.items) (map (λ mention. mention.0) (mentions cell.now))) }
{
    let found = mentions_of(alloc, cell)?;
    add_names(alloc, roster, line, &found)
}

/// Adds the names of resources that are not there yet.
fn add_names(
    alloc: Global,
    roster: &mut Vec<String>,
    line: u64,
    found: &[Mention],
) -> Result<(), TableFault>
    ensures { OnOk result (map string_bytes roster.new.items ≡
        fold with_name (map string_bytes roster.old.items) (map (λ mention. mention.0) (map mention_of found.now))) }
{
    for mention in found {
        add_name(alloc, roster, line, mention.name.as_str())?;
    }
    Ok(())
}

/// Adds the name of a resource if it is not there yet.
fn add_name(
    alloc: Global,
    roster: &mut Vec<String>,
    line: u64,
    name: &str,
) -> Result<(), TableFault>
    ensures { OnOk result (map string_bytes roster.new.items ≡ with_name (map string_bytes roster.old.items) name.now) }
{
    if !has_name(roster, name) {
        test_room(alloc, roster, line, name)?;
        keep_name(alloc, roster, name)?;
    }
    Ok(())
}

/// Tests that there may be one resource more, which is called so.
fn test_room(alloc: Global, roster: &[String], line: u64, name: &str) -> Result<(), TableFault> {
    if roster.len() < MOST_RESOURCES {
        return Ok(());
    }
    let words = format!(in alloc;
        "'{name}' is one resource more than the {MOST_RESOURCES} that a network has at most"
    );
    Err(TableFault::at(line, words))
}

/// Adds a name.
fn keep_name(alloc: Global, roster: &mut Vec<String>, name: &str) -> Result<(), AllocError>
    ensures { OnOk result (map string_bytes roster.new.items ≡ map string_bytes roster.old.items ++ name.now ∷ []) }
{
    roster.push(String::from_str(alloc, name)?)?;
    Ok(())
}

/// Whether a resource of this name is there.
fn has_name(roster: &[String], name: &str) -> bool
    ensures { result ≡ list_any (λ known. bytes_eq known name.now) (map string_bytes roster.now) }
{
    for known in roster {
        if known.as_str() == name {
            return true;
        }
    }
    false
}
