//! The columns of a table, as its titles name them.

use crate::cell::{cell_at, line_of, plain};
use crate::choice::{Choice, choice_of, test_choice};
use crate::columns_tested::test_titles;
use crate::fault::TableFault;
use crate::reading::Reading;
use crate::titles::{Title, key_of, near_title, title_of};
use csv::StringRecord;
use std::alloc::{AllocError, Global};

/// How many columns there may be.
pub(crate) const MOST_COLUMNS: usize = 1_000;

/// A column of a resource.
#[derive(Drop)]
pub(crate) struct Column {
    /// The name of the resource.
    pub(crate) name: String,
    /// The column's place, from 0.
    pub(crate) place: usize,
}

/// Which column is which, by place from 0.
#[derive(Drop)]
pub(crate) struct Columns {
    /// What the tasks are called in other rows, if that is not their number.
    pub(crate) id: Option<usize>,
    /// Their names.
    pub(crate) name: Option<usize>,
    /// How long they take.
    pub(crate) duration: Option<usize>,
    /// After which tasks they come.
    pub(crate) predecessors: Option<usize>,
    /// Which tasks come after them.
    pub(crate) successors: Option<usize>,
    /// From which time on they may start.
    pub(crate) earliest: Option<usize>,
    /// By which time they have to end.
    pub(crate) due: Option<usize>,
    /// Which resources they need, by name.
    pub(crate) assigned: Option<usize>,
    /// How deep they lie in the outline.
    pub(crate) level: Option<usize>,
    /// How many units they need of each resource.
    pub(crate) resources: Vec<Column>,
    /// The titles of columns that are passed over.
    pub(crate) passed_over: Vec<String>,
    /// How many columns there are.
    pub(crate) count: usize,
    /// The line of the titles.
    pub(crate) line: u64,
}

/// The columns that a row of titles names.
pub(crate) fn columns_of(
    alloc: Global,
    head: &StringRecord,
    reading: &Reading<'_>,
) -> Result<Columns, TableFault> {
    if head.len() > MOST_COLUMNS {
        let words = format!(in alloc; "there are more than {MOST_COLUMNS} columns");
        return Err(TableFault::at(line_of(head), words));
    }
    let choice = choice_of(alloc, reading)?;
    let mut columns = no_columns(alloc, head);
    for place in 0..head.len() {
        note(alloc, &mut columns, head, (place, &choice))?;
    }
    test_choice(alloc, head, &choice)?;
    if !columns.resources.is_empty() {
        pass_over_assigned(alloc, &mut columns, head)?;
    }
    test_titles(alloc, &columns, head)?;
    Ok(columns)
}

/// None of the columns that titles name.
fn no_columns(alloc: Global, head: &StringRecord) -> Columns {
    Columns {
        id: None,
        name: None,
        duration: None,
        predecessors: None,
        successors: None,
        earliest: None,
        due: None,
        assigned: None,
        level: None,
        resources: Vec::new(alloc),
        passed_over: Vec::new(alloc),
        count: head.len(),
        line: line_of(head),
    }
}

/// Notes the column at a place, by the choice that is told and its title.
fn note(
    alloc: Global,
    columns: &mut Columns,
    head: &StringRecord,
    told: (usize, &Choice),
) -> Result<(), TableFault> {
    let (place, choice) = told;
    let title = cell_at(head, place);
    let key = key_of(alloc, title)?;
    if choice.passes_over(key.as_str()) {
        return Ok(pass_over(alloc, columns, title)?);
    }
    if choice.takes(key.as_str()) {
        return note_resource(alloc, columns, title, place);
    }
    if choice.is_of_resources() && title_of(key.as_str()) == Title::Unknown {
        return Ok(pass_over(alloc, columns, title)?);
    }
    let mut known = title_of(key.as_str());
    if known == Title::Deadline {
        known = if choice.takes_deadlines() {
            Title::Due
        } else {
            Title::Other
        };
    }
    note_known(alloc, columns, head, (place, key.as_str(), known))
}

/// Notes the column at a place, whose title has this key, by what that means.
fn note_known(
    alloc: Global,
    columns: &mut Columns,
    head: &StringRecord,
    keyed: (usize, &str, Title),
) -> Result<(), TableFault> {
    let (place, key, known) = keyed;
    let title = cell_at(head, place);
    let earlier = match known {
        Title::Id => note_once(&mut columns.id, place),
        Title::Name => note_once(&mut columns.name, place),
        Title::Duration => note_once(&mut columns.duration, place),
        Title::Predecessors => note_once(&mut columns.predecessors, place),
        Title::Successors => note_once(&mut columns.successors, place),
        Title::Earliest => note_once(&mut columns.earliest, place),
        Title::Due => note_once(&mut columns.due, place),
        Title::Assigned => note_once(&mut columns.assigned, place),
        Title::Level => note_once(&mut columns.level, place),
        Title::Nothing => None,
        Title::Other | Title::Deadline => return Ok(pass_over(alloc, columns, title)?),
        Title::Unknown => return note_unknown(alloc, columns, (title, key), place),
    };
    match earlier {
        Some(earlier) => {
            let words = twice(alloc, cell_at(head, earlier), title);
            Err(TableFault::at(columns.line, words))
        }
        None => Ok(()),
    }
}

/// Notes the place of a column that may stand once; the place that is noted already, if there is one.
fn note_once(noted: &mut Option<usize>, place: usize) -> Option<usize> {
    let earlier = *noted;
    if earlier.is_none() {
        *noted = Some(place);
    }
    earlier
}

/// What is wrong with two columns that mean the same.
fn twice(alloc: Global, first: &str, second: &str) -> Result<String, AllocError> {
    if first.eq_ignore_ascii_case(second) {
        format!(in alloc; "two columns are called '{second}'")
    } else {
        format!(in alloc;
            "the columns '{first}' and '{second}' mean the same; --ignore '{second}' passes over one"
        )
    }
}

/// Notes a column whose title is not known, as that of a resource; unless it is one letter away from a known one.
fn note_unknown(
    alloc: Global,
    columns: &mut Columns,
    titled: (&str, &str),
    place: usize,
) -> Result<(), TableFault> {
    let (title, key) = titled;
    match near_title(alloc, key)? {
        Some(near) => {
            let words = format!(in alloc;
                "is the column '{title}' meant to be '{near}'? If so, call it so; if it is a resource, say --resources '{title}'; else --ignore '{title}'"
            );
            Err(TableFault::at(columns.line, words))
        }
        None => note_resource(alloc, columns, title, place),
    }
}

/// Notes the column of a resource.
fn note_resource(
    alloc: Global,
    columns: &mut Columns,
    title: &str,
    place: usize,
) -> Result<(), TableFault> {
    let name = plain(alloc, title)?;
    if columns
        .resources
        .iter()
        .any(|column| column.name.as_str() == name.as_str())
    {
        return Err(TableFault::at(columns.line, twice(alloc, title, title)));
    }
    Ok(push_column(&mut columns.resources, Column { name, place })?)
}

/// Adds a column.
fn push_column(resources: &mut Vec<Column>, column: Column) -> Result<(), AllocError> {
    resources.push(column)?;
    Ok(())
}

/// Notes a column that is passed over.
fn pass_over(alloc: Global, columns: &mut Columns, title: &str) -> Result<(), AllocError> {
    let title = plain(alloc, title)?;
    columns.passed_over.push(title)?;
    Ok(())
}

/// Passes over the names of resources, where columns say what is needed.
fn pass_over_assigned(
    alloc: Global,
    columns: &mut Columns,
    head: &StringRecord,
) -> Result<(), AllocError> {
    if let Some(place) = columns.assigned {
        columns.assigned = None;
        pass_over(alloc, columns, cell_at(head, place))?;
    }
    Ok(())
}
