//! The columns that are told to be resources, and those that are told to be passed over.

use crate::cell::{cell_at, line_of};
use crate::fault::TableFault;
use crate::reading::Reading;
use crate::titles::key_of;
use csv::StringRecord;
use std::alloc::{AllocError, Global};

/// A title that is told, and its key.
#[derive(Drop)]
struct Told {
    title: String,
    key: String,
}

/// The columns that are told to be resources, and those that are passed over.
#[derive(Drop)]
pub(crate) struct Choice {
    resources: Vec<Told>,
    ignored: Vec<Told>,
    has_dates: bool,
}

impl Choice {
    /// Whether the column with this key is told to be a resource.
    pub(crate) fn takes(&self, key: &str) -> bool {
        has(&self.resources, key)
    }

    /// Whether the column with this key is told to be passed over.
    pub(crate) fn passes_over(&self, key: &str) -> bool {
        has(&self.ignored, key)
    }

    /// Whether deadlines are due times, as they are by a calendar.
    pub(crate) fn takes_deadlines(&self) -> bool {
        self.has_dates
    }

    /// Whether it is told which columns are resources.
    pub(crate) fn is_of_resources(&self) -> bool {
        !self.resources.is_empty()
    }
}

/// The choice of columns that is told.
pub(crate) fn choice_of(alloc: Global, reading: &Reading<'_>) -> Result<Choice, AllocError> {
    let resources = told_in(alloc, reading.resources.unwrap_or(""))?;
    let ignored = told_in(alloc, reading.ignored.unwrap_or(""))?;
    Ok(Choice {
        resources,
        ignored,
        has_dates: reading.dating.calendar.has_dates(),
    })
}

/// The titles between commas.
fn told_in(alloc: Global, list: &str) -> Result<Vec<Told>, AllocError> {
    let mut told = Vec::new(alloc);
    for title in list.split(',') {
        let key = key_of(alloc, title)?;
        if !key.is_empty() {
            let title = String::from_str(alloc, title.trim())?;
            told.push(Told { title, key })?;
        }
    }
    Ok(told)
}

/// Whether a title with this key is among these.
fn has(titles: &[Told], key: &str) -> bool {
    titles.iter().any(|told| told.key.as_str() == key)
}

/// Tests that each title that is told is that of a column.
pub(crate) fn test_choice(
    alloc: Global,
    head: &StringRecord,
    choice: &Choice,
) -> Result<(), TableFault> {
    let keys = keys_of(alloc, head)?;
    test_told(alloc, head, &keys, &choice.resources)?;
    test_told(alloc, head, &keys, &choice.ignored)
}

/// The keys of all titles.
fn keys_of(alloc: Global, head: &StringRecord) -> Result<Vec<String>, AllocError> {
    let mut keys = Vec::new(alloc);
    for place in 0..head.len() {
        let key = key_of(alloc, cell_at(head, place))?;
        keys.push(key)?;
    }
    Ok(keys)
}

/// Tests that titles that are told are those of columns with these keys.
fn test_told(
    alloc: Global,
    head: &StringRecord,
    keys: &[String],
    told: &[Told],
) -> Result<(), TableFault> {
    for told in told {
        if !keys.iter().any(|key| key.as_str() == told.key.as_str()) {
            return Err(TableFault::at(line_of(head), not_there(alloc, head, told)));
        }
    }
    Ok(())
}

/// What is wrong with a title that is told and that no column has.
fn not_there(alloc: Global, head: &StringRecord, told: &Told) -> Result<String, AllocError> {
    let titles = titles_of(alloc, head)?;
    format!(in alloc;
        "no column is called '{}'; the columns are: {titles}",
        told.title
    )
}

/// The titles between commas.
pub(crate) fn titles_of(alloc: Global, head: &StringRecord) -> Result<String, AllocError> {
    let mut titles = String::new(alloc);
    for place in 0..head.len() {
        let title = cell_at(head, place);
        if title.is_empty() {
            continue;
        }
        if !titles.is_empty() {
            titles.push_str(", ")?;
        }
        titles.push_str(title)?;
    }
    Ok(titles)
}
