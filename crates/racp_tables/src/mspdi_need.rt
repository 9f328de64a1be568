//! The resources of MSPDI, and what tasks need of them.

use crate::amount::{Amount, amount_of};
use crate::fault::TableFault;
use crate::mspdi_task::{Task, keep, line_of, name_in};
use crate::row::Row;
use crate::shared::place_of;
use crate::warning::{Warning, warn};
use racp_model::limits::MOST_REQUEST;
use racp_xml::{Mark, parts, text_of};
use std::alloc::{AllocError, Global};

/// How many resources with a name a file may have, those that no task needs too.
const MOST_NAMED: usize = 1_000;

/// A resource of a file.
#[derive(Drop)]
struct Resource<'a> {
    /// What assignments call it.
    uid: &'a str,
    /// Its name.
    name: String,
    /// Whether it is one of people or machines, and no material and no cost.
    is_of_work: bool,
}

/// Gives rows their needs, and answers the names of the resources that some task needs, in the order of the file.
pub(crate) fn assign(
    alloc: Global,
    marks: &[Mark<'_>],
    tasks: &[Task<'_, '_>],
    rows: &mut [Row],
    warnings: &mut Vec<Warning>,
) -> Result<Vec<String>, TableFault> {
    let resources = resources_in(alloc, marks, warnings)?;
    let names = names_of(alloc, &resources)?;
    for row in rows.iter_mut() {
        row.requests = vec![in alloc; 0; names.len()]?;
    }
    let mut has_phase = false;
    let all = parts(alloc, marks, 3, "Assignment")?;
    for part in &all {
        if let Some(found) = find(&resources, part) {
            let uid = text_of(part, 4, "TaskUID").unwrap_or("");
            if let Some(place) = rows.iter().position(|row| row.id.as_str() == uid) {
                if tasks.get(place).is_some_and(|task| task.is_phase) {
                    has_phase = true;
                } else if let Some(row) = rows.get_mut(place) {
                    request(alloc, row, part, &names, found.name.as_str())?;
                }
            }
        }
    }
    if has_phase {
        let words = String::from_str(alloc, "what phases need is passed over");
        warn(warnings, 0, words)?;
    }
    needed_alone(alloc, &names, rows)
}

/// The names of resources of work, each once.
fn names_of(alloc: Global, resources: &[Resource<'_>]) -> Result<Vec<String>, AllocError> {
    let mut names = Vec::new(alloc);
    for resource in resources {
        let name = resource.name.as_str();
        if resource.is_of_work && place_of(&names, name).is_none() {
            names.push(String::from_str(alloc, name)?)?;
        }
    }
    Ok(names)
}

/// Adds to the requests of a row what an assignment says of a resource with a name.
fn request(
    alloc: Global,
    row: &mut Row,
    marks: &[Mark<'_>],
    names: &[String],
    name: &str,
) -> Result<(), TableFault> {
    let units = units_of(alloc, marks, row.name.as_str(), name)?;
    let Some(place) = place_of(names, name) else {
        return Ok(());
    };
    if let Some(request) = row.requests.get_mut(place) {
        let sum = request.saturating_add(units);
        if sum > MOST_REQUEST {
            let words = format!(in alloc; "the task needs more than {MOST_REQUEST} of {name}");
            return Err(TableFault::at(line_of(marks), words));
        }
        *request = sum;
    }
    Ok(())
}

/// The names of the resources of which some row needs a unit. Rows are left with their requests of these alone.
fn needed_alone(
    alloc: Global,
    names: &[String],
    rows: &mut [Row],
) -> Result<Vec<String>, TableFault> {
    let mut kept = Vec::new(alloc);
    let mut roster = Vec::new(alloc);
    for (place, name) in names.iter().enumerate() {
        if rows.iter().any(|row| request_at(row, place) > 0) {
            keep(&mut kept, place)?;
            keep(&mut roster, String::from_str(alloc, name.as_str())?)?;
        }
    }
    for row in rows.iter_mut() {
        let mut requests = Vec::new(alloc);
        for place in &kept {
            keep(&mut requests, request_at(row, *place))?;
        }
        row.requests = requests;
    }
    Ok(roster)
}

/// The request of the resource at a place.
fn request_at(row: &Row, place: usize) -> u32 {
    row.requests.get(place).copied().unwrap_or(0)
}

/// The resource of work that an assignment names.
fn find<'r, 'a>(resources: &'r [Resource<'a>], marks: &[Mark<'_>]) -> Option<&'r Resource<'a>> {
    let uid = text_of(marks, 4, "ResourceUID")?;
    resources
        .iter()
        .find(|resource| resource.is_of_work && resource.uid == uid)
}

/// The resources of a file.
fn resources_in<'a>(
    alloc: Global,
    marks: &[Mark<'a>],
    warnings: &mut Vec<Warning>,
) -> Result<Vec<Resource<'a>>, TableFault> {
    let mut found: Vec<Resource<'a>> = Vec::new(alloc);
    let all = parts(alloc, marks, 3, "Resource")?;
    for part in &all {
        if let Some(resource) = resource_of(alloc, part, warnings)? {
            if found.len() >= MOST_NAMED {
                let words = format!(in alloc; "there are more than {MOST_NAMED} resources");
                return Err(TableFault::at(line_of(part), words));
            }
            keep(&mut found, resource)?;
        }
    }
    Ok(found)
}

/// The resource of these marks, if it has a name.
fn resource_of<'a>(
    alloc: Global,
    marks: &[Mark<'a>],
    warnings: &mut Vec<Warning>,
) -> Result<Option<Resource<'a>>, TableFault> {
    let Some(uid) = text_of(marks, 4, "UID") else {
        return Ok(None);
    };
    if uid == "0" || text_of(marks, 4, "Name").is_none() {
        return Ok(None);
    }
    let line = line_of(marks);
    let name = name_in(alloc, marks, line)?;
    let is_of_work = text_of(marks, 4, "Type").unwrap_or("1") == "1";
    if !is_of_work {
        let words = format!(in alloc;
            "resource '{name}' is material or a cost, which is passed over"
        );
        warn(warnings, line, words)?;
    }
    Ok(Some(Resource {
        uid,
        name,
        is_of_work,
    }))
}

/// How many units of a resource an assignment says that a task needs.
fn units_of(
    alloc: Global,
    marks: &[Mark<'_>],
    task: &str,
    resource: &str,
) -> Result<u32, TableFault> {
    let word = text_of(marks, 4, "Units").unwrap_or("1");
    if let Amount::Hundredths(hundredths) = amount_of(alloc, word)? {
        if hundredths % 100 == 0 && hundredths / 100 <= MOST_REQUEST as u64 {
            return Ok((hundredths / 100) as u32);
        }
    }
    let words = format!(in alloc;
        "task '{task}' needs {word} of {resource}, no whole number from 0 to {MOST_REQUEST}; count in halves: twice the units, at half the price"
    );
    Err(TableFault::at(line_of(marks), words))
}
