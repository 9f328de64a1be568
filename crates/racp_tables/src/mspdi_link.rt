//! The links of MSPDI.

use crate::fault::TableFault;
use crate::links::{name_at, overlap};
use crate::mspdi_task::{keep, line_of};
use crate::mspdi_time::{Hours, is_elapsed, units_in};
use crate::row::Row;
use crate::ties::{Tie, Ties};
use racp_links::LinkKind;
use racp_text::number;
use racp_xml::{Mark, parts, text_of};
use std::alloc::Global;

/// The codes of lags in percent of a duration.
const PERCENT: &[&str] = &["19", "20", "51", "52"];

/// A link to a task that is called so, by its marks.
#[derive(Clone, Copy)]
struct Link<'b, 'a> {
    marks: &'b [Mark<'a>],
    line: u64,
    after: &'b str,
}

/// The ties of the task at a place, which has these marks.
pub(crate) fn ties_in(
    alloc: Global,
    rows: &[Row],
    task: (usize, &[Mark<'_>]),
    hours: Hours<'_>,
) -> Result<Ties, TableFault> {
    let (place, marks) = task;
    let mut before = Vec::new(alloc);
    let all = parts(alloc, marks, 4, "PredecessorLink")?;
    if all.len() > rows.len() {
        let words = String::from_str(alloc, "the task has more links than there are tasks");
        return Err(TableFault::at(line_of(marks), words));
    }
    for part in &all {
        let link = Link {
            marks: part,
            line: line_of(part),
            after: name_at(rows, place),
        };
        let tie = tie_of(alloc, rows, link, hours)?;
        keep(&mut before, tie)?;
    }
    Ok(Ties {
        before,
        after: Vec::new(alloc),
    })
}

/// The tie of a link.
fn tie_of(
    alloc: Global,
    rows: &[Row],
    link: Link<'_, '_>,
    hours: Hours<'_>,
) -> Result<Tie, TableFault> {
    let word = text_of(link.marks, 5, "PredecessorUID").unwrap_or("");
    let Some(place) = rows.iter().position(|row| row.id.as_str() == word) else {
        let words = format!(in alloc;
            "the link of '{}' comes from UID '{word}', which is no task that is taken",
            link.after
        );
        return Err(TableFault::at(link.line, words));
    };
    let code = text_of(link.marks, 5, "Type").unwrap_or("1");
    let Some(kind) = kind_of(code) else {
        let words = format!(in alloc;
            "the link of '{}' has the type '{code}', which is none from 0 to 3",
            link.after
        );
        return Err(TableFault::at(link.line, words));
    };
    let lag = lag_of(alloc, link, hours, name_at(rows, place))?;
    Ok(Tie { place, kind, lag })
}

/// The kind of a link with this code.
fn kind_of(code: &str) -> Option<LinkKind> {
    match code {
        "0" => Some(LinkKind::FinishToFinish),
        "1" => Some(LinkKind::FinishToStart),
        "2" => Some(LinkKind::StartToFinish),
        "3" => Some(LinkKind::StartToStart),
        _ => None,
    }
}

/// The lag of a link from a task that is called so, in time units. It is written in tenths of minutes.
fn lag_of(
    alloc: Global,
    link: Link<'_, '_>,
    hours: Hours<'_>,
    before: &str,
) -> Result<u32, TableFault> {
    let word = text_of(link.marks, 5, "LinkLag").unwrap_or("0");
    if word == "0" {
        return Ok(0);
    }
    let after = link.after;
    let code = text_of(link.marks, 5, "LagFormat");
    if code.is_some_and(is_percent) {
        let words = format!(in alloc; "the link of '{after}' has a lag in percent");
        return Err(TableFault::at(link.line, words));
    }
    if is_elapsed(code) {
        let words = format!(in alloc;
            "the link of '{after}' has a lag of elapsed time, which runs through nights and free days"
        );
        return Err(TableFault::at(link.line, words));
    }
    if word.starts_with('-') {
        return Err(TableFault::at(link.line, overlap(alloc, before, after)));
    }
    let lag = match number(word.as_bytes()) {
        Some(tenths) if tenths % 10 == 0 => units_in(tenths / 10, hours),
        _ => None,
    };
    match lag {
        Some(lag) => Ok(lag),
        None => {
            let words = format!(in alloc;
                "the link of '{after}' has a lag of {word} tenths of a minute, no whole number of time units"
            );
            Err(TableFault::at(link.line, words))
        }
    }
}

/// Whether a code stands for a lag in percent.
fn is_percent(code: &str) -> bool {
    PERCENT.contains(&code)
}
