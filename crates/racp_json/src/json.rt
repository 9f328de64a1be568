//! Answers as JSON.

use crate::curve::{Step, steps_of};
use crate::early::{Early, early_of};
use crate::fault::{fault_of, refusal_of};
use crate::hastened::sheet_of_soonest;
use crate::line::{line_of, rows_of};
use crate::order::{Terms, terms_of};
use crate::sheet::sheet_of_plan;
use crate::span::span_of;
use crate::stop::stop_of;
use crate::told::{Command, Told, Words};
use crate::work::Work;
use racp_calendar::{Calendar, last_word};
use racp_lexfix::status::{CHECK_FAILED, DONE, IMPOSSIBLE, REFUSED, STOPPED};
use racp_show::{Names, Sheet};
use serde::Serialize;
use std::alloc::{AllocError, Global};

/// A word alone: `ok`, `verified`, `stopped`, `memory` or `no thread`.
#[derive(Clone, Copy, Serialize)]
struct WordAnswer<'a> {
    status: &'a str,
}

/// What each plan costs at least.
#[derive(Clone, Copy, Serialize)]
struct BoundAnswer {
    status: &'static str,
    bound: u64,
}

/// Early starts.
#[derive(Drop, Serialize)]
struct EarlyAnswer {
    status: &'static str,
    #[serde(flatten)]
    early: Early,
}

/// A plan.
#[derive(Drop, Serialize)]
struct PlanAnswer<'a> {
    status: &'static str,
    #[serde(flatten)]
    plan: Sheet<'a>,
    #[serde(flatten)]
    work: Work,
}

/// A step of a curve.
#[derive(Drop, Serialize)]
struct DatedStep {
    #[serde(flatten)]
    step: Step,
    /// The day in the evening of which the deadline is, if times are told by dates.
    #[serde(skip_serializing_if = "Option::is_none")]
    last_day: Option<String>,
}

/// A curve, or the end of one.
#[derive(Drop, Serialize)]
struct CurveAnswer {
    status: &'static str,
    steps: Vec<DatedStep>,
    #[serde(skip_serializing_if = "Option::is_none")]
    not_before: Option<Vec<u64>>,
    #[serde(flatten)]
    work: Work,
}

/// An order.
#[derive(Drop, Serialize)]
struct OrderAnswer {
    status: &'static str,
    #[serde(flatten)]
    terms: Terms,
}

/// An answer as one object of JSON, with a line feed behind it. The words are what is told beside it of what is wrong.
///
/// # Errors
///
/// Memory was refused.
pub fn json_of(alloc: Global, told: &Told<'_>, words: Words<'_>) -> Result<String, AllocError> {
    // Each text of a command is UTF-8.
    let text = std::str::from_utf8(told.text).unwrap_or("");
    match told.status {
        DONE => done(alloc, told, text),
        STOPPED => stopped(alloc, told, text),
        REFUSED => refused(alloc, told, text, words),
        IMPOSSIBLE | CHECK_FAILED => faulty(alloc, told, text, words),
        _ => word(alloc, text),
    }
}

/// The object of a text that is refused.
fn refused(
    alloc: Global,
    told: &Told<'_>,
    text: &str,
    words: Words<'_>,
) -> Result<String, AllocError> {
    let answer = refusal_of(alloc, first_line(text), told.files, words)?;
    written(alloc, &answer)
}

/// The object of a plan that has a fault or is not proved, or of no plan.
fn faulty(
    alloc: Global,
    told: &Told<'_>,
    text: &str,
    words: Words<'_>,
) -> Result<String, AllocError> {
    let answer = fault_of(alloc, first_line(text), told.files, words)?;
    written(alloc, &answer)
}

/// The object of an answer that says what was asked.
fn done(alloc: Global, told: &Told<'_>, text: &str) -> Result<String, AllocError> {
    match told.command {
        Command::Cpm => early(alloc, text),
        Command::Plan | Command::Soonest => plan(alloc, told),
        Command::Check | Command::Verify => word(alloc, text),
        Command::Bound => bound(alloc, text),
        Command::Curve => curve(alloc, told, text, "done", None),
        Command::Order => order(alloc, told),
    }
}

/// The object of a run that was stopped.
fn stopped(alloc: Global, told: &Told<'_>, text: &str) -> Result<String, AllocError> {
    match told.command {
        Command::Plan => stopped_plan(alloc, told, first_row(alloc, text)?),
        Command::Curve => curve(alloc, told, text, "stopped", Some(first_row(alloc, text)?)),
        Command::Soonest => written(alloc, &span_of(alloc, first_line(text), told.work)?),
        _ => word(alloc, text),
    }
}

/// The object of a bound that a certificate shows.
fn bound(alloc: Global, text: &str) -> Result<String, AllocError> {
    let line = line_of(alloc, first_line(text))?;
    let answer = BoundAnswer {
        status: "at least",
        bound: line.numbers.first().copied().unwrap_or(0),
    };
    written(alloc, &answer)
}

/// The object of a word.
fn word(alloc: Global, text: &str) -> Result<String, AllocError> {
    let status = first_line(text);
    written(alloc, &WordAnswer { status })
}

/// The object of early starts.
fn early(alloc: Global, text: &str) -> Result<String, AllocError> {
    let answer = EarlyAnswer {
        status: "done",
        early: early_of(alloc, text)?,
    };
    written(alloc, &answer)
}

/// The object of a plan.
fn plan(alloc: Global, told: &Told<'_>) -> Result<String, AllocError> {
    let names = Names::none(alloc);
    let sheet = match told.command {
        Command::Soonest => sheet_of_soonest(
            alloc,
            told.net,
            told.order,
            told.text,
            &names,
            told.calendar,
        ),
        _ => sheet_of_plan(
            alloc,
            told.net,
            told.order,
            told.text,
            &names,
            told.calendar,
        ),
    };
    match sheet? {
        Some(plan) => {
            let answer = PlanAnswer {
                status: "optimal",
                plan,
                work: told.work,
            };
            written(alloc, &answer)
        }
        // The plan is right, so memory ran out.
        None => Err(AllocError),
    }
}

/// The object of a plan that is not known: no capacities that are enough stand before these.
fn stopped_plan(
    alloc: Global,
    told: &Told<'_>,
    not_before: Vec<u64>,
) -> Result<String, AllocError> {
    let names = Names::none(alloc);
    let answer = stop_of(alloc, told, not_before, &names)?;
    written(alloc, &answer)
}

/// The object of a curve.
fn curve(
    alloc: Global,
    told: &Told<'_>,
    text: &str,
    status: &'static str,
    not_before: Option<Vec<u64>>,
) -> Result<String, AllocError> {
    let answer = CurveAnswer {
        status,
        steps: dated(alloc, steps_of(alloc, text)?, told.calendar)?,
        not_before,
        work: told.work,
    };
    written(alloc, &answer)
}

/// Steps with the days of their deadlines.
fn dated(
    alloc: Global,
    steps: Vec<Step>,
    calendar: Calendar<'_>,
) -> Result<Vec<DatedStep>, AllocError> {
    let mut dated = Vec::new(alloc);
    for step in steps {
        let last_day = last_word(alloc, calendar, step.deadline as u128)?;
        dated.push(DatedStep { step, last_day })?;
    }
    Ok(dated)
}

/// The object of an order.
fn order(alloc: Global, told: &Told<'_>) -> Result<String, AllocError> {
    match terms_of(alloc, told.net, told.text)? {
        Some(terms) => {
            let answer = OrderAnswer {
                status: "done",
                terms,
            };
            written(alloc, &answer)
        }
        // The text is an order for the network, so memory ran out.
        None => Err(AllocError),
    }
}

/// The numbers of the line that begins with `stopped`.
fn first_row(alloc: Global, text: &str) -> Result<Vec<u64>, AllocError> {
    let mut rows = rows_of(alloc, text, "stopped")?;
    Ok(rows.pop().unwrap_or(Vec::new(alloc)))
}

/// The first line of a text; empty if there is none.
fn first_line(text: &str) -> &str {
    text.lines().next().unwrap_or("")
}

/// A value as JSON, with a line feed behind it.
fn written<T: Serialize>(alloc: Global, value: &T) -> Result<String, AllocError> {
    match serde_json::to_string(alloc, value) {
        Ok(mut text) => {
            text.push('\n')?;
            Ok(text)
        }
        // None of these values is one that JSON cannot say.
        Err(_) => Err(AllocError),
    }
}
