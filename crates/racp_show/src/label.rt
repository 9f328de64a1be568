//! What stands at the left of a line.

ghost use Rattle.std.specs.Prelude.{◌≡◌, ◌≤◌, ◌++◌, IfOk, All, chars, codes, decimal, false, option_map, string_bytes};
ghost use Rattle.unicode_width.specs.Width.{str_width};
ghost use Rattle.racp_show.specs.Labels.{IsWithinColumns, cut, label_text};

use crate::entry::Entry;
use crate::names::Names;
use crate::outline::Outline;
use racp_model::Network;
use std::alloc::{AllocError, Global};
use unicode_width::UnicodeWidthStr;

/// The most characters of a label: some of them may take no column.
const MOST_LETTERS: usize = 96;

/// The labels of the rows of an outline and then of the resources, cut to this many columns: of a task its name, or its number,
/// cut to fewer if blanks stand before it; of a phase, which has a line of its own, none.
pub(crate) fn labels(
    alloc: Global,
    net: &Network,
    names: &Names,
    outline: &Outline,
    most: usize,
) -> Result<Vec<String>, AllocError>
    ensures { IfOk result (λ labels. All (IsWithinColumns most) labels.items) }
{
    let mut labels = Vec::new(alloc);
    for entry in outline.rows() {
        labels.push(row_label(alloc, names, entry, most)?)?;
    }
    let jobs = net.job_count();
    for k in 0..net.resource_count() {
        labels.push(label_within(alloc, names.resource(jobs, k), "resource", k + 1, most)?)?;
    }
    Ok(labels)
}

/// The label of a row.
fn row_label(alloc: Global, names: &Names, entry: &Entry, most: usize) -> Result<String, AllocError>
    ensures { IfOk result (IsWithinColumns most) }
{
    match entry {
        Entry::Heading { .. } => label_within(alloc, Some(""), "", 0, most),
        Entry::Bar { depth, job } => {
            task_label(
                alloc,
                names,
                *job,
                most.saturating_sub(indent(*depth, most)),
                most,
            )
        }
    }
}

/// The name of a job, or its number, cut to `room` columns, if these are no more than `most`.
fn task_label(
    alloc: Global,
    names: &Names,
    job: usize,
    room: usize,
    most: usize,
) -> Result<String, AllocError>
    ensures { IfOk result (IsWithinColumns most) }
{
    let name = names.job(job.saturating_sub(1));
    label_within(alloc, name, "job", job, room.min(most))
}

/// How many blanks stand before what stands in so many phases: two for each, and half of the room at most.
pub(crate) fn indent(depth: usize, room: usize) -> usize {
    depth.saturating_mul(2).min(room / 2)
}

/// A name cut to this many columns; or a word and a number, if there is none.
pub fn label_within(
    alloc: Global,
    name: Option<&str>,
    word: &str,
    number: usize,
    most: usize,
) -> Result<String, AllocError>
    ensures width { IfOk result (IsWithinColumns most) }
    ensures text { IfOk result (λ label. string_bytes label ≡
        label_text most (option_map (λ name. name.now) name.entry) word.now number) }
{
    match name {
        Some(name) => cut(alloc, name, most),
        None => cut(alloc, numbered(alloc, word, number)?.as_str(), most),
    }
}

/// A word and a number.
fn numbered(alloc: Global, word: &str, number: usize) -> Result<String, AllocError>
    ensures { IfOk result (λ text. string_bytes text ≡ word.now ++ codes " " ++ decimal number) }
{
    format!(in alloc; "{word} {number}")
}

/// As much of a text as this many columns take.
fn cut(alloc: Global, text: &str, most: usize) -> Result<String, AllocError>
    ensures width { IfOk result (IsWithinColumns most) }
    ensures text { IfOk result (λ label. string_bytes label ≡ cut most text.now) }
{
    let mut label = String::new(alloc);
    for letter in text.chars().take(MOST_LETTERS) {
        let mut longer = label.clone()?;
        longer.push(letter)?;
        if most < columns_of(longer.as_str()) {
            return Ok(label);
        }
        label = longer;
    }
    Ok(label)
}

/// How many columns a label takes.
pub(crate) fn columns_of(label: &str) -> usize
    ensures { result ≡ str_width false (chars label.now) }
{
    label.width()
}

/// The most columns that one of the labels takes.
pub(crate) fn widest(labels: &[String]) -> usize
    ensures { All (IsWithinColumns result) labels.now }
{
    let mut most = 0usize;
    for label in labels {
        most = most.max(columns_of(label.as_str()));
    }
    most
}
