//! Why there is no answer.

ghost use Rattle.std.specs.Prelude.{◌≡◌, IfOk};
ghost use Rattle.racp_json.specs.Lines.{number_at, numbers_in};

use crate::line::{Line, line_of, number_at};
use crate::told::{FileNames, Words};
use serde::Serialize;
use std::alloc::{AllocError, Global};

/// A text that is refused.
#[derive(Drop, Serialize)]
pub struct Refusal<'a> {
    /// `refused`.
    pub status: &'a str,
    /// The name of the file, if it is one.
    pub file: Option<&'a str>,
    /// The kind of text.
    pub format: &'a str,
    /// The number of the fault.
    pub number: u64,
    /// The name of the fault.
    pub name: &'a str,
    /// The number of the line; 0 if it is no single line, or none is told.
    pub line: u64,
    /// What is told of it.
    #[serde(flatten)]
    pub words: Said<'a>,
}

/// A plan that has a fault or is not proved, or no plan.
#[derive(Drop, Serialize)]
pub struct Fault<'a> {
    /// `fault`, `unproved` or `impossible`.
    pub status: &'a str,
    /// The name of the file, if it is one.
    pub file: Option<&'a str>,
    /// The name of the fault.
    pub name: &'a str,
    /// The numbers of its line, in their order.
    pub numbers: Vec<u64>,
    /// What is told of it.
    #[serde(flatten)]
    pub words: Said<'a>,
}

/// What is told of a fault in words.
#[derive(Clone, Copy, Serialize)]
pub struct Said<'a> {
    /// What is wrong, and where.
    #[serde(skip_serializing_if = "Option::is_none")]
    pub says: Option<&'a str>,
    /// What was wanted there.
    #[serde(skip_serializing_if = "Option::is_none")]
    pub wanted: Option<&'a str>,
    /// What is there.
    #[serde(skip_serializing_if = "Option::is_none")]
    pub found: Option<&'a str>,
}

/// What a line says of a text that is refused, as `refused sm 12 TooFew line 25`.
///
/// # Errors
///
/// Memory was refused.
pub fn refusal_of<'a>(
    alloc: Global,
    line: &'a str,
    files: FileNames<'a>,
    words: Words<'a>,
) -> Result<Refusal<'a>, AllocError>
    ensures number { IfOk result (λ told. told.number ≡ number_at 0 (numbers_in line.now)) }
    ensures line { IfOk result (λ told. told.line ≡ number_at 1 (numbers_in line.now)) }
{
    let found = line_of(alloc, line)?;
    let format = word_at(&found, 1);
    Ok(Refusal {
        status: word_at(&found, 0),
        file: named(file_of(files, format)),
        format,
        number: number_at(&found.numbers, 0),
        name: word_at(&found, 2),
        line: number_at(&found.numbers, 1),
        words: words_told(words),
    })
}

/// What a line says of a plan, as `fault over 2 14`, `unproved`, or `impossible critical 3 deadline 2`.
///
/// # Errors
///
/// Memory was refused.
pub fn fault_of<'a>(
    alloc: Global,
    line: &'a str,
    files: FileNames<'a>,
    words: Words<'a>,
) -> Result<Fault<'a>, AllocError>
    ensures { IfOk result (λ told. told.numbers.items ≡ numbers_in line.now) }
{
    let found = line_of(alloc, line)?;
    let status = word_at(&found, 0);
    let name = word_at(&found, 1);
    Ok(Fault {
        status,
        file: named(file_of(files, status)),
        name: if name.is_empty() { status } else { name },
        numbers: found.numbers,
        words: words_told(words),
    })
}

/// The word at a place of a line, from 0, numbers left out; empty if there is none.
fn word_at<'a>(line: &Line<'a>, place: usize) -> &'a str {
    match line.words.get(place) {
        Some(word) => word,
        None => "",
    }
}

/// The file that a word is about: the kind of text that is refused, or the first word of a line.
fn file_of<'a>(files: FileNames<'a>, word: &str) -> &'a str {
    match word {
        "sm" => files.net,
        "order" | "impossible" => files.order,
        "plan" | "fault" => files.plan,
        "unproved" => files.proof,
        _ => "",
    }
}

/// What is told of a fault in words.
fn words_told<'a>(words: Words<'a>) -> Said<'a> {
    Said {
        says: named(words.says),
        wanted: named(words.wanted),
        found: named(words.found),
    }
}

/// A text, unless it is empty.
fn named(text: &str) -> Option<&str> {
    if text.is_empty() { None } else { Some(text) }
}
