//! The ties that the words of a cell say.

ghost use Rattle.std.specs.Prelude.{◌≡◌, ◌++◌, ◌∷◌, [], IfOk, OnOk, string_bytes};
ghost use Rattle.racp_tables.specs.CellTies.{behind, one_blank, part_ties, range_or, range_ties, tie_said, word_ties};
ghost use Rattle.racp_tables.specs.LinkWords.{link_said};
ghost use Rattle.racp_tables.specs.Called.{range_named};

use crate::fault::TableFault;
use crate::link_words::{Word, without_lag, word_of};
use crate::links::{name_at, overlap};
use crate::named::{is_within, no_task, range_of};
use crate::pieces::between;
use crate::reading::Scale;
use crate::row::Row;
use crate::ties::Tie;
use racp_links::LinkKind;
use std::alloc::{AllocError, Global};

/// A cell with links of the task at a place.
#[derive(Clone, Copy)]
pub(crate) struct Cell<'a> {
    pub(crate) rows: &'a [Row],
    pub(crate) scale: Scale,
    /// The place of the row, from 0.
    pub(crate) place: usize,
    pub(crate) line: u64,
    pub(crate) text: &'a str,
    /// Whether the cell names the tasks before, and not those after.
    pub(crate) is_before: bool,
}

/// Adds the ties of the words of a part of a cell.
pub(crate) fn push_part(
    alloc: Global,
    ties: &mut Vec<Tie>,
    cell: &Cell<'_>,
    part: &str,
) -> Result<(), TableFault>
    ensures { OnOk result (behind ties.old.items (part_ties cell.now.rows.now cell.now.scale part.now) ≡ Some ties.new.items) }
{
    let words = between(alloc, part, ',')?;
    for word in &words {
        push_word(alloc, ties, cell, word.trim())?;
    }
    Ok(())
}

/// Adds the ties that a word says; none if it is empty.
fn push_word(
    alloc: Global,
    ties: &mut Vec<Tie>,
    cell: &Cell<'_>,
    word: &str,
) -> Result<(), TableFault>
    ensures { OnOk result (behind ties.old.items (word_ties cell.now.rows.now cell.now.scale word.now) ≡ Some ties.new.items) }
{
    if word.is_empty() {
        return Ok(());
    }
    match word_of(alloc, cell.rows, word, cell.scale)? {
        Word::Tie(tie) => Ok(keep_tie(ties, tie)?),
        Word::Lead(place) => Err(TableFault::at(cell.line, lead_words(alloc, cell, place))),
        Word::Several => Err(TableFault::at(cell.line, several(alloc, cell, word))),
        Word::None => push_words(alloc, ties, cell, word),
    }
}

/// Adds the ties of a word that is none itself: a range, or words between blanks.
fn push_words(
    alloc: Global,
    ties: &mut Vec<Tie>,
    cell: &Cell<'_>,
    word: &str,
) -> Result<(), TableFault>
    ensures { OnOk result (behind ties.old.items (range_or cell.now.rows.now cell.now.scale word.now (range_named cell.now.rows.now word.now)) ≡ Some ties.new.items) }
{
    match range_of(cell.rows, word) {
        Some(range) => Ok(push_range(ties, cell.rows, range)?),
        None => push_loose(alloc, ties, cell, word),
    }
}

/// Adds the ties of words between blanks.
fn push_loose(
    alloc: Global,
    ties: &mut Vec<Tie>,
    cell: &Cell<'_>,
    word: &str,
) -> Result<(), TableFault>
    ensures { OnOk result (behind ties.old.items (range_or cell.now.rows.now cell.now.scale word.now None) ≡ Some ties.new.items) }
{
    let blanks = one_blank(alloc, word)?;
    let parts = between(alloc, blanks.as_str(), ' ')?;
    for part in &parts {
        if !part.is_empty() {
            push_part_word(alloc, ties, cell, (part, word))?;
        }
    }
    Ok(())
}

/// Adds the tie that a part of a word says.
fn push_part_word(
    alloc: Global,
    ties: &mut Vec<Tie>,
    cell: &Cell<'_>,
    told: (&str, &str),
) -> Result<(), TableFault>
    ensures { OnOk result (behind ties.old.items (tie_said (link_said cell.now.rows.now cell.now.scale told.entry.0.now)) ≡ Some ties.new.items) }
{
    let (part, word) = told;
    match word_of(alloc, cell.rows, part, cell.scale)? {
        Word::Tie(tie) => Ok(keep_tie(ties, tie)?),
        _ => {
            let words = no_task(alloc, cell.rows, called(cell), word);
            Err(TableFault::at(cell.line, words))
        }
    }
}

/// A word with one blank in place of each letter that is one.
fn one_blank(alloc: Global, word: &str) -> Result<String, AllocError>
    ensures { IfOk result (λ blanks. string_bytes blanks ≡ one_blank word.now) }
{
    word.chars()
        .map(|letter| if letter.is_whitespace() { ' ' } else { letter })
        .collect(alloc)
}

/// Adds a tie.
pub(crate) fn keep_tie(ties: &mut Vec<Tie>, tie: Tie) -> Result<(), AllocError>
    ensures { OnOk result (ties.new.items ≡ ties.old.items ++ tie ∷ []) }
{
    ties.push(tie)?;
    Ok(())
}

/// Adds ties to the tasks of a range.
fn push_range(ties: &mut Vec<Tie>, rows: &[Row], range: (u64, u64)) -> Result<(), AllocError>
    ensures { OnOk result (ties.new.items ≡ ties.old.items ++ range_ties rows.now range) }
{
    for (place, row) in rows.iter().enumerate() {
        if is_within(row, range) {
            keep_tie(ties, without_lag(place, LinkKind::FinishToStart))?;
        }
    }
    Ok(())
}

/// What the column of a cell is called.
pub(crate) fn called(cell: &Cell<'_>) -> &'static str {
    if cell.is_before {
        "predecessor"
    } else {
        "successor"
    }
}

/// What is wrong with a word that is the name of several tasks.
fn several(alloc: Global, cell: &Cell<'_>, word: &str) -> Result<String, AllocError> {
    let called = called(cell);
    format!(in alloc; "{called} '{word}' is the name of several tasks; write an id")
}

/// What is wrong with a link with a lead to the task at a place.
fn lead_words(alloc: Global, cell: &Cell<'_>, place: usize) -> Result<String, AllocError> {
    let (own, other) = (name_at(cell.rows, cell.place), name_at(cell.rows, place));
    if cell.is_before {
        overlap(alloc, other, own)
    } else {
        overlap(alloc, own, other)
    }
}
