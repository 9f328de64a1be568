//! The lines of an answer, taken apart.

ghost use Rattle.std.specs.Prelude.{◌≡◌, ◌++◌, IfOk, map};
ghost use Rattle.racp_json.specs.Lines.{begins_with, number_at, number_of, numbers_in, rows_in, word_of, words_in};

use racp_text::number;
use std::alloc::{AllocError, Global};

/// A line of words and numbers with a blank between two of them.
#[derive(Drop)]
pub struct Line<'a> {
    /// The words that are no numbers, in their order.
    pub words: Vec<&'a str>,
    /// The numbers, in their order.
    pub numbers: Vec<u64>,
}

/// The words and the numbers of a line. A number is a word of decimal digits alone; one above
/// 18,446,744,073,709,551,615 counts as that one.
///
/// # Errors
///
/// Memory was refused.
pub fn line_of<'a>(alloc: Global, line: &'a str) -> Result<Line<'a>, AllocError>
    ensures words { IfOk result (λ found. map (λ word. word.now) found.words.items ≡ words_in line.now) }
    ensures numbers { IfOk result (λ found. found.numbers.items ≡ numbers_in line.now) }
{
    let mut words = Vec::new(alloc);
    let mut numbers = Vec::new(alloc);
    for word in line.split(' ') {
        keep_word(&mut words, word)?;
        keep_number(&mut numbers, word)?;
    }
    Ok(Line { words, numbers })
}

/// Adds a word unless it is a number.
fn keep_word<'a>(words: &mut Vec<&'a str>, word: &'a str) -> Result<(), AllocError>
    ensures { IfOk result (λ _. map (λ word. word.now) words.new.items ≡ map (λ word. word.now) words.old.items ++ word_of word.now) }
{
    if number(word.as_bytes()).is_none() {
        words.push(word)?;
    }
    Ok(())
}

/// Adds a word if it is a number.
fn keep_number(numbers: &mut Vec<u64>, word: &str) -> Result<(), AllocError>
    ensures { IfOk result (λ _. numbers.new.items ≡ numbers.old.items ++ number_of word.now) }
{
    if let Some(number) = number(word.as_bytes()) {
        numbers.push(number)?;
    }
    Ok(())
}

/// The numbers of each line of a text that begins with these letters.
///
/// # Errors
///
/// Memory was refused.
pub fn rows_of(alloc: Global, text: &str, letters: &str) -> Result<Vec<Vec<u64>>, AllocError>
    ensures { IfOk result (λ rows. map (λ row. row.items) rows.items ≡ rows_in letters.now text.now) }
{
    let mut rows = Vec::new(alloc);
    for line in text.lines() {
        if begins_with(line, letters) {
            rows.push(numbers_of(alloc, line)?)?;
        }
    }
    Ok(rows)
}

/// The numbers of a line.
fn numbers_of(alloc: Global, line: &str) -> Result<Vec<u64>, AllocError>
    ensures { IfOk result (λ numbers. numbers.items ≡ numbers_in line.now) }
{
    Ok(line_of(alloc, line)?.numbers)
}

/// Whether a line begins with these letters.
fn begins_with(line: &str, letters: &str) -> bool
    ensures { result ≡ begins_with letters.now line.now }
{
    line.as_bytes().starts_with(letters.as_bytes())
}

/// The number at a place of a row, from 0; 0 if there is none.
pub(crate) fn number_at(row: &[u64], place: usize) -> u64
    ensures { result ≡ number_at place row.now }
{
    if place < row.len() { row[place] } else { 0 }
}
