//! Where the titles of a table stand, and what stands between its cells.

use crate::columns::MOST_COLUMNS;
use crate::titles::{Title, key_of, title_of};
use std::alloc::{AllocError, Global};

/// How many lines with words are looked at for titles.
const MOST_LINES: usize = 50;

/// What may stand between cells, the first that fits being taken.
const SEPARATORS: &[char] = &['\t', ';', ','];

/// How the cells of a table lie in its text.
#[derive(Clone, Copy)]
pub(crate) struct Layout {
    /// What stands between cells.
    pub(crate) separator: u8,
    /// How many lines stand above the titles.
    pub(crate) above: usize,
}

/// The layout of a text: that of the first line that has titles for names and for durations between the separator that a line
/// `sep=` names, or else between one of those that there are. If no line has, the first line with words has the titles.
pub(crate) fn layout_of(alloc: Global, text: &str) -> Result<Layout, AllocError> {
    let said = said_separator(text);
    let mut looked = 0usize;
    for (place, line) in text.lines().enumerate() {
        if line.trim().is_empty() {
            continue;
        }
        if let Some(separator) = separator_of_titles(alloc, line, said)? {
            return Ok(laid(separator, place));
        }
        looked = looked.saturating_add(1);
        if looked >= MOST_LINES {
            break;
        }
    }
    Ok(first_words(text, said))
}

/// What stands between cells by a first line such as `sep=;`, if there is one.
pub(crate) fn said_separator(text: &str) -> Option<char> {
    let line = text.lines().next()?.trim();
    let word = line.trim_matches('"').strip_prefix("sep=")?;
    word.chars().next()
}

/// The separator between which a line has titles for names and for durations.
fn separator_of_titles(
    alloc: Global,
    line: &str,
    said: Option<char>,
) -> Result<Option<char>, AllocError> {
    for separator in SEPARATORS {
        let may_be = said.is_none() || said == Some(*separator);
        if may_be && has_titles(alloc, line, *separator)? {
            return Ok(Some(*separator));
        }
    }
    Ok(None)
}

/// Whether a line has titles for names and for durations between this separator, among as many cells as there may be columns.
fn has_titles(alloc: Global, line: &str, separator: char) -> Result<bool, AllocError> {
    let (mut has_name, mut has_duration) = (false, false);
    for cell in line.split(separator).take(MOST_COLUMNS) {
        let key = key_of(alloc, cell.trim().trim_matches('"'))?;
        let title = title_of(key.as_str());
        has_name |= title == Title::Name;
        has_duration |= title == Title::Duration;
    }
    Ok(has_name && has_duration)
}

/// The layout of a text of which no line has the titles that there have to be: that of the first line with words.
fn first_words(text: &str, said: Option<char>) -> Layout {
    for (place, line) in text.lines().enumerate() {
        let is_said = place == 0 && said.is_some();
        if !is_said && has_words(line) {
            return laid(said.unwrap_or(separator_in(line)), place);
        }
    }
    laid(said.unwrap_or(','), 0)
}

/// Whether a line has more than separators, quotes and blanks.
pub(crate) fn has_words(line: &str) -> bool {
    line.chars().any(is_of_word)
}

/// Whether a letter is no separator, quote or blank.
fn is_of_word(letter: char) -> bool {
    !(letter.is_whitespace() || letter == ',' || letter == ';' || letter == '"')
}

/// What stands between the cells of a line: a tab or a semicolon if it has one, and else a comma.
fn separator_in(line: &str) -> char {
    for separator in SEPARATORS {
        if line.contains(*separator) {
            return *separator;
        }
    }
    ','
}

/// The layout with this separator, and this many lines above the titles.
fn laid(separator: char, above: usize) -> Layout {
    let separator = match separator {
        '\t' => b'\t',
        ';' => b';',
        _ => b',',
    };
    Layout { separator, above }
}
