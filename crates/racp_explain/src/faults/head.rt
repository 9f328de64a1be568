//! The head of a network text, as far as faults are told by it.

use crate::faults::line_of::{
    count_words, first_word, is_line_feed, is_space, is_word, without_return,
};
use racp_text::{cut_at, number};

/// The number that the first line with a key that begins with these words gives; 0 if there is none.
pub(crate) fn head_number(body: &[u8], key: &[&[u8]]) -> u64 {
    for line in body.split(is_line_feed) {
        if let Some(value) = value_of(line, key) {
            return number(first_word(value)).unwrap_or(0);
        }
    }
    0
}

/// What stands after the colon of a line with a key that begins with these words.
fn value_of<'a>(line: &'a [u8], key: &[&[u8]]) -> Option<&'a [u8]> {
    let (before, behind) = cut_at(line, b':')?;
    if begins_with(before, key) {
        Some(behind)
    } else {
        None
    }
}

/// Whether the words of a line, between blanks and tabs, begin with these.
fn begins_with(line: &[u8], wanted: &[&[u8]]) -> bool {
    let mut words = without_return(line).split(is_space).filter(is_word);
    for word in wanted {
        if words.next() != Some(*word) {
            return false;
        }
    }
    true
}

/// How many lines stand before the title of the precedence part, whose words are exactly `PRECEDENCE RELATIONS:`;
/// `None` if there is no such line.
pub(crate) fn lines_of_head(body: &[u8]) -> Option<usize> {
    body.split(is_line_feed).position(is_precedence_title)
}

/// Whether a line is the title of the precedence part.
fn is_precedence_title(line: &[u8]) -> bool {
    begins_with(line, &[b"PRECEDENCE", b"RELATIONS:"]) && count_words(line) == 2
}

/// Whether the line with this number, from 1, stands before the title of the precedence part.
pub(crate) fn is_in_head(body: &[u8], number: usize) -> bool {
    match lines_of_head(body) {
        Some(lines) => number <= lines,
        None => true,
    }
}

/// The first line that has this word, whatever its letters' case, and its number, from 1.
pub(crate) fn line_like<'a>(body: &'a [u8], word: &str) -> Option<(usize, &'a [u8])> {
    let mut number = 1usize;
    for line in body.split(is_line_feed) {
        if has_word(line, word.as_bytes()) {
            return Some((number, line));
        }
        number = number.saturating_add(1);
    }
    None
}

/// Whether a word stands in a line, whatever its letters' case.
fn has_word(line: &[u8], word: &[u8]) -> bool {
    for part in line.windows(word.len().max(1)) {
        if part.eq_ignore_ascii_case(word) {
            return true;
        }
    }
    false
}
