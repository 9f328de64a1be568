//! What a text looks like that is no network.

use crate::faults::line_of::{
    count_words, first_word, is_line_feed, is_space, is_word, without_return,
};
use racp_text::number;

/// What a text looks like that stands in place of a network, if that is known.
pub(crate) fn look_of(body: &[u8]) -> Option<&'static str> {
    if body.split(is_line_feed).any(is_like_deadline) {
        return Some("what looks like an order; the network comes first");
    }
    let first = body.split(is_line_feed).find(has_words)?;
    if is_of_columns(first) {
        Some(
            "what looks like a table of tasks; racp import FILE --out PROJECT makes a network of it",
        )
    } else if is_of_numbers(first) {
        Some(
            "what looks like Patterson's format; racp import FILE --out PROJECT makes a network of it",
        )
    } else {
        None
    }
}

/// Whether a line looks like that of the deadline in an order.
fn is_like_deadline(line: &[u8]) -> bool {
    first_word(line).starts_with(b"deadline") && line.contains(&b'=')
}

/// Whether a line has words.
fn has_words(line: &&[u8]) -> bool {
    count_words(line) > 0
}

/// Whether a line has columns between commas, semicolons or tabs, as the title of a table.
fn is_of_columns(line: &[u8]) -> bool {
    line.split(is_column_end).count() > 2
}

/// Whether a byte stands between columns.
fn is_column_end(byte: &u8) -> bool {
    *byte == b',' || *byte == b';' || *byte == b'\t'
}

/// Whether the words of a line are numbers, as in a text that begins with how many jobs and resources there are.
fn is_of_numbers(line: &[u8]) -> bool {
    without_return(line)
        .split(is_space)
        .filter(is_word)
        .all(is_number)
}

/// Whether a word is a number.
fn is_number(word: &[u8]) -> bool {
    number(word).is_some()
}
