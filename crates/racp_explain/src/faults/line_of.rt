//! The lines of a text, as they are shown.

use racp_text::cut_at;
use std::alloc::AllocError;

/// How many letters of a line are shown at most.
const MOST_SHOWN: usize = 60;

/// The byte that ends a network text.
const END: u8 = 0x1A;

/// The byte that ends a line.
const LINE_FEED: u8 = b'\n';

/// The line with this number, from 1; `None` if the text has ended before it.
pub(crate) fn line_at(bytes: &[u8], number: usize) -> Option<&[u8]> {
    let (line, _) = ended_line_at(bytes, number)?;
    Some(line)
}

/// The line with this number, from 1, and whether a line feed ends it; `None` if the text has ended before it.
fn ended_line_at(bytes: &[u8], number: usize) -> Option<(&[u8], bool)> {
    let rest = rest_at(bytes, number)?;
    match cut_at(rest, LINE_FEED) {
        Some((line, _)) => Some((line, true)),
        None if rest.is_empty() => None,
        None => Some((rest, false)),
    }
}

/// What stands after the line feeds of the lines before this one, which has this number, from 1.
fn rest_at(bytes: &[u8], number: usize) -> Option<&[u8]> {
    let before = number.checked_sub(1)?;
    let mut rest = bytes;
    for _line in 0..before {
        let (_, behind) = cut_at(rest, LINE_FEED)?;
        rest = behind;
    }
    Some(rest)
}

/// A line without the carriage return at its end, if any.
pub(crate) fn without_return(line: &[u8]) -> &[u8] {
    match line.strip_suffix(b"\r") {
        Some(line) => line,
        None => line,
    }
}

/// A network text up to its first byte 0x1A.
pub(crate) fn body_of(bytes: &[u8]) -> &[u8] {
    match cut_at(bytes, END) {
        Some((body, _)) => body,
        None => bytes,
    }
}

/// Adds a line in quotes, cut to 60 letters, without control characters and what is not UTF-8; or what is said of a
/// line that is empty or not there.
pub(crate) fn push_shown(text: &mut String, line: Option<&[u8]>) -> Result<(), AllocError> {
    match line {
        Some(line) => push_line(text, line),
        None => text.push_str("no line"),
    }
}

/// Adds the line with this number, from 1, as `push_shown` does, and what stands before it and at its end if that is not a
/// line feed alone.
pub(crate) fn push_with_end(
    text: &mut String,
    bytes: &[u8],
    number: usize,
) -> Result<(), AllocError> {
    match ended_line_at(bytes, number) {
        Some((line, has_line_feed)) => {
            let shown = without_mark(line);
            push_line(text, shown)?;
            let has_mark = shown.len() < line.len();
            text.push_str(ends_of(has_mark, line.ends_with(b"\r"), has_line_feed))
        }
        None => text.push_str("no line"),
    }
}

/// A line without the byte order mark at its beginning, if any.
pub(crate) fn without_mark(line: &[u8]) -> &[u8] {
    match line.strip_prefix(b"\xEF\xBB\xBF") {
        Some(line) => line,
        None => line,
    }
}

/// What is said of a line that does not end with a line feed alone, or that a byte order mark stands before, and of how a
/// file is saved without these.
fn ends_of(has_mark: bool, has_return: bool, has_line_feed: bool) -> &'static str {
    match (has_mark, has_return, has_line_feed) {
        (true, true, _) => BOTH,
        (true, false, true) => MARK,
        (true, false, false) => MARK_ALONE,
        (false, true, true) => RETURN,
        (false, true, false) => " with a carriage return behind it, and without a line feed",
        (false, false, true) => "",
        (false, false, false) => " without a line feed",
    }
}

/// What is said of a byte order mark.
const MARK: &str =
    " after a byte order mark (BOM); save the file as UTF-8 without BOM, or run dos2unix on it";

/// What is said of a byte order mark before a line that no line feed ends.
const MARK_ALONE: &str =
    " after a byte order mark (BOM) and without a line feed; save the file as UTF-8 without BOM";

/// What is said of a carriage return.
const RETURN: &str =
    " with a carriage return behind it (CR LF); save the file with line ends LF, as on Unix, or run dos2unix on it";

/// What is said of a byte order mark and a carriage return.
const BOTH: &str =
    " after a byte order mark (BOM), and with a carriage return behind it (CR LF); save the file as UTF-8 without BOM and with line ends LF, as on Unix, or run dos2unix on it";

/// Adds a line in quotes, or what is said of a line with nothing to show.
fn push_line(text: &mut String, line: &[u8]) -> Result<(), AllocError> {
    if has_letters(line) {
        push_quoted(text, line)
    } else {
        text.push_str("an empty line")
    }
}

/// Adds a piece of a text in quotes, cut to 60 letters, without control characters and what is not UTF-8.
pub(crate) fn push_quoted(text: &mut String, piece: &[u8]) -> Result<(), AllocError> {
    text.push('\'')?;
    push_letters(text, piece)?;
    text.push('\'')
}

/// Whether a line has a letter that is shown.
fn has_letters(line: &[u8]) -> bool {
    for chunk in line.utf8_chunks() {
        if chunk.valid().chars().any(is_shown) {
            return true;
        }
    }
    false
}

/// Whether a letter is shown.
fn is_shown(letter: char) -> bool {
    !letter.is_control() || letter == '\t'
}

/// Adds the first 60 letters of a line, without control characters and what is not UTF-8. A tab becomes a blank.
fn push_letters(text: &mut String, line: &[u8]) -> Result<(), AllocError> {
    let mut count = 0usize;
    for chunk in line.utf8_chunks() {
        for letter in chunk.valid().chars() {
            if !is_shown(letter) {
                continue;
            }
            if count == MOST_SHOWN {
                return text.push_str("..");
            }
            text.push(if letter == '\t' { ' ' } else { letter })?;
            count = count.saturating_add(1);
        }
    }
    Ok(())
}

/// How many words a line has, between blanks and tabs.
pub(crate) fn count_words(line: &[u8]) -> usize {
    without_return(line).split(is_space).filter(is_word).count()
}

/// The first word of a line, between blanks and tabs; nothing if it has none.
pub(crate) fn first_word(line: &[u8]) -> &[u8] {
    let first = without_return(line).split(is_space).find(is_word);
    first.unwrap_or(&[])
}

/// Whether what stands between blanks and tabs is a word.
pub(crate) fn is_word(piece: &&[u8]) -> bool {
    !piece.is_empty()
}

/// Whether a byte is a blank or a tab.
pub(crate) fn is_space(byte: &u8) -> bool {
    *byte == b' ' || *byte == b'\t'
}

/// Whether a byte stands between lines.
pub(crate) fn is_line_feed(byte: &u8) -> bool {
    *byte == LINE_FEED
}
