//! Marks.

use crate::fault::XmlFault;

/// What a mark does.
#[derive(Clone, Copy, PartialEq, Eq)]
pub enum Kind {
    /// It opens an element.
    Opens,
    /// It closes one.
    Closes,
    /// It is one without content.
    Empty,
    /// It is a processing instruction or a comment, which is passed over.
    Passed,
}

/// A mark, and the text behind it.
#[derive(Clone, Copy)]
pub struct Mark<'a> {
    /// What it does.
    pub kind: Kind,
    /// The name of its element.
    pub name: &'a str,
    /// The text behind it, up to the next mark, as it stands.
    pub text: &'a str,
    /// The line on which it stands, from 1.
    pub line: u64,
    /// How many elements its own lies in, itself counted: 1 for the first.
    pub depth: usize,
}

/// The mark at the beginning of a piece of text, of which `<` was taken away, in so many open elements.
pub(crate) fn mark_of(piece: &str, line: u64, open: usize) -> Result<Mark<'_>, XmlFault> {
    if piece.starts_with('!') {
        return Err(XmlFault::Unread(line));
    }
    if piece.starts_with('?') {
        return instruction_of(piece, line, open);
    }
    let Some((words, text)) = piece.split_at_checked(end_of(piece)) else {
        return Err(XmlFault::Mark(line));
    };
    let Some(text) = text.strip_prefix('>') else {
        return Err(XmlFault::Mark(line));
    };
    let (kind, inner) = kind_of(words);
    let name = match inner.split_once(char::is_whitespace) {
        Some((name, _)) => name,
        None => inner,
    };
    if !is_name(name) {
        return Err(XmlFault::Mark(line));
    }
    let depth = match kind {
        Kind::Opens | Kind::Empty => open.saturating_add(1),
        Kind::Closes | Kind::Passed => open,
    };
    Ok(Mark {
        kind,
        name,
        text,
        line,
        depth,
    })
}

/// Where a mark ends: the place of the first `>` outside of quotes, or that of the end of the piece.
fn end_of(piece: &str) -> usize {
    let mut quote = 0u8;
    for (place, byte) in piece.bytes().enumerate() {
        if quote != 0 {
            if byte == quote {
                quote = 0;
            }
        } else if byte == b'>' {
            return place;
        } else if byte == b'"' || byte == b'\'' {
            quote = byte;
        }
    }
    piece.len()
}

/// The mark of a processing instruction.
fn instruction_of(piece: &str, line: u64, open: usize) -> Result<Mark<'_>, XmlFault> {
    match piece.split_once("?>") {
        Some((_, text)) => Ok(passed(text, line, open)),
        None => Err(XmlFault::Mark(line)),
    }
}

/// A mark that is passed over, with the text behind it.
pub(crate) fn passed(text: &str, line: u64, depth: usize) -> Mark<'_> {
    Mark {
        kind: Kind::Passed,
        name: "",
        text,
        line,
        depth,
    }
}

/// What a mark with these words does, and the words without the stroke that says so.
fn kind_of(words: &str) -> (Kind, &str) {
    if let Some(inner) = words.strip_prefix('/') {
        return (Kind::Closes, inner);
    }
    match words.strip_suffix('/') {
        Some(inner) => (Kind::Empty, inner),
        None => (Kind::Opens, words),
    }
}

/// Whether a word may be the name of an element.
fn is_name(word: &str) -> bool {
    match word.chars().next() {
        Some(first) => (first == '_' || first.is_alphabetic()) && word.chars().all(is_of_name),
        None => false,
    }
}

/// Whether a letter may stand in a name.
fn is_of_name(letter: char) -> bool {
    letter.is_alphanumeric() || letter == '_' || letter == '-' || letter == '.' || letter == ':'
}
