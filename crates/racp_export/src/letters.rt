//! How the letters of names are written.

ghost use Rattle.std.specs.Prelude.{◌≡◌, ◌++◌, IfOk, OnOk, string_bytes};
ghost use Rattle.racp_export.specs.Letters.{is_event_mark, is_juggler_mark, is_link_mark, is_markdown_mark, is_span_mark, juggled, letter_text, marked, spelled, unless};

use std::alloc::{AllocError, Global};

/// How the letters of a text are written.
#[derive(Clone, Copy)]
pub(crate) enum Letters {
    /// As in a text of iCalendar.
    Events,
    /// As in Markdown, where each letter stands for itself.
    Markdown,
    /// Without hyphens, as in a date of iCalendar.
    Digits,
    /// As in a text of TaskJuggler.
    TaskJuggler,
}

/// A text, written with these letters.
///
/// # Errors
///
/// Memory was refused.
pub(crate) fn spelled(alloc: Global, letters: Letters, plain: &str) -> Result<String, AllocError>
    ensures { IfOk result (λ text. string_bytes text ≡ spelled letters plain.now) }
{
    let mut text = String::new(alloc);
    for letter in plain.chars() {
        push_letter(&mut text, letters, letter)?;
    }
    Ok(text)
}

/// Adds what stands for a letter.
fn push_letter(text: &mut String, letters: Letters, letter: char) -> Result<(), AllocError>
    ensures { OnOk result (string_bytes text.new ≡ string_bytes text.old ++ letter_text letters letter) }
{
    match letters {
        Letters::Events => push_marked(text, is_event_mark(letter), letter),
        Letters::Markdown => push_marked(text, is_markdown_mark(letter), letter),
        Letters::Digits => push_unless(text, letter == '-', letter),
        Letters::TaskJuggler => push_juggled(text, letter),
    }
}

/// Adds a letter, with a backslash before it if it is a mark.
fn push_marked(text: &mut String, is_mark: bool, letter: char) -> Result<(), AllocError>
    ensures { OnOk result (string_bytes text.new ≡ string_bytes text.old ++ marked is_mark letter) }
{
    if is_mark {
        text.push('\\')?;
        text.push(letter)?;
        Ok(())
    } else {
        text.push(letter)
    }
}

/// Adds a letter unless it is left out.
fn push_unless(text: &mut String, is_left_out: bool, letter: char) -> Result<(), AllocError>
    ensures { OnOk result (string_bytes text.new ≡ string_bytes text.old ++ unless is_left_out letter) }
{
    if is_left_out {
        Ok(())
    } else {
        text.push(letter)
    }
}

/// Adds what stands for a letter in a text of TaskJuggler.
fn push_juggled(text: &mut String, letter: char) -> Result<(), AllocError>
    ensures { OnOk result (string_bytes text.new ≡ string_bytes text.old ++ juggled letter) }
{
    if is_juggler_mark(letter) {
        text.push(letter)?;
        text.push(' ')?;
        Ok(())
    } else {
        push_marked(text, letter == '"', letter)
    }
}

/// Whether a letter may mean something else than itself before others in a text of TaskJuggler.
fn is_juggler_mark(letter: char) -> bool
    ensures { result ≡ is_juggler_mark letter }
{
    letter == '\\' || letter == '$'
}

/// Whether a letter means something else than itself in a text of iCalendar.
fn is_event_mark(letter: char) -> bool
    ensures { result ≡ is_event_mark letter }
{
    letter == '\\' || letter == ';' || letter == ','
}

/// Whether a letter may mean something else than itself in Markdown.
fn is_markdown_mark(letter: char) -> bool
    ensures { result ≡ is_markdown_mark letter }
{
    is_span_mark(letter) || is_link_mark(letter)
}

/// Whether a letter may begin or end another kind of type, or a cell.
fn is_span_mark(letter: char) -> bool
    ensures { result ≡ is_span_mark letter }
{
    letter == '\\'
        || letter == '|'
        || letter == '*'
        || letter == '_'
        || letter == '`'
        || letter == '~'
}

/// Whether a letter may begin or end a link, a tag or the name of a letter.
fn is_link_mark(letter: char) -> bool
    ensures { result ≡ is_link_mark letter }
{
    letter == '[' || letter == ']' || letter == '<' || letter == '>' || letter == '&'
}
