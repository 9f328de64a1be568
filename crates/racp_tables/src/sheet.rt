//! The text of a table as it is given to the reader of rows and cells.

use crate::fault::TableFault;
use crate::layout::Layout;
use std::alloc::{AllocError, Global};

/// Where in a cell a text has come.
#[derive(Clone, Copy, PartialEq, Eq)]
enum Place {
    /// At its begin, or in the blanks there.
    Begin,
    /// In a cell without quotes, or behind them.
    Plain,
    /// Between its quotes.
    Quoted,
    /// At a quote that ends it, unless another follows.
    Quote,
}

/// A text that is made.
#[derive(Drop)]
struct Sheet {
    text: String,
    /// The blanks at the begin of a cell.
    blanks: String,
    place: Place,
    separator: char,
    /// The line that is read, from 1.
    line: u64,
    /// The line of the last quote that began a cell.
    opened: u64,
}

/// A text whose lines end with a line feed alone, in place of a carriage return or of both.
pub(crate) fn with_line_feeds(alloc: Global, text: &str) -> Result<String, AllocError> {
    let mut lines = String::new(alloc);
    let mut was_return = false;
    for letter in text.chars() {
        if letter == '\r' {
            lines.push('\n')?;
        } else if !(was_return && letter == '\n') {
            lines.push(letter)?;
        }
        was_return = letter == '\r';
    }
    Ok(lines)
}

/// A text with empty lines above the titles, and without blanks before the quotes of cells, whose last line has its end.
pub(crate) fn sheet_of(alloc: Global, text: &str, layout: Layout) -> Result<String, TableFault> {
    let mut sheet = Sheet {
        text: String::new(alloc),
        blanks: String::new(alloc),
        place: Place::Begin,
        separator: layout.separator as char,
        line: 1,
        opened: 0,
    };
    for (place, line) in text.lines().enumerate() {
        if place >= layout.above {
            push_line(&mut sheet, line)?;
        }
        end_line(&mut sheet)?;
    }
    if sheet.place == Place::Quoted {
        let words = String::from_str(alloc, "a quote is opened here and never closed");
        return Err(TableFault::at(sheet.opened, words));
    }
    Ok(sheet.text)
}

/// Adds a line.
fn push_line(sheet: &mut Sheet, line: &str) -> Result<(), AllocError> {
    for letter in line.chars() {
        push_letter(sheet, letter)?;
    }
    Ok(())
}

/// Adds a letter.
fn push_letter(sheet: &mut Sheet, letter: char) -> Result<(), AllocError> {
    if sheet.place == Place::Begin {
        return push_first(sheet, letter);
    }
    sheet.place = after(sheet.place, letter, sheet.separator);
    sheet.text.push(letter)
}

/// Adds a letter at the begin of a cell.
fn push_first(sheet: &mut Sheet, letter: char) -> Result<(), AllocError> {
    if letter != sheet.separator && letter.is_whitespace() {
        return sheet.blanks.push(letter);
    }
    if letter == '"' {
        sheet.opened = sheet.line;
        sheet.place = Place::Quoted;
    } else {
        sheet.text.push_str(sheet.blanks.as_str())?;
        sheet.place = after(Place::Plain, letter, sheet.separator);
    }
    sheet.blanks.clear();
    sheet.text.push(letter)
}

/// Where in a cell a text has come after this letter.
fn after(place: Place, letter: char, separator: char) -> Place {
    match place {
        Place::Quoted => {
            if letter == '"' {
                Place::Quote
            } else {
                Place::Quoted
            }
        }
        Place::Quote => {
            if letter == '"' {
                Place::Quoted
            } else {
                after_plain(letter, separator)
            }
        }
        _ => after_plain(letter, separator),
    }
}

/// Where in a cell a text has come after this letter without quotes.
fn after_plain(letter: char, separator: char) -> Place {
    if letter == separator {
        Place::Begin
    } else {
        Place::Plain
    }
}

/// Ends a line, and with it the cell, unless that is quoted.
fn end_line(sheet: &mut Sheet) -> Result<(), AllocError> {
    sheet.line = sheet.line.saturating_add(1);
    sheet.blanks.clear();
    if sheet.place != Place::Quoted {
        sheet.place = Place::Begin;
    }
    sheet.text.push('\n')
}
