//! Which kind of text has a table, and its reading.

use crate::csv_rows::read_rows;
use crate::fault::TableFault;
use crate::mspdi::read_mspdi;
use crate::patterson::read_numbers;
use crate::reading::Reading;
use crate::table::Table;
use racp_text::number;
use std::alloc::{AllocError, Global};

/// The kinds of text that have a table of tasks.
#[derive(Clone, Copy)]
pub enum Format {
    /// Rows of cells, as spreadsheets write them.
    Csv,
    /// Numbers alone: Patterson's format.
    Rcp,
    /// XML of MS Project: MSPDI.
    Mspdi,
}

/// The table of a text, which is read so. If no kind is given, a text whose first line with words has numbers alone between
/// blanks is in Patterson's format, and one whose first line with words begins as XML does is in MSPDI.
///
/// # Errors
///
/// The first thing that is wrong with the table, or that memory was refused.
pub fn read_table(alloc: Global, bytes: &[u8], reading: &Reading<'_>) -> Result<Table, TableFault> {
    let Ok(text) = std::str::from_utf8(bytes) else {
        return Err(TableFault::at(0, no_text(alloc, bytes)));
    };
    if is_workbook(bytes) {
        return Err(TableFault::at(0, no_text(alloc, bytes)));
    }
    if is_network(text) {
        let words = String::from_str(alloc, "this is a network already; cpm and plan read it");
        return Err(TableFault::at(0, words));
    }
    let text = text.strip_prefix('\u{feff}').unwrap_or(text);
    match reading.format.unwrap_or(format_of(text)) {
        Format::Csv => read_rows(alloc, text, reading),
        Format::Rcp => read_numbers(alloc, text),
        Format::Mspdi => read_mspdi(alloc, text, reading),
    }
}

/// What is wrong with bytes that are no text.
fn no_text(alloc: Global, bytes: &[u8]) -> Result<String, AllocError> {
    if is_workbook(bytes) {
        return String::from_str(
            alloc,
            "this is a workbook of Excel or LibreOffice; save the table as CSV",
        );
    }
    String::from_str(
        alloc,
        "the text is not UTF-8; save the table as CSV in UTF-8",
    )
}

/// Whether bytes begin as those of a workbook: of an archive, or of the older kind of Excel's.
fn is_workbook(bytes: &[u8]) -> bool {
    bytes.starts_with(b"PK\x03\x04") || bytes.starts_with(b"\xd0\xcf\x11\xe0")
}

/// Whether a text has the title of the first part of a network.
fn is_network(text: &str) -> bool {
    text.lines().any(is_network_title)
}

/// Whether a line is the title of the first part of a network.
fn is_network_title(line: &str) -> bool {
    line.trim() == "PRECEDENCE RELATIONS:"
}

/// Which kind of text it is, by its first line with words.
fn format_of(text: &str) -> Format {
    for line in text.lines() {
        if !line.trim().is_empty() {
            return format_of_line(line);
        }
    }
    Format::Csv
}

/// Which kind of text begins with this line.
fn format_of_line(line: &str) -> Format {
    if is_xml(line.trim_start()) {
        return Format::Mspdi;
    }
    for word in line.split_whitespace() {
        if number(word.as_bytes()).is_none() {
            return Format::Csv;
        }
    }
    Format::Rcp
}

/// Whether a line begins as those of XML do.
fn is_xml(line: &str) -> bool {
    line.starts_with("<?") || line.starts_with("<!") || line.starts_with("<Project")
}
