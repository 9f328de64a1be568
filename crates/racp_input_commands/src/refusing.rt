//! How it is told why a table is refused.

use racp_cli::StreamFault;
use racp_host::failure::Failure;
use racp_model::NetFault;
use racp_tables::TableFault;
use std::alloc::{AllocError, Global};

/// The failure of a table that is told of by this name.
pub(crate) fn table_failure(alloc: Global, name: &str, fault: TableFault) -> Failure {
    let words = match fault {
        TableFault::At(0, words) => format!(in alloc; "racp: {name}: {words}"),
        TableFault::At(line, words) => format!(in alloc; "racp: {name}:{line}: {words}"),
        TableFault::Memory => return Failure::Stream(StreamFault::Memory),
    };
    match words {
        Ok(words) => refused(alloc, words.as_str()),
        Err(_) => Failure::Stream(StreamFault::Memory),
    }
}

/// The failure that is told so, in one line: a cell may have line feeds.
fn refused(alloc: Global, words: &str) -> Failure {
    match in_one_line(alloc, words) {
        Ok(words) => Failure::Refused(words),
        Err(_) => Failure::Stream(StreamFault::Memory),
    }
}

/// A text with blanks in place of its line feeds.
pub(crate) fn in_one_line(alloc: Global, words: &str) -> Result<String, AllocError> {
    let mut line = String::new(alloc);
    for letter in words.chars() {
        line.push(if letter == '\n' { ' ' } else { letter })?;
    }
    Ok(line)
}

/// The failure of a table that is told of by this name and is no network.
pub(crate) fn network_failure(alloc: Global, name: &str, fault: NetFault) -> Failure {
    if fault == NetFault::Memory {
        return Failure::Stream(StreamFault::Memory);
    }
    match format!(in alloc; "racp: {name}: {fault}") {
        Ok(words) => Failure::Refused(words),
        Err(_) => Failure::Stream(StreamFault::Memory),
    }
}
