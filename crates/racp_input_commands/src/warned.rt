//! What is told of tables of tasks that are taken.

use crate::refusing::in_one_line;
use racp_tables::{Notes, Warning, understood};
use std::alloc::{AllocError, Global};

/// What is told of tables that are taken, each in lines with their ends.
#[derive(Drop)]
pub(crate) struct Told {
    /// What was understood of them.
    pub(crate) understood: String,
    /// What looks wrong.
    pub(crate) warnings: String,
}

impl Told {
    /// Nothing is told.
    pub(crate) fn nothing(alloc: Global) -> Told {
        Told {
            understood: String::new(alloc),
            warnings: String::new(alloc),
        }
    }
}

/// Adds what was understood of a table and what looks wrong, by how it is told of and the text of its network, the times from which
/// jobs may start and the resources, and these notes; answers the critical length of the network.
pub(crate) fn tell_table(
    alloc: Global,
    told: &mut Told,
    network: (&str, &str),
    table: (&Option<Vec<u32>>, &[String]),
    notes: &Notes,
) -> Result<u64, AllocError> {
    let (name, network) = network;
    let (earliest, resources) = table;
    let times: &[u32] = match earliest {
        Some(times) => times,
        None => &[],
    };
    let found = understood(alloc, network, times, resources, notes)?;
    let words = in_one_line(alloc, found.words.as_str())?;
    write!(told.understood, "racp: {name}: {words}\n")?;
    for warning in &notes.warnings {
        push_warning(alloc, told, name, warning)?;
    }
    Ok(found.critical)
}

/// Adds a warning about the file with this name.
fn push_warning(
    alloc: Global,
    told: &mut Told,
    name: &str,
    warning: &Warning,
) -> Result<(), AllocError> {
    let words = in_one_line(alloc, warning.words.as_str())?;
    if warning.line == 0 {
        write!(told.warnings, "racp: {name}: warning: {words}\n")
    } else {
        write!(
            told.warnings,
            "racp: {name}:{}: warning: {words}\n",
            warning.line
        )
    }
}

/// The same of the table of a network, with a warning if a deadline is before its critical length.
pub(crate) fn tell_whole(
    alloc: Global,
    told: &mut Told,
    deadline: Option<u32>,
    network: (&str, &str),
    table: (&Option<Vec<u32>>, &[String]),
    notes: &Notes,
) -> Result<(), AllocError> {
    let critical = tell_table(alloc, told, network, table, notes)?;
    push_deadline(told, deadline, network.0, critical)
}

/// Adds a warning if a deadline is before the critical length of the table that is told of by this name.
fn push_deadline(
    told: &mut Told,
    deadline: Option<u32>,
    name: &str,
    critical: u64,
) -> Result<(), AllocError> {
    let Some(deadline) = deadline else {
        return Ok(());
    };
    if deadline as u64 >= critical {
        return Ok(());
    }
    write!(
        told.warnings,
        "racp: {name}: warning: the deadline {deadline} is before the critical length {critical}, so nothing can be planned\n"
    )
}
