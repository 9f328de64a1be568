//! How what is told of a text begins: with its name, the line, and the fault's format, number and name.

ghost use Rattle.std.specs.Prelude.{◌≡◌, ◌++◌, IfOk, string_bytes};
ghost use Rattle.std.specs.Io.{StartsWith};
ghost use Rattle.racp_explain.specs.Causes.{line_head, line_place, placed_head};

use std::alloc::{AllocError, Global};

/// A fault as it is named: the format whose fault it is, its number, and its name.
#[derive(Clone, Copy)]
pub(crate) struct Named<'a> {
    /// The word for the format.
    pub(crate) format: &'a str,
    /// The number of the fault.
    pub(crate) number: u8,
    /// The name of the fault.
    pub(crate) name: &'a str,
}

/// The words `racp: NAME:LINE: FORMAT NUMBER FAULT`, or `racp: NAME: FORMAT NUMBER FAULT` of no one line, and the rest.
pub(crate) fn line_text(
    alloc: Global,
    name: &str,
    line: usize,
    fault: Named<'_>,
    rest: &str,
) -> Result<String, AllocError>
    ensures { IfOk result (λ text. StartsWith (string_bytes text)
        (line_head name.now line fault.entry.format.now fault.entry.number fault.entry.name.now)) }
{
    let place = line_place(alloc, line)?;
    placed(alloc, name, place.as_str(), fault, rest)
}

/// The words `racp: NAMEPLACE: FORMAT NUMBER FAULT`, and the rest.
pub(crate) fn placed(
    alloc: Global,
    name: &str,
    place: &str,
    fault: Named<'_>,
    rest: &str,
) -> Result<String, AllocError>
    ensures { IfOk result (λ text. StartsWith (string_bytes text)
        (placed_head name.now place.now fault.entry.format.now fault.entry.number fault.entry.name.now)) }
{
    let (format, number, kind) = (fault.format, fault.number, fault.name);
    format!(in alloc; "racp: {name}{place}: {format} {number} {kind}{rest}")
}

/// The words `:LINE`, and nothing of no one line.
fn line_place(alloc: Global, line: usize) -> Result<String, AllocError>
    ensures { IfOk result (λ text. string_bytes text ≡ line_place line) }
{
    if line == 0 {
        Ok(String::new(alloc))
    } else {
        format!(in alloc; ":{line}")
    }
}
