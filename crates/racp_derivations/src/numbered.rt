//! Lines that have numbers, so that they need not be spelled out again.

ghost use Rattle.std.specs.Prelude.{◌≡◌, IfOk};
ghost use Rattle.racp_derivations.specs.Lines.{has_number, is_by_clause, line_at, with_line};

use crate::line::{Line, Step};
use std::alloc::AllocError;

/// Gives a line that is spelled out the next number, if it has one.
pub(crate) fn push_numbered(lines: &mut Vec<Line>, line: Line) -> Result<(), AllocError>
    ensures { IfOk result (λ _. lines.new.items ≡ with_line lines.old.items line) }
{
    if has_number(line) {
        lines.push(line)?;
    }
    Ok(())
}

/// Whether a line that is spelled out has a number.
fn has_number(line: Line) -> bool
    ensures { result ≡ has_number line }
{
    match line {
        Line::Suppose(_) => true,
        Line::Take(step) => !is_by_clause(step),
        Line::Holds | Line::Keep => false,
    }
}

/// Whether a step is by an earlier clause.
fn is_by_clause(step: Step) -> bool
    ensures { result ≡ is_by_clause step }
{
    match step {
        Step::Earlier(_) => true,
        _ => false,
    }
}

/// The line that has a number.
pub(crate) fn line_at(lines: &[Line], number: u64) -> Option<Line>
    ensures { result ≡ line_at lines.now number }
{
    let count = lines.len() as u64;
    if 1 <= number && number <= count {
        Some(lines[number as usize - 1])
    } else {
        None
    }
}
