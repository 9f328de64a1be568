//! The text of how soon a project can end.

ghost use Rattle.std.specs.Prelude.{◌≡◌, IfOk};
ghost use Rattle.racp_soonest.specs.Texts.{known_line, open_line, soonest_text, span_line};

use crate::soonest::{Soonest, Span};
use racp_lexfix::answer_lines;
use racp_plan::write_plan;
use std::alloc::{AllocError, Global};

/// The text of an answer for an order with this deadline, in ASCII: that of the plan, or the line that says why there is none.
///
/// # Errors
///
/// Memory was refused.
pub fn soonest_lines(alloc: Global, deadline: u32, soonest: &Soonest) -> Result<Vec<u8>, AllocError>
    ensures { IfOk result (λ text. text.items ≡ soonest_text deadline soonest.now) }
{
    match soonest {
        Soonest::Plan(plan) => write_plan(alloc, plan),
        Soonest::NoPlan(reason) => answer_lines(alloc, deadline, reason),
    }
}

/// The line that tells where the least deadline lies, if it is not known.
///
/// # Errors
///
/// Memory was refused.
pub fn span_lines(alloc: Global, span: Span) -> Result<Vec<u8>, AllocError>
    ensures { IfOk result (λ text. text.items ≡ span_line span) }
{
    match span.known {
        Some(known) => known_line(alloc, span.least, known),
        None => open_line(alloc, span.least),
    }
}

/// The line that tells of two deadlines.
fn known_line(alloc: Global, least: u32, known: u32) -> Result<Vec<u8>, AllocError>
    ensures { IfOk result (λ text. text.items ≡ known_line least known) }
{
    Ok(format!(in alloc; "stopped deadline {least} to {known}\n")?.into_bytes())
}

/// The line that tells of one deadline.
fn open_line(alloc: Global, least: u32) -> Result<Vec<u8>, AllocError>
    ensures { IfOk result (λ text. text.items ≡ open_line least) }
{
    Ok(format!(in alloc; "stopped deadline {least}\n")?.into_bytes())
}
