//! Writing the text of a plan.

ghost use Rattle.std.specs.Prelude.{◌≡◌, IfOk};
ghost use Rattle.racp_plan.specs.Texts.{plan_text};

use crate::lines::{head_lines, push_capacities, push_starts};
use crate::plan::Plan;
use std::alloc::{AllocError, Global};

/// The text of a plan, in ASCII: the deadline, the critical length, the cost, the capacity of each resource and the
/// start of each job, both numbered from 1, and the line `end`.
///
/// # Errors
///
/// Memory was refused.
pub fn write_plan(alloc: Global, plan: &Plan) -> Result<Vec<u8>, AllocError>
    ensures { IfOk result (λ text. text.items ≡ plan_text plan.now) }
{
    let mut text = head_lines(alloc, plan.deadline, plan.critical, plan.cost)?;
    push_capacities(alloc, &mut text, plan.capacities.as_slice())?;
    push_starts(alloc, &mut text, plan.starts.as_slice())?;
    text.extend_from_slice(b"end\n")?;
    Ok(text)
}
