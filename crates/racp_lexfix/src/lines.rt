//! The text of an answer.

ghost use Rattle.std.specs.Prelude.{◌≡◌, IfOk};
ghost use Rattle.racp_lexfix.specs.Texts.{answer_text, impossible_line, due_line};

use crate::answer::Answer;
use racp_plan::write_plan;
use std::alloc::{AllocError, Global};

/// The text of an answer on the terms of an order with this deadline, in ASCII: that of the plan, or the line that says why
/// there is none.
///
/// # Errors
///
/// Memory was refused.
pub fn answer_lines(alloc: Global, deadline: u32, answer: &Answer) -> Result<Vec<u8>, AllocError>
    ensures { IfOk result (λ text. text.items ≡ answer_text deadline answer.now) }
{
    match answer {
        Answer::Plan(plan) => write_plan(alloc, plan),
        Answer::Impossible { longest } => impossible_line(alloc, *longest, deadline),
        Answer::Due { job } => due_line(alloc, *job),
        Answer::Ceiling => b"impossible ceiling\n".to_vec(alloc),
    }
}

/// The line that tells of a critical length above the deadline.
fn impossible_line(alloc: Global, critical: u64, deadline: u32) -> Result<Vec<u8>, AllocError>
    ensures { IfOk result (λ text. text.items ≡ impossible_line critical deadline) }
{
    Ok(format!(in alloc; "impossible critical {critical} deadline {deadline}\n")?.into_bytes())
}

/// The line that tells of a job that ends after its due time.
fn due_line(alloc: Global, job: u32) -> Result<Vec<u8>, AllocError>
    ensures { IfOk result (λ text. text.items ≡ due_line job) }
{
    Ok(format!(in alloc; "impossible due {job}\n")?.into_bytes())
}
