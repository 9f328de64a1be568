//! The lines of a plan's text.

ghost use Rattle.std.specs.Prelude.{◌≡◌, ◌++◌, OnOk, IfOk, codes};
ghost use Rattle.std.specs.Fmt.{decimal};
ghost use Rattle.racp_plan.specs.Texts.{capacity_lines, cost_line, critical_line, deadline_line, start_lines};
ghost use Rattle.racp_plan.specs.PlanReading.{words_for};
ghost use Rattle.racp_plan.specs.Steps.{number_line, number_lines};

use std::alloc::{AllocError, Global};

/// The lines of a deadline, a critical length and a cost.
pub(crate) fn head_lines(
    alloc: Global,
    deadline: u32,
    critical: u64,
    cost: u64,
) -> Result<Vec<u8>, AllocError>
    ensures { IfOk result (λ text. text.items ≡ deadline_line deadline ++ critical_line critical ++ cost_line cost) }
{
    let text = format!(in alloc; "deadline {deadline}\ncritical {critical}\ncost {cost}\n")?;
    Ok(text.into_bytes())
}

/// Adds the line `capacity k a` of each capacity, given by place from 0.
pub(crate) fn push_capacities(
    alloc: Global,
    text: &mut Vec<u8>,
    capacities: &[u32],
) -> Result<(), AllocError>
    ensures { OnOk result (text.new.items ≡ text.old.items ++ capacity_lines 1 capacities.now) }
{
    push_lines(alloc, text, "capacity", capacities)
}

/// Adds the line `start j s` of the start of each job, given by place from 0.
///
/// # Errors
///
/// Memory was refused; a beginning of the lines may then stand in the text.
pub fn push_starts(alloc: Global, text: &mut Vec<u8>, starts: &[u32]) -> Result<(), AllocError>
    ensures { OnOk result (text.new.items ≡ text.old.items ++ start_lines 1 starts.now) }
{
    push_lines(alloc, text, "start", starts)
}

/// Adds a number after a blank.
///
/// # Errors
///
/// Memory was refused.
pub fn push_number(alloc: Global, text: &mut Vec<u8>, number: u32) -> Result<(), AllocError>
    ensures { OnOk result (text.new.items ≡ text.old.items ++ (codes " " ++ decimal number)) }
{
    text.extend_from_slice(format!(in alloc; " {number}")?.as_bytes())
}

/// Adds a line for each number: this word, the number of the resource or job, from 1, and the number.
fn push_lines(
    alloc: Global,
    text: &mut Vec<u8>,
    word: &str,
    numbers: &[u32],
) -> Result<(), AllocError>
    ensures { OnOk result (text.new.items ≡ text.old.items ++ number_lines (word.now ++ codes " ") 1 numbers.now) }
{
    for (place, number) in numbers.iter().enumerate() {
        push_line(alloc, text, word, place + 1, *number)?;
    }
    Ok(())
}

/// Adds the line of a resource or a job.
fn push_line(
    alloc: Global,
    text: &mut Vec<u8>,
    word: &str,
    owner: usize,
    number: u32,
) -> Result<(), AllocError>
    ensures { OnOk result
        (text.new.items ≡ text.old.items ++ number_line (words_for (word.now ++ codes " ") owner) number) }
{
    text.extend_from_slice(format!(in alloc; "{word} {owner} {number}\n")?.as_bytes())
}
