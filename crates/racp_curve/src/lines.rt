//! The text of a curve.

ghost use Rattle.std.specs.Prelude.{◌≡◌, ◌++◌, OnOk, IfOk, codes};
ghost use Rattle.std.specs.Fmt.{decimal};
ghost use Rattle.racp_curve.specs.Texts.{curve_text, spaced, step_line, step_lines};

use crate::step::Step;
use racp_plan::lines::push_number;
use std::alloc::{AllocError, Global};

/// The text of a curve, in ASCII: the lines of its steps, and the line `end`.
///
/// # Errors
///
/// Memory was refused.
pub fn curve_text(alloc: Global, steps: &[Step]) -> Result<Vec<u8>, AllocError>
    ensures { IfOk result (λ text. text.items ≡ curve_text steps.now) }
{
    let mut text = step_lines(alloc, steps)?;
    text.extend_from_slice(b"end\n")?;
    Ok(text)
}

/// The line `deadline T cost X capacity a1 .. aR` for each of these steps, in ASCII, with the capacities of all
/// resources.
///
/// # Errors
///
/// Memory was refused.
pub fn step_lines(alloc: Global, steps: &[Step]) -> Result<Vec<u8>, AllocError>
    ensures { IfOk result (λ text. text.items ≡ step_lines steps.now) }
{
    let mut text = Vec::new(alloc);
    for step in steps {
        push_step(alloc, &mut text, step)?;
    }
    Ok(text)
}

/// Adds the line of a step.
fn push_step(alloc: Global, text: &mut Vec<u8>, step: &Step) -> Result<(), AllocError>
    ensures { OnOk result (text.new.items ≡ text.old.items ++ step_line step.now) }
{
    push_head(alloc, text, step.deadline, step.cost)?;
    push_numbers(alloc, text, step.capacities.as_slice())?;
    text.push(b'\n')?;
    Ok(())
}

/// Adds the words of a line before the capacities.
fn push_head(alloc: Global, text: &mut Vec<u8>, deadline: u32, cost: u64) -> Result<(), AllocError>
    ensures { OnOk result (text.new.items ≡ text.old.items ++ (codes "deadline " ++
        (decimal deadline ++ (codes " cost " ++ (decimal cost ++ codes " capacity"))))) }
{
    text.extend_from_slice(format!(in alloc;
        "deadline {deadline} cost {cost} capacity"
    )?.as_bytes())
}

/// Adds each number after a blank.
fn push_numbers(alloc: Global, text: &mut Vec<u8>, numbers: &[u32]) -> Result<(), AllocError>
    ensures { OnOk result (text.new.items ≡ text.old.items ++ spaced numbers.now) }
{
    for number in numbers {
        push_number(alloc, text, *number)?;
    }
    Ok(())
}
