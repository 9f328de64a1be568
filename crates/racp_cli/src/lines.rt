//! The texts that are written, line by line.

ghost use Rattle.std.specs.Prelude.{◌≡◌, ◌++◌, IfOk, codes};
ghost use Rattle.std.specs.Fmt.{decimal};
ghost use Rattle.racp_plan.specs.Texts.{line};
ghost use Rattle.racp_cli.specs.Texts.{at_least_line, early_text, order_refusal_line, plan_fault_line, plan_refusal_line, refusal_line, stopped_line};

use racp_check::PlanFault;
use racp_plan::TextFault;
use racp_plan::lines::{push_number, push_starts};
use racp_prices::OrderFault;
use racp_sm::SmFault;
use std::alloc::{AllocError, Global};

/// The text of a critical length and of starts, given by place from 0.
pub(crate) fn early_lines(
    alloc: Global,
    critical: u64,
    starts: &[u32],
) -> Result<Vec<u8>, AllocError>
    ensures { IfOk result (λ text. text.items ≡ early_text critical starts.now) }
{
    let mut text = format!(in alloc; "critical {critical}\n")?.into_bytes();
    push_starts(alloc, &mut text, starts)?;
    text.extend_from_slice(b"end\n")?;
    Ok(text)
}

/// The line that says why a network text is refused.
pub(crate) fn refused_line(alloc: Global, fault: SmFault) -> Result<Vec<u8>, AllocError>
    ensures { IfOk result (λ text. text.items ≡ refusal_line fault) }
{
    let (number, name, line) = (fault.kind as u8, fault.kind.name(), fault.line);
    Ok(format!(in alloc; "refused sm {number} {name} line {line}\n")?.into_bytes())
}

/// The line that says why an order text is refused.
pub(crate) fn order_refused_line(alloc: Global, fault: OrderFault) -> Result<Vec<u8>, AllocError>
    ensures { IfOk result (λ text. text.items ≡ order_refusal_line fault) }
{
    let (number, name) = (fault as u8, fault.name());
    Ok(format!(in alloc; "refused order {number} {name}\n")?.into_bytes())
}

/// The line that tells capacities, by place from 0, if planning was stopped.
pub(crate) fn stopped_line(alloc: Global, capacities: &[u32]) -> Result<Vec<u8>, AllocError>
    ensures { IfOk result (λ text. text.items ≡ stopped_line capacities.now) }
{
    let mut text = b"stopped".to_vec(alloc)?;
    for (place, units) in capacities.iter().enumerate() {
        push_number(alloc, &mut text, *units)?;
    }
    text.push(b'\n')?;
    Ok(text)
}

/// The line that tells what each plan costs at least.
pub(crate) fn at_least_line(alloc: Global, least: u64) -> Result<Vec<u8>, AllocError>
    ensures { IfOk result (λ text. text.items ≡ at_least_line least) }
{
    Ok(format!(in alloc; "at least {least}\n")?.into_bytes())
}

/// The line that says why a plan text is refused.
pub(crate) fn plan_refused_line(alloc: Global, fault: TextFault) -> Result<Vec<u8>, AllocError>
    ensures { IfOk result (λ text. text.items ≡ plan_refusal_line fault) }
{
    let (number, name, line) = (fault.kind as u8, fault.kind.name(), fault.line);
    Ok(format!(in alloc; "refused plan {number} {name} line {line}\n")?.into_bytes())
}

/// The line that tells of a fault of a plan.
pub(crate) fn plan_fault_line(alloc: Global, fault: PlanFault) -> Result<Vec<u8>, AllocError>
    ensures { IfOk result (λ text. text.items ≡ plan_fault_line fault) }
{
    match fault {
        PlanFault::Cost => b"fault cost\n".to_vec(alloc),
        PlanFault::Late(job) => numbered_line(alloc, "fault late", job),
        PlanFault::Order(before, after) => doubly_numbered_line(
            alloc,
            "fault order",
            before,
            after,
        ),
        PlanFault::Over(resource, time) => doubly_numbered_line(
            alloc,
            "fault over",
            resource,
            time,
        ),
        PlanFault::Ceiling(resource) => numbered_line(alloc, "fault ceiling", resource),
        PlanFault::Early(job) => numbered_line(alloc, "fault early", job),
    }
}

/// The line of some words and a number.
fn numbered_line(alloc: Global, words: &str, number: u32) -> Result<Vec<u8>, AllocError>
    ensures { IfOk result (λ text. text.items ≡ line (words.now ++ codes " " ++ decimal number)) }
{
    Ok(format!(in alloc; "{words} {number}\n")?.into_bytes())
}

/// The line of some words and two numbers.
fn doubly_numbered_line(
    alloc: Global,
    words: &str,
    first: u32,
    second: u32,
) -> Result<Vec<u8>, AllocError>
    ensures { IfOk result (λ text. text.items ≡ line (words.now ++ codes " " ++ decimal first ++ codes " " ++ decimal second)) }
{
    Ok(format!(in alloc; "{words} {first} {second}\n")?.into_bytes())
}
