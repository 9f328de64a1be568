//! Reading the text of a plan.

ghost use Rattle.std.specs.Prelude.{◌≤◌};
ghost use Rattle.racp_plan.specs.PlanReading.{IsPlanReadingOrMemory};
ghost use Rattle.racp_plan.specs.Steps.{GivesOrMemory, reading};

use crate::plan::Plan;
use crate::rest::{MOST_NUMBER, Rest};
use crate::text_fault::{TextFault, TextFaultKind};
use racp_model::{Capacities, Network, Starts};
use std::alloc::Global;

/// The greatest cost that a text may say.
const MOST_COST: u64 = 1_000_000_000_000_000;

/// The plan of a text, for a network: with a capacity for each resource and a start for each job. The text is exactly
/// as `write_plan` makes it; the deadline, the critical length, the capacities and the starts are at most 10,000,000,
/// and the cost at most 1,000,000,000,000,000.
///
/// # Errors
///
/// The first line that is wrong: `Syntax`, if it is missing or not of its form, or something stands after the line
/// `end`; `Range`, if its number is too great. `Memory`, at line 0, if no line is wrong and memory was refused.
pub fn read_plan(alloc: Global, bytes: &[u8], net: &Network) -> Result<Plan, TextFault>
    ensures { IsPlanReadingOrMemory net.now bytes.now result }
{
    read_lines(alloc, bytes, net.resource_count(), net.job_count())
}

/// The plan of the lines of a text, for this many resources and jobs.
#[tactic(auto, unfolding(crate::specs::Steps::reading))]
fn read_lines(alloc: Global, bytes: &[u8], resources: usize, jobs: usize) -> Result<Plan, TextFault>
    requires resources { resources ≤ 512 }
    requires jobs { jobs ≤ 512 }
    ensures { GivesOrMemory result (reading resources jobs bytes.now) }
{
    let mut rest = Rest::new(bytes);
    let deadline = rest.next_number("deadline ", MOST_NUMBER)? as u32;
    let critical = rest.next_number("critical ", MOST_NUMBER)?;
    let cost = rest.next_number("cost ", MOST_COST)?;
    let capacities = rest.next_numbers(alloc, "capacity ", resources)?;
    let starts = rest.next_numbers(alloc, "start ", jobs)?;
    rest.end()?;
    match (capacities, starts) {
        (Some(capacities), Some(starts)) => Ok(Plan {
            deadline,
            critical,
            cost,
            capacities: Capacities::new(capacities),
            starts: Starts::new(starts),
        }),
        _ => Err(TextFault::at(TextFaultKind::Memory, 0)),
    }
}
