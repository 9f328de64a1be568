//! What is wrong with a plan text.

use crate::faults::THERE;
use crate::faults::line_of::{push_with_end, without_mark};
use racp_model::Network;
use racp_plan::{TextFault, TextFaultKind};
use std::alloc::AllocError;

/// How many lines stand before those of the resources.
const HEAD: usize = 3;

/// What is said of a text that tells how far planning came before it was stopped.
const STOPPED: &str =
    "; planning was stopped, so there is no plan in this file; plan --best FILE keeps the cheapest known";

/// Adds what a plan text has to have where it has this fault, and what it has.
///
/// # Errors
///
/// Memory was refused.
pub(crate) fn push_text_finding(
    text: &mut String,
    fault: TextFault,
    bytes: &[u8],
    net: &Network,
) -> Result<(), AllocError> {
    push_form(text, fault.line, net.resource_count(), net.job_count())?;
    text.push_str(limit_of(fault))?;
    text.push_str(THERE)?;
    push_with_end(text, bytes, fault.line)?;
    if without_mark(bytes).starts_with(b"stopped ") {
        text.push_str(STOPPED)?;
    }
    Ok(())
}

/// What else a line has to have, by its fault.
fn limit_of(fault: TextFault) -> &'static str {
    match fault.kind {
        TextFaultKind::Range if fault.line == HEAD => {
            ", with a number of at most 1,000,000,000,000,000"
        }
        TextFaultKind::Range => ", with a number of at most 10,000,000",
        _ => ", and a line feed",
    }
}

/// Adds the form of the line with this number, from 1, in the plan of this many resources and jobs.
fn push_form(
    text: &mut String,
    line: usize,
    resources: usize,
    jobs: usize,
) -> Result<(), AllocError> {
    let starts = resources.saturating_add(HEAD);
    let end = starts.saturating_add(jobs).saturating_add(1);
    match line {
        1 => text.push_str("'deadline T'"),
        2 => text.push_str("'critical C'"),
        HEAD => text.push_str("'cost X'"),
        _ if line <= starts => {
            let resource = line.saturating_sub(HEAD);
            write!(text, "'capacity {resource} A'")
        }
        _ if line < end => {
            let job = line.saturating_sub(starts);
            write!(text, "'start {job} S'")
        }
        _ if line == end => text.push_str("'end'"),
        _ => text.push_str("nothing behind the line 'end'"),
    }
}
