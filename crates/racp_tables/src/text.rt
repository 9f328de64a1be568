//! The text of a network, in the layout of PSPLIB.

ghost use Rattle.std.specs.Prelude.{◌<◌, length};

use racp_model::Network;
use std::alloc::{AllocError, Global};

/// What stands after each part.
const STARS: &str = "********************\n";

/// The text of a network whose resources are called so.
pub(crate) fn laid_out(
    alloc: Global,
    net: &Network,
    resources: &[String],
) -> Result<String, AllocError> {
    let mut text = String::new(alloc);
    push_head(&mut text, net)?;
    for i in 0..net.job_count() {
        push_successors(&mut text, net, i)?;
    }
    text.push_str(STARS)?;
    push_title(&mut text, resources)?;
    for i in 0..net.job_count() {
        push_requests(&mut text, net, i)?;
    }
    text.push_str(STARS)?;
    Ok(text)
}

/// Adds the head, and the titles of the first part.
fn push_head(text: &mut String, net: &Network) -> Result<(), AllocError> {
    let jobs = net.job_count();
    let resources = net.resource_count();
    write!(
        text,
        "projects: 1\njobs: {jobs}\n- renewable: {resources}\n"
    )?;
    text.push_str("PRECEDENCE RELATIONS:\njobnr. #modes #successors successors\n")
}

/// Adds the row of the job at place `i` with its successors.
fn push_successors(text: &mut String, net: &Network, i: usize) -> Result<(), AllocError> {
    let number = i.saturating_add(1);
    let mut count = 0usize;
    for (before, _) in net.arcs() {
        if *before as usize == number {
            count = count.saturating_add(1);
        }
    }
    write!(text, "{number:>4} 1 {count}")?;
    if count > 0 {
        text.push(' ')?;
    }
    for (before, after) in net.arcs() {
        if *before as usize == number {
            write!(text, " {after}")?;
        }
    }
    text.push('\n')
}

/// Adds the titles of the second part.
fn push_title(text: &mut String, resources: &[String]) -> Result<(), AllocError> {
    text.push_str("REQUESTS/DURATIONS:\njobnr. mode duration")?;
    for name in resources {
        write!(text, " {name}")?;
    }
    text.push('\n')
}

/// Adds the row of the job at place `i` with its duration and requests.
fn push_requests(text: &mut String, net: &Network, i: usize) -> Result<(), AllocError>
    requires { i < length net.now.jobs }
{
    let number = i.saturating_add(1);
    let duration = net.duration(i);
    write!(text, "{number:>4} 1 {duration} ")?;
    for request in net.requests(i) {
        write!(text, " {request}")?;
    }
    text.push('\n')
}
