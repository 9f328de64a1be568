//! What is wrong with the text of a curve.

use crate::called::push_begin;
use crate::faults::{THERE, push_quoted};
use crate::finding::push_more;
use crate::input::Input;
use crate::subject::Subject;
use racp_sm::read_sm;
use racp_text::number;
use std::alloc::{AllocError, Global};

/// What is wrong with the text of a curve for a page, in lines that begin with `racp: `; nothing if some lines of it begin
/// with `deadline`, and each of these has a deadline, a cost and the units of each resource of the network.
///
/// # Errors
///
/// Memory was refused.
pub fn curve_cause(
    alloc: Global,
    net: &Input<'_>,
    curve: &Input<'_>,
) -> Result<String, AllocError> {
    let mut text = String::new(alloc);
    let wanted = number_count(alloc, net);
    match std::str::from_utf8(curve.bytes) {
        Ok(lines) => push_steps(&mut text, curve.name, lines, wanted)?,
        Err(_) => {
            push_wanted(&mut text, curve.name, Subject::Curve)?;
            text.push_str("bytes that are not UTF-8")?;
            push_more(&mut text, Subject::Curve)?;
        }
    }
    Ok(text)
}

/// How many numbers a step of a curve has: the deadline, the cost and the units of each resource; 0 if the network is none.
fn number_count(alloc: Global, net: &Input<'_>) -> usize {
    match read_sm(alloc, net.bytes) {
        Ok(network) => network.resource_count().saturating_add(2),
        Err(_) => 0,
    }
}

/// Adds what is wrong with the steps of a curve, if anything is.
fn push_steps(text: &mut String, name: &str, lines: &str, wanted: usize) -> Result<(), AllocError> {
    let mut is_curve = false;
    for line in lines.lines() {
        if line.starts_with("deadline") {
            is_curve = true;
            if numbers_in(line) != wanted {
                push_wanted(text, name, Subject::CurveSteps)?;
                push_quoted(text, line.as_bytes())?;
                return push_more(text, Subject::CurveSteps);
            }
        }
    }
    if is_curve {
        return Ok(());
    }
    push_wanted(text, name, Subject::CurveSteps)?;
    text.push_str("no such line")?;
    push_more(text, Subject::CurveSteps)
}

/// How many words of a line are numbers.
fn numbers_in(line: &str) -> usize {
    let mut count = 0usize;
    for word in line.split(' ') {
        if number(word.as_bytes()).is_some() {
            count = count.saturating_add(1);
        }
    }
    count
}

/// Adds that the steps of a curve are wanted.
fn push_wanted(text: &mut String, name: &str, subject: Subject) -> Result<(), AllocError> {
    push_begin(text, name, subject)?;
    write!(
        text,
        "lines that begin with deadline, as racp curve prints them for the network{THERE}"
    )
}
