//! What is wrong with the texts of a plan that is shown, and with the text of changes.

use crate::cause::{order_cause, plan_cause};
use crate::explain::push_title;
use crate::faults::{THERE, push_changes_finding};
use crate::finding::{push_more, push_short};
use crate::input::Input;
use crate::subject::Subject;
use racp_model::Network;
use racp_show::Names;
use racp_sm::read_sm;
use std::alloc::{AllocError, Global};

/// What is wrong with the texts of a network, an order, a plan and names, in lines that begin with `racp: `; nothing if
/// the plan is right, and there are no names or one for each job and resource.
///
/// # Errors
///
/// Memory was refused.
pub fn shown_cause(
    alloc: Global,
    net: &Input<'_>,
    order: &Input<'_>,
    plan: &Input<'_>,
    names: &Input<'_>,
) -> Result<String, AllocError> {
    let text = plan_cause(alloc, net, order, plan)?;
    or_of_names(alloc, text, net, names)
}

/// What is wrong with the texts of a network, an order and names, in lines that begin with `racp: `; nothing if
/// nothing is found that keeps the order from a plan, and there are no names or one for each job and resource.
///
/// # Errors
///
/// Memory was refused.
pub fn named_cause(
    alloc: Global,
    net: &Input<'_>,
    order: &Input<'_>,
    names: &Input<'_>,
) -> Result<String, AllocError> {
    let text = order_cause(alloc, net, order)?;
    or_of_names(alloc, text, net, names)
}

/// What is wrong with other texts, or, if nothing is, with names for a network.
fn or_of_names(
    alloc: Global,
    text: String,
    net: &Input<'_>,
    names: &Input<'_>,
) -> Result<String, AllocError> {
    if !text.is_empty() {
        return Ok(text);
    }
    match read_sm(alloc, net.bytes) {
        Ok(network) => names_cause(alloc, &network, names),
        Err(_) => Ok(text),
    }
}

/// What is wrong with names for a network, in lines that begin with `racp: `; nothing if there are none, or one for each job
/// and resource.
///
/// # Errors
///
/// Memory was refused.
pub fn names_cause(alloc: Global, net: &Network, names: &Input<'_>) -> Result<String, AllocError> {
    let mut text = String::new(alloc);
    push_names(alloc, &mut text, net, names)?;
    Ok(text)
}

/// Adds what is wrong with names for a network.
fn push_names(
    alloc: Global,
    text: &mut String,
    net: &Network,
    names: &Input<'_>,
) -> Result<(), AllocError> {
    match std::str::from_utf8(names.bytes) {
        Ok(lines) => {
            let called = Names::of_text(alloc, lines)?;
            push_count(text, net, names.name, &called)
        }
        Err(_) => push_no_utf8(text, names.name),
    }
}

/// Adds that names are not UTF-8.
fn push_no_utf8(text: &mut String, name: &str) -> Result<(), AllocError> {
    write!(text, "racp: {name}: names 1 NotUtf8")?;
    push_short(text, Subject::Names)?;
    write!(
        text,
        "names in UTF-8, one a line{THERE}bytes that are not UTF-8"
    )?;
    push_more(text, Subject::Names)
}

/// Adds how many names there are, if there is neither none nor one for each job and resource.
fn push_count(
    text: &mut String,
    net: &Network,
    name: &str,
    names: &Names,
) -> Result<(), AllocError> {
    let (jobs, resources) = (net.job_count(), net.resource_count());
    let wanted = jobs.saturating_add(resources);
    if names.are_for(wanted) {
        return Ok(());
    }
    let lines = line_count(names, wanted);
    write!(text, "racp: {name}: names 2 Count")?;
    push_short(text, Subject::NamesCount)?;
    write!(
        text,
        "as many lines as {jobs} jobs and {resources} resources need: {wanted}{THERE}so many lines: {lines}"
    )?;
    push_more(text, Subject::NamesCount)
}

/// How many lines names have: up to the last that is not empty, or, if these are fewer than are wanted, also the empty lines
/// behind it that are wanted.
fn line_count(names: &Names, wanted: usize) -> usize {
    let count = names.count();
    let mut named = 0usize;
    for place in 0..count {
        if !names.at(place).is_empty() {
            named = place.saturating_add(1);
        }
    }
    named.max(count.min(wanted))
}

/// What is wrong with a text of changes that is refused for a page, in lines that begin with `racp: `.
///
/// # Errors
///
/// Memory was refused.
pub fn changes_cause(alloc: Global, changes: &Input<'_>) -> Result<String, AllocError> {
    let mut text = String::new(alloc);
    match std::str::from_utf8(changes.bytes) {
        Ok(_) => push_other_plan(&mut text, changes)?,
        Err(_) => push_no_changes(&mut text, changes.name)?,
    }
    Ok(text)
}

/// Adds that a text of changes is that of another plan.
fn push_other_plan(text: &mut String, changes: &Input<'_>) -> Result<(), AllocError> {
    push_begin(text, changes.name, Subject::ChangesPlan)?;
    push_changes_finding(text, changes.bytes)?;
    push_more(text, Subject::ChangesPlan)
}

/// Adds that a text of changes is not UTF-8.
fn push_no_changes(text: &mut String, name: &str) -> Result<(), AllocError> {
    push_begin(text, name, Subject::Changes)?;
    write!(
        text,
        "lines in UTF-8, as racp whatif prints them{THERE}bytes that are not UTF-8"
    )?;
    push_more(text, Subject::Changes)
}

/// Adds the name of a file and of its fault, and what stands before what was wanted.
pub(crate) fn push_begin(
    text: &mut String,
    name: &str,
    subject: Subject,
) -> Result<(), AllocError> {
    write!(text, "racp: {name}: ")?;
    push_title(text, subject)?;
    push_short(text, subject)
}
