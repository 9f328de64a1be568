//! What is wrong with a network text.

use crate::faults::THERE;
use crate::faults::head::{head_number, is_in_head, line_like};
use crate::faults::line_of::{
    body_of, count_words, first_word, is_line_feed, is_space, is_word, line_at, push_quoted,
    push_shown, without_return,
};
use crate::faults::looks::look_of;
use crate::faults::ring::ring_of;
use crate::faults::wanted::push_wanted;
use racp_sm::{SmFault, SmFaultKind};
use std::alloc::{AllocError, Global};

/// Adds what a network text has to have where it has this fault, and what it has.
///
/// # Errors
///
/// Memory was refused.
pub(crate) fn push_network_finding(
    alloc: Global,
    text: &mut String,
    fault: SmFault,
    bytes: &[u8],
) -> Result<(), AllocError> {
    let body = body_of(bytes);
    match fault.kind {
        SmFaultKind::NoJobs => push_missing(
            text,
            body,
            "a line before PRECEDENCE RELATIONS: that begins with jobs and has a colon",
            "jobs",
        ),
        SmFaultKind::NoRenewable => push_missing(
            text,
            body,
            "a line before PRECEDENCE RELATIONS: that begins with - renewable and has a colon",
            "renewable",
        ),
        SmFaultKind::NoPrecedence => push_missing(
            text,
            body,
            "the line PRECEDENCE RELATIONS:",
            "precedence",
        ),
        SmFaultKind::NoRequests => push_missing(
            text,
            body,
            "the line REQUESTS/DURATIONS: behind the precedence part",
            "requests",
        ),
        SmFaultKind::TooFew => push_too_few(text, body, fault.line),
        SmFaultKind::Cycle => push_ring(alloc, text, body),
        SmFaultKind::BadNumber => push_bad_number(text, body, fault.line),
        SmFaultKind::BadSuccessor => push_bad_successor(text, body, fault.line),
        _ => push_bad_line(text, wanted(fault.kind), line_at(body, fault.line)),
    }
}

/// Adds what a line has to be, and the line.
fn push_bad_line(text: &mut String, wanted: &str, line: Option<&[u8]>) -> Result<(), AllocError> {
    push_wanted(text, wanted)?;
    push_shown(text, line)
}

/// What a line has to be, by the fault that it has.
fn wanted(kind: SmFaultKind) -> &'static str {
    match kind {
        SmFaultKind::ManyProjects => "1 project, or no such line",
        SmFaultKind::OtherResources => "0 of these resources, or no such line",
        SmFaultKind::Limit => {
            "1 to 512 jobs, 1 to 16 resources, at most 512 successors, durations and requests of at most 10,000"
        }
        SmFaultKind::BadRow => "a row that begins with the number of the next job",
        SmFaultKind::NotSingleMode => "1 in the second column, since each job has one mode",
        SmFaultKind::TooMany => "the end of the part, by a line of stars or the next title",
        _ => "enough memory",
    }
}

/// Adds which line has to be there, and what the text has in its place, by a word of it.
fn push_missing(
    text: &mut String,
    body: &[u8],
    wanted: &str,
    word: &str,
) -> Result<(), AllocError> {
    push_wanted(text, wanted)?;
    match look_of(body) {
        Some(look) => text.push_str(look),
        None => push_like(text, line_like(body, word)),
    }
}

/// Adds that a line is missing, and the line that is like it, if any.
fn push_like(text: &mut String, like: Option<(usize, &[u8])>) -> Result<(), AllocError> {
    match like {
        Some((number, line)) => {
            write!(text, "no such line; line {number} is ")?;
            push_shown(text, Some(line))
        }
        None => text.push_str("no such line"),
    }
}

/// Adds how many numbers the part with this title has to have, and how many it has.
fn push_too_few(text: &mut String, body: &[u8], title: usize) -> Result<(), AllocError> {
    if is_of_requests(body, title) {
        push_requests(text, body)?;
    } else {
        push_rows(text, body)?;
    }
    let count = numbers_behind(body, title);
    write!(
        text,
        "{THERE}so many numbers up to the end of the part: {count}"
    )
}

/// Adds how many numbers the requests part has to have.
fn push_requests(text: &mut String, body: &[u8]) -> Result<(), AllocError> {
    let jobs = jobs_of(body);
    let resources = head_number(body, &[b"-", b"renewable"]);
    let numbers = resources.saturating_add(3).saturating_mul(jobs);
    write!(
        text,
        "so many numbers behind this title: {numbers} (jobs: {jobs}, resources: {resources})"
    )
}

/// Adds how many rows the precedence part has to have.
fn push_rows(text: &mut String, body: &[u8]) -> Result<(), AllocError> {
    let jobs = jobs_of(body);
    write!(text, "a row for each job behind this title (jobs: {jobs})")
}

/// How many jobs there are, by the head.
fn jobs_of(body: &[u8]) -> u64 {
    head_number(body, &[b"jobs"])
}

/// Whether the title in this line is that of the requests part.
fn is_of_requests(body: &[u8], title: usize) -> bool {
    match line_at(body, title) {
        Some(line) => first_word(line).starts_with(b"REQUESTS"),
        None => false,
    }
}

/// How many words the part has whose title is in this line.
fn numbers_behind(body: &[u8], title: usize) -> usize {
    let mut count = 0usize;
    for line in body.split(is_line_feed).skip(title.saturating_add(1)) {
        if ends_part(line) {
            return count;
        }
        if !is_of_dashes(line) {
            count = count.saturating_add(count_words(line));
        }
    }
    count
}

/// Whether a line ends a part.
fn ends_part(line: &[u8]) -> bool {
    let word = first_word(line);
    word.starts_with(b"*")
        || word == b"REQUESTS/DURATIONS:".as_slice()
        || word == b"RESOURCEAVAILABILITIES:".as_slice()
}

/// Whether a line is made of dashes.
fn is_of_dashes(line: &[u8]) -> bool {
    first_word(line).starts_with(b"-")
}

/// Adds the jobs that wait for each other.
fn push_ring(alloc: Global, text: &mut String, body: &[u8]) -> Result<(), AllocError> {
    push_wanted(text, "no job that has to wait for itself")?;
    text.push_str("jobs that wait for each other:")?;
    let ring = ring_of(alloc, body, jobs_of(body))?;
    push_jobs(text, &ring)
}

/// Adds the numbers of jobs.
fn push_jobs(text: &mut String, jobs: &[u64]) -> Result<(), AllocError> {
    for job in jobs {
        write!(text, " {job}")?;
    }
    Ok(())
}

/// Adds the word that is no number, and its line.
fn push_bad_number(text: &mut String, body: &[u8], number: usize) -> Result<(), AllocError> {
    push_wanted(text, "a whole number, of decimal digits alone")?;
    let line = line_at(body, number);
    push_word(text, no_number(line, is_in_head(body, number)))?;
    push_shown(text, line)
}

/// Adds a word of a line, if there is one, and what stands before its line.
fn push_word(text: &mut String, word: Option<&[u8]>) -> Result<(), AllocError> {
    match word {
        Some(word) if !word.is_empty() => {
            push_quoted(text, word)?;
            text.push_str(" in ")
        }
        _ => Ok(()),
    }
}

/// The word of a line that is no number: in the head the first one after the colon, and else the first such word.
fn no_number(line: Option<&[u8]>, is_of_head: bool) -> Option<&[u8]> {
    let line = without_return(line?);
    if is_of_head {
        let (_, value) = racp_text::cut_at(line, b':')?;
        Some(first_word(value))
    } else {
        line.split(is_space).find(is_no_number)
    }
}

/// Whether what stands between blanks and tabs is a word, and no number.
fn is_no_number(piece: &&[u8]) -> bool {
    is_word(piece) && racp_text::number(piece).is_none()
}

/// Adds the row with a successor that is none.
fn push_bad_successor(text: &mut String, body: &[u8], number: usize) -> Result<(), AllocError> {
    let jobs = jobs_of(body);
    write!(
        text,
        "successors from 1 to {jobs}, as many as the third column says{THERE}"
    )?;
    push_shown(text, line_at(body, number))
}
