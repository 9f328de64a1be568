//! What is said of the subjects that words name.

ghost use Rattle.std.specs.Prelude.{◌≡◌, ◌≢◌, [], IfOk, MatchOption, option_map};
ghost use Rattle.std.specs.List.{filter};
ghost use Rattle.racp_explain.specs.Subjects.{is_named};
ghost use Rattle.racp_explain.specs.declared.subjects.TheConstants.{SUBJECTS};

use crate::subject::Subject;
use crate::subjects::{SUBJECTS, named};
use crate::topic::{Topic, topic_of};
use std::alloc::{AllocError, Global};

/// What stands before the list of subjects.
const BEFORE_LIST: &str =
    "These can be explained, as by 'racp explain sm 12', 'racp explain TooFew' or 'racp explain late':\n\n";

/// How many columns the words of a subject take in the list.
const LABEL: usize = 24;

/// The list of all subjects, a line each: the words by which each is asked for, and what it means in short.
///
/// # Errors
///
/// Memory was refused.
pub fn subject_list(alloc: Global) -> Result<String, AllocError> {
    let mut text = String::from_str(alloc, BEFORE_LIST)?;
    push_entries(alloc, &mut text)?;
    Ok(text)
}

/// Adds the lines of all subjects.
fn push_entries(alloc: Global, text: &mut String) -> Result<(), AllocError> {
    for subject in SUBJECTS.iter() {
        push_entry(alloc, text, *subject)?;
    }
    Ok(())
}

/// What is said of each subject that these words name; `None` if there is none.
///
/// # Errors
///
/// Memory was refused.
pub fn explanation(
    alloc: Global,
    first: &str,
    second: Option<&str>,
) -> Result<Option<String>, AllocError>
    ensures { IfOk result (λ text. MatchOption text
        (filter (is_named first.now (option_map (λ word. word.now) second.entry)) SUBJECTS ≡ [])
        (λ _. filter (is_named first.now (option_map (λ word. word.now) second.entry)) SUBJECTS ≢ [])) }
{
    let found = named(alloc, first, second)?;
    if found.is_empty() {
        return Ok(None);
    }
    Ok(Some(text_of(alloc, &found)?))
}

/// What is said of these subjects, with an empty line between two of them.
fn text_of(alloc: Global, subjects: &[Subject]) -> Result<String, AllocError> {
    let mut text = String::new(alloc);
    push_topics(&mut text, subjects)?;
    Ok(text)
}

/// Adds what is said of these subjects, with an empty line between two of them.
fn push_topics(text: &mut String, subjects: &[Subject]) -> Result<(), AllocError> {
    for subject in subjects {
        if !text.is_empty() {
            text.push('\n')?;
        }
        push_topic(text, *subject)?;
    }
    Ok(())
}

/// Adds the line of a subject in the list.
fn push_entry(alloc: Global, text: &mut String, subject: Subject) -> Result<(), AllocError> {
    let words = title_of(alloc, subject)?;
    let short = topic_of(subject).short;
    writeln!(text, "{words:LABEL$}{short}")
}

/// Adds what is said of a subject.
fn push_topic(text: &mut String, subject: Subject) -> Result<(), AllocError> {
    push_title(text, subject)?;
    push_about(text, topic_of(subject))
}

/// Adds what a subject means, an example of it, and what helps.
fn push_about(text: &mut String, topic: &Topic) -> Result<(), AllocError> {
    text.push('\n')?;
    push_lines(text, "  ", topic.meaning)?;
    push_example(text, topic.command, topic.file)?;
    text.push_str("  Cure:\n")?;
    push_lines(text, "    ", topic.cure)
}

/// Adds the command of an example and the text of its file, if there is an example.
fn push_example(text: &mut String, command: &str, file: &str) -> Result<(), AllocError> {
    if command.is_empty() {
        return Ok(());
    }
    writeln!(text, "  Example: {command}")?;
    push_lines(text, "    ", file)
}

/// Adds the lines of a text, each after these blanks.
fn push_lines(text: &mut String, blanks: &str, lines: &str) -> Result<(), AllocError> {
    for line in lines.lines() {
        writeln!(text, "{blanks}{line}")?;
    }
    Ok(())
}

/// The words by which a subject is asked for, as `sm 12 TooFew`, `impossible due` or `memory`.
fn title_of(alloc: Global, subject: Subject) -> Result<String, AllocError> {
    let mut title = String::new(alloc);
    push_title(&mut title, subject)?;
    Ok(title)
}

/// Adds the words by which a subject is asked for.
pub(crate) fn push_title(text: &mut String, subject: Subject) -> Result<(), AllocError> {
    let (format, name) = (subject.format(), subject.name());
    text.push_str(format)?;
    if let Some(number) = subject.number() {
        write!(text, " {number}")?;
    }
    if format == name {
        Ok(())
    } else {
        write!(text, " {name}")
    }
}
