//! `import`: runs it.

ghost use Rattle.std.specs.Prelude.{IfOk};
ghost use Rattle.racp_input_commands.specs.Statuses.{IsStatusOfInput};

use crate::parts::taken_of;
use crate::reading::{Titles, project_of, reading_of};
use crate::replacing::{outputs_of, test_earlier};
use crate::texts::{Texts, texts_of};
use crate::warned::Told;
use racp_cli::DONE;
use racp_host::answer::print;
use racp_host::dates::{calendar_of, named_calendar};
use racp_host::failure::Failure;
use racp_host::files::write_files;
use racp_host::shown::Shown;
use racp_host::telling::Manner;
use racp_tables::counted;
use racp_words::TableWords;
use std::alloc::{AllocError, Global};
use std::rt::Files;

/// Writes the files of the tables in files, and tells which they are.
pub fn run<R: Files + Print + Eprint + AllocGlobal>(
    rt: &R,
    words: &TableWords<'_>,
    manner: Manner,
) -> Result<u8, Failure>
    ensures { IfOk result IsStatusOfInput }
{
    let workdays = named_calendar(rt, words.calendar)?;
    let calendar = calendar_of(&workdays);
    let titles = Titles {
        resources: words.resources,
        ignored: words.ignored,
    };
    let reading = reading_of(words, titles, calendar)?;
    let out = project_of(words.out)?;
    let taken = taken_of(rt, &words.files, out, &reading)?;
    let mut texts = texts_of(rt.alloc(), words, calendar, taken)?;
    test_earlier(rt, out, words.is_forced, &mut texts)?;
    tell_of(rt, words, manner, &texts.told)?;
    write_texts(rt, out, texts)?;
    Ok(DONE)
}

/// Tells on standard error what was understood of a table and what looks wrong, if that is to be told; refuses a table that looks
/// wrong, if that is wanted.
fn tell_of<R: Eprint + AllocGlobal>(
    rt: &R,
    words: &TableWords<'_>,
    manner: Manner,
    told: &Told,
) -> Result<(), Failure> {
    if words.is_strict && !told.warnings.is_empty() {
        let words = String::from_str(rt.alloc(), told.warnings.trim_end())?;
        return Err(Failure::Refused(words));
    }
    if !manner.is_quiet() {
        let _ = rt.eprint(Shown::of(&told.understood));
        let _ = rt.eprint(Shown::of(&told.warnings));
    }
    Ok(())
}

/// Writes the files, whose paths begin so, and tells which they are.
fn write_texts<R: Files + Print + AllocGlobal>(
    rt: &R,
    out: &str,
    texts: Texts,
) -> Result<(), Failure> {
    let lines = lines_of(rt.alloc(), out, &texts)?;
    let outputs = outputs_of(rt.alloc(), out, texts)?;
    write_files(rt, &outputs)?;
    print(rt, &lines)
}

/// What is told of the files.
fn lines_of(alloc: Global, out: &str, texts: &Texts) -> Result<String, AllocError> {
    let jobs = counted(alloc, texts.jobs, "job")?;
    let resources = counted(alloc, texts.resources, "resource")?;
    let names = texts.jobs.saturating_add(texts.resources);
    let order = match texts.order {
        Some(_) => format!(in alloc; "{out}.toml: an order\n")?,
        None => String::new(alloc),
    };
    format!(in alloc; "{out}.sm: {jobs}, {resources}\n{out}.names: {names} names\n{order}")
}
