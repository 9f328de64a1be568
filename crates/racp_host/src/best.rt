//! The file that keeps the best plan that is known.

use crate::failure::Failure;
use crate::files::{test_file, write_file};
use crate::inputs::{opened_path, read_file, told};
use crate::shown::Shown;
use racp_streams::StreamFault;
use std::fmt::Display;
use std::fs;
use std::rt::Files;

/// Why plans are not kept in a file that a command reads.
const INPUT: &str = "it is read by this command; another name?";

/// Why they are not kept in a file with another text.
const NO_PLAN: &str = "it is no plan; another name?";

/// What is told at the end of a file that could not be written.
const UNKEPT: &str = "it has not the best plan that is known";

/// How a text begins that is a plan, or the form of one: its first three lines, without their numbers.
const HEAD: &[&str] = &["deadline ", "critical ", "cost "];

/// Its last line.
const END: &str = "\nend\n";

/// A plan that was known before planning began.
#[derive(Clone, Copy)]
pub struct Earlier<'a> {
    /// Its text.
    pub text: &'a [u8],
    /// What it costs, as it says.
    pub cost: u64,
}

impl<'a> Earlier<'a> {
    /// The plan that this text says it is; `None` if it has not the form of one.
    pub fn read(text: &'a [u8]) -> Option<Self> {
        let lines = std::str::from_utf8(text).ok()?;
        let mut cost = None;
        for (line, words) in lines.lines().zip(HEAD) {
            cost = Some(line.strip_prefix(*words)?.parse::<u64>().ok()?);
        }
        if !lines.ends_with(END) {
            return None;
        }
        Some(Earlier { text, cost: cost? })
    }
}

/// The text that the file with this path has before plans are kept in it; it is empty if there is no such file, or no path. Inputs
/// have these paths.
///
/// # Errors
///
/// Plans cannot be kept there: the file cannot be written, it is one of the inputs, or it has another text than that of a plan.
pub fn begin_best<R: Files + AllocGlobal>(
    rt: &R,
    path: Option<&str>,
    inputs: &[&str],
) -> Result<Vec<u8>, Failure> {
    let Some(path) = path else {
        return Ok(Vec::new(rt.alloc()));
    };
    if let Err(error) = test_file(rt, path) {
        return Err(told(rt.alloc(), StreamFault::Write, path, &error));
    }
    if inputs.iter().any(|input| are_same(rt, path, input)) {
        return Err(told(rt.alloc(), StreamFault::Write, path, &INPUT));
    }
    if !matches!(fs::exists(rt, path), Ok(true)) {
        return Ok(Vec::new(rt.alloc()));
    }
    let text = read_file(rt, path)?;
    if text.is_empty() || Earlier::read(&text).is_some() {
        Ok(text)
    } else {
        Err(told(rt.alloc(), StreamFault::Write, path, &NO_PLAN))
    }
}

/// Whether two paths lead to one file.
fn are_same<R: Files + AllocGlobal>(rt: &R, path: &str, input: &str) -> bool {
    let input = opened_path(input);
    match (fs::canonicalize(rt, path), fs::canonicalize(rt, input)) {
        (Ok(path), Ok(input)) => path.into_string().as_str() == input.into_string().as_str(),
        _ => false,
    }
}

/// Keeps a text in the file with this path, which has a whole text at any time. Says whether it is kept; if it is not, standard
/// error says why.
pub fn keep<R: Files + Eprint + AllocGlobal>(rt: &R, path: &str, text: &[u8]) -> bool {
    keep_told(rt, path, text, true)
}

/// The same; standard error says why it is not kept only if that is to be told.
pub fn keep_told<R: Files + Eprint + AllocGlobal>(
    rt: &R,
    path: &str,
    text: &[u8],
    is_told: bool,
) -> bool {
    match write_file(rt, path, text) {
        Ok(()) => true,
        Err(error) => {
            if is_told {
                tell(rt, path, &error);
            }
            false
        }
    }
}

/// Says that a file has not the best plan that is known.
pub fn tell_unkept<R: Eprint + AllocGlobal>(rt: &R, path: &str) {
    tell(rt, path, &UNKEPT);
}

/// Says why a file is not written.
fn tell<R: Eprint + AllocGlobal, D: Display>(rt: &R, path: &str, why: &D) {
    if let Ok(words) = format!(in rt.alloc(); "racp: {path}: {why}") {
        let _ = rt.eprintln(Shown::of(&words));
    }
}
