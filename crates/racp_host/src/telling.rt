//! How it is told, beside an answer, what is wrong.

use crate::answer::print;
use crate::failure::Failure;
use crate::shown::Shown;
use racp_explain::{one_line, parts_of};
use racp_json::{Told, Words, json_of};
use racp_lexfix::status::{CHECK_FAILED, IMPOSSIBLE, REFUSED};
use racp_words::Telling;
use std::alloc::AllocError;

/// How a command tells what it does, beside its answer.
#[derive(Clone, Copy)]
pub struct Manner {
    /// How much is told of what is wrong.
    pub telling: Telling,
    /// Whether standard error is a terminal.
    pub on_terminal: bool,
    /// Whether standard output is one, so that lines beside the answer would mix with it.
    pub shows_answer: bool,
    /// Whether the answer is written as JSON.
    pub is_json: bool,
}

impl Manner {
    /// Whether it is told why an answer has this status.
    pub fn tells(&self, status: u8) -> bool {
        !self.is_quiet() && is_wrong(status)
    }

    /// Whether it is looked why an answer has this status: to tell it, or to write it as JSON.
    pub fn looks(&self, status: u8) -> bool {
        (self.is_json || !self.is_quiet()) && is_wrong(status)
    }

    /// Whether nothing is told of what is wrong.
    pub fn is_quiet(&self) -> bool {
        matches!(self.telling, Telling::Quiet)
    }
}

/// Whether an answer with this status says that something is wrong.
fn is_wrong(status: u8) -> bool {
    status == IMPOSSIBLE || status == REFUSED || status == CHECK_FAILED
}

/// Tells on standard error what is wrong; nothing if memory ran out for the words.
pub fn tell<R: Eprint + AllocGlobal>(rt: &R, manner: Manner, cause: Result<String, AllocError>) {
    if let Ok(cause) = cause {
        tell_text(rt, manner, &cause);
    }
}

/// Tells on standard error what is wrong.
fn tell_text<R: Eprint + AllocGlobal>(rt: &R, manner: Manner, cause: &str) {
    match manner.telling {
        Telling::Quiet => {}
        Telling::Line => tell_line(rt, cause),
        Telling::Whole => {
            let _ = rt.eprint(Shown::of(cause));
        }
    }
}

/// Tells on standard error what is wrong, or nothing if memory ran out for the words; and writes the answer as JSON, if
/// that is asked.
pub fn end<R: Print + Eprint + AllocGlobal>(
    rt: &R,
    manner: Manner,
    told: &Told<'_>,
    cause: Result<String, AllocError>,
) -> Result<(), Failure> {
    let cause = match cause {
        Ok(cause) => cause,
        Err(_) => String::new(rt.alloc()),
    };
    tell_text(rt, manner, &cause);
    if manner.is_json {
        write_json(rt, told, &cause)
    } else {
        Ok(())
    }
}

/// Writes an answer as JSON, with what is wrong.
fn write_json<R: Print + AllocGlobal>(rt: &R, told: &Told<'_>, cause: &str) -> Result<(), Failure> {
    let parts = parts_of(cause);
    let words = Words {
        says: parts.says,
        wanted: parts.wanted,
        found: parts.found,
    };
    let text = json_of(rt.alloc(), told, words)?;
    print(rt, &text)
}

/// Tells on standard error what is wrong, in one line.
fn tell_line<R: Eprint + AllocGlobal>(rt: &R, cause: &str) {
    if let Ok(line) = one_line(rt.alloc(), cause) {
        let _ = rt.eprint(Shown::of(&line));
    }
}
