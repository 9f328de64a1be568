//! The deadline that a word tells.

use racp_calendar::{Calendar, DateForm, date_in, time_by};
use racp_cli::StreamFault;
use racp_host::failure::{Failure, OptionFault};
use std::alloc::{AllocError, Global};

/// Why a word tells no deadline.
#[derive(Drop)]
enum NoDeadline {
    /// It is none of the words that do.
    Word(OptionFault),
    /// It is a date before the first day that is worked on.
    Early,
    /// Memory ran out.
    Memory,
}

impl From<AllocError> for NoDeadline {
    fn from(_error: AllocError) -> NoDeadline {
        NoDeadline::Memory
    }
}

/// The deadline that a word tells: by its number, or by a date of a calendar, whose last day of the deadline is no later.
///
/// # Errors
///
/// The word is neither; no calendar says which time a date is; the date is before the first day that is worked on.
pub(crate) fn deadline_of(
    alloc: Global,
    word: &str,
    calendar: Calendar<'_>,
) -> Result<u32, Failure> {
    match deadline_in(alloc, word, calendar) {
        Ok(deadline) => Ok(deadline),
        Err(NoDeadline::Word(fault)) => Err(Failure::Option(fault)),
        Err(NoDeadline::Early) => Err(too_early(alloc, word)),
        Err(NoDeadline::Memory) => Err(Failure::Stream(StreamFault::Memory)),
    }
}

/// The deadline of a word that may be there, as far as it tells one.
pub(crate) fn deadline_if(
    alloc: Global,
    word: Option<&str>,
    calendar: Calendar<'_>,
) -> Option<u32> {
    deadline_in(alloc, word?, calendar).ok()
}

/// The deadline that a word tells.
fn deadline_in(alloc: Global, word: &str, calendar: Calendar<'_>) -> Result<u32, NoDeadline> {
    if let Ok(deadline) = word.parse() {
        return Ok(deadline);
    }
    let date = date_in(alloc, word, DateForm::ISO)?;
    match (calendar, date) {
        (Calendar::Numbers, None) => Err(NoDeadline::Word(OptionFault::Deadline)),
        (Calendar::Numbers, Some(_)) => Err(NoDeadline::Word(OptionFault::DatedDeadline)),
        (Calendar::Dates(_), None) => Err(NoDeadline::Word(OptionFault::NoDeadline)),
        (Calendar::Dates(workdays), Some(date)) => {
            time_by(workdays, date).ok_or(NoDeadline::Early)
        }
    }
}

/// The failure of a deadline that is too early.
fn too_early(alloc: Global, word: &str) -> Failure {
    match early_words(alloc, word) {
        Ok(words) => Failure::Value(words),
        Err(_) => Failure::Stream(StreamFault::Memory),
    }
}

/// What is wrong with a deadline that is too early.
fn early_words(alloc: Global, word: &str) -> Result<String, AllocError> {
    format!(in alloc; "--deadline {word} is before the first day that is worked on")
}
