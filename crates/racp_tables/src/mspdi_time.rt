//! The durations of MSPDI.

use crate::amount::wholly;
use crate::fault::TableFault;
use crate::mspdi_task::Task;
use crate::reading::{Dating, Scale};
use racp_model::limits::MOST_DURATION;
use racp_text::number;
use racp_xml::text_of;
use std::alloc::{AllocError, Global};

/// The codes of elapsed time, which runs through nights and free days.
const ELAPSED: &[&str] = &[
    "4", "6", "8", "10", "12", "20", "36", "38", "40", "42", "44", "52",
];

/// How times are counted.
#[derive(Clone, Copy)]
pub(crate) struct Hours<'a> {
    /// How many minutes make a day.
    pub(crate) minutes: u64,
    /// What a time unit is.
    pub(crate) scale: Scale,
    /// How dates are times.
    pub(crate) dating: Dating<'a>,
}

/// How many time units a task takes, which is called so.
pub(crate) fn duration_of(
    alloc: Global,
    task: &Task<'_, '_>,
    name: &str,
    hours: Hours<'_>,
) -> Result<u32, TableFault> {
    let word = text_of(task.marks, 4, "Duration").unwrap_or("");
    if is_elapsed(text_of(task.marks, 4, "DurationFormat")) {
        let words = format!(in alloc;
            "task '{name}' takes elapsed time, which runs through nights and free days"
        );
        return Err(TableFault::at(task.line, words));
    }
    match minutes_in(word) {
        Some(minutes) => match units_in(minutes, hours) {
            Some(units) => Ok(units),
            None => Err(TableFault::at(task.line, not_whole(alloc, name, word, hours))),
        },
        None => {
            let words = format!(in alloc;
                "task '{name}' takes '{word}', which is not written as PT16H0M0S"
            );
            Err(TableFault::at(task.line, words))
        }
    }
}

/// Whether a code stands for elapsed time.
pub(crate) fn is_elapsed(code: Option<&str>) -> bool {
    match code {
        Some(code) => ELAPSED.contains(&code),
        None => false,
    }
}

/// The minutes of a duration such as `PT16H0M0S`, which has no seconds.
fn minutes_in(word: &str) -> Option<u64> {
    let (hours, rest) = word.strip_prefix("PT")?.split_once('H')?;
    let (minutes, rest) = rest.split_once('M')?;
    if number(rest.strip_suffix('S')?.as_bytes())? > 0 {
        return None;
    }
    let hours = number(hours.as_bytes())?;
    let minutes = number(minutes.as_bytes())?;
    Some(hours.saturating_mul(60).saturating_add(minutes))
}

/// So many minutes as time units.
pub(crate) fn units_in(minutes: u64, hours: Hours<'_>) -> Option<u32> {
    let units = minutes.saturating_mul(hours.scale.units_a_day());
    wholly(units, hours.minutes.max(1), MOST_DURATION)
}

/// What is wrong with the duration of a task that is no whole number of time units.
fn not_whole(
    alloc: Global,
    name: &str,
    word: &str,
    hours: Hours<'_>,
) -> Result<String, AllocError> {
    let halves = Hours {
        minutes: hours.minutes,
        scale: Scale {
            hours_a_day: None,
            is_half_day: true,
        },
        dating: hours.dating,
    };
    let is_of_halves = match minutes_in(word) {
        Some(minutes) => units_in(minutes, halves).is_some(),
        None => false,
    };
    let help = if is_of_halves {
        "; --unit half-day counts in halves of a day"
    } else {
        ""
    };
    let minutes = hours.minutes;
    format!(in alloc;
        "task '{name}' takes {word}, no whole number of days of {minutes} minutes from 0 to {MOST_DURATION}{help}"
    )
}
