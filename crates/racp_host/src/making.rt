//! How plans are made.

ghost use Rattle.std.specs.Prelude.{◌≡◌, ◌≤◌, ◌+◌, ◌⊎◌};

use crate::asks::Asks;
use crate::best::Earlier;
use crate::failure::OptionFault;
use crate::progress::{Pace, Progress};
use crate::seconds::time_limit;
use crate::telling::Manner;
use racp_calendar::Calendar;
use racp_words::{CrewOptions, Memory};
use std::alloc::{AllocError, Global};
use std::rt::Env;
use std::thread;
use std::thread::Threads;
use std::time::Duration;

/// The most workers that there are.
const MOST_WORKERS: usize = 64;

/// The most turns that workers take.
const MOST_TURNS: u64 = 1_000_000_000_000;

/// How a plan is made, or the plans of a curve, and how that is told.
#[derive(Clone, Copy)]
pub struct Making<'a> {
    /// How much memory records take.
    pub memory: Memory,
    /// The workers; one thread alone if there are none.
    pub crew: Option<CrewOptions<'a>>,
    /// After what time planning stops, if it does.
    pub limit: Option<Duration>,
    /// How it is told.
    pub manner: Manner,
    /// How times are told beside their numbers.
    pub calendar: Calendar<'a>,
    /// A plan of the order that was known before, if one was.
    pub earlier: Option<Earlier<'a>>,
}

impl<'a> Making<'a> {
    /// With so much memory, and by these workers, if there are some; told in this manner, and with the days of a calendar.
    ///
    /// # Errors
    ///
    /// The word for the time is no number of seconds.
    pub fn of(
        memory: Memory,
        crew: Option<CrewOptions<'a>>,
        manner: Manner,
        calendar: Calendar<'a>,
    ) -> Result<Self, OptionFault> {
        let word = match crew {
            Some(crew) => crew.time_limit,
            None => None,
        };
        Ok(Making {
            memory,
            crew,
            limit: time_limit(word)?,
            manner,
            calendar,
            earlier: None,
        })
    }
}

impl<'a> Making<'a> {
    /// The path of the file that keeps the best plan, if there is to be one.
    pub fn best(&self) -> Option<&'a str> {
        match self.crew {
            Some(crew) => crew.best,
            None => None,
        }
    }
}

/// The workers that are asked for; or one, if the work is told, which is counted for workers alone, or if the user may
/// ask for a stop, which one thread alone does not hear.
pub fn crew_of<'a, R: Env + AllocGlobal>(
    rt: &R,
    crew: Option<CrewOptions<'a>>,
    is_json: bool,
) -> Option<CrewOptions<'a>> {
    if crew.is_some() || (!is_json && Asks::of(rt).is_none()) {
        return crew;
    }
    Some(one_worker())
}

/// One worker, without a limit, of which nothing is told.
pub fn one_worker<'a>() -> CrewOptions<'a> {
    CrewOptions {
        workers: 1,
        turns: MOST_TURNS,
        time_limit: None,
        stats: false,
        progress: false,
        best: None,
    }
}

/// How many workers there are: as many as are asked for, or with 0 as many as there are processors, 64 at most; 1 if
/// the system does not tell that.
pub fn worker_count<R: Threads>(rt: &R, asked: usize) -> usize
    requires { asked ≤ 64 }
    ensures some { 1 ≤ result }
    ensures few { result ≤ 64 }
{
    if asked > 0 {
        return asked;
    }
    match thread::available_parallelism(rt) {
        Ok(count) => count.get().clamp(1, MOST_WORKERS),
        Err(_) => 1,
    }
}

/// How many mebibytes so many workers take: as many as are asked for, and at least one for each of several, and one more for
/// what they share. With less each would forget what it learns before that is of use.
pub fn memory_of(asked: Memory, workers: usize) -> usize
    requires { workers ≤ 64 }
    ensures kept { asked.mebibytes ≤ result }
    ensures enough { 2 ≤ workers → workers + 1 ≤ result }
    ensures least { (result ≡ asked.mebibytes) ⊎ ((2 ≤ workers) × (result ≡ workers + 1)) }
    ensures few { result ≤ 1048576 }
{
    let least = workers + 1;
    if workers < 2 || least < asked.mebibytes {
        asked.mebibytes
    } else {
        least
    }
}

/// What counts and tells how far planning has come, if that is asked for; on a terminal also unasked, in few words; or counts it
/// alone for JSON.
///
/// # Errors
///
/// Memory was refused.
pub fn progress_of(
    alloc: Global,
    is_asked: bool,
    manner: Manner,
) -> Result<Option<Progress>, AllocError> {
    match pace_of(is_asked, manner) {
        Some(pace) => Ok(Some(Progress::new(alloc, pace)?)),
        None => Ok(None),
    }
}

/// What tells on a terminal how much time has passed, where plans are made of each of which something else is known; nothing
/// elsewhere.
///
/// # Errors
///
/// Memory was refused.
pub fn time_of(alloc: Global, manner: Manner) -> Result<Option<Progress>, AllocError> {
    match pace_of(false, manner) {
        Some(Pace::Short) => Ok(Some(Progress::new(alloc, Pace::Time)?)),
        _ => Ok(None),
    }
}

/// How it is told how far planning has come; `None` if it is not even counted.
fn pace_of(is_asked: bool, manner: Manner) -> Option<Pace> {
    match (is_asked, manner.is_json) {
        (true, true) => Some(Pace::Json),
        (true, false) if manner.on_terminal => Some(Pace::InPlace),
        (true, false) => Some(Pace::Lines),
        (false, true) => Some(Pace::Silent),
        (false, false) if manner.on_terminal && !manner.is_quiet() => Some(Pace::Short),
        (false, false) => None,
    }
}
