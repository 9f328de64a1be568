//! The days of a week that are worked on, as a word tells them.

/// The days of a week, as they are written.
const DAYS: [&str; 7] = ["mon", "tue", "wed", "thu", "fri", "sat", "sun"];

/// The days of a week that a word tells, from Monday on: days and ranges of days, with a comma between two, as in `mon-fri`
/// or `mon-thu,sat`. A range may go past Sunday, as in `sun-thu`. `None` if the word is none of these.
pub fn worked_days(word: &str) -> Option<[bool; 7]> {
    let mut worked = [false; 7];
    for part in word.split(',') {
        let (first, last) = range_of(part.trim())?;
        add_range(&mut worked, first, last);
    }
    Some(worked)
}

/// The first and the last day of a range.
fn range_of(part: &str) -> Option<(usize, usize)> {
    match part.split_once("-") {
        Some((first, last)) => Some((day_of(first.trim())?, day_of(last.trim())?)),
        None => {
            let day = day_of(part)?;
            Some((day, day))
        }
    }
}

/// The place of a day in a week, from 0 for Monday.
fn day_of(word: &str) -> Option<usize> {
    for (place, day) in DAYS.iter().enumerate() {
        if *day == word {
            return Some(place);
        }
    }
    None
}

/// Adds the days from one to another, past Sunday if need be.
fn add_range(worked: &mut [bool; 7], first: usize, last: usize) {
    let count = (last % 7 + 7 - first % 7) % 7 + 1;
    for step in 0..count {
        worked[(first % 7 + step) % 7] = true;
    }
}
