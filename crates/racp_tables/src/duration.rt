//! Durations and times, as planners write them.

ghost use Rattle.std.specs.Prelude.{◌≡◌, ◌≤◌, IfOk, bytes_eq, encode_utf8_all, length, string_bytes};
ghost use Rattle.std.specs.Str.{trim};
ghost use Rattle.std.specs.StrCase.Lower.{str_to_lowercase};
ghost use Rattle.racp_tables.specs.Pieces.{without_end};
ghost use Rattle.std.specs.List.{list_any, position_or_len};
ghost use Rattle.std.specs.Char.Unicode.Alphabetic.{is_alphabetic};
ghost use Rattle.racp_tables.specs.Times.{hours, is_day, is_hour, is_week, number_part, time_in, time_letters, time_said, unit_part};

use crate::amount::{Amount, amount_of, wholly};
use crate::fault::TableFault;
use crate::pieces::{text_of, without_end};
use crate::reading::Scale;
use std::alloc::{AllocError, Global};

/// The words for a day.
const DAYS: &[&str] = &["d", "day", "days", "t", "tag", "tage", "tagen"];

/// The words for a week.
const WEEKS: &[&str] = &["w", "wk", "wks", "week", "weeks", "woche", "wochen"];

/// The words for an hour.
const HOURS: &[&str] = &[
    "h", "hr", "hrs", "hour", "hours", "std", "stunde", "stunden",
];

/// How many days a week has.
const WORKDAYS: u64 = 5;

/// A cell with a duration or a time: the line where its row begins, the title of its column, and what it says.
#[derive(Clone, Copy)]
pub(crate) struct Said<'a> {
    pub(crate) line: u64,
    pub(crate) column: &'a str,
    pub(crate) cell: &'a str,
}

/// The number of a time, and its unit in small letters, which may be empty.
#[derive(Drop)]
struct Parts {
    number: String,
    unit: String,
}

/// How many time units a cell says, up to the most. A number alone counts days, if time units are days or halves.
pub(crate) fn units_of(
    alloc: Global,
    said: Said<'_>,
    scale: Scale,
    most: u32,
) -> Result<u32, TableFault>
    ensures { IfOk result (λ units. time_said said.entry.cell.now scale most ≡ Some units) }
{
    match units_in(alloc, said.cell, scale, most)? {
        Some(units) => Ok(units),
        None => Err(TableFault::at(said.line, not_whole(alloc, said, scale, most))),
    }
}

/// How many time units a word says, if it is a whole number of them, up to the most.
pub(crate) fn units_in(
    alloc: Global,
    word: &str,
    scale: Scale,
    most: u32,
) -> Result<Option<u32>, AllocError>
    ensures { IfOk result (λ found. found ≡ time_said word.now scale most) }
{
    let Parts { number, unit } = parts_of(alloc, word)?;
    match amount_of(alloc, number.as_str())? {
        Amount::Hundredths(amount) => Ok(time_in(amount, unit.as_str(), scale, most)),
        Amount::Ambiguous => Ok(None),
        Amount::Nothing => Ok(None),
    }
}

/// The number before a unit, and the unit.
fn parts_of(alloc: Global, word: &str) -> Result<Parts, AllocError>
    ensures number { IfOk result (λ parts. string_bytes parts.number ≡ number_part word.now) }
    ensures unit { IfOk result (λ parts. string_bytes parts.unit ≡ unit_part word.now) }
{
    let letters = letters_of(alloc, word)?;
    let (front, back) = letters.split_at(unit_place(&letters));
    Ok(Parts {
        number: number_of(alloc, front)?,
        unit: unit_of(alloc, back)?,
    })
}

/// The letters of a time, without the question marks of an estimate.
fn letters_of(alloc: Global, word: &str) -> Result<Vec<char>, AllocError>
    ensures { IfOk result (λ letters. letters.items ≡ time_letters word.now) }
{
    without_end(word, b'?').trim().chars().collect(alloc)
}

/// Where the unit begins: at the first letter of the alphabet, or at the end.
fn unit_place(letters: &[char]) -> usize
    ensures place { result ≡ position_or_len is_alphabetic letters.now }
    ensures within { result ≤ length letters.now }
{
    for (place, letter) in letters.iter().enumerate() {
        if letter.is_alphabetic() {
            return place;
        }
    }
    letters.len()
}

/// The text of these letters, without the blanks around it.
fn number_of(alloc: Global, letters: &[char]) -> Result<String, AllocError>
    ensures { IfOk result (λ number. string_bytes number ≡ trim (encode_utf8_all letters.now)) }
{
    let text = text_of(alloc, letters)?;
    String::from_str(alloc, text.as_str().trim())
}

/// The same in small letters, without points at the end.
fn unit_of(alloc: Global, letters: &[char]) -> Result<String, AllocError>
    ensures { IfOk result (λ unit. string_bytes unit ≡ str_to_lowercase (without_end 46 (trim (encode_utf8_all letters.now)))) }
{
    let text = text_of(alloc, letters)?;
    without_end(text.as_str().trim(), b'.').to_lowercase(alloc)
}

/// So many hundredths of a unit that is called so, as time units up to the most.
fn time_in(hundredths: u64, unit: &str, scale: Scale, most: u32) -> Option<u32>
    ensures { result ≡ time_in hundredths unit.now scale most }
{
    let days = hundredths.saturating_mul(scale.units_a_day());
    if is_day(unit) {
        wholly(days, 100, most)
    } else if is_week(unit) {
        wholly(days.saturating_mul(WORKDAYS), 100, most)
    } else if is_hour(unit) {
        hours(days, scale.hours_a_day, most)
    } else {
        None
    }
}

/// So many hundredths of time units that a day has, as hours; none if it is not told how many hours make a day.
fn hours(days: u64, hours_a_day: Option<u32>, most: u32) -> Option<u32>
    ensures { result ≡ hours days hours_a_day most }
{
    match hours_a_day {
        Some(hours) => wholly(days, (hours.max(1) as u64) * 100, most),
        None => None,
    }
}

/// Whether a word stands for days, as no word does.
fn is_day(unit: &str) -> bool
    ensures { result ≡ is_day unit.now }
{
    unit.is_empty() || is_in(DAYS, unit)
}

/// Whether a word stands for weeks.
fn is_week(unit: &str) -> bool
    ensures { result ≡ is_week unit.now }
{
    is_in(WEEKS, unit)
}

/// Whether a word stands for hours.
fn is_hour(unit: &str) -> bool
    ensures { result ≡ is_hour unit.now }
{
    is_in(HOURS, unit)
}

/// Whether a word is among these.
fn is_in(words: &[&str], word: &str) -> bool
    ensures { result ≡ list_any (λ known. bytes_eq known.now word.now) words.now }
{
    words.contains(&word)
}

/// What is wrong with a cell that is no whole number of time units.
fn not_whole(alloc: Global, said: Said<'_>, scale: Scale, most: u32) -> Result<String, AllocError> {
    let Said { column, cell, .. } = said;
    let help = help_for(alloc, cell, scale)?;
    format!(in alloc; "{column} '{cell}' is no whole number from 0 to {most}{help}")
}

/// What helps where a cell is no whole number of time units.
fn help_for(alloc: Global, cell: &str, scale: Scale) -> Result<&'static str, AllocError> {
    let Parts { number, unit } = parts_of(alloc, cell)?;
    if matches!(amount_of(alloc, number.as_str())?, Amount::Ambiguous) {
        return Ok("; write thousands without a mark");
    }
    if is_hour(unit.as_str()) && scale.hours_a_day.is_none() {
        return Ok("; --hours-a-day 8 says how many hours make a day");
    }
    let halves = Scale {
        hours_a_day: scale.hours_a_day,
        is_half_day: true,
    };
    let is_whole = units_in(alloc, cell, scale, u32::MAX)?.is_some();
    let is_of_halves = units_in(alloc, cell, halves, u32::MAX)?.is_some();
    if is_of_halves && !is_whole {
        Ok("; --unit half-day counts in halves of a day")
    } else {
        Ok("")
    }
}
