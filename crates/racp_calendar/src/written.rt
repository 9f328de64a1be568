//! Dates as they are written.

ghost use Rattle.std.specs.Prelude.{◌≡◌, ◌++◌, IfOk, IfSome, string_bytes, unsigned_abs};
ghost use Rattle.racp_calendar.specs.Written.{IsWritten, four_digits, mark_text, parts_text, two_digits, written, zero_before, zeros_before};
ghost use Rattle.std.specs.Fmt.{decimal};

use crate::form::{DateForm, Mark, Order};
use jiff_core::civil::Date;
use std::alloc::{AllocError, Global};

/// The date that a text writes in a form; `None` if it writes none, as also one before the year 1.
///
/// # Errors
///
/// Memory was refused.
pub fn date_in(alloc: Global, text: &str, form: DateForm) -> Result<Option<Date>, AllocError>
    ensures { IfOk result (λ date. IfSome date (IsWritten form text.now)) }
{
    let Some(date) = guessed(text, form) else {
        return Ok(None);
    };
    let padded = written(alloc, form, true, date)?;
    if padded.as_str() == text {
        return Ok(Some(date));
    }
    if form.has_zeros {
        return Ok(None);
    }
    let plain = written(alloc, form, false, date)?;
    if plain.as_str() == text {
        Ok(Some(date))
    } else {
        Ok(None)
    }
}

/// A date that a text may write in a form. That it does is tested then.
fn guessed(text: &str, form: DateForm) -> Option<Date> {
    let mark = mark_text(form.mark);
    let (first, rest) = text.split_once(mark)?;
    let (second, third) = rest.split_once(mark)?;
    let (first, second, third) = (number(first)?, number(second)?, number(third)?);
    let (year, month, day) = match form.order {
        Order::YearMonthDay => (first, second, third),
        Order::DayMonthYear => (third, second, first),
        Order::MonthDayYear => (third, first, second),
    };
    if year < 1 || 9999 < year || 12 < month || 31 < day {
        return None;
    }
    Date::new(year as i16, month as i8, day as i8).ok()
}

/// The number that a part of a date is.
fn number(part: &str) -> Option<u16> {
    part.parse().ok()
}

/// A date in a form, with zeros before a day and a month of one digit or without.
#[tactic(auto, unfolding(crate::specs::Written::written))]
fn written(alloc: Global, form: DateForm, zeros: bool, date: Date) -> Result<String, AllocError>
    ensures { IfOk result (λ text. string_bytes text ≡ written form zeros date) }
{
    let year = year_text(alloc, date.year)?;
    let month = two_digits(alloc, date.month, zeros)?;
    let day = two_digits(alloc, date.day, zeros)?;
    let mark = mark_text(form.mark);
    match form.order {
        Order::YearMonthDay => joined(alloc, mark, &year, &month, &day),
        Order::DayMonthYear => joined(alloc, mark, &day, &month, &year),
        Order::MonthDayYear => joined(alloc, mark, &month, &day, &year),
    }
}

/// Three parts, with a mark between two of them.
#[tactic(auto, unfolding(crate::specs::Written::parts_text))]
fn joined(
    alloc: Global,
    mark: &str,
    first: &str,
    second: &str,
    third: &str,
) -> Result<String, AllocError>
    ensures { IfOk result (λ text. string_bytes text ≡ parts_text mark.now first.now second.now third.now) }
{
    let mut text = String::from_str(alloc, first)?;
    text.push_str(mark)?;
    text.push_str(second)?;
    text.push_str(mark)?;
    text.push_str(third)?;
    Ok(text)
}

/// A day or a month, with a zero before one digit or without.
fn two_digits(alloc: Global, number: u8, zeros: bool) -> Result<String, AllocError>
    ensures { IfOk result (λ text. string_bytes text ≡ two_digits zeros number) }
{
    with_front(alloc, zero_before(number as u16, zeros), number as u16)
}

/// What stands before the digits of a day or a month.
pub(crate) fn zero_before(number: u16, zeros: bool) -> &'static str
    ensures { result.now ≡ zero_before zeros number }
{
    if !zeros {
        return "";
    }
    if number < 10 { "0" } else { "" }
}

/// A year, with four digits.
fn year_text(alloc: Global, year: i16) -> Result<String, AllocError>
    ensures { IfOk result (λ text. string_bytes text ≡ four_digits (unsigned_abs year)) }
{
    let year = year.unsigned_abs();
    with_front(alloc, zeros_before(year), year)
}

/// What stands before the digits of a year.
pub(crate) fn zeros_before(year: u16) -> &'static str
    ensures { result.now ≡ zeros_before year }
{
    if year < 10 {
        return "000";
    }
    if year < 100 {
        return "00";
    }
    if year < 1000 { "0" } else { "" }
}

/// A number, behind a text.
fn with_front(alloc: Global, front: &str, number: u16) -> Result<String, AllocError>
    ensures { IfOk result (λ text. string_bytes text ≡ front.now ++ decimal number) }
{
    let mut text = String::from_str(alloc, front)?;
    write!(text, "{number}")?;
    Ok(text)
}

/// What stands between the parts of a date.
fn mark_text(mark: Mark) -> &'static str
    ensures { result.now ≡ mark_text mark }
{
    match mark {
        Mark::Point => ".",
        Mark::Slash => "/",
        Mark::Hyphen => "-",
    }
}
