//! Rows of the table as comma-separated values.

ghost use Rattle.std.specs.Prelude.{◌≡◌, ◌++◌, ◌∷◌, [], IfOk, OnOk, option_map, string_bytes, unwrap_or};
ghost use Rattle.csv.specs.Records.{fields_of};
ghost use Rattle.csv.specs.Writing.{default_writer, row_text};
ghost use Rattle.racp_batch.specs.Lines.{day_fields, fault_of, fields_by, head_line, known, last_day, number_fields, row_line, seconds_by, thousandths_zeros, time_text, words_of};

use crate::case::{Case, Input};
use crate::cells::{Cells, cells_of};
use crate::row::Row;
use crate::titles::title_record;
use csv::{StringRecord, WriterBuilder};
use racp_calendar::{Calendar, last_word};
use std::alloc::{AllocError, Global};

/// The first row, with the titles of the columns.
///
/// # Errors
///
/// Memory was refused.
pub(crate) fn head_line(alloc: Global, calendar: Calendar<'_>) -> Result<Vec<u8>, AllocError>
    ensures { IfOk result (λ text. text.items ≡ head_line calendar.entry) }
{
    let titles = title_record(alloc, calendar.has_dates())?;
    line_of(alloc, &titles)
}

/// The row of a case.
///
/// # Errors
///
/// Memory was refused.
pub(crate) fn row_line(
    alloc: Global,
    calendar: Calendar<'_>,
    case: &Case<'_>,
    row: &Row,
) -> Result<Vec<u8>, AllocError>
    ensures { IfOk result (λ text. text.items ≡ row_line calendar.entry case.now row.now) }
{
    let fields = record_of(alloc, calendar, case, row)?;
    line_of(alloc, &fields)
}

/// The fields of a case's row.
fn record_of(
    alloc: Global,
    calendar: Calendar<'_>,
    case: &Case<'_>,
    row: &Row,
) -> Result<StringRecord, AllocError>
    ensures { IfOk result (λ fields. fields_of fields ≡ fields_by calendar.entry case.now row.now) }
{
    let cells = cells_of(row);
    let mut fields = StringRecord::new(alloc);
    fields.push_field(case.file.name)?;
    push_known(alloc, &mut fields, cells.jobs)?;
    push_known(alloc, &mut fields, cells.resources)?;
    fields.push_field(case.multiple.word)?;
    push_known(alloc, &mut fields, cells.deadline)?;
    push_day(alloc, &mut fields, calendar, cells.deadline)?;
    fields.push_field(cells.status.word())?;
    push_numbers(alloc, &mut fields, &cells)?;
    push_time(alloc, &mut fields, cells.milliseconds)?;
    fields.push_field(fault_of(&case.file.input, row))?;
    Ok(fields)
}

/// Adds the last day of a deadline, if times are told by dates; an empty field if it is not known, or has no date.
fn push_day(
    alloc: Global,
    fields: &mut StringRecord,
    calendar: Calendar<'_>,
    deadline: Option<u128>,
) -> Result<(), AllocError>
    ensures { OnOk result (fields_of fields.new ≡ fields_of fields.old ++ day_fields calendar.entry deadline) }
{
    if !calendar.has_dates() {
        return Ok(());
    }
    let day = last_day(alloc, calendar, deadline)?;
    fields.push_field(word_or_empty(&day))
}

/// The last day of a deadline, by the evening of which the project ends, if it is known and has a date.
fn last_day(
    alloc: Global,
    calendar: Calendar<'_>,
    deadline: Option<u128>,
) -> Result<Option<String>, AllocError>
    ensures { IfOk result (λ day. option_map string_bytes day ≡ last_day calendar.entry deadline) }
{
    match deadline {
        Some(deadline) => last_word(alloc, calendar, deadline),
        None => Ok(None),
    }
}

/// A word; empty if there is none.
fn word_or_empty(word: &Option<String>) -> &str
    ensures { result.now ≡ unwrap_or (option_map string_bytes word.now) [] }
{
    match word {
        Some(word) => word.as_str(),
        None => "",
    }
}

/// Adds the numbers that tell of a plan.
fn push_numbers(alloc: Global, fields: &mut StringRecord, cells: &Cells) -> Result<(), AllocError>
    ensures { OnOk result (fields_of fields.new ≡ fields_of fields.old ++ number_fields cells.now) }
{
    push_known(alloc, fields, cells.cost)?;
    push_known(alloc, fields, cells.bound)?;
    push_known(alloc, fields, cells.best)?;
    push_known(alloc, fields, cells.gap)?;
    push_known(alloc, fields, cells.nodes)?;
    push_known(alloc, fields, cells.conflicts)
}

/// Adds a number; an empty field if it is not known.
fn push_known(
    alloc: Global,
    fields: &mut StringRecord,
    number: Option<u128>,
) -> Result<(), AllocError>
    ensures { OnOk result (fields_of fields.new ≡ fields_of fields.old ++ known number ∷ []) }
{
    match number {
        Some(number) => {
            let digits = format!(in alloc; "{number}")?;
            fields.push_field(digits.as_str())
        }
        None => fields.push_field(""),
    }
}

/// Adds a time; an empty field if it is not known.
fn push_time(
    alloc: Global,
    fields: &mut StringRecord,
    milliseconds: Option<u64>,
) -> Result<(), AllocError>
    ensures { OnOk result (fields_of fields.new ≡ fields_of fields.old ++ seconds_by milliseconds ∷ []) }
{
    match milliseconds {
        Some(milliseconds) => {
            let text = time_text(alloc, milliseconds)?;
            fields.push_field(text.as_str())
        }
        None => fields.push_field(""),
    }
}

/// A time in seconds, with three digits after the point.
fn time_text(alloc: Global, milliseconds: u64) -> Result<String, AllocError>
    ensures { IfOk result (λ text. string_bytes text ≡ time_text milliseconds) }
{
    let (seconds, rest) = (milliseconds / 1000, milliseconds % 1000);
    let zeros = zeros_before(rest);
    format!(in alloc; "{seconds}.{zeros}{rest}")
}

/// The zeros before a number that make it three digits long.
fn zeros_before(thousandths: u64) -> &'static str
    ensures { result.now ≡ thousandths_zeros thousandths }
{
    if thousandths < 10 {
        "00"
    } else if thousandths < 100 {
        "0"
    } else {
        ""
    }
}

/// What is wrong with a case that is refused; else nothing.
fn fault_of<'a>(input: &'a Input, row: &Row) -> &'a str
    ensures { result.now ≡ fault_of input.now row.now }
{
    match row {
        Row::Late { .. } => "the deadline is later than 10,000,000",
        Row::Refused => words_of(input),
        Row::Answered(_) => "",
        Row::Memory => "",
        Row::NoThread => "",
    }
}

/// The words about a file that has no network; else nothing.
fn words_of(input: &Input) -> &str
    ensures { result.now ≡ words_of input.now }
{
    match input {
        Input::Fault(words) => words.as_str(),
        Input::Network(_) => "",
    }
}

/// The row of some fields.
fn line_of(alloc: Global, fields: &StringRecord) -> Result<Vec<u8>, AllocError>
    ensures { IfOk result (λ row. row.items ≡ row_text default_writer (fields_of fields.now)) }
{
    let mut writer = WriterBuilder::new().from_writer(Vec::new(alloc));
    // A writer over memory fails only if that is refused.
    if writer.write_byte_record(fields.as_byte_record()).is_err() {
        return Err(AllocError);
    }
    match writer.into_inner() {
        Ok(text) => Ok(text),
        Err(_) => Err(AllocError),
    }
}
