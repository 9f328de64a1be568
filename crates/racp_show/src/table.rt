//! A plan as a table of comma-separated values.

ghost use Rattle.std.specs.Prelude.{◌≡◌, ◌++◌, ◌∷◌, [], IfOk, OnOk, decimal, flat_map, map, option_map, string_bytes, unwrap_or};
ghost use Rattle.csv.specs.Records.{fields_of};
ghost use Rattle.csv.specs.Writing.{default_writer, row_text};
ghost use Rattle.racp_show.specs.Tables.{begin_fields, day_fields, fixed_fields, job_fields, job_row, joined, joined_number, rest_fields, table_text};

use crate::sheet::{JobEntry, Sheet};
use crate::titles::head_record;
use csv::{Error, StringRecord, WriterBuilder};
use std::alloc::{AllocError, Global};

/// The jobs of a plan's sheet as a table of comma-separated values. The first row has titles: `job`, `name`, `start`,
/// `end`, `duration`, `slack` and `predecessors`, and the name of each resource, or `resource 1` if it has none. If times
/// are told by dates, `first day` and `last day` come right behind `end`. Then comes a row for each job, with its number
/// from 1, its name, which is empty if it has none, its times in time units, its days, which are empty after the year
/// 9999, the numbers of the jobs that come right before it, with a semicolon between two, and how many units it needs of
/// each resource. What has a comma or a quote is in quotes.
///
/// # Errors
///
/// Memory was refused.
pub fn csv_text(alloc: Global, sheet: &Sheet<'_>) -> Result<Vec<u8>, AllocError>
    ensures { IfOk result (λ text. text.items ≡ table_text sheet.now) }
{
    let titles = head_record(alloc, sheet.resources.as_slice(), sheet.has_dates)?;
    let mut text = row_of(alloc, &titles)?;
    push_rows(alloc, &mut text, sheet.jobs.as_slice(), sheet.has_dates)?;
    Ok(text)
}

/// Adds a row for each job.
fn push_rows(
    alloc: Global,
    text: &mut Vec<u8>,
    jobs: &[JobEntry<'_>],
    has_dates: bool,
) -> Result<(), AllocError>
    ensures { OnOk result (text.new.items ≡ text.old.items ++ flat_map (job_row has_dates) jobs.now) }
{
    for entry in jobs {
        push_row(alloc, text, entry, has_dates)?;
    }
    Ok(())
}

/// Adds the row of a job.
fn push_row(
    alloc: Global,
    text: &mut Vec<u8>,
    entry: &JobEntry<'_>,
    has_dates: bool,
) -> Result<(), AllocError>
    ensures { OnOk result (text.new.items ≡ text.old.items ++ job_row has_dates entry.now) }
{
    let fields = job_record(alloc, entry, has_dates)?;
    let row = row_of(alloc, &fields)?;
    text.extend_from_slice(&row)
}

/// The fields of a job.
fn job_record(
    alloc: Global,
    entry: &JobEntry<'_>,
    has_dates: bool,
) -> Result<StringRecord, AllocError>
    ensures { IfOk result (λ fields. fields_of fields ≡ job_fields has_dates entry.now) }
{
    let mut fields = job_head(alloc, entry, has_dates)?;
    for number in entry.requests.as_slice() {
        push_number(alloc, &mut fields, *number as u64)?;
    }
    Ok(fields)
}

/// The fields of a job up to those before it.
fn job_head(
    alloc: Global,
    entry: &JobEntry<'_>,
    has_dates: bool,
) -> Result<StringRecord, AllocError>
    ensures { IfOk result (λ fields. fields_of fields ≡ fixed_fields has_dates entry.now) }
{
    let mut fields = job_times(alloc, entry)?;
    push_days(&mut fields, entry, has_dates)?;
    push_rest(alloc, &mut fields, entry)?;
    Ok(fields)
}

/// The fields of a job up to its times.
fn job_times(alloc: Global, entry: &JobEntry<'_>) -> Result<StringRecord, AllocError>
    ensures { IfOk result (λ fields. fields_of fields ≡ begin_fields entry.now) }
{
    let mut fields = StringRecord::new(alloc);
    push_number(alloc, &mut fields, entry.job as u64)?;
    fields.push_field(name_or_empty(entry.name))?;
    push_number(alloc, &mut fields, entry.start as u64)?;
    push_number(alloc, &mut fields, entry.end as u64)?;
    Ok(fields)
}

/// Adds the days of a job, if times are told by dates.
#[tactic(auto, using(crate::proofs::Fields::in_two))]
fn push_days(
    fields: &mut StringRecord,
    entry: &JobEntry<'_>,
    has_dates: bool,
) -> Result<(), AllocError>
    ensures { OnOk result (fields_of fields.new ≡ fields_of fields.old ++ day_fields has_dates entry.now) }
{
    if !has_dates {
        return Ok(());
    }
    fields.push_field(word_or_empty(&entry.first_day))?;
    fields.push_field(word_or_empty(&entry.last_day))?;
    Ok(())
}

/// Adds how long a job runs, its slack, and the jobs before it.
#[tactic(auto, using(crate::proofs::Fields::in_three))]
fn push_rest(
    alloc: Global,
    fields: &mut StringRecord,
    entry: &JobEntry<'_>,
) -> Result<(), AllocError>
    ensures { OnOk result (fields_of fields.new ≡ fields_of fields.old ++ rest_fields entry.now) }
{
    let before = joined(alloc, entry.predecessors.as_slice())?;
    push_number(alloc, fields, entry.duration as u64)?;
    push_number(alloc, fields, entry.slack as u64)?;
    fields.push_field(before.as_str())?;
    Ok(())
}

/// A word; empty if there is none.
fn word_or_empty(word: &Option<String>) -> &str
    ensures { result.now ≡ unwrap_or (option_map string_bytes word.now) [] }
{
    match word {
        Some(word) => word.as_str(),
        None => "",
    }
}

/// A name; empty if there is none.
fn name_or_empty(name: Option<&str>) -> &str
    ensures { result.now ≡ unwrap_or (option_map (λ name. name.now) name.entry) [] }
{
    match name {
        Some(name) => name,
        None => "",
    }
}

/// Adds a number.
fn push_number(alloc: Global, fields: &mut StringRecord, number: u64) -> Result<(), AllocError>
    ensures { OnOk result (fields_of fields.new ≡ fields_of fields.old ++ decimal number ∷ []) }
{
    let digits = format!(in alloc; "{number}")?;
    fields.push_field(digits.as_str())
}

/// Numbers, with a semicolon between two.
fn joined(alloc: Global, numbers: &[u32]) -> Result<String, AllocError>
    ensures { IfOk result (λ text. string_bytes text ≡ joined 0 numbers.now) }
{
    let mut text = String::new(alloc);
    for (place, number) in numbers.iter().enumerate() {
        push_joined(&mut text, place, *number)?;
    }
    Ok(text)
}

/// Adds the number at this place of some, with a semicolon before it unless it is the first.
fn push_joined(text: &mut String, place: usize, number: u32) -> Result<(), AllocError>
    ensures { OnOk result (string_bytes text.new ≡ string_bytes text.old ++ joined_number place number) }
{
    if place == 0 {
        write!(text, "{number}")
    } else {
        write!(text, ";{number}")
    }
}

/// The row of some fields.
fn row_of(alloc: Global, fields: &StringRecord) -> Result<Vec<u8>, AllocError>
    ensures { IfOk result (λ row. row.items ≡ row_text default_writer (fields_of fields.now)) }
{
    match row(alloc, fields) {
        Ok(text) => Ok(text),
        // A writer over memory fails only if that is refused.
        Err(_) => Err(AllocError),
    }
}

/// The row of some fields.
fn row(alloc: Global, fields: &StringRecord) -> Result<Vec<u8>, Error>
    ensures { IfOk result (λ row. row.items ≡ row_text default_writer (fields_of fields.now)) }
{
    let mut writer = WriterBuilder::new().from_writer(Vec::new(alloc));
    writer.write_byte_record(fields.as_byte_record())?;
    match writer.into_inner() {
        Ok(text) => Ok(text),
        Err(error) => Err(error.into_error()),
    }
}
