//! A plan as a table of comma-separated values.

ghost use Rattle.std.specs.Prelude.{◌≡◌, ◌++◌, ◌∷◌, [], IfOk, OnOk, decimal, flat_map};
ghost use Rattle.csv.specs.Records.{fields_of};
ghost use Rattle.csv.specs.Writing.{default_writer, row_text};
ghost use Rattle.racp_export.specs.Tables.{csv_row, csv_text, fixed_titles, name_fields, phase_before, phase_fields, row_fields, task_fields, time_fields, titles_before, units_behind};

use crate::days::{first_of, last_of};
use crate::ground::Ground;
use crate::words::{resource_title, task_title, units_at, waits_of};
use csv::{Error, StringRecord, WriterBuilder};
use racp_calendar::Calendar;
use racp_model::Network;
use racp_show::{Names, Row, Task};
use std::alloc::{AllocError, Global};

/// The phases and the tasks of a plan as a table of comma-separated values.
#[tactic(auto, unfolding(crate::specs::Tables::csv_text))]
pub(crate) fn csv_text(
    alloc: Global,
    ground: &Ground<'_>,
    rows: &[Row<'_>],
) -> Result<Vec<u8>, AllocError>
    ensures { IfOk result (λ text. text.items ≡ csv_text ground.now.calendar ground.now.net.now ground.now.names.now rows.now) }
{
    let titles = title_record(alloc, ground.net, ground.names)?;
    let mut text = row_of(alloc, &titles)?;
    push_rows(alloc, &mut text, ground, rows)?;
    Ok(text)
}

/// Adds each row.
fn push_rows(
    alloc: Global,
    text: &mut Vec<u8>,
    ground: &Ground<'_>,
    rows: &[Row<'_>],
) -> Result<(), AllocError>
    ensures { OnOk result (text.new.items ≡ text.old.items ++ flat_map (csv_row ground.now.calendar ground.now.net.now) rows.now) }
{
    for row in rows {
        push_row(alloc, text, ground, row)?;
    }
    Ok(())
}

/// Adds a row.
fn push_row(
    alloc: Global,
    text: &mut Vec<u8>,
    ground: &Ground<'_>,
    row: &Row<'_>,
) -> Result<(), AllocError>
    ensures { OnOk result (text.new.items ≡ text.old.items ++ csv_row ground.now.calendar ground.now.net.now row.now) }
{
    let fields = record_of(alloc, ground, row)?;
    let line = row_of(alloc, &fields)?;
    text.extend_from_slice(&line)
}

/// The fields of a row.
fn record_of(alloc: Global, ground: &Ground<'_>, row: &Row<'_>) -> Result<StringRecord, AllocError>
    ensures { IfOk result (λ fields. fields_of fields ≡ row_fields ground.now.calendar ground.now.net.now row.now) }
{
    match row {
        Row::Heading { depth, title } => phase_record(alloc, ground.net, *depth, title),
        Row::Bar { depth, task } => task_record(alloc, ground, *depth, task),
    }
}

/// The titles of the columns.
fn title_record(alloc: Global, net: &Network, names: &Names) -> Result<StringRecord, AllocError>
    ensures { IfOk result (λ fields. fields_of fields ≡ titles_before net.now names.now net.now.resources) }
{
    let mut fields = fixed_record(alloc)?;
    for k in 0..net.resource_count() {
        let title = resource_title(alloc, net, names, k)?;
        fields.push_field(title.as_str())?;
    }
    Ok(fields)
}

/// The titles of the columns that each table has.
fn fixed_record(alloc: Global) -> Result<StringRecord, AllocError>
    ensures { IfOk result (λ fields. fields_of fields ≡ fixed_titles) }
{
    let mut fields = StringRecord::new(alloc);
    fields.push_field("id")?;
    fields.push_field("name")?;
    fields.push_field("level")?;
    fields.push_field("duration")?;
    fields.push_field("predecessors")?;
    fields.push_field("start")?;
    fields.push_field("finish")?;
    Ok(fields)
}

/// The fields of a phase.
fn phase_record(
    alloc: Global,
    net: &Network,
    depth: usize,
    title: &str,
) -> Result<StringRecord, AllocError>
    ensures { IfOk result (λ fields. fields_of fields ≡ phase_before depth title.now net.now.resources) }
{
    let mut fields = phase_head(alloc, depth, title)?;
    for _k in 0..net.resource_count() {
        fields.push_field("")?;
    }
    Ok(fields)
}

/// The fields of a phase up to the resources.
fn phase_head(alloc: Global, depth: usize, title: &str) -> Result<StringRecord, AllocError>
    ensures { IfOk result (λ fields. fields_of fields ≡ phase_fields depth title.now) }
{
    let mut fields = StringRecord::new(alloc);
    fields.push_field("")?;
    fields.push_field(title)?;
    push_number(alloc, &mut fields, depth as u64)?;
    fields.push_field("")?;
    fields.push_field("")?;
    fields.push_field("")?;
    fields.push_field("")?;
    Ok(fields)
}

/// The fields of a task.
fn task_record(
    alloc: Global,
    ground: &Ground<'_>,
    depth: usize,
    task: &Task<'_>,
) -> Result<StringRecord, AllocError>
    ensures { IfOk result (λ fields. fields_of fields ≡ task_fields ground.now.calendar ground.now.net.now depth task.now) }
{
    let mut fields = name_record(alloc, depth, task)?;
    push_times(alloc, &mut fields, ground.calendar, task)?;
    push_units(alloc, &mut fields, ground.net, task.job.saturating_sub(1))?;
    Ok(fields)
}

/// The fields of a task up to its duration.
fn name_record(alloc: Global, depth: usize, task: &Task<'_>) -> Result<StringRecord, AllocError>
    ensures { IfOk result (λ fields. fields_of fields ≡ name_fields depth task.now) }
{
    let title = task_title(alloc, task)?;
    let mut fields = StringRecord::new(alloc);
    push_number(alloc, &mut fields, task.job as u64)?;
    fields.push_field(title.as_str())?;
    push_number(alloc, &mut fields, depth as u64)?;
    Ok(fields)
}

/// Adds how long a task takes, what it waits for, and its days.
#[tactic(auto, using(crate::proofs::Fields::in_four))]
fn push_times(
    alloc: Global,
    fields: &mut StringRecord,
    calendar: Calendar<'_>,
    task: &Task<'_>,
) -> Result<(), AllocError>
    ensures { OnOk result (fields_of fields.new ≡ fields_of fields.old ++ time_fields calendar.entry task.now) }
{
    let waits = waits_of(alloc, task)?;
    let first = first_of(alloc, calendar, task)?;
    let last = last_of(alloc, calendar, task)?;
    push_number(alloc, fields, task.duration as u64)?;
    fields.push_field(waits.as_str())?;
    fields.push_field(first.as_str())?;
    fields.push_field(last.as_str())?;
    Ok(())
}

/// Adds how many units of each resource the job at place `i` needs.
fn push_units(
    alloc: Global,
    fields: &mut StringRecord,
    net: &Network,
    i: usize,
) -> Result<(), AllocError>
    ensures { OnOk result (fields_of fields.new ≡ units_behind (fields_of fields.old) net.now i net.now.resources) }
{
    for k in 0..net.resource_count() {
        push_number(alloc, fields, units_at(net, i, k) as u64)?;
    }
    Ok(())
}

/// Adds a number.
fn push_number(alloc: Global, fields: &mut StringRecord, number: u64) -> Result<(), AllocError>
    ensures { OnOk result (fields_of fields.new ≡ fields_of fields.old ++ decimal number ∷ []) }
{
    let digits = format!(in alloc; "{number}")?;
    fields.push_field(digits.as_str())
}

/// The row of some fields.
fn row_of(alloc: Global, fields: &StringRecord) -> Result<Vec<u8>, AllocError>
    ensures { IfOk result (λ row. row.items ≡ row_text default_writer (fields_of fields.now)) }
{
    match row(alloc, fields) {
        Ok(text) => Ok(text),
        // A writer over memory fails only if that is refused.
        Err(_) => Err(AllocError),
    }
}

/// The row of some fields.
fn row(alloc: Global, fields: &StringRecord) -> Result<Vec<u8>, Error>
    ensures { IfOk result (λ row. row.items ≡ row_text default_writer (fields_of fields.now)) }
{
    let mut writer = WriterBuilder::new().from_writer(Vec::new(alloc));
    writer.write_byte_record(fields.as_byte_record())?;
    match writer.into_inner() {
        Ok(text) => Ok(text),
        Err(error) => Err(error.into_error()),
    }
}
