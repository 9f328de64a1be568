//! The titles of a table of comma-separated values.

ghost use Rattle.std.specs.Prelude.{◌≡◌, ◌++◌, ◌∷◌, [], IfOk, OnOk};
ghost use Rattle.csv.specs.Records.{fields_of};
ghost use Rattle.racp_show.specs.Tables.{begin_titles, day_titles, fixed_titles, head_fields, rest_titles, title_of};

use crate::sheet::ResourceEntry;
use csv::StringRecord;
use std::alloc::{AllocError, Global};

/// The titles of the columns.
pub(crate) fn head_record(
    alloc: Global,
    resources: &[ResourceEntry<'_>],
    has_dates: bool,
) -> Result<StringRecord, AllocError>
    ensures { IfOk result (λ fields. fields_of fields ≡ head_fields has_dates resources.now) }
{
    let mut fields = fixed_record(alloc, has_dates)?;
    for entry in resources {
        push_title(alloc, &mut fields, entry)?;
    }
    Ok(fields)
}

/// The titles of the columns that each table has.
fn fixed_record(alloc: Global, has_dates: bool) -> Result<StringRecord, AllocError>
    ensures { IfOk result (λ fields. fields_of fields ≡ fixed_titles has_dates) }
{
    let mut fields = begin_record(alloc)?;
    push_day_titles(&mut fields, has_dates)?;
    push_rest_titles(&mut fields)?;
    Ok(fields)
}

/// The titles of the columns up to the times.
fn begin_record(alloc: Global) -> Result<StringRecord, AllocError>
    ensures { IfOk result (λ fields. fields_of fields ≡ begin_titles) }
{
    let mut fields = StringRecord::new(alloc);
    fields.push_field("job")?;
    fields.push_field("name")?;
    fields.push_field("start")?;
    fields.push_field("end")?;
    Ok(fields)
}

/// Adds the titles of the columns of days, if times are told by dates.
#[tactic(auto, using(crate::proofs::Fields::in_two))]
fn push_day_titles(fields: &mut StringRecord, has_dates: bool) -> Result<(), AllocError>
    ensures { OnOk result (fields_of fields.new ≡ fields_of fields.old ++ day_titles has_dates) }
{
    if !has_dates {
        return Ok(());
    }
    fields.push_field("first day")?;
    fields.push_field("last day")?;
    Ok(())
}

/// Adds the titles of the columns behind the times.
#[tactic(auto, using(crate::proofs::Fields::in_three))]
fn push_rest_titles(fields: &mut StringRecord) -> Result<(), AllocError>
    ensures { OnOk result (fields_of fields.new ≡ fields_of fields.old ++ rest_titles) }
{
    fields.push_field("duration")?;
    fields.push_field("slack")?;
    fields.push_field("predecessors")?;
    Ok(())
}

/// Adds the title of a resource's column.
fn push_title(
    alloc: Global,
    fields: &mut StringRecord,
    entry: &ResourceEntry<'_>,
) -> Result<(), AllocError>
    ensures { OnOk result (fields_of fields.new ≡ fields_of fields.old ++ title_of entry.now ∷ []) }
{
    match entry.name {
        Some(name) => fields.push_field(name),
        None => {
            let title = format!(in alloc; "resource {}", entry.resource)?;
            fields.push_field(title.as_str())
        }
    }
}
