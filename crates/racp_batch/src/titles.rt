//! The titles of the table.

ghost use Rattle.std.specs.Prelude.{◌≡◌, ◌++◌, IfOk, OnOk, map};
ghost use Rattle.csv.specs.Records.{fields_of};
ghost use Rattle.racp_batch.specs.Lines.{day_titles, titles};

use csv::StringRecord;
use std::alloc::{AllocError, Global};

/// The titles of the columns up to the deadline.
const BEGIN: &[&str] = &["file", "jobs", "resources", "factor", "deadline"];

/// Those of the columns behind its last day.
const REST: &[&str] = &[
    "status",
    "cost",
    "bound",
    "best",
    "gap",
    "nodes",
    "conflicts",
    "seconds",
    "fault",
];

/// The titles of the columns, with one for the last days of deadlines, or without.
///
/// # Errors
///
/// Memory was refused.
pub(crate) fn title_record(alloc: Global, has_dates: bool) -> Result<StringRecord, AllocError>
    ensures { IfOk result (λ fields. fields_of fields ≡ titles has_dates) }
{
    let mut fields = StringRecord::new(alloc);
    push_titles(&mut fields, BEGIN)?;
    push_titles(&mut fields, day_titles(has_dates))?;
    push_titles(&mut fields, REST)?;
    Ok(fields)
}

/// The title of the column of days, if there is one.
fn day_titles(has_dates: bool) -> &'static [&'static str]
    ensures { map (λ title. title.now) result.now ≡ day_titles has_dates }
{
    if has_dates { &["last day"] } else { &[] }
}

/// Adds titles.
fn push_titles(fields: &mut StringRecord, titles: &[&str]) -> Result<(), AllocError>
    ensures { OnOk result (fields_of fields.new ≡ fields_of fields.old ++ map (λ title. title.now) titles.now) }
{
    for title in titles {
        fields.push_field(title)?;
    }
    Ok(())
}
