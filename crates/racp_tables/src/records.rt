//! The records of a text of rows and cells.

ghost use Rattle.std.specs.Prelude.{◌≡◌, ◌++◌, ◌∷◌, [], IfOk, OnOk, map};
ghost use Rattle.csv.specs.Records.{fields_of};
ghost use Rattle.racp_tables.specs.Records.{AreRecordsOf};

use crate::fault::TableFault;
use csv::{ReaderBuilder, StringRecord};
use std::alloc::{AllocError, Global};

/// The records of a text whose cells stand between these letters. Reading a text in memory fails only if memory is refused.
pub(crate) fn records_of(
    alloc: Global,
    text: &str,
    separator: u8,
) -> Result<Vec<StringRecord>, TableFault>
    ensures { IfOk result (λ records. AreRecordsOf separator text.now (map fields_of records.items)) }
{
    let reader = ReaderBuilder::new()
        .has_headers(false)
        .flexible(true)
        .delimiter(separator)
        .from_reader(alloc, text.as_bytes());
    let mut records = Vec::new(alloc);
    for record in reader.into_records() {
        match record {
            Ok(record) => keep_record(&mut records, record)?,
            Err(_) => return Err(TableFault::Memory),
        }
    }
    Ok(records)
}

/// Adds a record.
fn keep_record(records: &mut Vec<StringRecord>, record: StringRecord) -> Result<(), AllocError>
    ensures { OnOk result (records.new.items ≡ records.old.items ++ «record» ∷ []) }
{
    records.push(record)?;
    Ok(())
}
