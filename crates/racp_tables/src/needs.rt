//! What tasks need of resources.

ghost use Rattle.std.specs.Prelude.{◌≡◌, ◌++◌, ◌∷◌, [], IfOk, OnOk, ◌<◌, map};
ghost use Rattle.csv.specs.Records.{fields_of};
ghost use Rattle.racp_tables.specs.Amounts.{amount_said, units_of};
ghost use Rattle.racp_tables.specs.Cells.{need_at};

use crate::amount::{Amount, amount_of, wholly};
use crate::cell::{cell_at, line_of};
use crate::columns::Column;
use crate::fault::TableFault;
use csv::StringRecord;
use racp_model::limits::MOST_REQUEST;
use std::alloc::{AllocError, Global};

/// What the task of a row needs of each resource; nothing where the cell is empty.
pub(crate) fn requests_of(
    alloc: Global,
    resources: &[Column],
    record: &StringRecord,
) -> Result<Vec<u32>, TableFault>
    ensures { IfOk result (λ requests. map (need_at (fields_of «record».now)) resources.now ≡ map (λ units. Some units) requests.items) }
{
    let mut requests = Vec::new(alloc);
    for column in resources {
        let request = request_of(alloc, column, record)?;
        push_request(&mut requests, request)?;
    }
    Ok(requests)
}

/// Adds a request.
pub(crate) fn push_request(requests: &mut Vec<u32>, request: u32) -> Result<(), AllocError>
    ensures { OnOk result (requests.new.items ≡ requests.old.items ++ request ∷ []) }
{
    requests.push(request)?;
    Ok(())
}

/// What the task of a row needs of a resource.
fn request_of(alloc: Global, column: &Column, record: &StringRecord) -> Result<u32, TableFault>
    ensures { IfOk result (λ request. need_at (fields_of «record».now) column.now ≡ Some request) }
{
    let cell = cell_at(record, column.place);
    if cell.is_empty() {
        return Ok(0);
    }
    let name = column.name.as_str();
    match units_in(alloc, cell, 100)? {
        Some(units) => Ok(units),
        None => Err(TableFault::at(line_of(record), no_number(alloc, name, cell))),
    }
}

/// How many units a cell says, of which one is so many hundredths; none if that is no whole number, or too great.
pub(crate) fn units_in(alloc: Global, cell: &str, one: u64) -> Result<Option<u32>, AllocError>
    requires { 0 < one }
    ensures { IfOk result (λ units. units ≡ units_of (amount_said cell.now) one 10000) }
{
    match amount_of(alloc, cell)? {
        Amount::Hundredths(amount) => Ok(wholly(amount, one, MOST_REQUEST)),
        Amount::Ambiguous => Ok(None),
        Amount::Nothing => Ok(None),
    }
}

/// What is wrong with a cell of a resource's column that is no number of units.
fn no_number(alloc: Global, name: &str, cell: &str) -> Result<String, AllocError> {
    let help = help_for(alloc, cell, 100)?;
    if help.is_empty() {
        format!(in alloc;
            "{name} '{cell}' is no whole number from 0 to {MOST_REQUEST}; if '{name}' is no resource, pass over it: --ignore '{name}', or name the resources: --resources A,B"
        )
    } else {
        format!(in alloc; "{name} '{cell}' is no whole number from 0 to {MOST_REQUEST}; {help}")
    }
}

/// What helps where a number of units of so many hundredths is not whole; nothing if it is no number.
pub(crate) fn help_for(alloc: Global, cell: &str, one: u64) -> Result<&'static str, AllocError> {
    match amount_of(alloc, cell)? {
        Amount::Ambiguous => Ok("write thousands without a mark"),
        Amount::Hundredths(amount) => {
            if amount % one.max(1) == 0 {
                Ok("")
            } else {
                Ok("count in halves: twice the units, at half the price")
            }
        }
        Amount::Nothing => Ok(""),
    }
}
