//! The table of an order that is to be written.

ghost use Rattle.std.specs.Prelude.{◌≡◌, IfOk, codes, if◌then◌else◌, map, option_copied, option_map, pos, Some, None};
ghost use Rattle.toml.specs.Data.{integer, no_members};
ghost use Rattle.toml.specs.View.{table_view, view};
ghost use Rattle.racp_prices.specs.WantedTables.{put, put_optional};
ghost use Rattle.racp_prices.specs.Wishes.{numbers_array, table_of};

use crate::wanted::Wanted;
use std::alloc::{AllocError, Global};
use toml::value::Array;
use toml::{Table, Value};

/// The table of an order that says just this.
pub(crate) fn table_of(alloc: Global, wanted: &Wanted) -> Result<Table, AllocError>
    ensures { IfOk result (λ table. table_view table ≡ table_of wanted.now) }
{
    let table = plain_table(alloc, wanted.deadline, &wanted.prices)?;
    let table = with_optional(alloc, table, "owned", wanted.owned.as_ref())?;
    let table = with_optional(alloc, table, "ceiling", wanted.ceilings.as_ref())?;
    let table = with_optional(alloc, table, "release", wanted.release.as_ref())?;
    let table = with_optional(alloc, table, "due", wanted.due.as_ref())?;
    with_version(alloc, table, wanted.needs_version())
}

/// The table with a deadline and prices alone.
fn plain_table(alloc: Global, deadline: u32, prices: &[u32]) -> Result<Table, AllocError>
    ensures { IfOk result (λ table. table_view table ≡ put (codes "prices") (numbers_array prices.now)
        (put (codes "deadline") (integer (pos deadline)) no_members)) }
{
    let table = with_value(alloc, Table::new(alloc), "deadline", Value::from(deadline))?;
    with_numbers(alloc, table, "prices", prices)
}

/// The table with the second version, if it needs a version.
fn with_version(alloc: Global, table: Table, needs_version: bool) -> Result<Table, AllocError>
    ensures { IfOk result (λ new. table_view new ≡
        put_optional (codes "version") (if needs_version then Some (integer (pos 2)) else None) (table_view table)) }
{
    if needs_version {
        with_value(alloc, table, "version", Value::from(2u32))
    } else {
        Ok(table)
    }
}

/// The table with these numbers at a key, if there are any.
fn with_optional(
    alloc: Global,
    table: Table,
    key: &str,
    numbers: Option<&Vec<u32>>,
) -> Result<Table, AllocError>
    ensures { IfOk result (λ new. table_view new ≡ put_optional key.now
        (option_map (λ n. numbers_array n.items) (option_copied numbers.entry)) (table_view table)) }
{
    match numbers {
        Some(numbers) => with_numbers(alloc, table, key, numbers),
        None => Ok(table),
    }
}

/// The table with these numbers at a key.
fn with_numbers(
    alloc: Global,
    table: Table,
    key: &str,
    numbers: &[u32],
) -> Result<Table, AllocError>
    ensures { IfOk result (λ new. table_view new ≡ put key.now (numbers_array numbers.now) (table_view table)) }
{
    let value = numbers_array(alloc, numbers)?;
    with_value(alloc, table, key, value)
}

/// The table with this value at a key.
fn with_value(alloc: Global, mut table: Table, key: &str, value: Value) -> Result<Table, AllocError>
    ensures { IfOk result (λ new. table_view new ≡ put key.now (view value) (table_view table)) }
{
    let key = String::from_str(alloc, key)?;
    table.insert(key, value)?;
    Ok(table)
}

/// An array of these numbers.
fn numbers_array(alloc: Global, numbers: &[u32]) -> Result<Value, AllocError>
    ensures { IfOk result (λ value. view value ≡ numbers_array numbers.now) }
{
    let items = items_of(alloc, numbers)?;
    Ok(Value::Array(items))
}

/// The items of an array of these numbers.
fn items_of(alloc: Global, numbers: &[u32]) -> Result<Array, AllocError>
    ensures { IfOk result (λ items. items.items ≡ map (λ number. Value.Integer (pos number)) numbers.now) }
{
    numbers
        .iter()
        .map(|number| Value::Integer(i64::from(*number)))
        .collect(alloc)
}
