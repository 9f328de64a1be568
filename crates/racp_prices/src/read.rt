//! Reading an order from a TOML text.

ghost use Rattle.std.specs.Prelude.{◌≡◌, ◌↔◌, All, Err, IfOk, IsTrue, MatchResult, Ok, bytes_eq, map, min, option_map, string_bytes};
ghost use Rattle.std.specs.BTreeMap.{keys};
ghost use Rattle.std.specs.List.{list_any};
ghost use Rattle.toml.specs.Data.{get_member};
ghost use Rattle.toml.specs.View.{table_view, view};
ghost use Rattle.racp_prices.specs.Orders.{FitEachProject, IsOrderOrMemory, keys_of, known_keys, required};
ghost use Rattle.racp_prices.specs.Steps.{Gives, IsTableRead, joined, list_or, order_in_parts, times_of, units_of};

use crate::fault::OrderFault;
use crate::numbers::{number, numbers, optional_numbers};
use crate::order::Order;
use crate::room::is_too_large;
use crate::version::Version;
use racp_model::limits::{LATEST_TIME, MOST_PRICE, MOST_UNITS};
use std::alloc::Global;
use toml::{Table, Value};

/// Reads the order of a TOML text, for a network of this many resources and jobs.
///
/// Without the key `version` the text has `deadline` and `prices` alone: no unit is owned, there may be any number of
/// units, and each job may run from 0 to the deadline. With `version = 2` it may have `owned`, `ceiling`, `release` and
/// `due` too. A due time above the deadline is read as the deadline.
///
/// # Errors
///
/// The first rule that the text breaks: `NotToml`; for the version `NotWhole` or `Version`; `Missing`; `Unknown`; and
/// then for the deadline, the prices, the owned units, the ceilings, the release and the due times, in this order,
/// `NotWhole`, `Count` and `Range`. `Memory` if the text is UTF-8 and memory was refused, or its values could take more
/// than 448 MiB.
pub fn read_order(
    alloc: Global,
    text: &[u8],
    resources: usize,
    jobs: usize,
) -> Result<Order, OrderFault>
    ensures read { IsOrderOrMemory resources jobs text.now result }
    ensures terms { IfOk result (FitEachProject resources jobs) }
{
    let table = read_table(alloc, text)?;
    read_terms(alloc, &table, resources, jobs)
}

/// The table of a TOML text.
fn read_table(alloc: Global, text: &[u8]) -> Result<Table, OrderFault>
    ensures { IsTableRead text.now result }
{
    let Ok(text) = std::str::from_utf8(text) else {
        return Err(OrderFault::NotToml);
    };
    if is_too_large(alloc, text) {
        return Err(OrderFault::Memory);
    }
    match toml::table_from_str(alloc, text) {
        Ok(table) => Ok(table),
        Err(error) if error.is_memory() => Err(OrderFault::Memory),
        Err(_) => Err(OrderFault::NotToml),
    }
}

/// The terms about units, for each resource.
#[derive(Drop)]
struct UnitTerms {
    prices: Vec<u32>,
    owned: Vec<u32>,
    ceilings: Option<Vec<u32>>,
}

/// The terms about times, for each job.
#[derive(Drop)]
struct TimeTerms {
    release: Vec<u32>,
    due: Vec<u32>,
}

/// The order that a table is.
#[tactic(auto, unfolding(crate::specs::Steps::order_in_parts))]
fn read_terms(
    alloc: Global,
    table: &Table,
    resources: usize,
    jobs: usize,
) -> Result<Order, OrderFault>
    ensures { Gives (λ order. order) result (order_in_parts resources jobs (table_view table.now)) }
{
    let version = Version::read(value(table, "version"))?;
    let deadline = required(table, "deadline")?;
    let prices = required(table, "prices")?;
    check_keys(version, table)?;
    let deadline = number(deadline, LATEST_TIME)?;
    let units = read_units(alloc, table, prices, resources)?;
    let times = read_times(alloc, table, deadline, jobs)?;
    Ok(joined(deadline, units, times))
}

/// The order of these terms.
fn joined(deadline: u32, units: UnitTerms, times: TimeTerms) -> Order
    ensures { result ≡ joined deadline (units.prices.items, (units.owned.items, option_map (λ ceilings. ceilings.items) units.ceilings))
        (times.release.items, times.due.items) }
{
    Order {
        deadline,
        prices: units.prices,
        owned: units.owned,
        ceilings: units.ceilings,
        release: times.release,
        due: times.due,
    }
}

/// The terms about units that a table has, with these prices.
#[tactic(auto, unfolding(crate::specs::Steps::units_of))]
fn read_units(
    alloc: Global,
    table: &Table,
    prices: &Value,
    resources: usize,
) -> Result<UnitTerms, OrderFault>
    ensures { Gives (λ terms. (terms.prices.items, (terms.owned.items, option_map (λ ceilings. ceilings.items) terms.ceilings)))
        result (units_of resources (view prices.now) (table_view table.now)) }
{
    let prices = numbers(alloc, prices, resources, MOST_PRICE)?;
    let owned = list_or(alloc, value(table, "owned"), resources, MOST_UNITS, 0)?;
    let ceilings = optional_numbers(alloc, value(table, "ceiling"), resources, MOST_UNITS)?;
    Ok(UnitTerms {
        prices,
        owned,
        ceilings,
    })
}

/// The terms about times that a table has, with this deadline.
#[tactic(auto, unfolding(crate::specs::Steps::times_of))]
fn read_times(
    alloc: Global,
    table: &Table,
    deadline: u32,
    jobs: usize,
) -> Result<TimeTerms, OrderFault>
    ensures { Gives (λ terms. (terms.release.items, terms.due.items)) result
        (times_of jobs deadline (table_view table.now)) }
{
    let release = list_or(alloc, value(table, "release"), jobs, LATEST_TIME, 0)?;
    let mut due = list_or(alloc, value(table, "due"), jobs, LATEST_TIME, deadline)?;
    cut(&mut due, deadline);
    Ok(TimeTerms { release, due })
}

/// What a table has at a key.
fn value<'a>(table: &'a Table, key: &str) -> Option<&'a Value>
    ensures { option_map (λ v. view v.now) result ≡ get_member key.now (table_view table.now) }
{
    table.get(key)
}

/// What a table has at a key that has to be there.
fn required<'a>(table: &'a Table, key: &str) -> Result<&'a Value, OrderFault>
    ensures { MatchResult result (λ v. required (get_member key.now (table_view table.now)) ≡ Ok (view v.now))
        (λ fault. required (get_member key.now (table_view table.now)) ≡ Err fault) }
{
    value(table, key).ok_or(OrderFault::Missing)
}

/// Refuses a table with a key that an order of this version does not have.
fn check_keys(version: Version, table: &Table) -> Result<(), OrderFault>
    ensures { MatchResult result (λ _. known_keys version (table_view table.now) ≡ Ok (table_view table.now))
        (λ fault. known_keys version (table_view table.now) ≡ Err fault) }
{
    if has_known_keys(version, table) {
        Ok(())
    } else {
        Err(OrderFault::Unknown)
    }
}

/// Whether an order of this version may have all keys of a table.
fn has_known_keys(version: Version, table: &Table) -> bool
    ensures { IsTrue result ↔ All (λ key. IsTrue (list_any (bytes_eq (string_bytes key)) (keys_of version)))
        (keys table.now) }
{
    table.keys().all(|key| version.has_key(key))
}

/// The whole numbers that stand for an array, or the same one this many times if there is no value.
#[tactic(auto, unfolding(crate::specs::Steps::list_or))]
fn list_or(
    alloc: Global,
    value: Option<&Value>,
    count: usize,
    most: u32,
    otherwise: u32,
) -> Result<Vec<u32>, OrderFault>
    ensures { Gives (λ numbers. numbers.items) result
        (list_or count most otherwise (option_map (λ v. view v.now) value.entry)) }
{
    match value {
        Some(value) => numbers(alloc, value, count, most),
        None => Ok(vec![in alloc; otherwise; count]?),
    }
}

/// Cuts each number to the most there may be.
fn cut(numbers: &mut [u32], most: u32)
    ensures { numbers.new ≡ map (min most) numbers.old }
{
    for number in numbers.iter_mut() {
        *number = most.min(*number);
    }
}
