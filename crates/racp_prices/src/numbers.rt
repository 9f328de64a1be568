//! Whole numbers and arrays of them, as they stand in the table of an order that is read.

ghost use Rattle.std.specs.Prelude.{◌≡◌, ◌↔◌, All, IsTrue, is_some, option_map, MatchResult, Ok, Err};
ghost use Rattle.toml.specs.Data.{as_integer};
ghost use Rattle.toml.specs.View.{array_view, items_view, view};
ghost use Rattle.racp_prices.specs.Orders.{all_within, array_of, counted_items, number_of, numbers_of, optional_numbers, whole, whole_items, within};
ghost use Rattle.racp_prices.specs.Steps.{Gives};

use crate::fault::OrderFault;
use std::alloc::Global;
use toml::Value;
use toml::value::Array;

/// The whole number that stands for a value.
pub(crate) fn whole(value: &Value) -> Result<i64, OrderFault>
    ensures { result ≡ whole (view value.now) }
{
    value.as_integer().ok_or(OrderFault::NotWhole)
}

/// The number, if it is from 0 to the most there may be.
fn within(number: i64, most: u32) -> Result<u32, OrderFault>
    ensures { result ≡ within most number }
{
    if (0..=most as i64).contains(&number) {
        Ok(number as u32)
    } else {
        Err(OrderFault::Range)
    }
}

/// The whole number that stands for a value, from 0 to the most there may be.
#[tactic(auto, unfolding(crate::specs::Orders::number_of))]
pub(crate) fn number(value: &Value, most: u32) -> Result<u32, OrderFault>
    ensures { result ≡ number_of most (view value.now) }
{
    within(whole(value)?, most)
}

/// The whole numbers that stand for an array: this many, each from 0 to the most there may be.
#[tactic(auto, unfolding(crate::specs::Orders::numbers_of))]
pub(crate) fn numbers(
    alloc: Global,
    value: &Value,
    count: usize,
    most: u32,
) -> Result<Vec<u32>, OrderFault>
    ensures { Gives (λ numbers. numbers.items) result (numbers_of count most (view value.now)) }
{
    let items = items(value)?;
    check_whole(items)?;
    check_count(items, count)?;
    all_within(alloc, items, most)
}

/// The items of an array.
fn items(value: &Value) -> Result<&Array, OrderFault>
    ensures { MatchResult result (λ items. array_of (view value.now) ≡ Ok (array_view items.now))
        (λ fault. array_of (view value.now) ≡ Err fault) }
{
    value.as_array().ok_or(OrderFault::NotWhole)
}

/// The whole numbers that stand for an array, if there is one: `count` of them, each from 0 to `most`.
#[tactic(auto, unfolding(crate::specs::Orders::optional_numbers))]
pub(crate) fn optional_numbers(
    alloc: Global,
    value: Option<&Value>,
    count: usize,
    most: u32,
) -> Result<Option<Vec<u32>>, OrderFault>
    ensures { Gives (option_map (λ numbers. numbers.items)) result
        (optional_numbers count most (option_map (λ v. view v.now) value.entry)) }
{
    match value {
        Some(value) => Ok(Some(numbers(alloc, value, count, most)?)),
        None => Ok(None),
    }
}

/// Refuses items that are not whole numbers alone.
fn check_whole(items: &[Value]) -> Result<(), OrderFault>
    ensures { MatchResult result (λ _. whole_items (items_view items.now) ≡ Ok (items_view items.now))
        (λ fault. whole_items (items_view items.now) ≡ Err fault) }
{
    if are_whole(items) {
        Ok(())
    } else {
        Err(OrderFault::NotWhole)
    }
}

/// Refuses another number of items.
fn check_count(items: &[Value], count: usize) -> Result<(), OrderFault>
    ensures { MatchResult result (λ _. counted_items count (items_view items.now) ≡ Ok (items_view items.now))
        (λ fault. counted_items count (items_view items.now) ≡ Err fault) }
{
    if items.len() == count {
        Ok(())
    } else {
        Err(OrderFault::Count)
    }
}

/// Whether the items are whole numbers alone.
fn are_whole(items: &[Value]) -> bool
    ensures { IsTrue result ↔ All (λ v. IsTrue (is_some (as_integer (view v)))) items.now }
{
    items.iter().all(|value| value.is_integer())
}

/// The whole numbers that stand for items, each from 0 to the most there may be.
fn all_within(alloc: Global, items: &[Value], most: u32) -> Result<Vec<u32>, OrderFault>
    ensures { Gives (λ numbers. numbers.items) result (all_within most (items_view items.now)) }
{
    let mut numbers = Vec::with_capacity(alloc, items.len())?;
    for value in items {
        numbers.push(number(value, most)?)?;
    }
    Ok(numbers)
}
