//! Which changes are asked about.

ghost use Rattle.std.specs.Prelude.{◌≡◌, ◌≤◌, ◌++◌, All, IfOk, OnOk, length};
ghost use Rattle.racp_model.specs.Project.{Project};
ghost use Rattle.racp_model.specs.Terms.{AreTermsOf};
ghost use Rattle.racp_whatif.specs.Changes.{IsChangeFor, changes_of, each_fewer, each_owned, earlier, later, one_fewer, one_owned};

use crate::change::Change;
use racp_model::limits::{LATEST_TIME, MOST_UNITS};
use racp_prices::Order;
use std::alloc::{AllocError, Global};

/// What is asked about an order and these capacities, by place from 0: one unit fewer of each resource that there is one
/// of, but 10,000,000 at most, one owned unit more of each, and the deadline one time unit earlier and later.
///
/// # Errors
///
/// Memory was refused.
pub(crate) fn changes_of(
    alloc: Global,
    order: &Order,
    capacities: &[u32],
) -> Result<Vec<Change>, AllocError>
    requires resources { length capacities.now ≤ 16 }
    requires owned { length order.now.owned ≤ 16 }
    ensures changes { IfOk result (λ changes. changes.items ≡ changes_of order.now capacities.now) }
    ensures right { IfOk result (λ changes. (p : Project) → AreTermsOf p order.now → length capacities.now ≡ p.resources →
        All (IsChangeFor order.now) changes.items) }
{
    listed(alloc, order, capacities)
}

/// These changes, in their order.
fn listed(alloc: Global, order: &Order, capacities: &[u32]) -> Result<Vec<Change>, AllocError>
    requires resources { length capacities.now ≤ 16 }
    requires owned { length order.now.owned ≤ 16 }
    ensures { IfOk result (λ changes. changes.items ≡ changes_of order.now capacities.now) }
{
    let mut changes = Vec::new(alloc);
    push_fewer(&mut changes, capacities)?;
    push_owned(&mut changes, &order.owned)?;
    push_earlier(&mut changes, order.deadline)?;
    push_later(&mut changes, order.deadline)?;
    Ok(changes)
}

/// Adds one unit fewer of each resource.
fn push_fewer(changes: &mut Vec<Change>, capacities: &[u32]) -> Result<(), AllocError>
    requires { length capacities.now ≤ 16 }
    ensures { OnOk result (changes.new.items ≡ changes.old.items ++ each_fewer 0 capacities.now) }
{
    for (place, units) in capacities.iter().enumerate() {
        push_one_fewer(changes, place as u32, *units)?;
    }
    Ok(())
}

/// Adds one unit fewer of a resource, if there is one.
fn push_one_fewer(changes: &mut Vec<Change>, place: u32, units: u32) -> Result<(), AllocError>
    ensures { OnOk result (changes.new.items ≡ changes.old.items ++ one_fewer place units) }
{
    if units == 0 {
        return Ok(());
    }
    let change = Change::Ceiling {
        place,
        units: (units - 1).min(MOST_UNITS),
    };
    changes.push(change)?;
    Ok(())
}

/// Adds one owned unit more of each resource.
fn push_owned(changes: &mut Vec<Change>, owned: &[u32]) -> Result<(), AllocError>
    requires { length owned.now ≤ 16 }
    ensures { OnOk result (changes.new.items ≡ changes.old.items ++ each_owned 0 owned.now) }
{
    for (place, units) in owned.iter().enumerate() {
        push_one_owned(changes, place as u32, *units)?;
    }
    Ok(())
}

/// Adds one owned unit more of a resource, if there may be as many.
fn push_one_owned(changes: &mut Vec<Change>, place: u32, units: u32) -> Result<(), AllocError>
    ensures { OnOk result (changes.new.items ≡ changes.old.items ++ one_owned place units) }
{
    if units >= MOST_UNITS {
        return Ok(());
    }
    let change = Change::Owned {
        place,
        units: units + 1,
    };
    changes.push(change)?;
    Ok(())
}

/// Adds a deadline one time unit earlier, if there is one.
fn push_earlier(changes: &mut Vec<Change>, deadline: u32) -> Result<(), AllocError>
    ensures { OnOk result (changes.new.items ≡ changes.old.items ++ earlier deadline) }
{
    if deadline == 0 {
        return Ok(());
    }
    let change = Change::Deadline {
        deadline: deadline - 1,
    };
    changes.push(change)?;
    Ok(())
}

/// Adds a deadline one time unit later, if there may be one.
fn push_later(changes: &mut Vec<Change>, deadline: u32) -> Result<(), AllocError>
    ensures { OnOk result (changes.new.items ≡ changes.old.items ++ later deadline) }
{
    if deadline >= LATEST_TIME {
        return Ok(());
    }
    let change = Change::Deadline {
        deadline: deadline + 1,
    };
    changes.push(change)?;
    Ok(())
}
