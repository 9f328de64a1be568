//! The children of a capacity vector, each with one unit more of one resource.

ghost use Rattle.std.specs.Prelude.{◌≡◌, length, IfOk};
ghost use Rattle.std.specs.BinaryHeap.{heap_items};
ghost use Rattle.racp_model.specs.Terms.{cost};
ghost use Rattle.racp_candidates.specs.Box.{ArePrices, IsBetween};
ghost use Rattle.racp_candidates.specs.Vectors.{terms_of, AreChildren};
ghost use Rattle.racp_candidates.specs.Frontier.{vectors_in, ArePriced, IsEntered, IsLastRaised};

use crate::copies::copy_with;
use crate::entry::Entry;
use std::alloc::{AllocError, Global};
use std::cmp::Reverse;
use std::collections::BinaryHeap;

/// The children of a vector: at the last place that is above its floor, or the first place if there is none, and at
/// each place after it, one unit more if the roof allows.
pub(crate) fn children_of(
    alloc: Global,
    prices: &[u32],
    owned: &[u32],
    floors: &[u32],
    roofs: &[u32],
    units: &[u32],
) -> Result<BinaryHeap<Reverse<Entry>>, AllocError>
    requires prices { ArePrices prices.now owned.now }
    requires floors { length prices.now ≡ length floors.now }
    requires roofs { length roofs.now ≡ length floors.now }
    requires units { IsBetween floors.now roofs.now units.now }
    ensures children { IfOk result (λ heap. AreChildren floors.now roofs.now units.now (vectors_in (heap_items heap))) }
    ensures priced { IfOk result (λ heap. ArePriced (terms_of prices.now owned.now) (heap_items heap)) }
{
    let mut children = BinaryHeap::new(alloc);
    for place in last_raised(floors, units)..units.len() {
        if units[place] < roofs[place] {
            let child = copy_with(alloc, units, place, units[place] + 1)?;
            enter(&mut children, prices, owned, child)?;
        }
    }
    Ok(children)
}

/// The last place at which the vector is not at its floor, or 0.
fn last_raised(floors: &[u32], units: &[u32]) -> usize
    requires { length units.now ≡ length floors.now }
    ensures { IsLastRaised floors.now units.now result }
{
    let mut place = floors.len().saturating_sub(1);
    while 0 < place && units[place] == floors[place] {
        place -= 1;
    }
    place
}

/// Puts a vector into a heap, with what it costs.
pub(crate) fn enter(
    heap: &mut BinaryHeap<Reverse<Entry>>,
    prices: &[u32],
    owned: &[u32],
    units: Vec<u32>,
) -> Result<(), AllocError>
    requires prices { ArePrices prices.now owned.now }
    requires units { length units.items ≡ length prices.now }
    ensures { IfOk result (λ _. IsEntered prices.now owned.now units.items
        (heap_items heap.old) (heap_items heap.new)) }
{
    let cost = cost_of(prices, owned, &units);
    heap.push(Reverse(Entry { cost, units }))?;
    Ok(())
}

/// What the units cost: each that is not owned already costs its price.
#[tactic(auto, using(racp_model::proofs::lemmas::Sums::sums))]
fn cost_of(prices: &[u32], owned: &[u32], units: &[u32]) -> u64
    requires prices { ArePrices prices.now owned.now }
    requires units { length units.now ≡ length prices.now }
    ensures { result ≡ cost (terms_of prices.now owned.now) units.now }
{
    let mut sum = 0;
    for k in 0..prices.len() {
        sum += prices[k] as u64 * units[k].saturating_sub(owned[k]) as u64;
    }
    sum
}
