//! Whether units serve jobs as these need it.

ghost use Rattle.std.specs.Prelude.{◌≡◌, ◌<◌, ℕ, IfOk, length, slice_index, true};
ghost use Rattle.std.specs.List.{list_all};
ghost use Rattle.racp_export.specs.Bookings.{AreBooks, IsBook, are_in_turn, served, serves, wanted};

use crate::book::{Book, Turns};
use crate::sharing::shared;
use crate::words::units_at;
use crate::work::{duration_at, number_at};
use racp_model::Network;
use std::alloc::{AllocError, Global};

/// The units of each resource with the jobs that they serve, if the starts fit so many of each.
///
/// # Errors
///
/// Memory was refused.
pub(crate) fn books_of(
    alloc: Global,
    net: &Network,
    starts: &[u32],
    capacities: &[u32],
) -> Result<Vec<Book>, AllocError>
    ensures { IfOk result (λ books. AreBooks net.now starts.now capacities.now books.items) }
{
    let mut books = Vec::new(alloc);
    for k in 0..net.resource_count() {
        books.push(book_of(alloc, net, starts, number_at(capacities, k), k)?)?;
    }
    Ok(books)
}

/// So many units of the resource at place `k`, with the jobs that they serve.
fn book_of(
    alloc: Global,
    net: &Network,
    starts: &[u32],
    count: u32,
    k: usize,
) -> Result<Book, AllocError>
    requires { k < net.now.resources }
    ensures { IfOk result (IsBook net.now starts.now k count) }
{
    let book = shared(alloc, net, starts, count, k)?;
    if is_book(net, starts, count, k, book.units()) {
        Ok(book)
    } else {
        // Jobs that are taken by their starts find enough units, if the starts fit these.
        Err(AllocError)
    }
}

/// Whether these are so many units of the resource at place `k`, and serve each job as it needs it and no two at once.
fn is_book(net: &Network, starts: &[u32], count: u32, k: usize, units: &[Turns]) -> bool
    requires { k < net.now.resources }
    ensures { result ≡ true → IsBook net.now starts.now k count units.now }
{
    units.len() == count as usize && are_in_turn(net, starts, units) && are_enough(net, k, units)
}

/// Whether no unit serves two jobs at once.
fn are_in_turn(net: &Network, starts: &[u32], units: &[Turns]) -> bool
    ensures { result ≡ list_all (are_in_turn net.now starts.now 0) units.now }
{
    for unit in units {
        if !is_in_turn(net, starts, unit.places()) {
            return false;
        }
    }
    true
}

/// Whether the jobs at these places follow one another.
fn is_in_turn(net: &Network, starts: &[u32], places: &[u32]) -> bool
    ensures { result ≡ are_in_turn net.now starts.now 0 places.now }
{
    let mut from = 0;
    for place in places {
        let start = number_at(starts, *place as usize) as u64;
        if start < from {
            return false;
        }
        from = start + duration_at(net, *place as usize) as u64;
    }
    true
}

/// Whether each job has as many units of the resource at place `k` as it needs.
fn are_enough(net: &Network, k: usize, units: &[Turns]) -> bool
    requires { k < net.now.resources }
    ensures { result ≡ true → (i : ℕ) → i < length net.now.jobs → served units.now i ≡ wanted net.now k i }
{
    for i in 0..net.job_count() {
        if served(units, i) != wanted(net, k, i) as usize {
            return false;
        }
    }
    true
}

/// How many units serve the job at place `i`.
fn served(units: &[Turns], i: usize) -> usize
    ensures { result ≡ served units.now i }
{
    let mut count = 0;
    for unit in units {
        if serves(unit.places(), i) {
            count += 1;
        }
    }
    count
}

/// Whether a unit with jobs at these places serves the one at place `i`.
pub(crate) fn serves(places: &[u32], i: usize) -> bool
    ensures { result ≡ serves places.now i }
{
    for place in places {
        if *place as usize == i {
            return true;
        }
    }
    false
}

/// How many units of the resource at place `k` the job at place `i` has to have.
#[tactic(auto, unfolding(crate::specs::Bookings::wanted))]
pub(crate) fn wanted(net: &Network, k: usize, i: usize) -> u32
    requires { k < net.now.resources }
    ensures { result ≡ wanted net.now k i }
{
    if duration_at(net, i) == 0 {
        0
    } else {
        units_at(net, i, k)
    }
}
