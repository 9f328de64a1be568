//! How much of each resource the jobs that stay can use. Where the undecided jobs request even numbers, and an odd
//! number of units is left for them, one unit of it is of no use.

ghost use Rattle.std.specs.Prelude.{◌≡◌, ℕ, ◌+◌, ◌<◌, ◌≤◌, IfOk, All, length, slice_index};
ghost use Rattle.std.specs.Int.{◌∣◌, IsGcd};
ghost use Rattle.racp_model.specs.Project.{place, request, IsNumber};
ghost use Rattle.racp_delay.specs.Found.{IsChoice};
ghost use Rattle.racp_delay.specs.Reach.{AreDivisors, AreRows, IsReach};

use crate::choosing::Choice;
use crate::loads::Loads;
use racp_model::Network;
use racp_model::limits::MOST_RESOURCES;
use std::alloc::AllocError;

/// For each resource, by place from 0, a common divisor of what some jobs request, or 0 if none requests anything.
pub(crate) type Divisors = [u32; MOST_RESOURCES];

/// How much the kept, and undecided jobs that run with them, can use of each resource at the most. The rows have, at
/// the place of a number, the divisors of as many last jobs. Where there is no row for the undecided, it is what is left.
pub(crate) fn reach(choice: &Choice, rows: &[Divisors]) -> Loads
    requires choice { IsChoice choice.now }
    requires rows { AreRows choice.now.net.now choice.now.undecided.now rows.now }
    ensures { (k : ℕ) → k < choice.now.net.now.resources → IsReach choice.now k (slice_index result k) }
{
    let mut most = choice.left;
    let Some(row) = rows.get(choice.undecided.len()) else {
        return most;
    };
    for k in 0..choice.net.resource_count() {
        most[k] = last_multiple(choice.left[k], choice.kept[k], choice.capacities[k], row[k]);
    }
    most
}

/// What can be used at the most of what is left: the greatest number up to the capacity that exceeds what is kept by a
/// multiple of the divisor, if that is less.
fn last_multiple(left: u32, kept: u32, capacity: u32, divisor: u32) -> u32
    requires { kept ≤ left }
    ensures left { result ≤ left }
    ensures most { (load : ℕ) → divisor ∣ load → kept + load ≤ left → kept + load ≤ capacity → kept + load ≤ result }
{
    if divisor == 0 || capacity < kept {
        return kept;
    }
    let last = capacity - (capacity - kept) % divisor;
    if last < left { last } else { left }
}

/// Puts into rows, in place of what was there, the divisors of each number of last jobs, and answers those of all.
pub(crate) fn put_rows(
    net: &Network,
    jobs: &[u32],
    rows: &mut Vec<Divisors>,
) -> Result<Divisors, AllocError>
    requires { All (IsNumber (length net.now.jobs)) jobs.now }
    ensures all { IfOk result (AreDivisors net.now jobs.now) }
    ensures rows { IfOk result (λ _. AreRows net.now jobs.now rows.new.items) }
    ensures count { IfOk result (λ _. length rows.new.items ≡ length jobs.now + 1) }
{
    let Some((job, others)) = jobs.split_first() else {
        rows.clear();
        rows.push([0; MOST_RESOURCES])?;
        return Ok([0; MOST_RESOURCES]);
    };
    let row = put_rows(net, others, rows)?;
    let row = with_requests(net, &row, *job);
    rows.push(row)?;
    Ok(row)
}

/// The divisors, with those of one job more.
fn with_requests(net: &Network, row: &Divisors, job: u32) -> Divisors
    requires { IsNumber (length net.now.jobs) job }
    ensures row { (k : ℕ) → k < net.now.resources → slice_index result k ∣ slice_index row.now k }
    ensures job { (k : ℕ) → k < net.now.resources → slice_index result k ∣ request net.now (place job) k }
{
    let mut divisors = *row;
    let requests = net.requests(job as usize - 1);
    for k in 0..requests.len() {
        divisors[k] = common_divisor(divisors[k], requests[k]);
    }
    divisors
}

/// The greatest common divisor of two numbers.
fn common_divisor(first: u32, second: u32) -> u32
    ensures { IsGcd first second result }
{
    if second == 0 {
        return first;
    }
    common_divisor(second, first % second)
}
