//! Bounds that follow along precedence and by prices.

use crate::bound::{Bound, Why};
use crate::problem::Problem;
use crate::trail::{Entry, Trail};

/// Puts what follows from a bound that was put, and says whether there is no conflict.
pub(crate) fn follow(problem: &Problem, trail: &mut Trail, entry: &Entry) -> bool {
    let x = entry.bound.variable();
    if problem.jobs <= x {
        follow_prices(problem, trail)
    } else if entry.bound.is_lower() {
        follow_behind(problem, trail, x, entry.bound.value)
    } else {
        follow_before(problem, trail, x, entry.bound.value.wrapping_neg())
    }
}

/// The jobs behind one start when it has ended at the earliest.
fn follow_behind(problem: &Problem, trail: &mut Trail, job: usize, start: i64) -> bool {
    let end = start.wrapping_add(problem.duration(job));
    for link in problem.behind.of(job) {
        let bound = Bound::at_least(link.job as usize, end);
        if !trail.put(bound, Why::Arc(link.arc)) {
            return false;
        }
    }
    true
}

/// The jobs before one start early enough for it.
fn follow_before(problem: &Problem, trail: &mut Trail, job: usize, start: i64) -> bool {
    for link in problem.before.of(job) {
        let before = link.job as usize;
        let bound = Bound::at_most(before, start.wrapping_sub(problem.duration(before)));
        if !trail.put(bound, Why::Arc(link.arc)) {
            return false;
        }
    }
    true
}

/// The cost is at least that of the least units; and the units are at most what the greatest cost leaves for them.
fn follow_prices(problem: &Problem, trail: &mut Trail) -> bool {
    let mut least = 0i64;
    for k in 0..problem.resources {
        least = least.wrapping_add(problem.price_of(k, trail.lower(problem.units(k))));
    }
    if !trail.put(Bound::at_least(problem.cost(), least), Why::Cost) {
        return false;
    }
    let left = trail.upper(problem.cost()).wrapping_sub(least);
    for k in 0..problem.resources {
        if !follow_price(problem, trail, k, left) {
            return false;
        }
    }
    true
}

/// The units of a resource are at most those that are paid for, where so much is left beside the least ones.
fn follow_price(problem: &Problem, trail: &mut Trail, k: usize, left: i64) -> bool {
    let price = problem.price(k);
    if price <= 0 {
        return true;
    }
    let x = problem.units(k);
    let most = left.wrapping_add(problem.price_of(k, trail.lower(x)));
    let units = problem.owned(k).wrapping_add(most / price);
    trail.put(Bound::at_most(x, units), Why::Cost)
}
