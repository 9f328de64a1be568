//! Steps that a derivation takes.

ghost use Rattle.std.specs.Prelude.{◌≡◌};
ghost use Rattle.racp_model.specs.Terms.{AreTermsOf};

use crate::analysis::Hint;
use crate::bound::{Bound, Why};
use crate::recorder::Recorder;
use crate::rows::{short, stored};
use crate::trail::Entry;
use racp_clauses::{Clause, Derivation, Literal, OfProblem, Times};
use racp_model::Network;
use racp_prices::Order;

/// A bound as the literal of a clause, if it can be said.
pub(crate) fn literal_of(bound: Bound) -> Option<Literal> {
    let x = bound.side / 2;
    if bound.is_lower() {
        let value = u64::try_from(bound.value).ok()?;
        return Some(Literal::AtLeast(x, value));
    }
    let value = u64::try_from(bound.value.wrapping_neg()).ok()?;
    Some(Literal::AtMost(x, value))
}

/// Takes a step.
pub(crate) fn apply<N: OfProblem>(
    net: &Network,
    order: &Order,
    clauses: &[Option<Clause<N>>],
    derivation: &mut Derivation<N>,
    hint: Hint,
)
    requires named { net.now ≡ N.problem.network }
    requires terms { order.now ≡ N.problem.terms }
    requires fit { AreTermsOf net.now order.now }
{
    let x = hint.bound.variable();
    let resource = hint.resource as usize;
    let times = Times {
        from: u64::from(hint.from),
        until: u64::from(hint.until),
    };
    match hint.why {
        Why::Decision => {}
        Why::Arc(arc) => derivation.precedence(net, arc as usize),
        Why::Usage(_) => derivation.time_table(net, x, resource, times),
        Why::Peak(_) | Why::Energy(..) => derivation.energy(net, resource, times),
        Why::Cost if x == net.job_count() + net.resource_count() => derivation.cost(net, order),
        Why::Cost => derivation.units(net, order, resource),
        Why::Clause(number) => {
            if let Some(Some(clause)) = clauses.get(number as usize) {
                derivation.clause(clause);
            }
        }
    }
}

/// Takes the step of a bound that follows without a decision. A bound by core usage has no resource: each is tried, and
/// those that change nothing are not recorded.
pub(crate) fn apply_entry<N: OfProblem>(
    net: &Network,
    order: &Order,
    clauses: &[Option<Clause<N>>],
    derivation: &mut Derivation<N>,
    entry: &Entry,
    recorder: &mut Recorder,
)
    requires named { net.now ≡ N.problem.network }
    requires terms { order.now ≡ N.problem.terms }
    requires fit { AreTermsOf net.now order.now }
{
    for k in 0..net.resource_count() {
        let is_tried = match entry.why {
            Why::Usage(_) => true,
            Why::Peak(_) | Why::Energy(..) => net.job_count() + k == entry.bound.variable(),
            Why::Cost => {
                let x = entry.bound.variable();
                net.job_count() + k == x || k == 0 && net.job_count() + net.resource_count() == x
            }
            _ => k == 0,
        };
        if is_tried {
            let hint = hint_of(net, entry, stored(k));
            let before = standing(derivation, hint.bound);
            apply(net, order, clauses, derivation, hint);
            let is_same = standing(derivation, hint.bound) == before;
            if !is_same || !matches!(entry.why, Why::Usage(_)) {
                recorder.take(net, hint);
            }
        }
    }
}

/// Where the side of a bound stands; `None` where nothing is left.
fn standing<N: OfProblem>(derivation: &Derivation<N>, bound: Bound) -> Option<u64> {
    if derivation.is_empty() {
        return None;
    }
    if bound.is_lower() {
        Some(derivation.bounds().lower_at(bound.variable()))
    } else {
        Some(derivation.bounds().upper_at(bound.variable()))
    }
}

/// The step of a bound, with a resource: over all the times that it names.
fn hint_of(net: &Network, entry: &Entry, resource: u32) -> Hint {
    let value = entry.bound.value;
    let (mut from, mut until) = (0, 0);
    match entry.why {
        Why::Usage(time) if entry.bound.is_lower() => {
            from = time;
            until = short(value);
        }
        Why::Usage(time) => {
            let duration = duration_of(net, entry.bound.variable());
            from = short(duration.wrapping_sub(value));
            until = time;
        }
        Why::Peak(time) => {
            from = time;
            until = time.wrapping_add(1);
        }
        Why::Energy(first, behind) => {
            from = first;
            until = behind;
        }
        _ => {}
    }
    Hint {
        bound: entry.bound,
        why: entry.why,
        resource,
        from,
        until,
    }
}

/// How long a job runs.
fn duration_of(net: &Network, job: usize) -> i64 {
    if job < net.job_count() {
        i64::from(net.duration(job))
    } else {
        0
    }
}
