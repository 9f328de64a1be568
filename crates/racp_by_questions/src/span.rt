//! Boxes of vectors, and their halves.

ghost use Rattle.std.specs.Prelude.{◌≡◌, ℕ, ◌<◌, ◌≤◌, [], ◌∷◌, ◌++◌, IfOk, length, slice_index};
ghost use Rattle.racp_by_questions.specs.Searched.{AreHalved, IsWidest};

use racp_model::Capacities;
use racp_prices::Order;
use std::alloc::AllocError;

/// The vectors from a low to a high one, resource by resource.
#[derive(Drop)]
pub(crate) struct Span {
    pub(crate) low: Capacities,
    pub(crate) high: Capacities,
}

impl Span {
    /// From copies of these vectors.
    pub(crate) fn of(low: &Capacities, high: &Capacities) -> Result<Self, AllocError>
        ensures { IfOk result (λ span. span ≡ record { low = low.now; high = high.now }) }
    {
        let low = low.copy()?;
        let high = high.copy()?;
        Ok(Span { low, high })
    }

    /// A copy.
    pub(crate) fn copy(&self) -> Result<Self, AllocError>
        ensures { IfOk result (λ copy. copy ≡ self.now) }
    {
        Span::of(&self.low, &self.high)
    }
}

/// Puts a copy of a box after others.
pub(crate) fn push_copy(pending: &mut Vec<Span>, span: &Span) -> Result<(), AllocError>
    ensures { IfOk result (λ _. pending.new.items ≡ pending.old.items ++ span.now ∷ []) }
{
    pending.push(span.copy()?)?;
    Ok(())
}

/// The two halves of a box, cut to these high numbers, along the resource at place `k`: that with fewer units, and the
/// other one.
pub(crate) fn halved(span: Span, high: Capacities, k: usize) -> Result<(Span, Span), AllocError>
    requires low { k < length span.low }
    requires high { length high ≡ length span.low }
    requires several { slice_index span.low k < slice_index high k }
    ensures { IfOk result (AreHalved span.low high k) }
{
    let middle = middle_of(span.low.as_slice(), high.as_slice(), k);
    prove!(middle < high.as_slice()[k]);
    let below = Span {
        low: span.low.copy()?,
        high: high.copy()?.with_units(k, middle),
    };
    let above = Span {
        low: span.low.with_units(k, middle + 1),
        high,
    };
    Ok((below, above))
}

/// The resource, by place from 0, whose units from the low to the high number cost most; `None` if there is one
/// vector from the low to the high one.
pub(crate) fn widest(order: &Order, low: &Capacities, high: &Capacities) -> Option<usize>
    requires prices { length order.now.prices ≡ length low.now }
    requires high { length high.now ≡ length low.now }
    requires bounds { (k : ℕ) → k < length low.now → slice_index low.now k ≤ slice_index high.now k }
    ensures { IsWidest (length low.now) low.now high.now result }
{
    let (low, high) = (low.as_slice(), high.as_slice());
    let mut widest = None;
    let mut most = 0;
    for k in 0..low.len() {
        let cost = (high[k] - low[k]) as u64 * order.prices[k] as u64;
        if low[k] < high[k] && (widest.is_none() || most < cost) {
            widest = Some(k);
            most = cost;
        }
    }
    widest
}

/// The greatest number of units in the lower half of those of one resource.
fn middle_of(low: &[u32], high: &[u32], k: usize) -> u32
    requires low { k < length low.now }
    requires high { k < length high.now }
    requires several { slice_index low.now k < slice_index high.now k }
    ensures from { slice_index low.now k ≤ result }
    ensures to { result < slice_index high.now k }
{
    low[k] + (high[k] - low[k]) / 2
}
