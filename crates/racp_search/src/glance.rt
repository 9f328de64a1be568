ghost use Rattle.std.specs.Prelude.{◌↔◌, ℕ, ◌<◌, ◌≤◌, ◌≡◌, IsTrue, All, IfOk, length, slice_index};
ghost use Rattle.racp_model.specs.Formed.{HasBounds};
ghost use Rattle.racp_model.specs.Path.{IsEarly};
ghost use Rattle.racp_model.specs.Limits.{most_bound};
ghost use Rattle.racp_search.specs.DepthFirst.{IsQuiet};
ghost use Rattle.racp_search.specs.Glances.{IsGlance};

use crate::workspace::Spare;
use racp_cpm::settle_early;
use racp_delay::{Clash, conflict_from};
use racp_model::{Capacities, Network, Starts, Window};
use std::alloc::AllocError;

/// What the early starts of a window say of it.
#[derive(Drop)]
pub(crate) enum Glance {
    /// Nothing in the window answers: some early start exceeds its upper bound.
    Refuted,
    /// They answer.
    Found(Starts),
    /// They exceed the capacities, first at this conflict.
    Conflict(Starts, Clash),
}

/// Looks at the early starts of a window, which keep the capacities before a time.
pub(crate) fn look_at(
    spare: &mut Spare,
    net: &Network,
    capacities: &Capacities,
    window: &Window,
    from: u32,
) -> Result<Glance, AllocError>
    requires capacities { length capacities.now ≡ net.now.resources }
    requires bounds { HasBounds net.now window.now }
    requires quiet { IsQuiet net.now capacities.now window.now from }
    ensures { IfOk result (IsGlance net.now capacities.now window.now) }
{
    let starts = early_in(spare, net, window.lower())?;
    if !are_below(starts.as_slice(), window.upper()) {
        spare.give_row(starts.into_vec());
        return Ok(Glance::Refuted);
    }
    match conflict_from(net, capacities, &starts, from) {
        Some(first) => Ok(Glance::Conflict(starts, first)),
        None => Ok(Glance::Found(starts)),
    }
}

/// The early starts above lower bounds, in a row that is used again.
pub(crate) fn early_in(
    spare: &mut Spare,
    net: &Network,
    lower: &[u32],
) -> Result<Starts, AllocError>
    requires places { length lower.now ≡ length net.now.jobs }
    requires small { All (λ x. x ≤ most_bound) lower.now }
    ensures { IfOk result (IsEarly net.now (slice_index lower.now)) }
{
    let mut starts = spare.row_of(lower)?;
    settle_early(net, &mut starts);
    Ok(Starts::new(starts))
}

/// Whether no start exceeds its upper bound.
fn are_below(starts: &[u32], upper: &[u32]) -> bool
    requires { length upper.now ≡ length starts.now }
    ensures { IsTrue result ↔ ((i : ℕ) → i < length starts.now → slice_index starts.now i ≤ slice_index upper.now i) }
{
    (0..starts.len()).all(|i| starts[i] <= upper[i])
}
