//! Windows and questions for tests.

ghost use Rattle.std.specs.Prelude.{◌≡◌, IfOk, length};

use crate::fault::SampleFault;
use racp_cpm::root;
use racp_model::{Capacities, Network, Question, Starts, Window};
use std::alloc::{AllocError, Global};

/// The latest lower bound, and the latest upper bound, that a window has.
const LATEST: (u32, u32) = (20_000_000, 10_000_000);

/// The window of these bounds, which has a lower and an upper one for each job.
///
/// # Errors
///
/// A list has another length, or a bound is greater than those of windows are; or memory was refused.
pub fn window(
    alloc: Global,
    net: &Network,
    lower: &[u32],
    upper: &[u32],
) -> Result<Window, SampleFault>
    ensures lower { IfOk result (λ window. length window.lower ≡ length net.now.jobs) }
    ensures upper { IfOk result (λ window. length window.upper ≡ length net.now.jobs) }
{
    let jobs = net.job_count();
    let small = lower.iter().all(|time| *time <= LATEST.0)
        && upper.iter().all(|time| *time <= LATEST.1);
    if lower.len() != jobs || upper.len() != jobs || !small {
        return Err(SampleFault::NoSample);
    }
    let lower = Starts::new(lower.to_vec(alloc)?);
    Ok(Window::new(lower, Starts::new(upper.to_vec(alloc)?)))
}

/// The question of these capacities and bounds.
///
/// # Errors
///
/// As for `window`, or there are not as many capacities as resources.
pub fn question(
    alloc: Global,
    net: &Network,
    capacities: &[u32],
    lower: &[u32],
    upper: &[u32],
) -> Result<Question, SampleFault>
    ensures capacities { IfOk result (λ asked. length asked.capacities ≡ net.now.resources) }
    ensures lower { IfOk result (λ asked. length asked.window.lower ≡ length net.now.jobs) }
    ensures upper { IfOk result (λ asked. length asked.window.upper ≡ length net.now.jobs) }
{
    if capacities.len() != net.resource_count() {
        return Err(SampleFault::NoSample);
    }
    let window = window(alloc, net, lower, upper)?;
    let capacities = Capacities::new(capacities.to_vec(alloc)?);
    Ok(Question { capacities, window })
}

/// The root window of a deadline, without release and due times.
///
/// # Errors
///
/// The critical length exceeds the deadline; or memory was refused.
pub fn root_window(alloc: Global, net: &Network, deadline: u32) -> Result<Window, SampleFault>
    ensures lower { IfOk result (λ window. length window.lower ≡ length net.now.jobs) }
    ensures upper { IfOk result (λ window. length window.upper ≡ length net.now.jobs) }
{
    match root_by(alloc, net, deadline)? {
        Some(root) => window(alloc, net, root.lower(), root.upper()),
        None => Err(SampleFault::NoSample),
    }
}

fn root_by(alloc: Global, net: &Network, deadline: u32) -> Result<Option<Window>, AllocError> {
    let release = vec![in alloc; 0; net.job_count()]?;
    let due = vec![in alloc; deadline.min(LATEST.1); net.job_count()]?;
    root(alloc, net, &release, &due)
}
