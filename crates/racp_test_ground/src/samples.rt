//! Small networks by name, also with capacities and starts.

ghost use Rattle.std.specs.Prelude.{◌≡◌, IfOk, length};

use racp_model::{Capacities, NetFault, Network, Starts};
use racp_samples::{SampleFault, chained, crossed, network, parallel};
use std::alloc::Global;

/// A small network.
#[derive(Clone, Copy)]
pub(crate) enum Sample {
    /// The five jobs beside each other.
    Parallel,
    /// The six jobs with two resources.
    Crossed,
    /// The six jobs with a chain.
    Chained,
    /// These jobs with this many resources, by their durations and requests, without precedence.
    Free(usize, &'static [(u32, &'static [u32])]),
}

/// The network of a sample.
pub(crate) fn sampled(alloc: Global, sample: Sample) -> Result<Network, NetFault> {
    match sample {
        Sample::Parallel => parallel(alloc),
        Sample::Crossed => crossed(alloc),
        Sample::Chained => chained(alloc),
        Sample::Free(resources, jobs) => network(alloc, resources, jobs, &[]),
    }
}

/// A network with capacities and starts.
#[derive(Drop)]
pub(crate) struct Setting {
    pub(crate) net: Network,
    pub(crate) capacities: Capacities,
    pub(crate) starts: Starts,
}

/// The network of a sample with a capacity for each resource and a start for each job.
pub(crate) fn set_up(
    alloc: Global,
    sample: Sample,
    capacities: &[u32],
    starts: &[u32],
) -> Result<Setting, SampleFault>
    ensures capacities { IfOk result (λ setting. length setting.capacities ≡ setting.net.resources) }
    ensures starts { IfOk result (λ setting. length setting.starts ≡ length setting.net.jobs) }
{
    let capacities = Capacities::new(capacities.to_vec(alloc)?);
    let starts = Starts::new(starts.to_vec(alloc)?);
    let net = sampled(alloc, sample)?;
    if capacities.as_slice().len() != net.resource_count()
        || starts.as_slice().len() != net.job_count()
    {
        return Err(SampleFault::NoSample);
    }
    Ok(Setting {
        net,
        capacities,
        starts,
    })
}
