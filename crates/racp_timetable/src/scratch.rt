//! Memory that is used again from window to window.

ghost use Rattle.std.specs.Prelude.{◌≤◌, length};

use crate::core_times::Loads;
use racp_model::Network;
use racp_model::limits::MOST_RESOURCES;
use std::alloc::Global;
use std::cmp::max;

/// What is used again from window to window of a network: the largest request for each resource, by place from 0, and
/// a row of times.
#[derive(Drop)]
pub struct Scratch {
    pub(crate) largest: Loads,
    pub(crate) times: Vec<u32>,
}

impl Scratch {
    /// For the windows of this network. Takes no memory until it is used.
    pub fn new(alloc: Global, net: &Network) -> Self {
        let mut largest = [0; MOST_RESOURCES];
        for i in 0..net.job_count() {
            if net.duration(i) > 0 {
                raise_to(&mut largest, net.requests(i));
            }
        }
        Scratch {
            largest,
            times: Vec::new(alloc),
        }
    }
}

/// Raises each of the loads to a request.
fn raise_to(loads: &mut Loads, requests: &[u32])
    requires { length requests.now ≤ 16 }
{
    for k in 0..requests.len() {
        loads[k] = max(loads[k], requests[k]);
    }
}
