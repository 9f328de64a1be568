//! By what a plan is told.

use racp_calendar::Calendar;
use racp_model::Network;
use racp_show::Names;

/// By what a plan is told: its network, what jobs and resources are called, which days its times are, when jobs start, how many
/// units there are of each resource, and the deadline.
#[derive(Drop)]
pub(crate) struct Ground<'a> {
    pub(crate) net: &'a Network,
    pub(crate) names: &'a Names,
    pub(crate) calendar: Calendar<'a>,
    pub(crate) starts: &'a [u32],
    pub(crate) capacities: &'a [u32],
    pub(crate) deadline: u32,
}
