//! Needs above the ceilings of an order.

ghost use Rattle.std.specs.Prelude.{[], ◌∷◌, ◌≡◌, ◌++◌, ◌<◌, IfOk, OnOk, length};
ghost use Rattle.racp_model.specs.Project.{number};
ghost use Rattle.racp_model.specs.Terms.{AreTermsOf};
ghost use Rattle.racp_whatif.specs.Needs.{IsNeedAnswer};
ghost use Rattle.racp_whatif.specs.Within.{IsFound};

use crate::joint::joint_above;
use crate::single::single_above;
use racp_model::{Network, Window};
use racp_prices::Order;
use racp_root::{Opening, opening_of};
use std::alloc::{AllocError, Global};

/// Units of a resource that some jobs use together at some time, however all jobs start in time.
#[derive(Drop)]
pub struct Need {
    /// The place of the resource, from 0.
    pub place: u32,
    /// How many units they use.
    pub units: u64,
    /// The first time at which that may be.
    pub from: u64,
    /// The first time behind these.
    pub until: u64,
    /// The numbers of the jobs, from 1, in rising order.
    pub jobs: Vec<u32>,
}

/// A need of more units than an order may have; or `None` if there are no ceilings, no starts are in time, or none is
/// seen by the requests and by the least work at some times.
///
/// # Errors
///
/// Memory was refused.
pub(crate) fn need_above(
    alloc: Global,
    net: &Network,
    order: &Order,
) -> Result<Option<Need>, AllocError>
    requires { AreTermsOf net.now order.now }
    ensures { IfOk result (IsNeedAnswer net.now order.now) }
{
    let Some(ceilings) = &order.ceilings else {
        return Ok(None);
    };
    match opening_of(alloc, net, order)? {
        Opening::Root { window, .. } => need_within(alloc, net, &window, ceilings),
        _ => Ok(None),
    }
}

/// A need of more units than these ceilings, for starts in a window.
fn need_within(
    alloc: Global,
    net: &Network,
    window: &Window,
    ceilings: &[u32],
) -> Result<Option<Need>, AllocError>
    requires lower { length window.now.lower ≡ length net.now.jobs }
    requires upper { length window.now.upper ≡ length net.now.jobs }
    requires ceilings { length ceilings.now ≡ net.now.resources }
    ensures { IfOk result (IsFound net.now window.now ceilings.now) }
{
    match single_above(alloc, net, window, ceilings)? {
        Some(need) => Ok(Some(need)),
        None => joint_above(alloc, net, window, ceilings),
    }
}

/// Adds the number of a job.
pub(crate) fn push_job(jobs: &mut Vec<u32>, i: usize) -> Result<(), AllocError>
    requires { i < 512 }
    ensures { OnOk result (jobs.new.items ≡ jobs.old.items ++ number i ∷ []) }
{
    jobs.push(i as u32 + 1)?;
    Ok(())
}
