//! What is said of the resources.

ghost use Rattle.std.specs.Prelude.{◌≡◌, ◌<◌, IfOk, length};
ghost use Rattle.racp_model.specs.Terms.{AreTermsOf};
ghost use Rattle.racp_model.specs.Plan.{FitsTerms};
ghost use Rattle.racp_charts.specs.Choices.{AreChoices, IsChoice};

use racp_model::Network;
use racp_plan::Plan;
use racp_prices::Order;
use racp_show::{Names, Step, busy_percent, usage_steps};
use std::alloc::{AllocError, Global};

/// What is said of a resource.
#[derive(Drop)]
pub struct Choice<'a> {
    /// Its number, from 1.
    pub resource: usize,
    /// Its name, or `None` if it has none.
    pub name: Option<&'a str>,
    /// How many units there are.
    pub units: u32,
    /// What a unit of it costs.
    pub price: u32,
    /// How many units are owned already.
    pub owned: u32,
    /// How busy it is, in percent, rounded down.
    pub busy: u64,
    /// From which time on how many units are used.
    pub usage: Vec<Step>,
}

/// What is said of each resource.
pub(crate) fn choices_of<'a>(
    alloc: Global,
    net: &Network,
    order: &Order,
    plan: &Plan,
    names: &'a Names,
) -> Result<Vec<Choice<'a>>, AllocError>
    requires terms { AreTermsOf net.now order.now }
    requires capacities { length plan.now.capacities ≡ net.now.resources }
    requires fits { FitsTerms net.now order.now plan.now.capacities plan.now.starts }
    ensures { IfOk result (λ choices. AreChoices net.now order.now plan.now names.now choices.items) }
{
    let mut choices = Vec::new(alloc);
    for k in 0..net.resource_count() {
        choices.push(choice_of(alloc, net, order, plan, names, k)?)?;
    }
    Ok(choices)
}

/// What is said of the resource at place `k`.
fn choice_of<'a>(
    alloc: Global,
    net: &Network,
    order: &Order,
    plan: &Plan,
    names: &'a Names,
    k: usize,
) -> Result<Choice<'a>, AllocError>
    requires resource { k < net.now.resources }
    requires terms { AreTermsOf net.now order.now }
    requires capacities { length plan.now.capacities ≡ net.now.resources }
    requires fits { FitsTerms net.now order.now plan.now.capacities plan.now.starts }
    ensures { IfOk result (IsChoice net.now order.now plan.now names.now k) }
{
    prove!(k < net.resource_count());
    let deadline = order.deadline;
    let usage = usage_steps(alloc, net, plan.starts.as_slice(), k, deadline)?;
    let units = plan.capacities.as_slice()[k];
    let busy = busy_percent(net, k, units, deadline);
    let name = names.resource(net.job_count(), k);
    Ok(Choice {
        resource: k + 1,
        name,
        units,
        price: order.prices[k],
        owned: order.owned[k],
        busy,
        usage,
    })
}
