//! The steps of a curve, and what making a curve answers.

ghost use Rattle.std.specs.Prelude.{◌≡◌, []};
ghost use Rattle.racp_by_questions.specs.declared.stop.PlanStop.TheVariants.{Memory};

use racp_lexfix::{Answer, PlanStop};
use racp_model::Capacities;
use std::alloc::Global;

/// A step of a curve: from its deadline up to that of the next step, the plan has these capacities.
#[derive(Drop)]
pub struct Step {
    /// The first deadline of the step, in time units.
    pub deadline: u32,
    /// What the capacities cost.
    pub cost: u64,
    /// How many units there are of each resource, by place from 0.
    pub capacities: Capacities,
}

/// The curve of an order, or why there is none.
#[derive(Drop)]
pub enum CurveAnswer {
    /// The steps, one or more, by rising deadline. For each deadline before the first of them there is no plan.
    Steps(Vec<Step>),
    /// There is no plan for the order's own deadline, for this reason, and so for none before it.
    NoPlan(Answer),
}

/// Where following a curve ended early.
#[derive(Drop)]
pub struct CurveStop {
    /// The steps so far, by rising deadline: right for each deadline from the first of them up to the order's.
    pub steps: Vec<Step>,
    /// Why no more are known. If the search was stopped, no capacities that are enough for a deadline before the first
    /// step stand before those that it tells.
    pub stop: PlanStop,
}

/// That memory was refused before there were steps.
pub(crate) fn out_of_memory(alloc: Global) -> CurveStop
    ensures steps { result.steps.items ≡ [] }
    ensures stop { result.stop ≡ Memory }
{
    let steps = Vec::new(alloc);
    let stop = PlanStop::Memory;
    CurveStop { steps, stop }
}
