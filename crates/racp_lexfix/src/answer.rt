//! What planning answers.

ghost use Rattle.racp_model.specs.Path.{IsCriticalLength};
ghost use Rattle.racp_model.specs.Plan.{IsPlan};
ghost use Rattle.racp_model.specs.Terms.{release_of};
ghost use Rattle.racp_lexfix.specs.Answers.{IsAnswer};
ghost use Rattle.racp_lexfix.specs.declared.answer.Answer.TheVariants.{Plan as ThePlan};

use racp_model::{Capacities, Starts};
use racp_plan::Plan;
use racp_prices::cost_of;
use racp_root::Task;

/// The plan of an order, or why there is none: the first of the reasons that holds, in this order.
#[derive(Drop)]
pub enum Answer {
    /// The plan: the cheapest capacities under which the project ends in time, of those that cost the same the
    /// lexicographically least, and under them the lexicographically least start vector.
    Plan(Plan),
    /// The critical length, in time units, exceeds the deadline.
    Impossible {
        /// The critical length.
        longest: u64,
    },
    /// The early finish of a job exceeds its due time.
    Due {
        /// The number of the first such job, from 1.
        job: u32,
    },
    /// No capacities within the ceilings are enough.
    Ceiling,
}

/// The plan of an order with these capacities and starts, which are the plan's, and this critical length, in time units.
pub fn plan_of(task: &Task, critical: u64, capacities: Capacities, starts: Starts) -> Plan
    requires critical { IsCriticalLength task.now.net.now (release_of task.now.order.now) critical }
    requires plan { IsPlan task.now.net.now task.now.order.now capacities starts }
    ensures { IsAnswer task.now.net.now task.now.order.now (ThePlan result) }
{
    let order = task.order;
    let cost = cost_of(task.net, order, capacities.as_slice());
    Plan {
        deadline: order.deadline,
        critical,
        cost,
        capacities,
        starts,
    }
}
