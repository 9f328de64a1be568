//! What can be wrong with a plan that was read.

ghost use Rattle.std.specs.Prelude.{◌≡◌};
ghost use Rattle.racp_check.specs.PlanFaults.{fault_number};

use std::fmt;
use thiserror::Error;

/// What is wrong with a plan: the first of these that holds, in this order. Jobs and resources are numbered from 1, and
/// times are in time units.
#[derive(Clone, Copy, PartialEq, Eq, Drop, Error)]
pub enum PlanFault {
    /// The cost is not that of the capacities at the order's prices, at which owned units are free.
    #[error("the cost is not that of the capacities")]
    Cost,
    /// This job ends after its due time or after the deadline, and none with a smaller number does.
    #[error("job {0} ends too late")]
    Late(u32),
    /// The second job starts before the first has ended, although it is to come after it. Of such pairs it is the
    /// least, by the first job and then by the second.
    #[error("job {1} starts before job {0} has ended")]
    Order(u32, u32),
    /// The jobs use more of this resource than its capacity at this time, the second number. It is the least such time,
    /// and of the resources with too great a usage then the least.
    #[error("resource {0} is used above its capacity at time {1}")]
    Over(u32, u32),
    /// The capacity of this resource is above its ceiling, and that of none with a smaller number is.
    #[error("the capacity of resource {0} is above its ceiling")]
    Ceiling(u32),
    /// This job starts before its release time, and none with a smaller number does.
    #[error("job {0} starts before its release time")]
    Early(u32),
}

impl PlanFault {
    /// The number of the fault, 1 to 6, in the order in which faults are looked for.
    pub fn number(self) -> u8
        ensures { result ≡ fault_number self }
    {
        match self {
            PlanFault::Cost => 1,
            PlanFault::Late(_) => 2,
            PlanFault::Order(_, _) => 3,
            PlanFault::Over(_, _) => 4,
            PlanFault::Ceiling(_) => 5,
            PlanFault::Early(_) => 6,
        }
    }
}

/// Writes the text of `Display`.
impl fmt::Debug for PlanFault {
    fn fmt<W: fmt::Write>(&self, f: &mut fmt::Formatter<W>) -> fmt::Result {
        fmt::Display::fmt(self, f)
    }
}
