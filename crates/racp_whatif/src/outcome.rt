//! What becomes of a changed order.

ghost use Rattle.std.specs.Prelude.{◌≡◌};
ghost use Rattle.std.specs.List.{list_all};
ghost use Rattle.racp_whatif.specs.Outcomes.{is_known};

use crate::change::Change;
use crate::need::Need;
use racp_plan::Plan;

/// What becomes of an order.
#[derive(Drop)]
pub enum Outcome {
    /// It has this plan.
    Plan(Plan),
    /// It has none: the critical length, in time units, exceeds the deadline.
    TooLong {
        /// The critical length.
        critical: u64,
    },
    /// It has none: the early finish of a job exceeds its due time.
    TooLate {
        /// The number of the first such job, from 1.
        job: u32,
    },
    /// It has none: no capacities within the ceilings are enough.
    NoneEnough {
        /// What is needed above a ceiling, if that is seen without a search.
        need: Option<Need>,
    },
    /// Its plan is not known, since planning was stopped.
    Open {
        /// What each plan costs at least.
        least: u64,
    },
}

/// A change of an order, and what becomes of it.
#[derive(Drop)]
pub struct Finding {
    /// The change.
    pub change: Change,
    /// What becomes of the order.
    pub outcome: Outcome,
}

impl Finding {
    /// Whether what becomes of the order is known.
    fn is_known(&self) -> bool
        ensures { result ≡ is_known self.now }
    {
        !matches!(&self.outcome, Outcome::Open { .. })
    }
}

/// Whether what becomes of the order is known for each of these.
pub fn are_known(findings: &[Finding]) -> bool
    ensures { result ≡ list_all is_known findings.now }
{
    findings.iter().all(|finding| finding.is_known())
}
