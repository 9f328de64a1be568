//! What planning a case came to.

ghost use Rattle.std.specs.Prelude.{◌≡◌};
ghost use Rattle.racp_batch.specs.Rows.{is_open};

use racp_whatif::Outcome;

/// How much work was done for a plan, and what was heard of it meanwhile. No clause speaks of nodes, conflicts and time.
#[derive(Clone, Copy)]
pub struct Work {
    /// What the cheapest plan costs that was known, if one was.
    pub best: Option<u64>,
    /// What each plan costs at least, as far as it was told.
    pub bound: u64,
    /// How many nodes the search has looked at.
    pub nodes: u64,
    /// How many conflicts a search that learns has met.
    pub conflicts: u64,
    /// How many thousandths of a second it took, if the clock could be read.
    pub milliseconds: Option<u64>,
}

/// What became of the order of a case.
#[derive(Drop)]
pub struct Answered {
    /// How many jobs the network has.
    pub jobs: usize,
    /// How many resources it has.
    pub resources: usize,
    /// The deadline of the order, in time units.
    pub deadline: u32,
    /// Its plan, why it has none, or what each plan costs at least.
    pub outcome: Outcome,
    /// How much work was done.
    pub work: Work,
}

/// What planning a case came to.
#[derive(Drop)]
pub enum Row {
    /// The order has this outcome.
    Answered(Answered),
    /// There is no order, since its deadline would be later than 10,000,000.
    Late {
        /// How many jobs the network has.
        jobs: usize,
        /// How many resources it has.
        resources: usize,
    },
    /// The file has no network.
    Refused,
    /// Memory was refused.
    Memory,
    /// No thread could be started.
    NoThread,
}

impl Row {
    /// Whether it leaves a plan open.
    pub(crate) fn is_open(&self) -> bool
        ensures { result ≡ is_open self.now }
    {
        match self {
            Row::Answered(answered) => matches!(&answered.outcome, Outcome::Open { .. }),
            Row::Late { .. } => false,
            Row::Refused => false,
            Row::Memory => false,
            Row::NoThread => false,
        }
    }
}
