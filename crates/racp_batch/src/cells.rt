//! What stands in the cells of a row.

ghost use Rattle.std.specs.Prelude.{◌≡◌, option_map};
ghost use Rattle.racp_batch.specs.Lines.{answered_cells, cells_of, gap, open_cells, outcome_cells, plan_cells, sized, status_word};

use crate::row::{Answered, Row, Work};
use racp_whatif::Outcome;

/// What came of a case, in a word.
#[derive(Clone, Copy)]
pub(crate) enum Status {
    /// The plan is known.
    Optimal,
    /// There is no plan.
    Impossible,
    /// Planning was stopped.
    Stopped,
    /// There is no network, or no order.
    Refused,
    /// Memory was refused.
    Memory,
    /// No thread could be started.
    NoThread,
}

impl Status {
    /// The word.
    pub(crate) fn word(self) -> &'static str
        ensures { result.now ≡ status_word self }
    {
        match self {
            Status::Optimal => "optimal",
            Status::Impossible => "impossible",
            Status::Stopped => "stopped",
            Status::Refused => "refused",
            Status::Memory => "memory",
            Status::NoThread => "no thread",
        }
    }
}

/// The status of a row, and its numbers; those that are not known have an empty cell.
#[derive(Clone, Copy)]
pub(crate) struct Cells {
    pub(crate) jobs: Option<u128>,
    pub(crate) resources: Option<u128>,
    pub(crate) deadline: Option<u128>,
    pub(crate) status: Status,
    pub(crate) cost: Option<u128>,
    pub(crate) bound: Option<u128>,
    pub(crate) best: Option<u128>,
    pub(crate) gap: Option<u128>,
    pub(crate) nodes: Option<u128>,
    pub(crate) conflicts: Option<u128>,
    pub(crate) milliseconds: Option<u64>,
}

/// The cells of a row.
pub(crate) fn cells_of(row: &Row) -> Cells
    ensures { result ≡ cells_of row.now }
{
    match row {
        Row::Answered(answered) => answered_cells(answered),
        Row::Late { jobs, resources } => sized(
            Some(*jobs as u128),
            Some(*resources as u128),
            Status::Refused,
        ),
        Row::Refused => sized(None, None, Status::Refused),
        Row::Memory => sized(None, None, Status::Memory),
        Row::NoThread => sized(None, None, Status::NoThread),
    }
}

/// The cells of a row with such a network and status, of which no more is known.
fn sized(jobs: Option<u128>, resources: Option<u128>, status: Status) -> Cells
    ensures { result ≡ sized jobs resources status }
{
    Cells {
        jobs,
        resources,
        deadline: None,
        status,
        cost: None,
        bound: None,
        best: None,
        gap: None,
        nodes: None,
        conflicts: None,
        milliseconds: None,
    }
}

/// The cells of a row with an outcome.
fn answered_cells(row: &Answered) -> Cells
    ensures { result ≡ answered_cells row.now }
{
    Cells {
        jobs: Some(row.jobs as u128),
        resources: Some(row.resources as u128),
        deadline: Some(row.deadline as u128),
        nodes: Some(row.work.nodes as u128),
        conflicts: Some(row.work.conflicts as u128),
        milliseconds: row.work.milliseconds,
        ..outcome_cells(&row.outcome, &row.work)
    }
}

/// The cells that tell of an outcome.
fn outcome_cells(outcome: &Outcome, work: &Work) -> Cells
    ensures { result ≡ outcome_cells outcome.now work.now }
{
    match outcome {
        Outcome::Plan(plan) => plan_cells(plan.cost),
        Outcome::TooLong { .. } => sized(None, None, Status::Impossible),
        Outcome::TooLate { .. } => sized(None, None, Status::Impossible),
        Outcome::NoneEnough { .. } => sized(None, None, Status::Impossible),
        Outcome::Open { least } => open_cells(*least, work),
    }
}

/// The cells for a plan that costs so much.
fn plan_cells(cost: u64) -> Cells
    ensures { result ≡ plan_cells cost }
{
    let cost = Some(cost as u128);
    Cells {
        cost,
        bound: cost,
        best: cost,
        gap: Some(0),
        ..sized(None, None, Status::Optimal)
    }
}

/// The cells if planning was stopped, and each plan costs at least so much.
fn open_cells(least: u64, work: &Work) -> Cells
    ensures { result ≡ open_cells least work.now }
{
    let bound = least.max(work.bound);
    Cells {
        bound: Some(bound as u128),
        best: widened(work.best),
        gap: gap_of(work.best, bound),
        ..sized(None, None, Status::Stopped)
    }
}

/// The same number, if there is one.
fn widened(number: Option<u64>) -> Option<u128>
    ensures { result ≡ number }
{
    match number {
        Some(number) => Some(number as u128),
        None => None,
    }
}

/// By how many percent of the bound a cost exceeds it, if there is one.
fn gap_of(best: Option<u64>, bound: u64) -> Option<u128>
    ensures { result ≡ option_map (λ best. gap best bound) best }
{
    match best {
        Some(best) => Some(gap(best, bound)),
        None => None,
    }
}

/// By how many percent of the bound a cost exceeds it, rounded down; of 1 if the bound is 0.
pub fn gap(best: u64, bound: u64) -> u128
    ensures { result ≡ gap best bound }
{
    let excess = best.saturating_sub(bound) as u128;
    excess * 100 / bound.max(1) as u128
}
