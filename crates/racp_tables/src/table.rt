//! Tables of tasks.

use crate::heading::Heading;
use crate::warning::Warning;
use racp_model::Job;

/// A table of tasks. Tasks are numbered from 1, and waiting jobs, each of a link with a lag, behind all tasks.
#[derive(Drop)]
pub struct Table {
    /// The name of each task and waiting job.
    pub names: Vec<String>,
    /// The phases, as headings above the names of tasks, in the order of these.
    pub headings: Vec<Heading>,
    /// The name of each resource.
    pub resources: Vec<String>,
    /// How long each task or waiting job takes, and what it needs of each resource.
    pub jobs: Vec<Job>,
    /// The numbers of two jobs, of which the second comes after the first.
    pub pairs: Vec<(u32, u32)>,
    /// The time from which each job may start, if the table says that of tasks; 0 if it does not of this one.
    pub earliest: Option<Vec<u32>>,
    /// The time by which each job has to end, if the table says that of tasks; `LATEST_TIME` if it does not of this one.
    pub due: Option<Vec<u32>>,
    /// What else is told of the table.
    pub notes: Notes,
}

/// What is told of a table that is taken.
#[derive(Drop)]
pub struct Notes {
    /// How many tasks there are; the jobs behind them wait.
    pub tasks: usize,
    /// How many phases there are.
    pub phases: usize,
    /// Whether a time unit is half a day, so that durations and times were doubled.
    pub is_half_day: bool,
    /// The titles of columns that were passed over.
    pub passed_over: Vec<String>,
    /// What looks wrong.
    pub warnings: Vec<Warning>,
}
