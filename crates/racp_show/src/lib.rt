//! Shows a plan as a chart in text, as JSON, or as a table of comma-separated values.
//!
//! Jobs and resources are numbered from 1; their places in lists count from 0. Times are whole time units from 0 on.
//!
//! `chart_text` draws a bar for each task from its start to its end, and for each resource how much of it is used at
//! which times:
//!
//! ```text
//! deadline 47, critical length 40, cost 137
//!
//!                    0         10        20        30        40
//!                    |         |         |         |         |
//! Excavation         ████                                             0..4
//! Foundations            ██████                                       4..10
//! ..
//! Handover                                                         █  46..47
//!
//! Masons             ▄▄▄▄▇▇▇▇▇▇▅▅▅▅▅▅▅▅▅▅████████▇▇▇▇▇▂▇▇▇▇▇▇▇▇▇      5 units, 67% busy
//! ```
//!
//! A long project has more times than a line has columns. So a column stands for a span of time units, the least with
//! which the columns up to the deadline are few enough: column c stands for the times from c * span to before (c + 1) *
//! span. A job that runs from s to e is drawn in the columns from s / span to (e - 1) / span, rounded down; a job of
//! duration 0 is a mark in column s / span. The usage that a column shows is the greatest at its times. With 20 columns
//! for a deadline of 47, the span is 3: a job from 4 to 10 is drawn in the columns 1, 2 and 3.
//!
//! A usage rises only where a job starts. So the greatest usage of a column is that at its first time, or at one of the
//! starts in it; and a usage as a list of steps goes from one start or end to the next. Neither work nor texts grow
//! with the deadline.
//!
//! `chart_of` makes the values that are drawn, and `chart_text` only writes them down. In the same way `sheet_of` makes
//! the numbers of `json_text` and `csv_text`. `Names` holds what the jobs and resources are called; whatever has no name
//! goes by its number, as `job 3`. `Outline` holds the rest of a names file: the phases in which the tasks stand, and which
//! jobs are tasks. The others only wait, for links with lags. `rows_of` gives the rows of a chart of tasks: the phases, and
//! of each task how much room it has and what it waits for. If the jobs 1 to 3 are tasks, and job 4 waits 2 time units
//! between job 1 and job 3, then job 3 waits for job 1 with a lag of 2.
//!
//! Proved: a scale has the least span; the bar of each row is its start and end in that scale, and these are the
//! plan's; the usage in a column is the greatest at its times; how busy a resource is, is exact and rounded down; the
//! steps of a usage are exact at all times; each number and each name of a sheet is the plan's, the order's or the one
//! that was given, and slack is by the late starts; the names, the phases and the tasks of a text are exactly those that its
//! lines tell, and the rows of an outline exactly its phases and tasks; and `csv_text` gives exactly the table of a sheet. In
//! `laws`: a job is drawn in exactly the columns in whose times it runs, and in no column that is not there. All of them return. Tested
//! alone: how charts in text are laid out, and the text of the JSON, which rests on what `serde` derives. Whether a plan is
//! right is not looked at here: racp_check does.
#![tactic(auto)]

mod cells;
mod chart;
mod entry;
mod form;
mod json;
mod label;
mod latest;
pub mod laws;
mod lines;
mod names;
mod order;
mod outline;
mod predecessor;
mod row;
mod scale;
mod sheet;
mod table;
mod task;
mod text;
mod text_rows;
mod times;
mod titles;
mod usage;

pub use chart::{Chart, JobRow, ResourceRow, chart_of};
pub use form::Form;
pub use json::json_text;
pub use label::label_within;
pub use lines::is_name;
pub use names::Names;
pub use outline::Outline;
pub use predecessor::Predecessor;
pub use row::{Row, rows_of};
pub use scale::{Bar, Scale};
pub use sheet::{JobEntry, ResourceEntry, Sheet, sheet_of};
pub use table::csv_text;
pub use task::Task;
pub use text::{LEAST_WIDTH, Lettering, MOST_WIDTH, chart_text};
pub use usage::{Step, busy_percent, greatest_usage, usage_steps};
