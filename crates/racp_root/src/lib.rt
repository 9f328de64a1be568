//! What is known of an order before a search: its root window and critical length, or why no starts are in time.
//!
//! Jobs and resources stand by place, from 0. Times are whole time units.
//!
//! A `Task` is what plans are made for: an order for a network that has an entry for each resource and each job. Both engines
//! (racp_by_questions, racp_by_clauses), the planner, and whoever checks that a plan is the cheapest begin with its `Opening`:
//!
//! ```text
//! Root { critical, window }   all starts in time lie in the root window: from the early starts to the late ones
//! TooLong { critical }        the critical length exceeds the deadline
//! TooLate { job }             it does not, but the early finish of a job exceeds its due time
//! ```
//!
//! For examples/a.sm with a4.toml, whose deadline is 4, the critical length is 3, and the window lets job 4 start from 0 to 2.
//!
//! Proved: `opening_of` answers the critical length and the root window, or the first reason why there is none (`IsOpening`).
#![tactic(auto)]

mod opening;
mod task;

pub use opening::{Opening, opening_of};
pub use task::Task;
