//! What was wanted at a place, and what is there, as words about the faults of texts, plans and orders.
//!
//! Lines of texts, jobs and resources are numbered from 1; times are whole time units from 0 on.
//!
//! Each function adds to a text what was wanted, then `THERE`, and then what is there. For examples/a.sm without its
//! line 32, which `read_sm` of racp_sm refuses with the fault `TooFew` in line 25, `push_network_finding` adds
//!
//! ```text
//! so many numbers behind this title: 20 (jobs: 5, resources: 1)
//! racp: there:  so many numbers up to the end of the part: 16
//! ```
//!
//! Which function does so for what:
//!
//! - `push_order_finding` for an order that is refused, and `push_text_finding` for a plan text.
//! - `push_head_finding` and `push_plan_finding` for a plan that was read and is not right.
//! - `push_too_long`, `push_too_late` and `push_no_room` for an order that no plan meets.
//! - `push_changes_finding` for a text of changes that is not that of a plan.
//!
//! They look at the text plainly: at the line of the fault, at the words before the title, at the keys of the table.
//! Jobs that wait for each other are found by leaving out, round by round, the jobs that wait for none.

mod changes_text;
mod head;
mod line_of;
mod looks;
mod network_text;
mod no_plan;
mod numbered;
mod order_text;
mod plan_faults;
mod plan_text;
mod ring;
mod wanted;

/// What stands between what was wanted and what is there.
pub(crate) const THERE: &str = "\nracp: there:  ";

pub(crate) use changes_text::push_changes_finding;
pub(crate) use line_of::push_quoted;
pub(crate) use network_text::push_network_finding;
pub(crate) use no_plan::{push_no_room, push_too_late, push_too_long};
pub(crate) use order_text::{Sizes, push_order_finding};
pub(crate) use plan_faults::{push_head_finding, push_plan_finding};
pub(crate) use plan_text::push_text_finding;
