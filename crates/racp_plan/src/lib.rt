//! Plans of a project: what a plan says, and how it is written as a text and read again.
//!
//! Jobs and resources are numbered from 1; their places in lists count from 0. Times are whole time units from 0 on.
//!
//! A plan says how many units there are of each resource and when each job starts; beside them stand the deadline, the
//! critical length and the cost. One plan has one text, and no two plans share a text. The text of examples/a4.plan,
//! for the five jobs of examples/a.sm:
//!
//! ```text
//! deadline 4
//! critical 3
//! cost 30
//! capacity 1 3
//! start 1 0
//! start 2 0
//! start 3 0
//! start 4 2
//! start 5 4
//! end
//! ```
//!
//! `write_plan` makes this text of its plan, and `read_plan` reads it as the plan. A text with `cost 030` is refused:
//! `Syntax` at line 3; with `cost 9000000000000000` it is `Range` there.
//!
//! `read_plan` goes through the text line by line, and compares each line with the words that it has to begin with.
//! Nothing is kept but the capacities and the starts. If there is no room for these, reading goes on without them, so a
//! wrong line is found first and lack of memory last. Its definition is not a parser: a text is read as the plan whose
//! text it is, or else as its first line that is wrong.
//!
//! `are_fitting(&net, &order, &capacities, &starts)` tells whether starts fit capacities on the terms of an order,
//! within its ceilings.
//!
//! Proved: `write_plan` gives exactly the text of the plan. `read_plan` answers for every byte text the plan whose text
//! it is, if its numbers are in range, or exactly the first line that is wrong; `Memory` only if no line is wrong. In
//! `laws`: no two plans share a text; each text is read as something, and as one thing only; a written plan is read as
//! itself. `are_fitting` says yes exactly where starts fit (`AreFitting`). What is wrong with a plan is told by racp_check.
#![tactic(auto)]

mod fitting;
pub mod laws;
pub mod lines;
pub mod number;
mod plan;
mod read;
mod rest;
mod text_fault;
mod write;

pub use fitting::are_fitting;
pub use plan::Plan;
pub use read::read_plan;
pub use text_fault::{TextFault, TextFaultKind};
pub use write::write_plan;
