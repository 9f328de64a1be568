//! Answers as JSON: what a command wrote, and what is known beside it, as values that are written as one object.
//!
//! An answer is a text with a status. Its lines have words and numbers between blanks: `rows_of(alloc, text, "deadline")`
//! gives the numbers of each line that begins with `deadline`, as 42, 188, 5, 4 of `deadline 42 cost 188 capacity 5 4`. So
//! the numbers of an object are those of the text. `sheet_of_plan` reads the text of a plan, and gives the sheet of racp_show,
//! with its jobs and its resources.
//!
//! `json_of` makes the object of a `Told`: what a command wrote, the texts that it read, and what is told beside its answer.
//! Of the text `stopped 1 2`, for an order with the prices 1 and 1, it is
//!
//! ```text
//! {"status":"stopped","not_before":[1,2],"bound":3,"best":null}
//! ```
//!
//! and of `refused order 4 NotWhole`
//!
//! ```text
//! {"status":"refused","file":"fl.toml","format":"order","number":4,"name":"NotWhole","line":null,"says":"..",..}
//! ```
//!
//! Proved: a line's numbers and words are exactly its own, in their order; the steps of a curve, the critical length and
//! the early starts, and the capacities of a stop are those of the lines of the text; the cost of these capacities, which is the
//! bound of a stop, is that on the order's terms; the sheet of a plan is that of the network, the order and the plan that the three
//! texts are read as, and so is that of the best plan of a stop. All of them return. Tested alone: which object belongs to which text, and the text of the JSON, which rests on what `serde`
//! derives.
#![tactic(auto)]

mod bound;
mod curve;
mod early;
mod fault;
mod hastened;
mod json;
mod line;
mod order;
mod sheet;
mod span;
mod stop;
mod told;
mod work;

pub use bound::bound_of;
pub use curve::{Step, steps_of};
pub use early::{Early, early_of};
pub use fault::{Fault, Refusal, Said, fault_of, refusal_of};
pub use json::json_of;
pub use line::{Line, line_of, rows_of};
pub use order::{Terms, terms_of};
pub use sheet::sheet_of_plan;
pub use told::{Command, FileNames, Told, Words};
pub use work::Work;
