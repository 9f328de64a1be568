//! Explains faults in words: what a fault means, and what is wrong with the texts at hand.
//!
//! Lines of texts, jobs and resources are numbered from 1; times are whole time units from 0 on.
//!
//! The program tells of a fault by one fixed line, as `refused sm 12 TooFew line 25`. This crate has what is said
//! beside it. A `Subject` is a fault, or a line without a number that the program writes in place of an answer. Words
//! name it by its format, its name or its number: `named(alloc, "sm", Some("12"))` and `named(alloc, "TooFew", None)`
//! both answer the fault 12 of network texts, and `named(alloc, "Range", None)` that of orders and that of plans.
//! `explanation` makes the text for the subjects that words name: what it means, an example, and what helps.
//! `subject_list` has a line for each.
//!
//! A cause is told for texts with names: which file it is, what was wanted there, and what is there. For examples/a.sm
//! without its line 32, `network_cause` makes
//!
//! ```text
//! racp: a.sm:25: sm 12 TooFew: a part ends too early
//! racp: wanted: so many numbers behind this title: 20 (jobs: 5, resources: 1)
//! racp: there:  so many numbers up to the end of the part: 16
//! racp: 'racp explain sm 12' says more
//! ```
//!
//! `order_cause` reads the texts of a network and an order, `plan_cause` and `proof_cause` also those of a plan and of
//! a certificate, as the commands of the program do, and tell what is wrong with the first that is refused. If all of
//! them are read, `order_cause` says why there is no plan, as far as that is known without a search, and `plan_cause`
//! says what is wrong with the plan. `bound_cause` reads those of a network and an order too, and else says that a text is no
//! certificate of a bound.
//!
//! `shown_cause` and `named_cause` also say what is wrong with names, `names_cause` with names alone, `curve_cause` with a curve, `changes_cause` with
//! a text of changes, and `asked_cause` with what an order is to say. `one_line` makes one line of a cause: `racp:
//! a.sm:25: sm 12 TooFew: a part ends too early; wanted: so many numbers behind this title: 20 (jobs: 5, resources: 1);
//! there: so many numbers up to the end of the part: 16`. `parts_of` gives its parts.
//!
//! The texts are read a second time by the same readers, so the fault is theirs. What was wanted and what is there is
//! said by the module `faults`.
//!
//! Proved: `named` answers exactly the subjects of the table that the words name, in its order; `explanation` answers
//! `None` exactly if they name none. A subject's number and name are those of the fault. In `laws`: each fault, and
//! each line without a number, stands in the table. What `network_cause` makes for a text that is refused begins with
//! its name and the line, number and name of the fault that its reader answers. For a text that is read it is empty.
//! All of them return. Tested alone: what is said of a subject, that each example has its fault, what else is told of
//! causes, and that nothing is told about a plan that is right.
#![tactic(auto)]

mod asked;
mod bound;
mod brief;
mod called;
mod cause;
mod explain;
mod faults;
mod faulty;
mod finding;
mod input;
pub mod laws;
mod line_topics;
mod opening;
mod order_topics;
mod placing;
mod plan_topics;
mod sm_topics;
mod steps;
mod subject;
mod subjects;
mod topic;

pub use asked::{Listed, Numbers, asked_cause};
pub use bound::bound_cause;
pub use brief::{Parts, one_line, parts_of};
pub use called::{changes_cause, named_cause, names_cause, shown_cause};
pub use cause::{network_cause, order_cause, plan_cause, proof_cause};
pub use explain::{explanation, subject_list};
pub use input::Input;
pub use steps::curve_cause;
pub use subject::{Line, Subject};
pub use subjects::{SUBJECTS, named};
pub use topic::{Topic, topic_of};
