//! The commands of the program `racp` that search: `plan`, `prove`, `curve`, `soonest`, `whatif` and `batch`.
//!
//! Each reads its files, has racp_cli or racp_batch plan over their bytes, and tells what was found, what is wrong with the files,
//! or what is known when it is stopped. What it uses of the machine is in racp_host: files, standard streams, clocks and threads.
//!
//! ```text
//! plan       the cheapest capacities with which the project ends in time, and the least starts
//! prove      a certificate that no capacities before those of the plan are enough, or of a bound
//! curve      what each deadline costs
//! soonest    the plan that ends as soon as the units that there are admit
//! whatif     what becomes of an order if one term is changed
//! batch      a table of what networks cost with deadlines
//! ```
//!
//! With `--best FILE` a plan is kept in a file while it is looked for: a right plan that stands there before is the best one that is
//! known at first (`earlier`), and each cheaper one that is found takes its place (`listener`).
//!
//! Proved: each command ends with a status that some answer of such a command has, or with a failure, whose status racp_host
//! has. Not proved, and tested over the built program: that each command reads its own files in their order, that the bytes of
//! files are those that racp_cli is handed, and what is told on standard error.
#![tactic(auto)]

pub mod batch;
pub mod curve;
mod dated;
mod earlier;
mod gathering;
mod keeping;
mod listener;
mod needed;
pub mod plan;
mod plan_by_crew;
pub mod prove;
pub mod soonest;
pub mod whatif;
