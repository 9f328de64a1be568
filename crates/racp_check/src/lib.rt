//! The check of a plan: what it costs, and whether its starts fit its capacities on the terms of an order.
//!
//! Jobs and resources are numbered from 1; their places in lists count from 0. Times are whole time units from 0 on.
//!
//! A plan says how many units there are of each resource and when each job starts. `check_plan` tells whether it can be
//! carried out at the cost that it names, whoever made it. The plan of examples/a4.plan, for the five jobs of
//! examples/a.sm, has the cost 30, the capacity 3 of its one resource, and the starts 0, 0, 0, 2 and 4.
//!
//! `check_plan(&net, &order, &plan)` answers `Ok` for it, with a deadline of 4 and a price of 10. With the cost 31 it
//! answers `Cost`; with the start 1 of job 4 it answers `Over(1, 1)`: more of resource 1 is used at time 1 than there
//! is.
//!
//! Six tests are made, one after another, of cost, end, precedence, capacity, ceiling and start, and none takes memory.
//! A usage is greatest where some job starts, so only these times are looked at, in at most jobs * jobs * resources
//! steps. What a plan is, and its text, stand in racp_plan; its names can be taken from here too.
//!
//! `check_proof(alloc, &net, &order, &plan, bytes)` tells whether a text is a certificate that no capacities before the
//! plan's are enough. racp_trees has what a certificate is and reads it; here its blocks get the root window of the
//! order and the roofs, cut to the ceilings. `check_proof_until` can be stopped.
//!
//! Proved: `check_plan` answers `Ok` exactly if the cost is right and the starts fit the capacities on the order's
//! terms and within its ceilings. Otherwise it answers the first fault, with its least names. `check_proof` says yes exactly if the
//! text is a certificate. Then no capacities that are enough stand before the plan's, and the critical length is at
//! most the deadline. In `laws`: nothing is wrong with the plan of an order, and the check has one answer for a plan.
//! Not looked at by `check_plan`: the deadline and the critical length that a plan names, and whether cheaper
//! capacities or lesser starts would do.
//!
//! Wanted by name, and not called by the program: `check_proof`. The program calls `check_proof_until`.
#![tactic(auto)]

mod check;
pub mod laws;
mod plan_fault;
mod proof;

pub use check::check_plan;
pub use plan_fault::PlanFault;
pub use proof::{check_proof, check_proof_until};
pub use racp_plan::{Plan, TextFault, TextFaultKind, lines, read_plan, write_plan};
