//! Certificates for the plan of an order: the text of one, for the texts of a network and an order.
//!
//! Whoever trusts no planner asks for a certificate, and checks it by itself (racp_check, racp_derivations). Two kinds are made here,
//! beside the planner (racp_lexfix), which finds the plan first:
//!
//! ```text
//! prove_alone, prove_until   by trees: no capacities before those of the plan are enough (racp_trees)
//! prove_by_clauses           by clauses: the plan is the plan of the order; or, where the search is stopped, what all capacities
//!                            that are enough cost at least (racp_derivations)
//! ```
//!
//! For the texts of examples/b.sm and b3.toml `prove_alone` answers a text whose blocks have the capacities 0 2, 2 0 and 1 1, with
//! the status 0; for a.sm and a2.toml it answers `impossible critical 3 deadline 2` with the status 3. Where no certificate is made
//! the text is the line `unproved`, with the status 8.
//!
//! Proved: a text with the status 0 is a certificate for the plan of the order (`IsProving`, `IsShowing`), one with 4 of a bound, and
//! one with 3 the first reason for which there is no plan. That a certificate is made is not promised.
#![tactic(auto)]

mod bounding;
mod by_clauses;
mod by_trees;
mod hints;

pub use by_clauses::prove_by_clauses;
pub use by_trees::{prove_alone, prove_until};
