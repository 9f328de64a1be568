//! The commands of the program `racp` that write what others read: `order` and `import`.
//!
//! `order` writes an order for a network, of a deadline or a factor, prices and other terms that words tell (`terms`), with dates
//! by a calendar (`deadline`). `import` makes a network of tables of tasks, which racp_tables reads, with the names of its jobs and,
//! if its words say so, an order: all files are written, or none (`replacing`).
//!
//! ```text
//! racp order house.sm --factor 1.2 --prices 3,5            an order on standard output
//! racp import tasks.csv --out house --prices 3 --deadline 9    house.sm, house.names and house.toml
//! ```
//!
//! Proved: each command ends with a status that some answer of such a command has, or with a failure, whose status racp_host
//! has. Not proved, and tested over the built program: that each command reads its own files in their order, that the bytes of
//! files are those that racp_tables and racp_cli are handed, which files are written, and what is told on standard error.
#![tactic(auto)]

mod deadline;
pub mod import;
pub mod order;
mod parts;
mod pricing;
mod reading;
mod refusing;
mod replacing;
mod terms;
mod texts;
mod warned;
