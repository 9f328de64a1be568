//! The commands of the program `racp` that tell of a network or a plan: `cpm`, `check`, `verify`, `show`, `report` and `export`.
//!
//! Each reads its files, hands their bytes to racp_cli, and tells what is wrong with them. What it uses of the machine is in
//! racp_host: files and standard streams, and for `verify` a clock.
//!
//! ```text
//! cpm            the critical length and the early starts of a network
//! check          whether a plan is right, whoever made it
//! verify         whether a certificate shows that nothing comes before a plan, whoever made it
//! verify_bound   what each plan costs at least, as a certificate shows
//! show           a plan as a chart, a picture, a table or JSON
//! report         a page about a plan
//! export         a plan for other programs
//! ```
//!
//! Proved: each command ends with a status that some answer of such a command has, or with a failure, whose status racp_host
//! has. Not proved, and tested over the built program: that each command reads its own files in their order, that the bytes of
//! files are those that racp_cli is handed, and what is told on standard error.
#![tactic(auto)]

pub mod check;
pub mod cpm;
pub mod export;
pub mod report;
pub mod show;
pub mod verify;
pub mod verify_bound;
