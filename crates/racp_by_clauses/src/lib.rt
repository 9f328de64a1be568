//! The optimum of an order: its plan, found by a search that learns and shown by clauses.
//!
//! Jobs, resources and variables are named by their places, from 0. Times are whole time units.
//!
//! The plan is the least solution: by the cost, then by the units of each resource, then by the start of each job. So it
//! is found variable by variable, in this order (a lexicographic optimum, Isermann 1982). The best solution that is known
//! is at first a draft (racp_drafts). For each variable the search (racp_learning) is asked whether some solution has
//! less of it, and of the variables before it no more than the best one. A yes is a better solution. A no is a clause that
//! shows that none is less by this variable. In the end racp_clauses looks whether these clauses show the plan.
//!
//! Two jobs of 3 time units with 1 unit each, from 0 to 6, at a price of 10:
//!
//! ```text
//! draft               starts 0 3, 1 unit, cost 10
//! cost at most 9?     no: cost >= 10
//! units at most 0?    no: units >= 1
//! job 1               starts at 0, as early as it can
//! job 2, at most 2?   no: units >= 2, or start 1 >= 1, or start 2 >= 3
//! ```
//!
//! The cost goes down by what is found. Starts can be many thousands of time units away from the least, so the second
//! question about a job, and each one after it, halves what is left; so does the third one about a resource. Before the
//! first job is asked for, a serial schedule within the capacities is tried, whose starts are often the least.
//!
//! What is easy ends within the first conflicts, 10,000 for 60 jobs and fewer for more. From then on, as long as it is not
//! known that nothing costs less, there are stints of what makes drafts better (`Drafting` of racp_drafts): some thousand
//! rounds, four times as many with 200 jobs as with 60, after each thousand conflicts with 60 jobs, and after fewer with
//! more, counted and not timed; where drafts do not become better, after up to eight times as many with 60 jobs, and up to
//! three with 160. Each better draft tightens the question at once, and those that the search finds are told to what makes
//! drafts.
//!
//! To such a stint belong up to 24 questions about neighbourhoods (large neighbourhood search, Shaw 1998), of a thousand
//! conflicts in all with 60 jobs: is there a solution within units that cost less than the best draft, where most jobs
//! start as in the schedule that exceeds these units least, and those that run near the excess are free? These conflicts
//! count as any others of the search, and what is learned of them serves each later question.
//!
//! A second search asks from the least cost on, in such stints too: what it refutes is what the observer is told that every
//! plan costs at least. After the first 300 conflicts questions of few conflicts each halve what is left between the least
//! cost and the best draft. Then, and after each stint from below, short questions ask of each resource whether its floor is
//! enough, whatever there is of the others. A no raises the floor by one at least.
//!
//! `optimum_of(task, limits, &observer)` answers an `Optimum`: the plan, or that no capacities are enough, or neither (`Found` of
//! racp_found), where the search was given a bound on its conflicts and reached it, was stopped, or left a question open; and the
//! floors, which all capacities have that are enough. An `Observer` is told drafts, lower bounds on the cost and floors as they are
//! found, and may stop the search.
//!
//! `optimum_beside` answers the same by several searches on threads of their own, with other seeds. They show each other short
//! clauses and the best draft, and the first one that finishes ends the others. What costs less than the best draft has less
//! of some resource, so each search asks for less cost with less of one resource, then of the next, and begins with another
//! one. In the end the whole question has a short answer, by clauses that name one resource. With three or more, one asks for
//! the cost from the least one on, and raises floors; with four or more, one asks for the units of a resource from their least
//! on. In the end the floors are the greater ones of all searches.
//!
//! `optimum_recorded` answers the same, with the derivations of the clauses, for a certificate. The search from below begins at once
//! then, has its turn before each thousand conflicts of the other, and keeps its derivations apart: so there is a certificate of
//! the bound when time is up, and that of the plan rests on one search.
//!
//! An `Optimizer` finds the optima of an order and of parts of it, as with shorter deadlines or lower ceilings. It keeps one
//! search: a clause of the order holds of each part, where those of its literals that are false at the root of the part
//! fall away.
//!
//! Proved: a plan that is answered is the plan (`IsPlan` of racp_model); where it is answered that no capacities are
//! enough, none are; all capacities that are enough are at or above the floors; and what the observer is told is true. How a
//! plan is found needs no proof but that it ends. Not proved: that it is found.
#![tactic(auto)]

mod any;
mod asking;
mod beside;
mod by_resource;
mod common;
mod costs;
mod descent;
mod ending;
mod feasible;
mod floors;
mod from_below;
mod in_stints;
mod limits;
mod near;
mod optimizer;
mod optimum;
mod places;
mod questions;
mod recorded;
mod serial;
mod stints;
mod taken;
mod task;
mod telling;
mod units;
mod worker;

pub use beside::optimum_beside;
pub use feasible::Feasible;
pub use limits::Limits;
pub use optimizer::Optimizer;
pub use optimum::{Optimum, optimum_of};
pub use recorded::{Recorded, optimum_recorded};
pub use task::Task;
