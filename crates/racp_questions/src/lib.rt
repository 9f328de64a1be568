//! Series of questions about capacities and windows, and the interface of those who answer them.
//!
//! Questions stand by their place in a series, from 0. Times are whole time units.
//!
//! A question is whether some starts in a window keep precedence and given capacities. It is a yes if there are such
//! starts, and infeasible if there are none. A planner learns all that it wants to know by the first yes of lists of
//! such questions: about each number of units of one resource, about capacities in the order of their cost, about each
//! start of one job. Demeulemeester (1995), too, solves the problem by a series of scheduling problems with given
//! capacities. So planning does not depend on how questions are searched, on one thread or more, and a search does not
//! depend on what is planned. What the two share stands here: a `Series` is a list of questions, given one by one, and
//! an `Asker` tells the first yes of a series.
//!
//! The capacity vectors of examples/b.sm, each with the root window of the deadline 3:
//!
//! ```text
//! place         0     1     2     ..
//! capacities    1 1   1 2   2 1   ..
//! answer        no    yes   the first yes is known: 1, with starts that answer it
//! ```
//!
//! An asker that is stopped before it knows that may tell the capacities 1 1, or 1 2 if it knows that 1 1 is
//! infeasible: each question before those that it tells is infeasible.
//!
//! Whoever implements `Series` says which questions are still to come, and proves that `next` takes the first of them
//! off, or gives `None` if there are none; after a refusal of memory they are as before. Whoever implements `Asker` is
//! asked about one network, by series of questions that have its form, and proves of `first` that the answer is the
//! first yes, with starts that answer it, or that each question is infeasible. It says how many series it has answered,
//! what it told when it last stopped, and for which reasons it may give up; memory may always run out. Of a single
//! question `probe` tells starts that answer it, or that it is infeasible; or nothing, if the search was given a bound
//! and reached it. By `foresee` it is told which questions come next as long as each is infeasible, so that it can have
//! them searched at the same time. No answer changes by that. Nor does one by `leeway`, which says how much planning may
//! search by itself before it asks.
//!
//! Proved: in `laws`, a list of questions has at most one first yes. The only code is that of the traits and the
//! conversion of a refusal of memory into `AskStop::Memory`; what implementors promise is proved in their crates.
#![tactic(auto)]

mod asker;
pub mod laws;
mod series;

pub use asker::{AskStop, Asker, First, Leeway, Probe};
pub use series::Series;
