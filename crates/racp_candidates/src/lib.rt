//! The series of questions that a planner asks: about capacity vectors, units of a resource, or starts of a job.
//!
//! Resources and jobs stand by place, from 0; pairs of resources name them by number, from 1. Times are whole time
//! units.
//!
//! A question is whether some starts in a window keep precedence and given capacities, and a series is a list of
//! questions, given one by one (racp_questions). By the first yes of a series a planner learns the least number of
//! units of a resource (`Singles`), the cheapest capacities (`Vectors`), the least start of a job (`Starts1`), or
//! whether one question is a yes (`One`). A planner asks one asker about all of these, so it hands each over as an
//! `AnySeries`; an asker that also searches the questions that come next makes a `Listed` of them. The names of
//! racp_questions that an asker of these series needs can be taken from here too.
//!
//! The box has the capacity vectors between floors and roofs that are, of each refuted pair, above the floor of one of
//! the two resources. `Vectors` asks them in the order of vectors: by cost, of which owned units have none, and at
//! equal cost lexicographically. With the prices 3 and 2, from 0 to 2 units of the first resource and from 0 to 3 of
//! the second:
//!
//! ```text
//! vector    0 0   0 1   1 0   0 2   1 1   0 3   2 0   1 2   2 1   1 3   2 2   2 3
//! cost        0     2     3     4     5     6     6     7     8     9    10    12
//! ```
//!
//! `Vectors` keeps a heap of vectors with their costs, and begins with the floors. The children of a vector have one
//! unit more at one place: any place from the last one that is above its floor on, if the roof allows it. So each
//! vector has one parent, which stands before it, and the least vector that was not taken out yet is in the heap.
//! Memory grows with the vectors that come next, and not with the box. A vector that a refuted pair excludes is not
//! given, but its children are entered. Children are made before their parent is taken out, so that a refusal of memory
//! loses none.
//!
//! Contracts see a series as the list of its questions still to come. For `Vectors` it is computed from the heap: of
//! all vectors of the box, in order, those that an entry of the heap leads to.
//!
//! Proved: `next` of each series takes the first question off that list, and after a refusal the list is as before.
//! `Vectors` has one question for each vector of the box and no other, in the order of vectors; `Singles` one for each
//! number of units from floor to roof; `Starts1` one for each start from the lower to the upper bound. In `laws`: a box
//! has at most one list of questions. Tested alone: that memory is not refused without need.
#![tactic(auto)]

mod any_series;
mod children;
mod copies;
mod entry;
mod frontier;
pub mod laws;
mod listed;
mod one;
mod pairs;
mod singles;
mod start_values;
mod vectors;

pub use any_series::AnySeries;
pub use listed::Listed;
pub use one::One;
pub use racp_questions::{AskStop, Asker, First, Series};
pub use singles::Singles;
pub use start_values::Starts1;
pub use vectors::Vectors;
