//! Bounds on the capacities of a project: floors, which every schedule needs, and roofs, above which no unit is used.
//!
//! Floors can be sharpened by questions.
//!
//! Lists are by the places of jobs and resources, from 0. Times are whole time units.
//!
//! The roof of a resource is the sum of all requests of it. The floor is the greatest of three lower bounds: the
//! largest request of a job that runs for some time; the energy, the sum over the jobs of duration times request, over
//! the deadline, rounded up; and the core usage, what the jobs use together at a time wherever they start in the root
//! window. From its late start to its early finish a job runs wherever it starts: these are its core times.
//!
//! The five jobs of examples/a.sm by the deadline 4, by which job 2 can start at 0 or 1:
//!
//! ```text
//! largest request               2   of job 2
//! energy over the deadline      3   (3 * 2 + 2 * 1 + 2 * 1) / 4 = 10 / 4, rounded up
//! core usage                    2   of job 2 from 1 to 3
//! floor                         3
//! roof                          4   2 + 1 + 1
//! ```
//!
//! `sharpen` raises floors by questions about the root window. For each resource, its numbers of units are asked from
//! the floor on, with the other resources at their roofs, up to the first yes: that number is its sharpened floor. Then
//! each pair of resources is asked at both sharpened floors, with the others at their roofs. If that is infeasible, the
//! pair is refuted. The six jobs of examples/b.sm by the deadline 3 have the floors 1 and 1, which stay so when they
//! are sharpened, and the pair (1, 2) is refuted: so at least one of the two resources has to have two units or more.
//!
//! Core usages are looked at only where core times begin, at late starts. That no schedule gets by with less than the
//! energy is proved by summing up the usage over all times before the deadline.
//!
//! Proved: `floors` gives exactly the greatest of the three bounds, `roofs` the sums of the requests, `sharpen` the
//! least numbers of units and exactly the refuted pairs. If the asker gives up, the first floors are sharpened, one for
//! each series that was answered, and the others are as before. In `laws`: capacities that admit are at or above the
//! floors, still admit when they are cut to the roofs, and then lie in the box of the sharpened floors and the refuted
//! pairs; the capacities of the plan lie in it as they are, whatever the prices. Tested alone: that memory is not
//! refused without need.
#![tactic(auto)]

mod floor;
pub mod laws;
mod roof;
mod sharp;

pub use floor::floors;
pub use roof::roofs;
pub use sharp::{Sharp, sharpen};
