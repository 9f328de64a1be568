//! How soon a project can end with the units that there are: the least deadline with a plan, and that plan.
//!
//! Resources are numbered from 1; their places in lists count from 0. Times are whole time units.
//!
//! With fixed capacities the least time by which all jobs can end is the resource-constrained project scheduling problem
//! (Pritsker, Watters and Wolfe 1969). Here the ceilings of an order are what there is at the most. What is enough for a
//! deadline is enough for each later one, so there is a least deadline for which some capacities are enough, or there is none
//! up to the order's own. The plan of the order with that deadline tells it, with the cheapest capacities and the least starts.
//!
//! `team_order(alloc, &order)` answers the order of a team: without ceilings, units that are owned are all that there are.
//! With examples/b.sm and the order below two jobs that take a time unit each use one unit of resource 1, and two later ones
//! one of resource 2. They end by 4 at the soonest with one unit of each, and by 3 with two of the first:
//!
//! ```text
//! version = 2
//! deadline = 10
//! prices = [1, 1]
//! owned = [2, 1]
//! ```
//!
//! `soonest_by_crew(rt, &task, &crew)` finds it. It keeps a span of deadlines: there is no plan before its least one, and there
//! is one for the last, once it is known. It tries the order's own deadline, and then one in the middle of the span. Starts that
//! fit tell when their last job ends, and the span ends there; if none fit, it begins behind the deadline that was tried. Any
//! starts will do, so a search that learns (racp_by_clauses) looks for no cheapest ones; what it learns of one deadline serves
//! the others. Where it leaves a deadline open, or turns are limited, the planner decides (racp_lexfix). Last, it makes the plan
//! for the deadline that is left.
//!
//! Proved: what it answers is the plan of the order with a deadline, up to the order's own, and there is no plan for any
//! deadline before that (`IsSoonest`); or why there is none for the order's own deadline, and then there is none for any up to
//! it. If it stops, no capacities are enough for a deadline before the least one that it tells, and some are for the one that it
//! tells as known (`IsSpan`). In `laws`: an order has one such plan at most. Not proved: that memory is not refused without need,
//! and how long it takes.
#![tactic(auto)]

pub mod laws;
mod learning;
mod lines;
mod making;
mod narrowing;
mod search;
mod soonest;
mod team;
mod trying;
mod variants;

pub use lines::{soonest_lines, span_lines};
pub use search::soonest_by_crew;
pub use soonest::{Soonest, SoonestStop, Span};
pub use team::team_order;
