//! The curve of an order: what each deadline up to its own costs, told by the steps at which the plan changes.
//!
//! Resources are numbered from 1; their places in lists count from 0. Times are whole time units.
//!
//! A later deadline never costs more: starts that are in time for a deadline are in time for each later one, so
//! capacities that are enough for it are enough for those too. So the plan's capacities change at some deadlines only,
//! and between two of them they stay the same. A step says from which deadline on the plan has which capacities, and
//! what they cost; the curve is all steps up to the order's deadline. With examples/b.sm and b3.toml, two jobs use
//! resource 1 and two later ones resource 2, each for a time unit, and a unit costs 1. Up to the deadline 4 the curve
//! is:
//!
//! ```text
//! deadline 2 cost 4 capacity 2 2
//! deadline 3 cost 3 capacity 1 2
//! deadline 4 cost 2 capacity 1 1
//! end
//! ```
//!
//! `curve` follows it from the order's deadline back. The capacities of the plan are also enough for the time at which
//! its last job ends, and none that are enough for an earlier deadline stand before them. So they are those of the plan
//! for each deadline from that time on. Whether they are enough for the time before that is one question, about the
//! root window by that deadline. Starts that answer it give an earlier end; if it is infeasible, the step begins here.
//! Then the plan for the deadline before it is made, and so on, down to a deadline for which there is none. So there is
//! one plan for each step, and the work does not grow with the deadline.
//!
//! Where there are more than 64 vectors and the asker leaves room for a search, one search that learns (racp_by_clauses)
//! finds the plans and the ends: a clause that holds for a deadline holds for each earlier one, and with lower
//! ceilings, so what is learned of one serves the next. Capacities are enough for a deadline if the order with that
//! deadline has a plan with these capacities as its ceilings. All other questions go to one `Asker`, whose records
//! serve the later ones too.
//!
//! With workers, the calling thread follows the curve, and helpers make plans for earlier deadlines meanwhile, each by a search of
//! its own that it keeps. A plan that is found ahead settles each deadline down to the end of its last job. So it tells whether
//! capacities are enough for a deadline, too: they are if they are its own, and else they would be the plan's.
//!
//! `curve_alone(alloc, &net, &order, 1024)` does it on the calling thread, `curve_crowd(rt, alloc, &net, &order, crew)`
//! has workers make the plans: ahead where searches learn, else over one board of records. It counts the turns of all plans
//! together, and tells an observer for which deadline a plan is made and how far that has come. `curve_text(alloc, &steps)`
//! gives the lines above, and `step_lines(alloc, &steps)` the lines of some steps.
//!
//! Proved: what `curve` answers is the curve (`IsCurve`): for each deadline from that of a step to before that of the
//! next one, and up to the order's for the last, the capacities of the step are those of the plan, and its cost is
//! theirs; for each deadline before the first step there is no plan; and two steps in a row have different capacities.
//! If there is no plan for the order's own deadline, it answers the reason. If the asker gives up, the steps so far
//! come back with the reason, and are right for all deadlines from the first of them on. If it stops, capacities are
//! told too: none that stand before them are enough for a deadline before these steps. Workers may be stopped at any
//! time; otherwise they answer the curve too. The text of a curve is the one that is defined. In `laws`: what is enough
//! for a deadline is enough for each later one, and what stands before the capacities of the plan for a longer deadline
//! is not enough for a shorter one; an order has one curve at most, so workers make that of one thread; an order for a
//! network has a curve, or a reason why there is no plan for its own deadline; and a curve tells of each deadline. Not
//! proved: that memory is not refused without need, and how long it takes.
#![tactic(auto)]

mod ahead;
mod alone;
mod awaiting;
mod by_desks;
mod crowd;
mod deadline;
mod earlier;
mod ending;
mod enough;
mod facts;
mod following;
mod ground;
mod helping;
pub mod laws;
mod lines;
mod settled;
mod start;
mod step;
mod stepping;

pub use alone::curve_alone;
pub use crowd::curve_crowd;
pub use following::curve;
pub use lines::{curve_text, step_lines};
pub use step::{CurveAnswer, CurveStop, Step};
