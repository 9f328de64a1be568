//! A planner by the definitions alone, for tests of faster ones: it looks at every capacity vector and start vector.
//!
//! It does so in lexicographic order, and the time that this takes rises exponentially with the sizes.
//!
//! Jobs are numbered from 1 in the reasons why there is no plan; resources and jobs stand by place, from 0, in
//! capacities and starts. Times are whole time units. No crate of the program uses this one.
//!
//! Why have a second planner, if the first is proved? A proof says that code meets a definition, and not that the
//! definition says what is meant. This planner has no floors, no branching and no records, so it can be seen to do what
//! the words say; its contract cites the same definitions, and in tests it gives the same answers.
//!
//! The five jobs of examples/a.sm, with a deadline and the price 10 for a unit:
//!
//! ```text
//! plan_by_definition, deadline 5              cost 20: capacity 2, starts 0 0 3 3 5
//! the same with 5 units owned, deadline 4     cost 0: capacity 3, starts 0 0 0 2 4
//! plan_by_definition, deadline 2              TooLong: the critical length is 3
//! decide_by_definition, 2 units by 4          None
//! decide_by_definition, 2 units by 5          0 0 3 3 5
//! ```
//!
//! The capacity vectors from 0 units to the roofs, cut to the ceilings, are looked at one by one, and for each the
//! start vectors of the root window. One function, `next_in`, gives the next vector of a box, and serves both. The
//! first start vector that fits is the lexicographically least. A capacity vector replaces the best so far only if it
//! costs strictly less, so of equal costs the lexicographically least stays. Nothing is missed, although the definition
//! of the plan has no limit on capacities: a vector that is enough, cut to the roofs, is among those that are looked
//! at, still admits, and does not stand later; and all starts in time that keep precedence lie in the root window.
//!
//! Proved: `plan_by_definition` answers the plan of the order, with its deadline, its cost and the critical length, or
//! the first reason for which there is none; `decide_by_definition` the lexicographically least starts in the window
//! that keep precedence and the capacities, or `None` exactly if there are none. That the loops end is proved by the
//! number of vectors that are left. Not proved: that memory is not refused without need.
#![tactic(auto)]

mod answers;
mod boxes;
mod choice;
mod plan;

pub use answers::decide_by_definition;
pub use plan::{Outcome, plan_by_definition};
