//! Windows that are tightened by what runs in all of their schedules (time-table reasoning, Le Pape 1994).
//!
//! Jobs are numbered from 1; lists are by the places of jobs and resources, from 0. Times are whole time units.
//!
//! From its upper bound to the end from its lower bound a job runs wherever it starts in its window: these are its core
//! times. What all jobs use at their core times is the core usage. If it leaves no room for another job at a time, that
//! job does not run then. So if the job would run at that time when it starts at its lower bound, it starts only when
//! the core usage is over; if it would run then when it starts at its upper bound, it ends by that time. Each bound
//! that moves can make core times longer, and move bounds along precedence: a job starts when those before it have
//! ended.
//!
//! The six jobs of examples/c.sm with 2 units, in the root window of the deadline 8. Only job 2 has a choice:
//!
//! ```text
//! job           1      2      3      4      5      6
//! duration      0      4      1      3      4      0
//! request       0      1      1      2      1      0
//! window        0 0    0 4    0 0    1 1    4 4    8 8
//! core times    -      -      0      1-3    4-7    -
//! ```
//!
//! From time 1 to 4 job 4 uses both units. From its lower bound, job 2 would run at time 1; so it starts at 4 at the
//! earliest, and its window is 4 4. With 1 unit there is nothing in the window, since the core usage at time 1 is 2.
//!
//! `tighten(&net, &capacities, window, from, &mut scratch)` moves bounds until none moves any more, and answers the
//! tightened window, or that nothing in the window answers. A search that has no conflict before a time looks at core
//! usages from that time on: it passes it as `from`. Lower bounds that are still before it have then moved along
//! precedence alone, so there is no conflict before it in the tightened window either. Whatever is passed, nothing is
//! lost.
//!
//! Core usages are looked at only where core times begin or end, so far horizons cost what near ones cost: going over
//! them once takes about the time of looking at all jobs for each of these times. `scratch` is used again from call to
//! call; apart from it no memory is taken. The rows of the window are written over and given back.
//!
//! Proved: the tightened window is inside the window, and each start vector in the window that keeps precedence and the
//! capacities lies in it; if `tighten` answers `No`, there is none. Starts that keep precedence and are at or above the
//! lower bounds before `from` are so in the tightened window too. In `laws`: a job does not run at a time at which the
//! core usage leaves no room for it, unless it is one of its core times. Tested alone: how far bounds move, and that
//! memory is not refused without need.
#![tactic(auto)]

mod core_times;
pub mod laws;
mod narrowing;
mod precedence;
mod scratch;
mod tightening;

pub use scratch::Scratch;
pub use tightening::{Tightened, tighten};
