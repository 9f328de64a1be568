//! Records of refuted nodes of the search, and when a record refutes another node.
//!
//! They are the cutsets of Demeulemeester and Herroelen (1992).
//!
//! Jobs and resources are numbered from 1; their places in lists count from 0. Times are whole time units.
//!
//! A node of the search is a question with the early starts of its window and a time, that of their first conflict. The
//! jobs that start before that time are started. Two nodes with the same started jobs differ in when these end, and in
//! what is left open. The first covers the second if all of this holds:
//!
//! - The early starts of the first fit before its time.
//! - The first has at least the capacities and the upper bounds of the second, and its time is no later.
//! - Each started job ends in the first no later than in the second, or by the time of the second.
//! - Each other job may start in the first as early as in the second, or at the time of the second.
//!
//! Then from starts that answer the second, starts can be built that answer the first. So if the first is infeasible,
//! the second is infeasible too, and need not be searched. Unlike Demeulemeester and Herroelen, racp compares
//! capacities and bounds too, and only refuted nodes become records. So a record serves all questions about one
//! network.
//!
//! The five jobs of examples/a.sm are infeasible with 2 units in the root window of the deadline 4. Whether the record
//! of that node covers another node:
//!
//! ```text
//! the root window with 2 units, or with 1           yes
//! the same with the upper bounds 0, 0, 1, 1, 3      yes: it has to end by 3
//! the same with the lower bounds 0, 0, 2, 0, 3      yes: job 3 may not start before 2
//! the root window with 3 units                      no: that is more than in the record
//! the same with the upper bounds 2, 2, 3, 3, 5      no: it may end at 5
//! ```
//!
//! `local.keep(Nogood::of(node), 0)` keeps a record; `local.find(&board, &other)` looks for a record that covers a
//! node.
//!
//! A record is three rows of its node: the capacities, the upper bounds, and for each job its end if it is started, or
//! else its lower bound. With the started jobs and the time they determine a node: the one whose started jobs have
//! their early starts as lower bounds, which covers the same nodes. A node has the same rows as its record, so they are
//! compared place by place: the times first, then the capacities, the started jobs, the third rows and the upper
//! bounds. `Board` has the records that threads share; it only grows, and is read without waiting. `Local` has one
//! thread's own records and an index, by a hash of the started jobs, of these and of what it has read of the board. What
//! the index leads to is tested by `covers` before it is answered.
//! A place of the board stays empty if the push to it was refused; reading goes on past it. The index keeps at most the
//! 32 newest places for one hash, each with an outline of its record, by which most records that do not cover a node
//! are passed over without a look at them. A new record takes the place there of those that it covers: a record that
//! the thread made replaces its own, and one that was read replaces those of the board. A kept record that is in the
//! index no more gives its place in `Local` to a new one, except for the first ones; whoever keeps a record says how
//! many of these stay. `Local` keeps no more records than it was made for: if a new one would take the last of the
//! room, the oldest that is not among the first ones gives up its place. `forget_behind` drops all but the first ones.
//!
//! How many records fit into memory is reckoned by their size: a record counts for 8 bytes for each job, 4 for each
//! resource, and 400 others, its place in an index among them. A `Local` without a board has `most_records`.
//! `Board::within` divides memory among workers: half of it for the board and half for the workers' own parts.
//! A record of the board counts for 120 bytes more for each worker, since it has a place in the index of each. This is
//! an estimate on the high side: with 30 jobs and 4 resources it counts 656 bytes for a record that takes about 460.
//!
//! Proved: whoever makes a record shows that its question is infeasible, and the type keeps that. So each record on a
//! board is true, whoever wrote it. `covers` is true exactly if the covering relation holds, and then the node's
//! question is infeasible. What `find` finds covers the node. A `Local` keeps at most as many records as it was made
//! for. A new one comes after them, or takes the place of one that is not among the first ones, and no other changes.
//! `forget_behind` leaves exactly the first ones. No outline rules out a record that covers a node. In `laws`: why
//! covering keeps a yes, step by step. Not proved: which records are found or give way. A body that never finds one
//! would be proved too; that records are found is tested. `push` of `Board` may wait for another thread, and is the only
//! function of which it is not claimed that it returns.
#![tactic(auto)]

mod board;
mod index;
pub mod laws;
mod local;
mod node;
mod nogood;
mod outline;
mod reading;
mod rows;
mod shares;

pub use board::Board;
pub use local::Local;
pub use node::Node;
pub use nogood::Nogood;
pub use rows::started_before;
pub use shares::{DEFAULT_MEMORY, MemoryLimit, most_records};
