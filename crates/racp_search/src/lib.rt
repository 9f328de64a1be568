//! The search of a question by branching over minimal delaying alternatives, whole or in parts.
//!
//! Demeulemeester and Herroelen (1992) describe such a search.
//!
//! Jobs and resources are numbered from 1; their places in lists count from 0. Times are whole time units.
//!
//! Each window is tightened by core usage before it is looked into. A node is a window with its early starts. Where one
//! of these exceeds its upper bound, or a record covers the node, nothing in the window answers. Where they keep the
//! capacities, they answer. Else there is a first conflict, and for each minimal delaying alternative, other than all
//! active jobs, a child window is searched. The five jobs of examples/a.sm, with 2 units in the root window of the
//! deadline 5, in which job 2 may start from 0 to 2, and jobs 3 and 4 from 0 to 3:
//!
//! ```text
//! window                  early starts       what is found
//! root                    0, 0, 0, 0, 3      at time 0 the jobs 2, 3 and 4 need 4 units
//!   jobs 3, 4 from 3 on   0, 0, 3, 3, 5      they fit: the answer
//!   job 2 from 2 on       0, 2, 0, 0, 5      jobs 3 and 4 have to end by 2, and so they do: one more
//! ```
//!
//! The window of a node, of its record and of its child windows is the tightened one. No answer is lost by that, so where
//! it is refuted, so is the window that it was made of.
//!
//! `decide(alloc, &net, &question)` answers a question whole. `explore` searches a `Piece`, the part of a question in a
//! window, and tells a `Finding`: starts that answer, or the windows in which is still to be looked. A quantum bounds
//! the number of nodes, and a `Stop` can end the search at any node; so a question can be searched in parts, by several
//! workers. A piece and a finding cannot be dropped, so that no part of a question is lost by an oversight.
//!
//! `explore` goes by depth over a stack of frames on the heap. A frame is a node on the way to the window that is
//! searched next. It looks at its alternatives one behind the other, in lexicographic order, and makes child windows of
//! them, 64 at a time. Alternatives in which a job goes whose upper bound is before the first end of the active jobs
//! are passed over: nothing lies in their child windows. So where most starts are fixed few alternatives are left of
//! tens of thousands. There can be alternatives that are long to find, and very many in whose windows nothing lies. So
//! the steps of looking for them are bounded, and where that bound is reached the windows in which each active job
//! alone is put off take the place of all that is left. Then no node takes a time that grows exponentially. The child
//! window with the most slack is searched first, the one whose jobs that go have the most time left. None has a
//! conflict before its parent's, so its own is looked for from that time on. What answers the question lies in the next
//! window, in a child window of a frame, or in that of an alternative behind the frame's last. A frame with none of
//! these left is refuted: then, and at no other time, its node becomes a record. A search that ends early leaves of its
//! first frames their child windows; or, where at least as many as there are jobs are still to be made, for each active
//! job the window in which it alone is put off. It leaves as many frames so as make a few windows, and beside these the
//! window of the next frame, in which all else that is left lies. `refute` writes down why a question is infeasible, as the lines of a tree (racp_trees); it makes no
//! records and tightens nothing, so it takes longer. A search ends in any case: the place of a frame's last alternative
//! in lexicographic order rises, and each child window has a greater sum of lower bounds than its parent, at most
//! 10,000,000 for each job where there is a conflict. Rows and lists are used again, so a node takes memory only where
//! its path is the longest so far, or where it becomes a record.
//!
//! Proved: `decide` answers starts in the window that fit, or `None` exactly where there are none; `refute` the lines
//! of a tree that holds, or `None` exactly where some starts answer. A finding of `explore` is true: the found starts
//! answer, or what answers lies in a window of the rest, each inside the piece's window. Once a node was searched, and
//! memory was not refused, each of these has a greater sum of lower bounds. Without a quantum, a stop and lack of
//! memory nothing is left. The type keeps that truth, whoever holds the finding.
//! Tested alone: that the stop is asked, that records are looked for and made, and that memory is not refused without
//! need. In which order windows are searched, and how many, is not promised.
//!
//! Wanted by name, and not called by the program: `decide` and `refute`.
#![tactic(auto)]

mod child;
mod depth_first;
mod ended;
mod entry_points;
mod expanding;
mod finding;
mod frame;
mod glance;
mod halt;
mod left;
mod piece;
mod refuting;
mod remaining;
mod room;
mod subject;
mod workspace;

pub use entry_points::{decide, explore};
pub use finding::{Finding, Rest};
pub use piece::{Collector, Piece};
pub use racp_model::{Never, Stop};
pub use racp_trees::Step;
pub use refuting::refute;
pub use room::make_room;
