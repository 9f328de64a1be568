//! Certificates by trees: texts that show that no capacities before those of a plan are enough, and the trees of which
//! they are made.
//!
//! Nodes are numbered from 1; jobs and resources too, and their places in lists count from 0. Times are whole time
//! units.
//!
//! A search that refutes a question goes through a tree of windows. A certificate has that tree as lines, one for each
//! node:
//!
//! - `L j`: the early start of job j exceeds its upper bound.
//! - `D t`: the first conflict of the early starts is at time t. The children follow, one for each minimal delaying
//!   alternative (Demeulemeester and Herroelen 1992).
//! - `C n`: the node with number n, which is closed, covers this one.
//!
//! A `Step` is a line, and `Hold` in specs/ says when trees hold for windows. racp_search makes such a tree for one
//! question, whether some starts in a window keep precedence and given capacities; here they are read, made and
//! written.
//!
//! Each tree stands in a block, after the capacities that it refutes. For the five jobs of examples/a.sm with the
//! deadline 4, this text refutes 2 units, and so 1 and 0:
//!
//! ```text
//! proof
//! vector 2
//! D 0
//! L 2
//! L 3
//! end
//! ```
//!
//! At time 0 the jobs 2, 3 and 4 need 4 units. The alternative [2] puts job 2 off to the time 2, past its upper bound
//! 1; the alternative [3, 4] puts job 3 off to 3, past 2.
//!
//! `block_vectors_until` reads a whole text, block by block, and answers the capacities of its blocks; `are_enough_until`
//! tells whether they are enough. `check_proof` of racp_check has both. Reading asks at each line, and in each search for
//! an alternative, whether it is to stop.
//!
//! The text is read line by line. `Follow` in specs/ says what has to come of it while nodes are open, and each line
//! changes that in one of three ways. Of an open node the reader knows the alternative whose child was read last, and
//! looks for the next one once that child is closed. So no line makes it list alternatives for which the text has no
//! lines. It keeps the lower bounds of the node's window: a whole row, which open nodes inside it share, and the bounds
//! that differ from it. Once what differs in those nodes takes as much memory as the row, the next one has a whole row
//! of its own. So of n jobs, a node for which r were put off takes about 8 bytes for each of sqrt(n * r) bounds. The
//! early starts are computed again for each child.
//!
//! Of a closed node the reader keeps a record, two bytes for each job, but only if some line of the text names the
//! node; a pass over the text before tells which numbers lines name. The two bytes tell how long after the node's time
//! the job's bound is. If they are not enough, as for a job that has to wait long anyhow, the bound stands in a row
//! that records share.
//!
//! A certificate is made by a reader of the lines that are chosen (`Maker`): for the next window a late job if there is
//! one, else the newest closed node of the block that covers it, else its first conflict. Each line is written and then
//! read as any reader reads it, so how it was chosen needs no proof. A tree is given up if the search for one
//! alternative takes more than 1,000,000 steps, or the stop asks for it, as it may at each line. Blocks are made for
//! vectors above all blocks so far, until there is none. What `certificate` makes is proved to be a certificate.
//!
//! Blocks are enough if each vector within the roofs that stands before the plan is at most the vector of some block.
//! That is decided by boxes of vectors: the least vector of a box that is at most a block's leads to the parts of the
//! box above that block, one for each place that can be the first such place. Of several such blocks it is one whose
//! parts leave least to be spent before the plan's cost; one that is at most another is not taken before that.
//!
//! Proved: the vectors of a text are answered exactly if it consists of blocks that hold, and they are those of its
//! blocks; the tree of a block is read exactly if the text begins with one that holds, and after it the closed nodes
//! that lines name are known; `are_enough_until` is true exactly if the blocks are enough. In `laws`: trees that hold
//! refute their windows, and if a text is a certificate, no capacities that are enough stand before the plan's. Not
//! proved: how many boxes that takes; of m blocks and R resources it can be about m ^ (R / 2).
#![tactic(auto)]

mod before;
mod blocks;
mod branch;
mod certifying;
mod claim;
mod closed;
mod enough;
pub mod laws;
mod maker;
mod node;
mod offer;
mod parts;
mod patience;
mod reader;
mod reading;
mod record;
mod shared_row;
mod splitting;
mod step;
mod writer;

pub use blocks::block_vectors_until;
pub use certifying::certificate;
pub use claim::Claim;
pub use enough::are_enough_until;
pub use step::Step;
