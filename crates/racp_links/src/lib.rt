//! Links between tasks: of four kinds and with lags, from and to phases too, made pairs of a network and waiting jobs, or
//! refused.
//!
//! Tasks are numbered from 1, and their places in lists count from 0. Times are whole time units.
//!
//! A link ties a time of one task to a time of another, the start or the end of each, with a lag: so many time units
//! later at least. A network has pairs alone: from the end of a job to the start of another, with lag 0. Of a first task
//! of duration d and a second of duration e, each kind of link with lag n asks that the second starts so long after the
//! first one's start:
//!
//! ```text
//! finish to start      d + n
//! start to start       n
//! finish to finish     d + n - e
//! start to finish      n - e
//! ```
//!
//! If that distance is d, the link is a pair. If it is longer, a waiting job stands between, which takes the rest of it
//! and requests nothing. If it is shorter, the second task could start before the first has ended, which no pairs can
//! say: the link is refused. Waiting jobs are numbered behind all tasks, so the least starts of a plan are those of the
//! tasks first.
//!
//! Three tasks of 4, 6 and 3 time units; task 2 starts 2 time units after the end of task 1 at the earliest, and task 3
//! starts at or after the end of task 2:
//!
//! ```text
//! links    1 to 2 finish to start with lag 2     2 to 3 finish to start
//! pairs    1 4, 4 2                              2 3
//! waits    job 4 of 2 time units, before task 2
//! ```
//!
//! Start to start from 1 to 2 with lag 3 is refused: task 1 still runs then.
//!
//! A phase is a task of which others are parts, such as one with the id 1 beside 1.1 and 1.2. It is no job: it starts when
//! the first of its leaves does, and ends when the last of them has ended. So a link from finish to start that ties a phase
//! stands for links between leaves, each of the one with each of the other (`leaf_links`); a link of another kind is
//! refused. If 2 and 3 are parts of 1, and 5 and 6 of 4, the link 1 to 4 stands for 2 to 5, 2 to 6, 3 to 5 and 3 to 6.
//! `numbered_links` gives the same links with the leaves alone numbered, from 1: here 1 to 3, 1 to 4, 2 to 3 and 2 to 4.
//!
//! All links are looked at before any pair is made, so lack of memory is told only if no link is wrong. The work
//! for a link grows with the number of tasks if it ties a phase or does not go from finish to start, and else does not.
//!
//! Proved: `with_waits` answers exactly the pairs and waiting jobs of the links, `leaf_links` exactly the links between
//! leaves, and `numbered_links` exactly these with their numbers among the leaves; or the first link that is wrong and why.
//! In `laws`: starts of the tasks keep all links exactly if there are starts of the waiting jobs with which they keep the
//! precedence of a network of these jobs and pairs; links of phases are kept exactly if those between leaves are, and
//! exactly if the starts of the leaves alone keep the numbered ones; and each phase has a leaf. Not proved: that memory is
//! not refused without need.
#![tactic(auto)]

mod check;
mod fault;
pub mod laws;
mod link;
mod numbering;
mod outline;
mod spreading;
mod waits;

pub use fault::{LinkFault, PhaseFault};
pub use link::{Link, LinkKind};
pub use numbering::numbered_links;
pub use outline::is_phase;
pub use spreading::leaf_links;
pub use waits::{Wait, Waits, with_waits};
