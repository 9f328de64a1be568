//! Early and late starts of a network, its critical length and its root window (the critical path method).
//!
//! Lists are by the places of jobs, from 0. Times are whole time units.
//!
//! Without limits on the resources, each job can start as soon as it is released and all jobs before it have ended:
//! these are the early starts. In the same way each job has a greatest start that leaves room for all that comes after
//! it by the due times: the late starts. The root window goes from the first to the second; all starts in time that
//! keep precedence lie in it. The critical length is the greatest early finish. It is the release time of the first job
//! of some chain plus the durations of all of its jobs, and no chain has more; so no project ends sooner, however many
//! units there are.
//!
//! The five jobs of examples/a.sm: 2, 3 and 4 come after 1 and before 5. Each may start at 0 and has to end by 4:
//!
//! ```text
//! job            1  2  3  4  5
//! duration       0  3  2  2  0
//! early start    0  0  0  0  3
//! late start     1  1  2  2  4
//! ```
//!
//! `longest(alloc, &net, &release)` answers the critical length, 3. If job 2 has to end by 2, `root` answers `None`,
//! since its early finish is 3, and `first_late` names job 2. If job 2 is released at 3, the critical length is 6.
//!
//! Early starts are one sweep over the pairs in topological order, which raises each start to the end of the jobs
//! before it. Late starts are one sweep from the end of that list. `settle_early` works in place and takes no memory,
//! so that a search can use one row again and again. Lower bounds are at most 20,000,000, and early starts then stay
//! below 2^32. `root` looks at the early finishes before it asks for late starts: if each is in time, there are late
//! starts.
//!
//! Proved: `early` and `settle_early` give the least starts at or above the lower bounds that keep precedence; `late`
//! the greatest that keep precedence and end by the due times, or `None` exactly if there are none; `longest` the
//! length of some chain, and none is longer; `last_end` the greatest finish; `root` the root window, or `None` exactly
//! if the early finish of some job exceeds its due time; `first_late` the first job that ends late. In `laws`: of the
//! starts that keep precedence, those in time are those in the root window; there is no root window exactly if no
//! starts keep precedence and are in time. With one deadline for all jobs, that is so exactly if the critical length
//! exceeds it. Not proved: that memory is not refused without need.
#![tactic(auto)]

mod earliest;
mod latest;
pub mod laws;
mod root_window;

pub use earliest::{early, last_end, longest, settle_early};
pub use latest::late;
pub use root_window::{first_late, root, window_above};
