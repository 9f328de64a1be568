//! Projects with renewable resources: networks of jobs, and which schedules fit them.
//!
//! Jobs and resources are numbered from 1; their places in lists count from 0. Times are whole time units from 0 on.
//!
//! A job runs for a time, and requests units of renewable resources while it runs. A pair (i, j) of job numbers says
//! that job j starts only after job i has ended. A network is the jobs with their pairs, and a schedule has a start for
//! each job. The problem, the usage of a resource at a time, and capacities that admit a schedule are after Möhring
//! (1984). `specs/` has the definitions that the contracts of all crates cite, from a project to the plan of an order.
//!
//! Five jobs with one resource: 2, 3 and 4 come after 1 and before 5. They run for 3, 2 and 2 time units and need 2, 1
//! and 1 units; 1 and 5 have duration 0. With the starts 0, 0, 0, 2, 4 this is used:
//!
//! ```text
//! time        0  1  2  3  4
//! job 2       2  2  2
//! job 3       1  1
//! job 4             1  1
//! together    3  3  3  1  0
//! ```
//!
//! So `fits(&net, &capacities, &starts, 4)` is true for a capacity of 3, and false for 2. It looks at the starts of
//! jobs alone, since a usage is greatest where some job starts; its work does not grow with the deadline.
//!
//! `Network::new` tests the limits and the numbers in the pairs, sorts the pairs and drops repeated ones. Then it ranks
//! the jobs in a row of 512 numbers: a sweep raises the rank of the second job of each pair above that of the first,
//! until a sweep raises none; a rank that would reach the number of jobs shows a ring. That takes no memory, so `Cycle`
//! comes before `Memory`. Last, the pairs are copied as places, by the rank of the first job.
//!
//! Contracts see a `Network` as a `Project`, with its pairs in rising order, so that networks of one relation are
//! equal; `Starts` and `Capacities` as lists; a `Window` as `Bounds`. Fields are private. A `JobSet` has the jobs of a
//! set as 512 bits, and contracts see the rising list of their numbers.
//!
//! Records and findings of a search are true of one network, and may be false of another. So their types have a
//! parameter `N: OfNetwork`, and `N.network` is their project, for contracts alone: nothing of it is there at run time.
//! A function over such values asks that the `Network` it is given is `N.network`; so values with one `N` are about one
//! network. Which one that is, is known at run time only, and no `impl` can say it. A caller therefore passes the
//! marker type `Brand` for `N`, as in `decide_named::<Brand>(alloc, net, question)`, and picks the network in the file
//! `Invariants.antt` of its proof: `ghosts-decide_named a = record { network = a.net.now }`. No type in the signature
//! of such a function names `N`.
//!
//! Whatever searches asks a `Stop` whether to go on. A value of it can be quiet: then it never says stop, and a search
//! with it cannot be stopped.
//!
//! Proved: `Network::new` answers a network of the given jobs and pairs; or `Limit`, `BadJob` or `Cycle`, each exactly
//! if it holds and none before it does; or `Memory`, only if none of these holds. `fits` is true exactly if the starts
//! keep precedence, end by the deadline and never use more than the capacities; `peaks` answers the least capacities
//! that they keep; `JobSet` what is in a set of jobs. In `laws`: there is at most one plan, a project has a ranking or
//! a ring, and more. Not proved: that memory is not refused without need, and that two sweeps are enough if each pair
//! goes from a lower to a higher number.
#![tactic(auto)]

mod capacities;
mod fault;
mod fitting;
mod job;
mod job_set;
pub mod laws;
pub mod limits;
mod named;
mod network;
mod question;
mod starts;
mod stop;
mod topology;
mod usage;
mod window;

pub use capacities::Capacities;
pub use fault::NetFault;
pub use fitting::fits;
pub use job::Job;
pub use job_set::{JobSet, Jobs};
pub use named::OfNetwork;
pub use network::Network;
pub use question::Question;
pub use starts::Starts;
pub use stop::{Never, Stop, Unfound};
pub use usage::{energy_of, peaks, roof_of, usage_at};
pub use window::Window;
