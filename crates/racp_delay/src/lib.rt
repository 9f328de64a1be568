//! Conflicts of start vectors, and minimal delaying alternatives that resolve them (Demeulemeester and Herroelen 1992).
//!
//! Jobs are named by number, from 1; starts and capacities stand by place, from 0. Times are whole time units.
//!
//! Start each job as early as precedence allows. At the first time at which more is used of some resource than there
//! is, some of the jobs that are then active have to be put off. A list of such jobs is a delaying alternative if the
//! others can run at once, and a minimal one if that fails as soon as one of the list stays. In each schedule all jobs
//! of some minimal alternative start at or after the first end, in the early starts, of a job that stays. So a search
//! branches over these alternatives: each gives a child window, in which the lower bounds of the jobs that go are
//! raised to that end.
//!
//! The five jobs of examples/a.sm with 2 units and the starts 0, 0, 0, 0, 3. At time 0 the jobs 2, 3 and 4 are active,
//! and need 2 + 1 + 1 = 4 units:
//!
//! ```text
//! go      stay    can run at once    the jobs that go start at or after
//! 2       3, 4    1 + 1 = 2          2, the end of 3 and 4
//! 3, 4    2       2                  3, the end of 2
//! ```
//!
//! `conflict(&net, &capacities, &starts)` finds the time and the active jobs, `alternatives` the two lists, and
//! `first_end` the times in the last column. There can be very many lists: 184,756 if 10 of 20 equal jobs have to go.
//! So `Alternative::find_behind` finds them one at a time: the first that stands after the empty list, the first after
//! that one, and so on. It is told which jobs are free, and passes over the lists in which any other goes. If 36 of 40
//! equal jobs have to go, there are 91,390 lists, but only one if just 36 of them can be put off.
//!
//! `conflict` sorts the starts and the ends of the jobs in two rows of fixed length, and goes over the starts in order:
//! at each it sets the loads of the jobs that started so far against the capacities and the loads of those that ended
//! so far. So nothing is subtracted, and a job of duration 0 needs no case. `alternatives` decides the active jobs one
//! by one, each first to go and then to stay, so the lists come in lexicographic order. It leaves a branch if the jobs
//! that stay exceed the capacities by themselves, and if one that goes has room beside all the others, of each resource
//! that it requests. So a job without requests never goes. With one resource and equal requests each branch leads to an
//! alternative. In general some do not, and the work for each alternative is not bounded by a polynomial.
//!
//! `find_behind` repeats the decisions of the list that it was given, and goes on from there. It decides on free jobs
//! alone, and keeps the others from the start. It asks a `Stop` at each step, so whoever calls it bounds the time:
//! `Steps` stops it after a number of steps. Where it takes more than a few, it looks at common divisors too: of a
//! resource for which the undecided jobs request even numbers, an odd unit that is left is of no use to those that
//! stay. So it leaves a branch if one that goes has room beside all that the others can use.
//!
//! A `Profile` holds starts, of which `move_job` changes one at a time. `first_over` finds what `conflict` finds, but
//! sorts nothing: it goes over the jobs once for each start up to the conflict. The early starts of a child window have
//! no conflict before that of its window, so a search begins there, by `conflict_from`, and then few starts are left.
//!
//! Why branching loses nothing: let starts in the window fit, and let f be the least end, in these starts, of the
//! active jobs. Those that start before f are all active right before f, so they can run at once. The others contain a
//! minimal alternative, and start at f or later, which is at or after the first end in the early starts of those that
//! stay.
//!
//! Proved: `conflict` finds the first time of an excess with exactly the jobs that are active then, or none if no usage
//! exceeds its capacity, and takes no memory; `alternatives` all minimal delaying alternatives and nothing else, each
//! once; `find_behind` the first of them after a list in which only free jobs go, or that there is none; `first_end`
//! the first end. In `laws`: the child windows cover their window and lie inside it, and the sum of the lower bounds
//! rises; before the conflict of a window its children have none. A `Profile` answers for its starts what `conflict`
//! does. Not proved: that memory is not refused without need, and the time that all this takes.
//!
//! Wanted by name, and not called by the program: `alternatives` and `Profile`.
#![tactic(auto)]

mod choosing;
mod conflicts;
mod delaying;
mod extension;
mod following;
pub mod laws;
mod loads;
mod profile;
mod reach;
mod scans;
mod stop;

pub use conflicts::{Clash, conflict, conflict_from};
pub use delaying::{DelayingAlternatives, alternatives, first_end};
pub use following::{ActiveJobs, Alternative};
pub use profile::Profile;
pub use racp_model::{Never, Stop, Unfound};
pub use stop::Steps;
