//! Drafts of plans: schedules on the terms of an order, made fast by a list, then by ruin and recreate and a family of lists.
//!
//! Jobs and resources stand by place, from 0. Times are whole time units.
//!
//! A draft has starts, the capacities that they need, and what these cost. The capacities are enough for the order, but
//! nobody proves that no others cost less: a draft is where a search for the plan begins, and the best answer there is
//! if the search is stopped.
//!
//! Drafts are looked for below aims: units of each resource that together cost less than the best draft. The excess of a
//! schedule is the sum of what its usages are above the aims, by price and time. A schedule without excess is a better
//! draft. The aims come from the peaks of the schedule: those are lowered above which it is for the least time, until they
//! cost less; they never go below what is owned, or what every schedule needs, which are the largest request, and the
//! energy over the deadline. As long as there is no draft within the ceilings, these are the aims.
//!
//! A list schedule places the jobs one by one (Kelley 1963). The next one is the job with the most work, the sum of request
//! times price, times duration, for each start in the window that the placed jobs leave it; chance blurs that. It gets the
//! start at which the excess grows least. So the draft of examples/a.sm by the deadline 4, with a price of 10, has the
//! capacity 3 and costs 30: the energy over the deadline, 10 / 4, shows that no schedule needs less, and as long as the list
//! schedule has the peak 4, rounds go on.
//!
//! Ruin and recreate (Schrimpf, Schneider, Stamm-Wilbrandt and Dueck 2000): a round takes out up to 20 jobs that run near a
//! time, two times in three one of excess, and places them anew as the list does. What is kept is decided as in simulated
//! annealing, by the excess. Without a better draft in 2,000 rounds the aims are set anew.
//!
//! The family (after Shadrokh and Kianfar 2007) has 30 members: an order of the jobs, and units of the resources. A member is
//! read as a serial schedule, each job as early as the units let it start. If it ends too late it is justified: to the right
//! and to the left (Valls, Ballestin and Quintanilla 2005). A child has a part of one member's order, the rest of
//! another's, and units by chance from both; the better of two members by chance is a parent, and the worst one makes room.
//!
//! `draft_of` makes a list schedule better in rounds, which end where many in turn have brought nothing: 50 for up to 31
//! jobs, 80 for 40, and so on by the square of the jobs, up to 200. `Drafting` goes on in stints, with the family, and is
//! told of drafts that others have found. The numbers by chance come from a seed, so that the same calls give the same
//! drafts on every machine.
//!
//! `Drafting` keeps the schedule of least excess since the aims were set, and tells neighbourhoods of it (large
//! neighbourhood search, Shaw 1998) to who looks for a schedule by other means: the aims, and which jobs may start
//! anywhere. These are at first the 12 jobs that run nearest to where the schedule exceeds the aims; the others keep their
//! starts. It is told whether more or fewer are to be free in the next one.
//!
//! Usages are kept from one change to the next: nothing grows with the deadline. The starts that are weighed are the first
//! and the last, and those at which a run begins or ends with a change, since between two of these the excess grows evenly;
//! one walk finds them. So placing a job takes time in proportion to the jobs times the resources.
//!
//! Proved: a draft that is answered fits, however it was made. Its starts fit its capacities on the terms of the order,
//! within the ceilings; the capacities are the peaks of the starts, and the cost is theirs. That is the contract of the
//! test that each schedule has to pass; all that makes one is proved to be safe and to return, and no more. Not proved:
//! that there is a draft where there is a plan, that it is cheap, that a later one is cheaper, that a seed makes the same
//! one again, and the time that it takes.
#![tactic(auto)]

mod aiming;
mod around;
mod draft;
mod drafting;
mod effort;
mod family;
mod least;
mod member;
mod neighbourhood;
mod orders;
mod peaks;
mod polish;
mod polished;
mod problem;
mod random;
mod ranks;
mod resource;
mod rows;
mod ruin;
mod serial;
mod starting;
mod usage;
mod usages;
mod windows;

pub use draft::Draft;
pub use drafting::{Drafting, draft_of};
pub use effort::Effort;
pub use neighbourhood::Neighbourhood;
