//! The plan by questions; and who answers them, on the calling thread or with workers.
//!
//! Jobs and resources stand by place, from 0. Units are whole numbers, times are whole time units.
//!
//! `found_by_questions(&task, known, &mut asker, &mut kept)` finds the plan of an order by its root window, or that no capacities are
//! enough (`Found` of racp_found), as in Demeulemeester (1995). In examples/b.sm with b3.toml two jobs use the first resource
//! and two later ones the second, each for a time unit; the deadline is 3, and a unit costs 1:
//!
//! ```text
//! 1  floors, and roofs that are cut to the ceilings      1 1 and 2 2
//! 2  floors sharpened, pairs of resources refuted        1 1; both resources are not at 1
//! 3  the vectors of the box by cost, to the first yes    1 2 is a yes, before 2 1 at the same cost
//! 4  the jobs one by one, each at its least start        0 0 1 2 2 3
//! ```
//!
//! No capacities are enough where a floor is above its roof, or there are ceilings and the cut roofs are a no. For each job in
//! stage 4, the lower bounds of the window become its early starts, the starts of the job are asked up to the first yes, and
//! both of its bounds become that start. Why the first yes of stage 3 is the first of all vectors: one that is enough still
//! admits when it is cut to the sums of requests; cut, it lies in the box, and it does not stand later than before. Why the
//! starts are least: whatever answers in the root window lies in the window so far, or is greater at some job that is fixed and
//! equal before it.
//!
//! The vector of the first yes of stage 3 is not told by the asker: it is the peaks of the starts that were found, since these
//! peaks are enough too, and none that are stand before it. If the asker stops, `PlanStop` has capacities before which none are
//! enough: the floors so far, raised to those that were known before, the vector that was reached, or the plan's own.
//! `first_ends` is the first half of stage 1, for whoever begins with another engine.
//!
//! Each stage asks through `Asker`, so it is the same over one thread or more. `Alone` answers on the calling thread, over a
//! collector of one seat: it asks a question, takes its one piece, searches that to its end and hands it in. Records of a
//! question that was a yes serve those after it; those of a no are forgotten. `AloneUntil` is the same asker with a stop, which
//! is asked before each node.
//!
//! `Crowd` is an asker with workers: for each series it runs a desk (racp_desk), by a call that it is handed, and
//! counts over all series the turns, of which a desk takes one for each piece, of at most 1,000 nodes. A question with
//! a bound on its nodes has as many turns as they make such pieces, and so has each of those that come next. A question
//! by itself is looked at by one worker first, over 16 nodes, before threads are started for the others.
//!
//! An asker is an observer too: it is told floors, what they cost, and what capacities that are enough cost at least. `Crowd` tells
//! its own observer what it is told.
//!
//! ```text
//! planner  --series-->  Alone  --pieces-->  a search
//!                       Crowd  --series-->  a desk, whose workers search pieces
//! ```
//!
//! Whoever asks the vectors of a box one by one, in the order of their costs, asks a question for each vector that
//! stands before the plan's. Two facts save most of these questions. A vector with which nothing fits refutes each
//! vector that is at most it, resource by resource. And starts that were found for a vector use at most their peaks,
//! which may cost much less: from then on only what stands before these peaks is of interest.
//!
//! So where stage 3 has more than 64 vectors, they are not asked in order. The best vector that is known to be enough is kept,
//! at first the roofs, the box from the floors to the roofs is searched by halves, and the vector that this leads to is asked
//! for once more, so that its records serve the starts:
//!
//! 1. Each high number is lowered to the most units of a vector of the box that stands before the best one. If not even
//!    the low vector does, the box has nothing to offer.
//! 2. The high vector is asked for. If nothing fits, nothing in the box does. If starts are found, their peaks may be
//!    the best vector from then on.
//! 3. If the box has more than one vector, it is halved along the resource whose width costs most. The half with fewer
//!    units is searched first, and then the other one.
//!
//! With the prices 3 and 2, the floors 0 0 and the roofs 2 3, of which 1 2 is enough and 1 1, 0 3 and 2 0 are not:
//!
//! ```text
//! box            best   high vector after 1    asked
//! 0 0 to 2 3     2 3    2 3                    no, since it is the best one itself
//! 0 0 to 1 3     2 3    1 3                    yes, with the peaks 1 2
//! 0 0 to 1 1     1 2    1 1                    no, so there is nothing in the box
//! 0 2 to 1 3     1 2    0 3                    no
//! 2 0 to 2 3     1 2    2 0                    no
//! ```
//!
//! So four questions are asked for the first of twelve vectors; asking in order takes eight. A vector that is at most a
//! refuted one is not asked for. Up to 128 refuted vectors are kept. A question about a box of more than one vector
//! ends after 64,000 nodes, of all workers. If that is not enough, nothing is learnt, and the halves are searched. If
//! 256 nodes leave a question open, the asker is told the questions of up to seven boxes that come next if each is
//! refuted. Workers that have nothing else to do can search them. For a box whose high vector is known to be enough,
//! that is the question of its half with fewer units. Demeulemeester (1995), too, searches capacities by scheduling
//! problems with given ones, and goes from vectors that are not enough to dearer ones.
//!
//! Proved of the plan: what is found is the plan, without any bound on the numbers of units, or that no capacities are enough
//! (`IsDecided`), even if some questions ended early and nothing is known of them. Where the asker stops, capacities are told as
//! `IsStoppedAt` says, by how many series were answered. What the asker is told of floors and costs is true; that it is told in
//! time is tested alone. Not proved: how many questions are asked.
//!
//! Proved of askers: what an asker answers is the first yes of a series, or that there is none (`IsFirst`, `IsProbed`).
//! `Alone` gives up for memory alone, or after 2^64 - 1 series; `AloneUntil` also where its stop is not quiet.
//! `Crowd` stops only where no turn is left, or where its stop is not quiet. Tested alone: that memory is not refused
//! without need. What only costs time has no contract: how many nodes a first look has, and which questions are
//! searched ahead.
#![tactic(auto)]

mod ahead;
mod alone;
mod answering;
mod bounds;
mod crowd;
mod cut;
mod found;
mod halving;
mod known;
mod news;
mod one_question;
mod raised;
mod settling;
mod span;
mod starts;
mod stop;
mod subject;
mod task;
mod until;
mod vectors;

pub use alone::Alone;
pub use bounds::{Ends, first_ends};
pub use crowd::{Crowd, Effort, OfTurns};
pub use found::found_by_questions;
pub use racp_bounds::Sharp;
pub use stop::PlanStop;
pub use task::Task;
pub use until::AloneUntil;
