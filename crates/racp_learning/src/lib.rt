//! A search that learns from its conflicts: lazy clause generation (Ohrimenko, Stuckey and Codish 2009).
//!
//! Schutt, Feydy, Stuckey and Wallace (2011) apply it to scarce resources, Kreter, Schutt, Stuckey and Zimmermann (2018)
//! to capacities that are paid for.
//!
//! Jobs, resources and variables are named by their places, from 0. Times are whole time units.
//!
//! The variables are the start of each job, the units of each resource, and the cost. A question is a lower and an upper
//! bound on each of them, and a search asks whether some schedule lies within these. It narrows bounds as far as it can:
//! along precedence, by core usage, by prices, by the clauses that it has learned, and, if that is turned on, by the work
//! that jobs have to do in windows of time. Where nothing more follows, it looks at the usage of the early starts. If
//! they fit and cost little enough, that is an answer. If not, it tries: a job that runs at a time of excess and is a
//! member of a minimal delaying alternative then is put off to start after that time, or there are fewer units of a
//! resource. Which job, until when and which units is decided by what took part in conflicts of late; where nothing did,
//! the job that starts last gives way, until the first of those that run has ended. Demeulemeester and Herroelen (1992)
//! branch over all alternatives of the first such time, and put off to that end.
//!
//! A conflict, here, is a bound that cannot be: a lower one above an upper one. It follows from some bounds that were
//! there before, and these from others; going back to the first place that all goes through gives bounds that cannot be
//! together. That not all of them are true is a clause. The search goes back to where the clause says something new, and
//! goes on from there. Two jobs of 3 time units with 1 unit each, from 0 to 4, and the question of at most 1 unit:
//!
//! ```text
//! assumed: at most 1 unit         job 1  0 1   job 2  0 1
//! core usage from 1 to 3          2 units: a conflict
//! the clause                      at least 2 units
//! ```
//!
//! This one a search knows before any question: at the root it takes in requests and energies too.
//!
//! `Search::new(alloc, &net, &order, &root, seed, most_bytes)` makes a search over the problem that `N` names
//! (racp_clauses). `ask(&net, &order, &bounds, conflicts, &stop)` asks a question, and tells starts with their units, a
//! clause that is false within the bounds, or that the question is left open, with the reason. What it has learned serves
//! the next question too. Searches over one problem can learn from each other: `take_short` gives short clauses, and
//! `learn_from` derives one anew where it is of use. `guide` gives it starts that decisions keep to, as to look for a
//! schedule near these, `look_at_energies` has it look at windows, and `roam` has it decide about any job in turns. After `record`
//! it keeps what its clauses are derived from (`Derivations`), for who wants to show them.
//!
//! Nothing of this has to be trusted. Each clause is derived by the rules of racp_clauses from the steps that the search
//! names, and what is not confirmed is dropped and counted. Starts that are found are tested. So the parts below `Search`
//! promise nothing, but that they return: rows are read and written at any place, sums wrap, and no loop has to be
//! measured.
//!
//! No row grows with the deadline. Core usage changes only where core times begin or end (`usage`). Scores and lists of
//! watched literals stand by value where a variable has few values, and by groups of values where it has many (`scale`).
//! A bound by core usage names times from one to before another, so one step is enough for times however long.
//!
//! Proved: starts that are told lie within the bounds of the question and fit their units; a clause that is told holds,
//! and is false within the bounds; with a quiet stop no question is left open since it was stopped; one is left open for
//! its budget alone where that was spent; and each call returns. Not proved: that a question is decided, that clauses are
//! confirmed, and that memory is not refused without need.
#![tactic(auto)]

mod activity;
mod alternatives;
mod analysis;
mod bound;
mod candidate;
mod clauses;
mod conflicts;
mod deciding;
mod derivations;
mod energies;
mod energy_reasons;
mod energy_windows;
mod engine;
mod events;
mod following;
mod forgetting;
mod found;
mod guiding;
mod lanes;
mod learned;
mod learning;
mod links;
mod narrowing;
mod needs;
mod problem;
mod reasons;
mod recorder;
mod recording;
mod restarts;
mod roaming;
mod rows;
mod scale;
mod search;
mod settling;
mod sharing;
mod sides;
mod steps;
mod tight;
mod told;
mod trail;
mod usage;
mod usage_reasons;
mod view;
mod watches;
mod watching;

pub use derivations::{Derivations, Step};
pub use racp_model::Stop;
pub use search::Search;
pub use told::{Reason, Tally, Told};
