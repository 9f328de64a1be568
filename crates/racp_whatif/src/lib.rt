//! What becomes of an order if one term is changed: its new plan, made by workers, or why there is none and which jobs
//! need more units, and the lines that tell it.
//!
//! Resources and jobs stand by place, from 0, and are numbered from 1 in what is written. Times are whole time units.
//!
//! Who has a plan asks what goes with it: whether one unit fewer would do, what one owned unit more saves, what one
//! time unit more or less costs. Each of these is a `Change` of one term of the order: a ceiling one below the units of
//! the plan, one owned unit more, another deadline. `changed(alloc, &order, change)` makes the order so changed, and
//! `changes_of(alloc, &order, capacities)` lists what is asked about an order and the capacities of its plan.
//!
//! With examples/b.sm and b3.toml two jobs use resource 1 and two later ones resource 2; the deadline is 3, a unit
//! costs 1, and the plan has 1 and 2 units. Asked is: at most 0 units of resource 1; at most 1 of resource 2; one owned
//! unit of each; the deadlines 2 and 4.
//!
//! An order without ceilings has a ceiling of 10,000,000 for each other resource when one gets a ceiling. No plan has
//! as many units: there are at most 512 jobs, and none asks for more than 10,000. A due time that is the deadline moves
//! with it: an order that names no due times has the deadline for each job.
//!
//! What becomes of an order is an `Outcome`: its plan; why it has none, with a need where one is seen; or what each
//! plan costs at least if the plan is not known. `findings_text` tells a `Finding`, a change with its outcome, in a
//! line beside the plan that was there before:
//!
//! ```text
//! deadline 3: cost 3
//! one fewer of resource 1: not possible; 1 of resource 1 needed by job 2
//! one fewer of resource 2: cost 3, as much; 1 more of resource 1; 1 fewer of resource 2
//! ```
//!
//! `findings_json` tells the same as an object of JSON, and `base_line` the first of these lines alone.
//!
//! `findings(rt, &task, capacities, &crew)` makes the order of each change that is asked about an order and the
//! capacities of its plan, and its plan. The workers of a crew take changes one after another. Each has a search of its
//! own, which keeps what it learns for other ceilings and deadlines, and its share of the memory. Where turns are limited
//! or there are few vectors, and for what no worker has found, all of them make one plan after another, as racp_lexfix has
//! them do it: with records and turns of its own. The stop is one for all.
//!
//! With examples/a.sm and a4.toml the plan has 3 units of the one resource, for 30. With one unit fewer there is no
//! plan, one owned unit saves 10, a time unit more saves 10, and one less costs 10.
//!
//! A `Need` is units of a resource that some jobs use together, however all jobs start in time. If an order has
//! ceilings and no plan, its buyer asks why. Often that is seen without a search: one job requests more than the
//! ceiling; or some jobs have to run at the same time, wherever they start; or so much work falls between two times
//! that the units cannot do it (the energy of Erschler, Lopez and Thuriot 1991). `need_above(alloc, net, &order)` looks
//! for such a `Need`, in this order, and of those of the last two kinds for one with the fewest jobs.
//!
//! With examples/a.sm and the deadline 4 the jobs 2, 3 and 4 have to do the work of 10 units in one time unit, between
//! 0 and 4. If there are at most 2 units, the need is 3 units, 10 / 4 rounded up, of these jobs.
//!
//! The least time for which a job runs between two times is that of racp_clauses; the windows are those of racp_check.
//! What is looked at are the times from each early start until each late finish, and the time unit from each late start
//! on. That takes a time that grows with the cube of the number of jobs, for each resource of which all jobs together
//! could use more than the ceiling.
//!
//! Proved of changes: `changed` answers exactly the order with that term changed, and if the order was for a project,
//! so is this one; `changes_of` exactly the changes that are asked, each of which an order may say; `findings_text`
//! exactly the lines of the findings, the first of which is that of `base_line`; `told_finding` the numbers of a
//! finding. Not proved: the text of the JSON, which rests on what `serde` derives. That an outcome is right is said by
//! `IsOutcome`, and proved where plans are made.
//!
//! Proved of plans: `findings` answers a finding for each change, in their order: the plan of the order so changed; why
//! it has none, if the ceilings leave none with a need above one that is seen; or, of a plan that is not known,
//! what each that is enough costs at least: only where the turns are used up, or where the stop is not quiet. It ends
//! early only if memory is refused or a worker cannot be started. Not proved: that memory is not refused without need,
//! and how long it takes.
//!
//! Proved of needs: in each start vector in time that keeps precedence, the jobs of a need together use its units at
//! some time in it, and each of them some units; and these are more than the ceiling. If there is none, each job that
//! runs for some time requests at most the ceiling, and at the times that are looked at the least work of all jobs
//! fits. In `laws`: a need above a ceiling leaves no plan. Not proved: that a need has the fewest jobs, and that memory
//! is not refused without need.
#![tactic(auto)]

mod beside;
mod change;
mod changes;
mod changing;
mod collected;
mod finding;
mod joint;
mod json;
pub mod laws;
mod lines;
mod need;
mod needed;
mod outcome;
mod overload;
mod side_by_side;
mod single;
mod variants;
mod work;

pub use change::Change;
pub use finding::{findings, outcome_by_crew};
pub use json::{ToldFinding, findings_json, told_finding};
pub use lines::{Called, base_line, findings_text};
pub use need::Need;
pub use outcome::{Finding, Outcome, are_known};
