//! The plan of an order: the cheapest capacities that end the project in time, with the least starts.
//!
//! Or why there is none. From the texts of a network and an order to the text of the answer.
//!
//! Jobs and resources are numbered from 1; their places in lists count from 0. Times are whole time units.
//!
//! This is the resource availability cost problem under a deadline (Möhring 1984, Demeulemeester 1995). Of capacities
//! that cost the same the plan has the lexicographically least, and of the starts that fit them too; so an order has
//! one plan at most, and two planners can be compared text by text. Where the critical length exceeds the deadline, or the early
//! finish of a job its due time, the answer is `Impossible` or `Due`. Else there is a root window, in which two engines look for
//! the plan. Each answers the plan's capacities and starts, or that no capacities are enough, in which case the answer is
//! `Ceiling`; the first may leave both open:
//!
//! ```text
//! by clauses      if there are more than 64 vectors from the floors to the roofs, and the asker leaves room for a search
//! by questions    if no search was made by clauses, or that left it open
//! ```
//!
//! By clauses a search that learns looks for the plan, on the calling thread or with others beside it (racp_by_clauses). By
//! questions the floors are sharpened, and capacities and starts are found one after another (racp_by_questions); these
//! questions go to an `Asker`, so the same planner runs over one thread or more. An asker may be told how far planning has come.
//!
//! `plan_alone(alloc, net_bytes, order_text)` answers the text of examples/b3.plan for the texts of b.sm and b3.toml,
//! with the status 0; for a.sm and a2.toml it answers `impossible critical 3 deadline 2` with the status 3. `plan_crowd`
//! has workers make the plan: it hands `Crowd` a call that runs them over one board of records, for all series.
//! `plan_alone_within` and `plan_crowd_by` do the same, and are told how many mebibytes the records of refuted nodes take
//! at most (racp_cutset), and before that the clauses; the others take 1,024. Where turns are limited, workers leave no
//! room for a search of planning's own, so that all work is done in turns.
//!
//! `plan_by_crew` answers the plan of a network and an order that are at hand, as a value, made by such workers. `Learned`
//! keeps what a search by clauses has learned of an order for its variants, as with an earlier deadline or lower ceilings.
//!
//! Proved: the answer of `plan` is right (`IsAnswer`): the plan, without any bound on the numbers of units, or the
//! first reason for which there is none. `plan_alone` prints that answer for what the texts are read as, or tells the
//! fault of the first text that is refused, or that memory was refused (`IsPrinting`). `plan_crowd` prints the same,
//! whatever the workers, or tells capacities before which none are enough (`IsCrowdPrinting`): only where runs of desks took
//! as many pieces as there are turns, or where the stop is not quiet (`MayStop`). Where an asker stops, `plan`
//! tells capacities before which none are enough: the floors so far, those that the search by clauses has raised among them, the
//! vector that was reached, or the plan's own.
//! While it plans, it tells the asker floors that all capacities which are enough are at or above, what these cost at
//! least, and plans that fit the order; that it tells them in time is tested alone. In `laws`: an order for a network has an
//! answer, and only one. Tested alone: that memory is not refused without need. How long planning takes is measured
//! (docs/PERFORMANCE.md), not promised.
//!
//! Wanted by name, and not called by the program: `plan_alone` and `plan_crowd`. It calls `plan_alone_within`,
//! `plan_crowd_by` and `plan_by_crew`.
#![tactic(auto)]

mod answer;
mod by_workers;
pub mod laws;
mod learned;
mod lines;
mod one_thread;
mod planning;
mod printed;
mod roots;
mod searches;
mod signatures;
pub mod status;

pub use answer::{Answer, plan_of};
pub use by_workers::{Crew, plan_by_crew, plan_crowd_by};
pub use learned::Learned;
pub use lines::answer_lines;
pub use one_thread::plan_alone_within;
pub use planning::{plan, plan_after};
pub use printed::{Printed, Refusal, answer_printed};
pub use racp_by_questions::{Alone, Crowd, PlanStop};
pub use racp_cutset::MemoryLimit;
pub use roots::{RootBounds, root_bounds};
pub use searches::limits_of;
pub use signatures::{plan_alone, plan_crowd};
