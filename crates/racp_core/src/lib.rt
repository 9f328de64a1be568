//! The collector: hands out the questions of a series in pieces, takes in what was found, and tells the first yes.
//!
//! It asks the questions in order. It has no thread and no lock of its own, and the order of the calls is free.
//!
//! Questions stand by their place in the series, from 0, and pieces by their number, from 0.
//!
//! A question is a yes if some starts answer it, and infeasible if none do. The first yes of a series is known when
//! some question is a yes and each question before it is infeasible. Workers can search several questions at once, each
//! in parts, and their findings come in any order. The collector keeps account: for each question that was asked, it
//! has the windows that are still to be searched, the open ones, and the pieces that are out. `ask` takes the next
//! question off the series and opens its window; `take` hands out an open window of the least question that has one and
//! stands before each known yes, as a piece for the worker at a seat; `hand` takes in a finding, and `give_back` a
//! piece that was not searched; `answer` says what is known.
//!
//! Two workers search the capacity vectors of examples/b.sm by the deadline 3, of which the second is enough:
//!
//! ```text
//! call                       answer              known after it
//! ask()                      question 0: 1 1     question 0 is open
//! ask()                      question 1: 1 2     question 0 is open
//! take(1)                    piece 0             question 0 is open
//! take(2)                    piece 1             question 0 is open
//! hand(starts of piece 1)    taken               question 0 is open, though 1 is a yes
//! ask()                      enough              no later question matters
//! hand(no of piece 0)        taken               the first yes is question 1
//! ```
//!
//! A yes discards the open windows of its question and of each later one; findings of their pieces are taken in and
//! leave no window. A piece that comes in counts only if it is out, with that number, seat, place and question. Any
//! other is stale.
//!
//! There is a row for each question that was asked, and an ordered set of the places of the undecided ones, so that
//! `take` looks at no decided one. A question that was taken off the series is held until there is memory for its row,
//! so a refused `ask` loses nothing. `take` makes the room that the piece needs to come back whole.
//!
//! In `specs/`, `Machine` is a state, `Step` says for each call and its answer which change goes with it, `Run` is a
//! list of steps, and `IsSoundState` is what is true of each state.
//!
//! Proved: each call is a step of that definition, for any order of calls, and a refused one leaves the state as it
//! was. `answer` and `into_answer` tell the first yes of the whole series with starts that answer it, or that each
//! question is infeasible, or a place before which each is infeasible. In `laws`: after any run in which true findings
//! were handed in, what is open or out of each question before the least yes covers its window and lies inside it, and
//! the least yes answers. Tested alone: that memory is not refused without need. Not promised: which of the open
//! windows of a question goes out.
#![tactic(auto)]

mod collector;
pub mod laws;
mod replies;
mod row;
mod undecided;

pub use collector::Core;
pub use replies::{Asked, Merged, Outcome, Reply, Verdict};
