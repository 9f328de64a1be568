//! The desk: workers on threads of their own answer a series of questions about one network.
//!
//! Each takes a piece of a question, searches it, and hands in what it found. The collector and its log change under
//! one lock, and there is no other.
//!
//! Questions stand by their place in the series, from 0, seats and pieces by their number, from 0.
//!
//! One pool of open parts, from which each idle worker takes the next, is the plain form of parallel branch and bound
//! (Gendron and Crainic 1994). Here the pool is the collector of racp_core, for which the order of the calls is free:
//! the first yes is told once each question before it is a no, whichever worker was faster. So which question that is
//! does not depend on how many workers there are.
//!
//! Two workers and the numbers of units 0, 1, 2, 3 of the first resource of examples/b.sm, beside one unit of the
//! second, by the deadline 3. Two units are the first that are enough:
//!
//! ```text
//! seat 0                  seat 1                   log
//! asks question 0                                  Asked(0)
//! takes its window                                 Taken(0, 0, 0)
//!                         asks question 1          Asked(1)
//!                         takes its window         Taken(1, 1, 1)
//! hands in a no                                    Handed(0, 0, 0, false, ..)
//! asks question 2                                  Asked(2)
//! takes its window                                 Taken(0, 2, 2)
//! hands in starts                                  Handed(0, 2, 0, true, ..)
//!                         hands in a no            Handed(1, 1, 0, false, ..)
//! ```
//!
//! `run` starts the workers but the first, works as the first on the calling thread, and joins the others.
//!
//! A worker's turn:
//!
//! 1. It locks the desk and takes a piece.
//! 2. Where no window is open, fewer than two questions a worker are undecided, the series has not ended and no yes is
//!    known, it asks the next question and takes once more. Where there is still no piece, it waits until something has
//!    changed, and begins anew.
//! 3. With a piece it lets the lock go, enters the gate, and searches as many nodes as the quantum allows, with the records
//!    of the board and its own. It pushes what it kept to the board, while that has room, locks the desk, and hands the
//!    finding in. The windows that are left of the piece are then open for all, so work is parted by itself.
//! 4. Where the answer is known, or the desk is halted, it leaves.
//!
//! A worker that comes to take while no turn is left leaves too, and halts the desk where the answer is not known; what is
//! out then is still handed in, and may make the answer known. A worker also halts the desk where the user has asked to
//! stop, and where memory was refused. A finding for whose windows there is no memory becomes its piece again, which is
//! given back. All that wait are told whenever a finding came in, and before a worker leaves. A hint stands beside the
//! lock: the least place of a yes that came in, so that a search of the same or a later question, which is of no use, is
//! left at its next node.
//!
//! `Records` is what one thread keeps from run to run: the board, and what each worker kept of its own, with the index of
//! what it has read of the board. A worker begins a run with one of these, and brings it back when it is joined; so no lock
//! is wanted for them. Without them each run would read the whole board again. A worker whose own records take more than
//! half of their room where it begins a piece forgets them.
//!
//! A `State` is what lies under the lock: the collector, the `Book` of its log, and the total of a ledger. Each of its
//! five calls is a step of the collector with at most one entry, and adds that entry to the share of who calls. All
//! shares together count as many entries as the log has, and `close`, which alone makes a `Closed`, asks for that:
//! where an earlier state was put back under the lock, the run cannot be closed. Each call makes room for its entry
//! before it changes anything, and `take` also for the entry with which its piece comes back; so `give_back`, `halt`
//! and `close` take no memory.
//!
//! In `specs/`, `Tally` is what a log counts, `IsLegal` which logs there are, `Counts` what a tally and a collector
//! have in common, and `IsRunClosed` what a run answers.
//!
//! Proved: a log is legal, and its tally counts what the collector has. Where `run` answers, the outcome is the first
//! yes of the series with starts that answer it, or that there is none, or a question before which each is a no. The
//! log shows it, and it is open only where the desk was halted: for turns that are used up, or for a stop that is not
//! quiet. In `laws`: the log that a run of a collector leaves is legal, and its tally counts what the collector has;
//! and each legal log is left by a run with true findings.
//! Tested alone: that two workers search at once, that a stop and the end of the turns halt, and that memory and
//! threads are not wanted without need. Not promised: that a run ends, that a worker is served, how work is shared,
//! and which of two findings comes first.
//!
//! Wanted by name, and not called by the program: `run`, for a single series. The program calls that of `Records`.
#![tactic(auto)]

mod book;
mod closed;
mod fault;
mod gate;
pub mod laws;
mod limits;
mod log;
mod names;
mod noted;
mod reading;
mod records;
mod running;
mod signatures;
mod starting;
mod state;
mod stock;
mod turn;
mod watch;
mod worker;

pub use book::{Book, Rules};
pub use closed::Closed;
pub use fault::DeskFault;
pub use gate::{Gate, Open};
pub use limits::{RunBounds, RunLimits};
pub use log::{Cause, Entry};
pub use names::RunNames;
pub use records::Records;
pub use signatures::run;
pub use state::State;
