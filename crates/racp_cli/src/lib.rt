//! The commands of the program `racp`, over any readers and any writer: texts are read, and one text is written.
//!
//! Jobs and resources are numbered from 1 in what is written. Times are whole time units, and inputs are counted in
//! bytes.
//!
//! Each command is a function over readers and a writer, so that what it does can be proved and tested without files.
//!
//! - `cpm_over` reads a network, and writes its critical length and early starts.
//! - `run_over` reads a network and an order, and writes the plan or why there is none; `crowd_over` lets workers make
//!   it.
//! - `prove_over` reads a network and an order, and writes a certificate for the plan; `prove_by_clauses_over` writes one
//!   by clauses, or one of a bound if it was stopped.
//! - `check_over` reads a network, an order and a plan, and writes `ok` or what is wrong.
//! - `verify_over` reads these and a certificate, and writes whether it shows that no cheaper capacities would do; or, if
//!   it is one by clauses, that the plan is the plan of the order. `verify_bound_over` reads a network, an order and a
//!   certificate of a bound, and writes what each plan costs at least.
//! - `show_over` reads a network, an order and a plan, and writes a picture of the plan.
//! - `report_over` reads the same, and writes a page about the plan; `export_over` writes it for other programs.
//! - `curve_over` reads a network and an order, and writes what each deadline costs; `curve_crowd_over` is for workers.
//! - `whatif_to` takes the texts of a network, an order and perhaps a plan, and writes what becomes of the order if one
//!   term is changed.
//! - `order_over` reads a network, and writes an order.
//!
//! `known_text` makes the text of a plan that is known while planning goes on. Each command returns the status with which
//! the program ends. `verify_over_until`, `verify_bound_over`, `prove_over_until` and `prove_by_clauses_over` can be stopped. `run_over_within`
//! and `crowd_over_by` also take how much memory the records of refuted nodes may have. docs/FORMATS.md has every line and
//! every status.
//!
//! Two jobs, 1 before 2, run for 2 time units and 1, and use 1 unit and 3; the order has the deadline 4 and the price
//! 5. With these texts in `net` and `order`, `run_over(alloc, &mut net, &mut order, &mut out)` returns 0, and in `out`
//!    is
//!
//! ```text
//! deadline 4
//! critical 3
//! cost 15
//! capacity 1 3
//! start 1 0
//! start 2 2
//! end
//! ```
//!
//! With `deadline = 4` alone as the order it returns 5, and writes `refused order 2 Missing`.
//!
//! A command runs in three steps. Each input is read to its end through a buffer of 65,536 bytes, at most 16,777,216
//! bytes, before the next one; a byte more is `TooLong`. The whole text of the answer is made in memory. If memory runs
//! out, the text is the line `memory`, which takes none. Then the text is written by a loop over `write`, and flushed
//! once. A call that takes no byte, or fails, is `Write`; a call that is interrupted counts as failed.
//!
//! In `specs/`, an answer is a value, with the text and the status that stand for it. `IsCpmAnswer`, `IsPlanAnswer`,
//! `IsCrowdAnswer`, `IsProofAnswer`, `IsClauseProofAnswer`, `IsCheckAnswer`, `IsVerifyAnswer`, `IsVerifyAnswerUntil`, `IsBoundAnswer`,
//! `IsShowAnswer`, `IsReportAnswer`, `IsExportAnswer`, `IsCurveAnswer`, `IsCurveCrowdAnswer`, `IsSoonestAnswer`, `IsWhatIfAnswer` and `IsOrderAnswer` say when text and status are right for the
//! bytes of one to four inputs, and `IsRun` ties answers to what the readers had and what the writer holds, for all
//! commands.
//!
//! Proved: if a command returns a status, all of each reader was read, and what was written is exactly the text of a
//! right answer, with its status. After `Write` what is out is a beginning of such a text; after `Read`, `TooLong` and
//! `Memory` nothing was written, and nothing was read of the readers after the one that failed. That holds of readers
//! and writers that tell their bytes, as slices and vectors do; of others, as files, only that what is written answers
//! some bytes. In `laws`: no two answers of `cpm` share a text if their numbers fit 64 bits, and no text of `plan` goes
//! with two statuses. Tested alone: that `Read` and `Write` come only if a read or a write fails, and `memory` only if
//! memory is refused.
//!
//! Wanted by name, and not called by the program: `run_over`, `crowd_over`, `prove_over` and `verify_over`. It calls the
//! forms of these that also take how much memory there is, or what may stop them.
#![tactic(auto)]

mod beside;
mod check;
mod check_fault;
mod cpm;
mod crowd;
mod curve;
mod curve_crowd;
mod export;
mod known;
pub mod laws;
mod lines;
mod order;
mod plan;
mod prove;
mod prove_by_clauses;
mod refusal;
mod report;
mod report_claim;
mod report_page;
mod respond;
mod show;
mod soonest;
mod status;
mod texts;
mod verdict;
mod verify;
mod verify_bound;
mod whatif;

pub use check::check_over;
pub use cpm::cpm_over;
pub use crowd::{crowd_over, crowd_over_by};
pub use curve::{CurveForm, curve_over};
pub use curve_crowd::curve_crowd_over;
pub use export::{Target, export_over};
pub use known::known_text;
pub use order::{Asked, Time, order_over};
pub use plan::{run_over, run_over_within};
pub use prove::{prove_over, prove_over_until};
pub use prove_by_clauses::prove_by_clauses_over;
pub use racp_streams::StreamFault;
pub use report::{Page, report_over};
pub use show::{Look, show_over};
pub use soonest::soonest_to;
pub use status::{CHECK_FAILED, DONE, IMPOSSIBLE, OUT_OF_MEMORY, REFUSED, STOPPED, STREAM_FAILED};
pub use verify::{Certificate, verify_over, verify_over_until};
pub use verify_bound::verify_bound_over;
pub use whatif::{WhatIfTexts, whatif_to};
