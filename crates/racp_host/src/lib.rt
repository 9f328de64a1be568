//! What the commands of the program `racp` use of the machine: files, standard streams, clocks, and the words for limits.
//!
//! A command reads its files, answers, and tells what is wrong. This crate has what commands share in that:
//!
//! ```text
//! inputs     files that are read whole, opened in the order of the words before the first is read
//! files      files that are written whole or not at all: beside their paths first, then named
//! best       the file that keeps the best plan that is known
//! answer     standard output, to which answers are written, and whether anybody reads it
//! failure    why no answer is written, and how that is told: the status 2, 5, 6 or 7
//! telling    what is told on standard error beside an answer, in one line, in several, or as JSON; undated of answers without dates
//! making     how plans are made: workers, memory, a limit of time
//! limit      when a command that workers carry out is stopped by the clock or by the user; alone_limit for one thread
//! progress   how far planning has come; known: its best cost, and what each plan costs at least
//! bar        how many rows of a table are done; terminal: lines on a terminal, each in the place of the one before it
//! dates      the calendar that words tell of; resources: what resources are called
//! machine    what all of this needs of the machine that the program runs on
//! ```
//!
//! Times are in seconds as the user writes them, sizes in bytes, memory in mebibytes. A file with the path `-` is standard input.
//! The user asks for a stop by a file that the variable RACP_STOP names.
//!
//! Proved: `failure::report` answers the status of its reason, which is 2, 5, 6 or 7, or 0 after help and the version;
//! `making::worker_count` answers 1 to 64 workers, and `making::memory_of` at least what is asked for and a mebibyte for each of
//! several workers; a stop without a limit and without a file to look for is quiet. All calls return. Tested over the built program:
//! what goes to files and streams, and when runs end. Trusted: the toolchain, the C library and the machine.
#![tactic(auto)]

pub mod alone_limit;
pub mod answer;
pub mod asks;
pub mod bar;
pub mod begun;
pub mod best;
pub mod dates;
pub mod failure;
pub mod files;
pub mod inputs;
pub mod known;
pub mod limit;
pub mod machine;
pub mod making;
pub mod memory;
mod option_fault;
pub mod progress;
mod progress_told;
pub mod resources;
pub mod seconds;
pub mod shown;
pub mod telling;
mod terminal;
pub mod undated;
