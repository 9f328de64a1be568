//! Reads project networks from the single-mode `.sm` text format.
//!
//! The format is that of the library PSPLIB (Kolisch and Sprecher 1997), in a profile that docs/FORMATS.md lays down: a
//! head that says how many jobs and resources there are, a part with the successors of each job, and a part with its
//! duration and requests. Each byte text is read as exactly one thing: a network, or the first rule that it breaks.
//!
//! Lines are numbered from 1, and a fault that is at no one line has the line 0. Durations are whole time units.
//!
//! Here is a text that `read_sm(alloc, bytes)` reads as two jobs. Job 1 runs for 2 time units and requests 1 unit; job
//! 2 comes after it, runs for 1 and requests 3.
//!
//! ```text
//! jobs: 2
//! - renewable: 1 R
//! PRECEDENCE RELATIONS:
//! jobnr. modes successors
//! 1 1 1 2
//! 2 1 0
//! REQUESTS/DURATIONS:
//! jobnr. mode duration R 1
//! 1 1 2 1
//! 2 1 1 3
//! ```
//!
//! With 3 as the successor of job 1, the fault is `BadSuccessor` at line 5; without the last line it is `TooFew` at
//! line 7, the title of the part.
//!
//! Lines and words are slices of the text, and no list of them is made, since a long text may have 16 million lines.
//! The head is read in one pass, which keeps the value of the first line with each key; then the counts are tested. A
//! part is a stream of words through its lines. Numbers are taken off one by one, and each is tested as it is taken, so
//! the first fault is met first. A number is added up digit by digit and stays at 4,294,967,295 if it would be greater,
//! so that a huge one is out of range. If memory is refused for a list, it is kept no longer and reading goes on, so
//! that a fault of the text is found first, and lack of memory last. Contracts see lines, words and streams as lists of
//! what is still to come: each step takes one element off a list, and the definition is followed word by word.
//!
//! Proved: for every byte text, `read_sm` answers the network that the definition `IsReading` pairs with it, or its
//! first fault with its line; `Memory` comes only if the text has no fault, except perhaps a ring. In `laws`: each text
//! is read as something, and as one thing only; what it says is within the limits; numbers are decimal. Not proved:
//! that the definition says what docs/FORMATS.md says in words, which a second reading of about 7,000 texts supports;
//! and that reading takes time linear in the text.
#![tactic(auto)]

mod cut;
mod fault;
mod head;
pub mod laws;
mod line;
mod part;
mod read;
mod rows;
mod stream;
mod word;

pub use fault::{SmFault, SmFaultKind};
pub use read::read_sm;
