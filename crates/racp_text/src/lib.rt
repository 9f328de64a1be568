//! What the readers of texts share: the cutting of bytes, decimal numbers, lists, and faults at a line.
//!
//! A list is kept while there is memory. A fault is of some kind and shows at some line. `MOST_TEXT_BYTES` is the
//! length of the longest text that the program reads, and of the longest certificate.
//!
//! The texts of networks and of plans have lines and numbers, and are refused at the first rule that they break. What
//! this crate has is the same in both; what a line has to say, and which faults there are, is not.
//!
//! `cut_at(b"cost 30\ndeadline 4", b'\n')` answers `cost 30` and `deadline 4`; if there is no such byte it answers
//! `None`. `number(b"030")` answers 30, `number(b"3a")` and `number(b"")` answer `None`, and a number above
//! 18,446,744,073,709,551,615 is answered as that one, so that a limit below it still tells a greater number from one
//! within it. `LineFault::at(kind, 3)` is written `line 3: ` and then the kind.
//!
//! Bytes are cut in place: both parts are slices of what was cut. A number is added up digit by digit, and stays at the
//! greatest one of 64 bits if it would be greater. If memory is refused for a list, `with_item` keeps it no longer, and
//! whoever reads goes on without it. So a fault of the text is found first, and lack of memory last. Such readers have
//! contracts by steps of a definition over lists, and the lemmas in proofs/lemmas join the steps of a loop to the
//! whole.
//!
//! Proved: `cut_at` answers what stands before the first such byte and what stands after it, or `None` exactly if there
//! is none; `number` answers exactly what the digits stand for, or the greatest number of 64 bits if that is less, and
//! `None` exactly if the word is empty or has another byte than a digit; what `with_item` keeps is the old list with
//! the item after it. In `laws`: numbers are decimal, and zeros in front change nothing. Not promised: that a list is
//! kept if there is memory.
#![tactic(auto)]

mod cut;
mod fault;
mod kept;
pub mod laws;
mod limit;
mod numbers;

pub use cut::cut_at;
pub use fault::LineFault;
pub use kept::with_item;
pub use limit::MOST_TEXT_BYTES;
pub use numbers::number;
