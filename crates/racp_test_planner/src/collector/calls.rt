//! Calls of a collector, and what they answer.

/// In what a piece that comes in differs from the one that was taken.
#[derive(Clone, Copy)]
pub(crate) enum Change {
    Nothing,
    Number,
    Seat,
    Index,
    NoIndex,
    Capacities,
    Window,
}

/// A call. Pieces are told by their number; a piece that is handed in was searched, where this many nodes at most were
/// entered.
#[derive(Clone, Copy)]
pub(crate) enum Call {
    Ask,
    Take(usize),
    Hand(usize, Change, Option<u64>),
    GiveBack(usize, Change),
    Halt,
}

/// What a call answers: the place of a question, the number of a piece and the place of its question, or why there is
/// none. `Refused` is a call to which memory was refused when it was made once more.
#[derive(Clone, Copy, PartialEq)]
pub(crate) enum Heard {
    Question(usize),
    End,
    Enough,
    Piece(u64, u64),
    Nothing,
    Done,
    Taken,
    Stale,
    Halted,
    Refused,
}

/// What is known of the series: the place of the first yes, that there is none, or the place of the first open
/// question.
#[derive(Clone, Copy, PartialEq)]
pub(crate) enum Known {
    First(usize),
    NoYes,
    Pending(usize),
}
