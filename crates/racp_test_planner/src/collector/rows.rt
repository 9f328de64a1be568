//! Calls in turn, with the answers that they must have.

use crate::collector::calls::Call::{Ask, GiveBack, Halt, Hand, Take};
use crate::collector::calls::Change::{self, Nothing};
use crate::collector::calls::Known::{First, NoYes, Pending};
use crate::collector::calls::{Call, Heard, Known};
use crate::series::boxes::{Boxed, UNITS_OF_TWO};

/// A call, its answer, and then what is known and how many questions are undecided.
pub(crate) type Row = (Call, Heard, Known, usize);

/// The yes of the second question comes first, and counts once the first question is infeasible.
const LATER_YES: &[Row] = &[
    (Ask, Heard::Question(0), Pending(0), 1),
    (Ask, Heard::Question(1), Pending(0), 2),
    (Take(1), Heard::Piece(0, 0), Pending(0), 2),
    (Take(2), Heard::Piece(1, 1), Pending(0), 2),
    (Hand(1, Nothing, None), Heard::Taken, Pending(0), 1),
    (Ask, Heard::Enough, Pending(0), 1),
    (Hand(0, Nothing, None), Heard::Taken, First(1), 0),
    (Take(1), Heard::Done, First(1), 0),
];

/// A piece is given back and taken again, and its finding counts once. A halt leaves what is out to be handed in.
const GIVEN_BACK: &[Row] = &[
    (Ask, Heard::Question(0), Pending(0), 1),
    (Take(1), Heard::Piece(0, 0), Pending(0), 1),
    (GiveBack(0, Nothing), Heard::Taken, Pending(0), 1),
    (Take(2), Heard::Piece(1, 0), Pending(0), 1),
    (GiveBack(0, Nothing), Heard::Stale, Pending(0), 1),
    (Hand(1, Nothing, Some(1)), Heard::Taken, Pending(0), 1),
    (Hand(1, Nothing, None), Heard::Stale, Pending(0), 1),
    (Take(1), Heard::Piece(2, 0), Pending(0), 1),
    (Halt, Heard::Halted, Pending(0), 1),
    (Take(1), Heard::Halted, Pending(0), 1),
    (Ask, Heard::Halted, Pending(0), 1),
    (Hand(2, Nothing, Some(1)), Heard::Taken, Pending(0), 1),
];

/// Four questions, a piece of each, and the yes of the fourth. Some of the third is searched, and a piece of what is
/// left goes out. Then the yes of the second question discards the other, and what is open of the third.
const EARLIER_YES: &[Row] = &[
    (Ask, Heard::Question(0), Pending(0), 1),
    (Ask, Heard::Question(1), Pending(0), 2),
    (Ask, Heard::Question(2), Pending(0), 3),
    (Ask, Heard::Question(3), Pending(0), 4),
    (Take(1), Heard::Piece(0, 0), Pending(0), 4),
    (Take(1), Heard::Piece(1, 1), Pending(0), 4),
    (Take(1), Heard::Piece(2, 2), Pending(0), 4),
    (Take(1), Heard::Piece(3, 3), Pending(0), 4),
    (Hand(3, Nothing, None), Heard::Taken, Pending(0), 3),
    (Ask, Heard::Enough, Pending(0), 3),
    (Hand(2, Nothing, Some(1)), Heard::Taken, Pending(0), 3),
    (Take(2), Heard::Piece(4, 2), Pending(0), 3),
    (Hand(1, Nothing, None), Heard::Taken, Pending(0), 1),
];

/// After that the piece of the third question comes in, searched in part: nothing is open in its place.
const SEARCHED: &[Row] = &[
    (Hand(4, Nothing, Some(1)), Heard::Taken, Pending(0), 1),
    (Take(1), Heard::Nothing, Pending(0), 1),
    (Hand(0, Nothing, None), Heard::Taken, First(1), 0),
];

/// Or it is given back.
const UNSEARCHED: &[Row] = &[
    (GiveBack(4, Nothing), Heard::Taken, Pending(0), 1),
    (Take(1), Heard::Nothing, Pending(0), 1),
    (Hand(0, Nothing, None), Heard::Taken, First(1), 0),
];

/// All questions are infeasible.
const NO_YES: &[Row] = &[
    (Take(1), Heard::Nothing, Pending(0), 0),
    (Ask, Heard::Question(0), Pending(0), 1),
    (Take(1), Heard::Piece(0, 0), Pending(0), 1),
    (Hand(0, Nothing, None), Heard::Taken, Pending(1), 0),
    (Take(1), Heard::Nothing, Pending(1), 0),
    (Ask, Heard::Question(1), Pending(1), 1),
    (Ask, Heard::Question(2), Pending(1), 2),
    (Ask, Heard::Question(3), Pending(1), 3),
    (Ask, Heard::End, Pending(1), 3),
    (Take(1), Heard::Piece(1, 1), Pending(1), 3),
    (Take(1), Heard::Piece(2, 2), Pending(1), 3),
    (Take(1), Heard::Piece(3, 3), Pending(1), 3),
    (Take(1), Heard::Nothing, Pending(1), 3),
    (Hand(1, Nothing, None), Heard::Taken, Pending(2), 2),
    (Hand(2, Nothing, None), Heard::Taken, Pending(3), 1),
    (Hand(3, Nothing, None), Heard::Taken, NoYes, 0),
    (Take(1), Heard::Done, NoYes, 0),
];

/// Pieces of two questions are out, of the numbers 0 and 1 and the seats 1 and 2. None that differs in one thing
/// counts.
const STALE: &[Row] = &[
    (Ask, Heard::Question(0), Pending(0), 1),
    (Ask, Heard::Question(1), Pending(0), 2),
    (Take(1), Heard::Piece(0, 0), Pending(0), 2),
    (Take(2), Heard::Piece(1, 1), Pending(0), 2),
    (Hand(1, Change::Number, None), Heard::Stale, Pending(0), 2),
    (Hand(0, Change::Seat, None), Heard::Stale, Pending(0), 2),
    (Hand(1, Change::Index, None), Heard::Stale, Pending(0), 2),
    (Hand(1, Change::NoIndex, None), Heard::Stale, Pending(0), 2),
    (
        Hand(0, Change::Capacities, None),
        Heard::Stale,
        Pending(0),
        2,
    ),
    (Hand(0, Change::Window, None), Heard::Stale, Pending(0), 2),
    (GiveBack(0, Change::Number), Heard::Stale, Pending(0), 2),
    (GiveBack(1, Change::Seat), Heard::Stale, Pending(0), 2),
    (GiveBack(0, Change::Index), Heard::Stale, Pending(0), 2),
    (GiveBack(0, Change::NoIndex), Heard::Stale, Pending(0), 2),
    (GiveBack(1, Change::Capacities), Heard::Stale, Pending(0), 2),
    (GiveBack(1, Change::Window), Heard::Stale, Pending(0), 2),
    (Hand(1, Nothing, None), Heard::Taken, Pending(0), 1),
    (Hand(0, Nothing, None), Heard::Taken, First(1), 0),
];

/// The vectors of 1 and 2 units of two resources, if each unit costs 1.
const FROM_1: Boxed = UNITS_OF_TWO;

/// The vectors of no and one unit.
const FROM_0: Boxed = Boxed {
    floors: &[0, 0],
    roofs: &[1, 1],
    ..FROM_1
};

/// The box, the calls, what is known at the end, the capacities that are then reached, and the units that the first
/// pieces ask for.
pub(crate) struct Script {
    pub(crate) of: &'static Boxed,
    pub(crate) parts: &'static [&'static [Row]],
    pub(crate) end: Known,
    pub(crate) reached: &'static [u32],
    pub(crate) pieces: &'static [&'static [u32]],
}

pub(crate) const SCRIPTS: &[Script] = &[
    Script {
        of: &FROM_1,
        parts: &[LATER_YES],
        end: First(1),
        reached: &[],
        pieces: &[&[1, 1], &[1, 2]],
    },
    Script {
        of: &FROM_1,
        parts: &[GIVEN_BACK],
        end: Pending(0),
        reached: &[1, 1],
        pieces: &[&[1, 1], &[1, 1]],
    },
    Script {
        of: &FROM_1,
        parts: &[EARLIER_YES, SEARCHED],
        end: First(1),
        reached: &[],
        pieces: &[&[1, 1], &[1, 2], &[2, 1], &[2, 2]],
    },
    Script {
        of: &FROM_1,
        parts: &[EARLIER_YES, UNSEARCHED],
        end: First(1),
        reached: &[],
        pieces: &[&[1, 1], &[1, 2], &[2, 1], &[2, 2]],
    },
    Script {
        of: &FROM_0,
        parts: &[NO_YES],
        end: NoYes,
        reached: &[],
        pieces: &[&[0, 0], &[0, 1], &[1, 0], &[1, 1]],
    },
    Script {
        of: &FROM_1,
        parts: &[STALE],
        end: First(1),
        reached: &[],
        pieces: &[&[1, 1], &[1, 2]],
    },
];
