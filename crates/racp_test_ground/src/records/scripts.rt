//! What is done with records in turn, and what it shows.

use self::Step::{Below, Count, Find, Forget, Keep, KeepLater, PushAndFind, PushLater, Take};

/// What is done with the records of a thread and of the board, or asked of them. They are of the root window with this
/// many units, and of the same window this many time units later; none of one window covers another.
#[derive(Clone, Copy)]
pub(crate) enum Step {
    /// The record with this many units is kept; the first ones, this many, stay.
    Keep(u32, usize),
    /// The records with 2 units of this many windows, each a time unit later than the one before, are kept.
    KeepLater(u32),
    /// The records with 2 units of this many windows, each a time unit later than the one before, are pushed to the
    /// board.
    PushLater(u32),
    /// Records are pushed, this many, and after each one is found that covers the window with one unit.
    PushAndFind(u32),
    /// Whether a record is found that covers the window with this many units, so much later.
    Find(u32, u32, bool),
    /// Only the first ones stay, this many.
    Forget(usize),
    /// Whether there is a last record, which is taken out.
    Take(bool),
    /// This many are kept, and there is room for more.
    Count(usize),
    /// Fewer than this many are kept.
    Below(usize),
}

/// Steps in turn, also by each of two threads over one board, and what they show.
pub(crate) struct Script {
    pub(crate) shows: &'static str,
    pub(crate) by_two: bool,
    pub(crate) steps: &'static [Step],
}

pub(crate) const SCRIPTS: &[Script] = &[
    Script {
        shows: "a record that is kept, until it is taken out",
        by_two: false,
        steps: &[
            Keep(2, 0),
            Find(1, 0, true),
            Find(3, 0, false),
            Take(true),
            Take(false),
            Find(1, 0, false),
            Find(3, 0, false),
        ],
    },
    Script {
        shows: "records until they are forgotten",
        by_two: false,
        steps: &[
            KeepLater(3),
            Forget(3),
            Count(3),
            Find(2, 0, true),
            Find(2, 1, true),
            Find(2, 2, true),
            Forget(1),
            Count(1),
            Find(2, 0, true),
            Find(2, 1, false),
            Find(2, 2, false),
            Forget(0),
            Count(0),
            Find(2, 0, false),
            Find(2, 1, false),
            Find(2, 2, false),
        ],
    },
    Script {
        shows: "a record in the place of one that it covers, unless that is among the first ones",
        by_two: false,
        steps: &[
            Keep(1, 0),
            Find(1, 0, true),
            Count(1),
            Keep(2, 0),
            Find(2, 0, true),
            Count(1),
            Keep(2, 1),
            Find(2, 0, true),
            Count(2),
            Keep(2, 1),
            Find(2, 0, true),
            Count(2),
            Keep(2, 0),
            Find(2, 0, true),
            Count(2),
        ],
    },
    Script {
        shows: "of many with the same started jobs the newest, but not the oldest; then one that is kept anew",
        by_two: false,
        steps: &[
            KeepLater(40),
            Below(40),
            Find(2, 39, true),
            Find(2, 0, false),
            Forget(0),
            Keep(2, 0),
            Find(1, 0, true),
            Find(3, 0, false),
        ],
    },
    Script {
        shows: "the newest of many on the board",
        by_two: false,
        steps: &[Find(1, 0, false), PushLater(200), Find(1, 199, true)],
    },
];

/// Thirty records are pushed by each of two threads, and one that covers the window with a unit is found after each.
pub(crate) const SIXTY: Script = Script {
    shows: "records that two threads push on one board",
    by_two: true,
    steps: &[PushAndFind(30)],
};
