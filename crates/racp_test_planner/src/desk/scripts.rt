//! Calls with the answers that they must have.

ghost use Rattle.std.specs.Prelude.{◌≡◌, ◌<◌};
ghost use Rattle.racp_model.specs.Formed.{AreFormed};

use crate::collector::calls::Heard;
use crate::desk::series::units_of_the_first;
use crate::desk::trial::Call::{Ask, GiveBack, Halt, Hand, Take};
use crate::desk::trial::How::{NextSeat, Stopped, Whole};
use crate::desk::trial::{Call, make};
use racp_candidates::Vectors;
use racp_core::Outcome;
use racp_desk::{Closed, RunNames, State};
use racp_model::{Network, OfNetwork};
use racp_samples::crossed;
use std::alloc::{AllocError, Global};
use std::marker::Brand;
use std::sync::ledger::{Blank, Share};

/// Some calls of a desk about the units of the first resource beside this many of the second, each with its answer; the
/// place of the first yes, or of the first question that is open; and the capacities that were reached, if any.
struct Script {
    second: u32,
    rows: &'static [(Call, Heard)],
    yes: Option<usize>,
    open: Option<usize>,
    reached: &'static [u32],
}

const SCRIPTS: &[Script] = &[
    // findings of another seat, of a search that was stopped, and of pieces that came in before
    Script {
        second: 1,
        rows: &[
            (Ask, Heard::Question(0)),
            (Take(1), Heard::Piece(0, 0)),
            (Hand(0, NextSeat), Heard::Stale),
            (Hand(0, Stopped), Heard::Taken),
            (Hand(0, Whole), Heard::Stale),
            (Take(2), Heard::Piece(1, 0)),
            (Hand(1, Whole), Heard::Taken),
            (Hand(1, Whole), Heard::Stale),
            (GiveBack(1), Heard::Stale),
            (Ask, Heard::Question(1)),
            (Take(1), Heard::Piece(2, 1)),
            (GiveBack(2), Heard::Taken),
            (Halt, Heard::Halted),
            (Halt, Heard::Halted),
            (Ask, Heard::Halted),
            (Take(1), Heard::Halted),
        ],
        yes: None,
        open: Some(1),
        reached: &[1, 1],
    },
    // the yes of the second question comes in first
    Script {
        second: 2,
        rows: &[
            (Ask, Heard::Question(0)),
            (Ask, Heard::Question(1)),
            (Take(0), Heard::Piece(0, 0)),
            (Take(1), Heard::Piece(1, 1)),
            (Hand(1, Whole), Heard::Taken),
            (Ask, Heard::Enough),
            (Hand(0, Whole), Heard::Taken),
            (Take(0), Heard::Done),
        ],
        yes: Some(1),
        open: None,
        reached: &[],
    },
];

/// Whether a desk ended as the script says.
fn ends(closed: &Closed, script: &Script) -> bool {
    let (yes, open) = match &closed.outcome {
        Outcome::First { index, starts: _ } => (Some(*index), None),
        Outcome::NoYes => (None, None),
        Outcome::Open { first_open } => (None, Some(*first_open)),
    };
    let reached = match &closed.reached {
        Some(reached) => reached.as_slice() == script.reached,
        None => script.reached.is_empty(),
    };
    yes == script.yes && open == script.open && reached
}

/// Makes the calls. Whether each is answered as it must be.
fn follows<N: OfNetwork, M: RunNames>(
    alloc: Global,
    net: &Network,
    state: &mut State<N, M, Vectors>,
    mine: &mut Share<M>,
    rows: &[(Call, Heard)],
) -> bool
    requires named { net.now ≡ N.network }
    requires parts { 0 < mine.old.parts }
    requires turns { M.turns ≡ 100 }
    ensures { mine.new.parts ≡ mine.old.parts }
{
    let mut pieces = Vec::new(alloc);
    for (call, heard) in rows {
        if make(alloc, net, state, mine, &mut pieces, *call) != *heard {
            return false;
        }
    }
    true
}

/// Whether a desk does as the script says.
fn plays<N: OfNetwork, M: RunNames>(
    alloc: Global,
    net: &Network,
    series: Vectors,
    script: &Script,
    blank: Blank,
) -> bool
    requires named { net.now ≡ N.network }
    requires formed { AreFormed net.now series }
    requires series { series ≡ M.series }
    requires turns { M.turns ≡ 100 }
    requires ledger { blank.name ≡ M.name }
    requires whole { blank.parts ≡ M.parts }
    requires one { blank.parts ≡ 1 }
{
    let (total, mut all) = blank.open::<M>();
    let made: Result<State<N, M, Vectors>, AllocError> = State::new(alloc, net, series, total);
    let Ok(mut state) = made else {
        return false;
    };
    let followed = follows(alloc, net, &mut state, &mut all, script.rows);
    state.audit(&mut all);
    let closed = state.close(all);
    let ended = ends(&closed, script);
    drop(closed);
    followed && ended
}

fn holds<N: OfNetwork>(alloc: Global, net: &Network, script: &Script) -> bool
    requires { net.now ≡ N.network }
{
    match units_of_the_first(alloc, net, script.second) {
        Some(series) => plays::<N, Brand>(alloc, net, series, script, Blank::new(1)),
        None => false,
    }
}

/// Whether a desk over the six jobs does as the script says.
fn holds_of_six(alloc: Global, script: &Script) -> bool {
    match crossed(alloc) {
        Ok(net) => holds::<Brand>(alloc, &net, script),
        Err(_) => false,
    }
}

#[test]
fn calls_are_answered(rt: HostRuntime) {
    for (place, script) in SCRIPTS.iter().enumerate() {
        assert!(rt; holds_of_six(rt.alloc(), script), "script {place}");
    }
}
