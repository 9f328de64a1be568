//! Calls of a collector, told one by one.

ghost use Rattle.std.specs.Prelude.{◌≡◌};

use crate::collector::calls::{Call, Heard, Known};
use crate::collector::handing::{give_back, hand};
use crate::collector::series::vectors;
use crate::series::boxes::Boxed;
use racp_candidates::Vectors;
use racp_core::{Asked, Core, Outcome, Reply, Verdict};
use racp_model::{Network, OfNetwork, Question};
use racp_search::{Collector, Piece};
use std::alloc::Global;

/// A piece that was taken, by its parts.
#[derive(Drop)]
pub(crate) struct Held {
    pub(crate) number: u64,
    pub(crate) seat: usize,
    pub(crate) index: u64,
    pub(crate) question: Question,
}

impl Collector for Held {}

/// A collector, and the pieces that were taken of it.
#[derive(Drop)]
pub(crate) struct Trial<N: OfNetwork> {
    pub(crate) core: Core<N, Vectors>,
    pub(crate) pieces: Vec<Held>,
}

/// A collector of the vectors of a box; or `None` if there is none, or memory is refused.
pub(crate) fn start<N: OfNetwork>(alloc: Global, net: &Network, row: &Boxed) -> Option<Trial<N>>
    requires { net.now ≡ N.network }
{
    match vectors(alloc, net, row) {
        Some(series) => Some(Trial {
            core: Core::new(alloc, net, series),
            pieces: Vec::new(alloc),
        }),
        None => None,
    }
}

/// Makes a call, and makes it once more if memory is refused. A piece that was never taken is stale.
pub(crate) fn make<N: OfNetwork>(
    alloc: Global,
    net: &Network,
    trial: &mut Trial<N>,
    call: Call,
) -> Heard
    requires { net.now ≡ N.network }
{
    match call {
        Call::Ask => ask(&mut trial.core),
        Call::Take(seat) => take(trial, seat),
        Call::Hand(at, change, quantum) => hand(alloc, net, trial, at, change, quantum),
        Call::GiveBack(at, change) => give_back(alloc, net, trial, at, change),
        Call::Halt => {
            trial.core.halt();
            Heard::Halted
        }
    }
}

fn ask<N: OfNetwork>(core: &mut Core<N, Vectors>) -> Heard {
    match core.ask() {
        Ok(asked) => of_asked(asked),
        Err(_) => match core.ask() {
            Ok(asked) => of_asked(asked),
            Err(_) => Heard::Refused,
        },
    }
}

pub(crate) fn of_asked(asked: Asked) -> Heard {
    match asked {
        Asked::Question(index) => Heard::Question(index),
        Asked::End => Heard::End,
        Asked::Enough => Heard::Enough,
        Asked::Halted => Heard::Halted,
    }
}

/// Makes room for a piece.
pub(crate) fn has_room(pieces: &mut Vec<Held>) -> bool {
    pieces.reserve(1).is_ok() || pieces.reserve(1).is_ok()
}

fn take<N: OfNetwork>(trial: &mut Trial<N>, seat: usize) -> Heard {
    if trial.core.taken() == u64::MAX || !has_room(&mut trial.pieces) {
        return Heard::Refused;
    }
    let reply = match trial.core.take(seat) {
        Ok(reply) => reply,
        Err(_) => match trial.core.take(seat) {
            Ok(reply) => reply,
            Err(_) => return Heard::Refused,
        },
    };
    told_of(reply, &mut trial.pieces)
}

/// What a reply tells. Its piece is kept, for which there is room.
pub(crate) fn told_of<N: OfNetwork>(reply: Reply<Piece<N>>, pieces: &mut Vec<Held>) -> Heard {
    match reply {
        Reply::Piece(piece) => kept(piece, pieces),
        Reply::Nothing => Heard::Nothing,
        Reply::Done => Heard::Done,
        Reply::Halted => Heard::Halted,
    }
}

fn kept<N: OfNetwork>(piece: Piece<N>, pieces: &mut Vec<Held>) -> Heard {
    let (number, seat, index) = (piece.number(), piece.seat(), piece.index());
    let held = Held {
        number,
        seat,
        index,
        question: piece.into_question::<Held>(),
    };
    match pieces.push(held) {
        Ok(_) => Heard::Piece(number, index),
        Err(_) => Heard::Refused,
    }
}

/// What is known of the series now.
pub(crate) fn verdict<N: OfNetwork>(core: &Core<N, Vectors>) -> Known {
    match core.answer() {
        Verdict::First { index, starts: _ } => Known::First(index),
        Verdict::NoYes => Known::NoYes,
        Verdict::Pending { first_open } => Known::Pending(first_open),
    }
}

/// Whether this is known at the end, with these capacities reached, of which there are none if none are reached.
pub(crate) fn ends<N: OfNetwork>(trial: Trial<N>, wanted: Known, units: &[u32]) -> bool {
    let (outcome, reached) = trial.core.into_answer();
    let known = match outcome {
        Outcome::First {
            index,
            starts: _starts,
        } => Known::First(index),
        Outcome::NoYes => Known::NoYes,
        Outcome::Open { first_open } => Known::Pending(first_open),
    };
    let same = match &reached {
        Some(reached) => reached.as_slice() == units,
        None => units.is_empty(),
    };
    known == wanted && same
}
