//! Calls of a desk on one thread, told one by one.

ghost use Rattle.std.specs.Prelude.{◌≡◌, ◌<◌, ◌≤◌, IfSome};

use crate::collector::calls::{Change, Heard};
use crate::collector::handing::{of_merged, piece};
use crate::collector::trial::{Held, has_room, of_asked, told_of};
use crate::desk::stops::AtCall;
use racp_candidates::Vectors;
use racp_cutset::{Board, Local};
use racp_desk::{Cause, RunNames, State};
use racp_model::{Network, OfNetwork};
use racp_search::{Finding, explore};
use std::alloc::Global;
use std::sync::ledger::Share;

/// How a piece is searched that is handed in.
#[derive(Clone, Copy)]
pub(crate) enum How {
    /// To its end.
    Whole,
    /// It is stopped before the first node.
    Stopped,
    /// To its end, by a worker at the next seat.
    NextSeat,
}

/// A call. Pieces are told by their number.
#[derive(Clone, Copy)]
pub(crate) enum Call {
    Ask,
    Take(usize),
    Hand(usize, How),
    GiveBack(usize),
    Halt,
}

/// Makes a call. A piece that was never taken is stale.
pub(crate) fn make<N: OfNetwork, M: RunNames>(
    alloc: Global,
    net: &Network,
    state: &mut State<N, M, Vectors>,
    mine: &mut Share<M>,
    pieces: &mut Vec<Held>,
    call: Call,
) -> Heard
    requires named { net.now ≡ N.network }
    requires parts { 0 < mine.old.parts }
    requires turns { M.turns ≡ 100 }
    ensures { mine.new.parts ≡ mine.old.parts }
{
    match call {
        Call::Ask => ask(state, mine),
        Call::Take(seat) => take(state, mine, pieces, seat),
        Call::Hand(at, how) => hand(alloc, net, state, mine, pieces, at, how),
        Call::GiveBack(at) => give_back(alloc, net, state, mine, pieces, at),
        Call::Halt => {
            state.halt(Cause::Fault, mine);
            Heard::Halted
        }
    }
}

fn ask<N: OfNetwork, M: RunNames>(state: &mut State<N, M, Vectors>, mine: &mut Share<M>) -> Heard
    requires { 0 < mine.old.parts }
    ensures { mine.new.parts ≡ mine.old.parts }
{
    match state.ask(mine) {
        Ok(asked) => of_asked(asked),
        Err(_) => Heard::Refused,
    }
}

fn take<N: OfNetwork, M: RunNames>(
    state: &mut State<N, M, Vectors>,
    mine: &mut Share<M>,
    pieces: &mut Vec<Held>,
    seat: usize,
) -> Heard
    requires parts { 0 < mine.old.parts }
    requires turns { M.turns ≡ 100 }
    ensures { mine.new.parts ≡ mine.old.parts }
{
    if state.pieces() >= 100 {
        return Heard::Nothing;
    }
    if !has_room(pieces) {
        return Heard::Refused;
    }
    match state.take(seat, mine) {
        Ok(reply) => told_of(reply, pieces),
        Err(_) => Heard::Refused,
    }
}

/// What a search of the piece finds; or `None` if memory is refused.
fn explored<N: OfNetwork>(alloc: Global, net: &Network, held: &Held, how: How) -> Option<Finding<N>>
    requires { net.now ≡ N.network }
    ensures { IfSome result (λ finding. finding.nodes ≤ 1000000) }
{
    let Ok(board) = Board::new(alloc, net) else {
        return None;
    };
    let mut local: Local<N> = Local::new(alloc, net);
    let change = match how {
        How::NextSeat => Change::Seat,
        How::Whole | How::Stopped => Change::Nothing,
    };
    let stop = AtCall::each(matches!(how, How::Stopped));
    let most = Some(1_000_000);
    let finding = match piece(alloc, net, held, change) {
        Some(piece) => Some(explore(alloc, net, piece, most, &board, &mut local, &stop)),
        None => None,
    };
    drop((local, board));
    finding
}

fn hand<N: OfNetwork, M: RunNames>(
    alloc: Global,
    net: &Network,
    state: &mut State<N, M, Vectors>,
    mine: &mut Share<M>,
    pieces: &[Held],
    at: usize,
    how: How,
) -> Heard
    requires named { net.now ≡ N.network }
    requires parts { 0 < mine.old.parts }
    ensures { mine.new.parts ≡ mine.old.parts }
{
    let Some(held) = pieces.get(at) else {
        return Heard::Stale;
    };
    match explored(alloc, net, held, how) {
        Some(finding) => hand_in(state, mine, finding),
        None => Heard::Refused,
    }
}

fn hand_in<N: OfNetwork, M: RunNames>(
    state: &mut State<N, M, Vectors>,
    mine: &mut Share<M>,
    finding: Finding<N>,
) -> Heard
    requires parts { 0 < mine.old.parts }
    requires nodes { finding.nodes ≤ 1000000 }
    ensures { mine.new.parts ≡ mine.old.parts }
{
    match state.hand(finding, mine) {
        Ok(merged) => of_merged(merged),
        Err((finding, _)) => {
            let _ = finding.into_found();
            Heard::Refused
        }
    }
}

fn give_back<N: OfNetwork, M: RunNames>(
    alloc: Global,
    net: &Network,
    state: &mut State<N, M, Vectors>,
    mine: &mut Share<M>,
    pieces: &[Held],
    at: usize,
) -> Heard
    requires { 0 < mine.old.parts }
    ensures { mine.new.parts ≡ mine.old.parts }
{
    let Some(held) = pieces.get(at) else {
        return Heard::Stale;
    };
    match piece(alloc, net, held, Change::Nothing) {
        Some(piece) => of_merged(state.give_back(piece, mine)),
        None => Heard::Refused,
    }
}
