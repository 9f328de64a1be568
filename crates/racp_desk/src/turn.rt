//! What a worker does under the lock.

ghost use Rattle.std.specs.Prelude.{◌≡◌, ◌<◌, ◌≤◌};
ghost use Rattle.racp_desk.specs.Desk.{IsIn};
ghost use Rattle.racp_desk.specs.Turns.{IsFormedNext};

use crate::limits::RunLimits;
use crate::log::Cause;
use crate::names::RunNames;
use crate::state::State;
use crate::watch::UserAsked;
use racp_core::{Merged, Reply};
use racp_model::OfNetwork;
use racp_questions::Series;
use racp_search::{Finding, Piece};
use std::sync::ledger::Share;

/// What a worker is to do next, where `P` are the pieces.
pub(crate) enum Next<P> {
    /// Search this piece.
    Search(P),
    /// Wait until something has changed.
    Wait,
    /// Leave.
    Leave,
}

/// What the worker at a seat is to do next. It takes a piece where a turn is left; where none is, and the answer is not
/// known, it halts the desk.
pub(crate) fn next_of<N: OfNetwork, M: RunNames, S: Series>(
    state: &mut State<N, M, S>,
    limits: RunLimits,
    seat: usize,
    mine: &mut Share<M>,
) -> Next<Piece<N>>
    requires parts { 0 < mine.old.parts }
    requires turns { limits.turns ≡ M.turns }
    ensures formed { IsFormedNext N.network result }
    ensures parts { mine.new.parts ≡ mine.old.parts }
{
    if state.pieces() >= limits.turns {
        if !state.is_settled() {
            state.halt(Cause::Turns, mine);
        }
        return Next::Leave;
    }
    match state.take(seat, mine) {
        Ok(Reply::Piece(piece)) => Next::Search(piece),
        Ok(Reply::Nothing) => ask_then_take(state, limits.workers, seat, mine),
        Ok(Reply::Done) => Next::Leave,
        Ok(Reply::Halted) => Next::Leave,
        Err(_) => give_up(state, mine),
    }
}

/// Asks the next question where fewer than two a worker are undecided, and takes a piece then. A turn is left.
fn ask_then_take<N: OfNetwork, M: RunNames, S: Series>(
    state: &mut State<N, M, S>,
    workers: usize,
    seat: usize,
    mine: &mut Share<M>,
) -> Next<Piece<N>>
    requires parts { 0 < mine.old.parts }
    requires turns { state.old.core.taken < M.turns }
    requires workers { workers ≤ 64 }
    ensures formed { IsFormedNext N.network result }
    ensures parts { mine.new.parts ≡ mine.old.parts }
{
    if !state.may_ask() || state.undecided() >= 2 * workers {
        return Next::Wait;
    }
    if state.ask(mine).is_err() {
        return give_up(state, mine);
    }
    match state.take(seat, mine) {
        Ok(Reply::Piece(piece)) => Next::Search(piece),
        Ok(Reply::Nothing) => Next::Wait,
        Ok(Reply::Done) => Next::Leave,
        Ok(Reply::Halted) => Next::Leave,
        Err(_) => give_up(state, mine),
    }
}

/// Memory was refused to the worker.
fn give_up<N: OfNetwork, M: RunNames, S: Series>(
    state: &mut State<N, M, S>,
    mine: &mut Share<M>,
) -> Next<Piece<N>>
    requires { 0 < mine.old.parts }
    ensures formed { IsFormedNext N.network result }
    ensures parts { mine.new.parts ≡ mine.old.parts }
{
    state.halt(Cause::Fault, mine);
    Next::Leave
}

/// Takes a finding in, and halts the desk where memory was refused or the user has asked to stop. Answers whether it
/// was taken in.
pub(crate) fn take_in<N: OfNetwork, M: RunNames, S: Series>(
    state: &mut State<N, M, S>,
    finding: Finding<N>,
    asked: Option<UserAsked<M>>,
    mine: &mut Share<M>,
) -> bool
    requires parts { 0 < mine.old.parts }
    requires nodes { finding.nodes ≤ 1000000 }
    ensures { mine.new.parts ≡ mine.old.parts }
{
    let short = finding.short();
    let brought = bring_in(state, finding, mine);
    if short || matches!(brought, Brought::Refused) {
        state.halt(Cause::Fault, mine);
    } else if asked.is_some() {
        state.halt(Cause::Stop, mine);
    }
    matches!(brought, Brought::Taken)
}

/// How a finding came in.
#[derive(Drop)]
enum Brought {
    /// It was taken in.
    Taken,
    /// No such piece was out.
    Stale,
    /// Memory was refused, and its piece was given back.
    Refused,
}

/// Hands a finding in. Where memory is refused, its piece is given back.
fn bring_in<N: OfNetwork, M: RunNames, S: Series>(
    state: &mut State<N, M, S>,
    finding: Finding<N>,
    mine: &mut Share<M>,
) -> Brought
    requires parts { 0 < mine.old.parts }
    requires nodes { finding.nodes ≤ 1000000 }
    ensures came_in { IsIn state.new.core finding.piece }
    ensures parts { mine.new.parts ≡ mine.old.parts }
{
    match state.hand(finding, mine) {
        Ok(Merged::Taken) => Brought::Taken,
        Ok(Merged::Stale) => Brought::Stale,
        Err((finding, _)) => {
            let _ = state.give_back(finding.into_piece(), mine);
            Brought::Refused
        }
    }
}
