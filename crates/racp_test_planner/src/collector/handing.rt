//! Pieces that are handed in, or given back.

ghost use Rattle.std.specs.Prelude.{◌≡◌, length, IfSome};

use crate::collector::calls::{Change, Heard};
use crate::collector::trial::{Held, Trial};
use racp_candidates::Vectors;
use racp_core::{Core, Merged};
use racp_cutset::{Board, Local};
use racp_model::{Network, Never, OfNetwork};
use racp_samples::question;
use racp_search::{Finding, Piece, explore};
use std::alloc::Global;

/// The piece, with a change; or `None` if memory is refused.
pub(crate) fn piece<N: OfNetwork>(
    alloc: Global,
    net: &Network,
    held: &Held,
    change: Change,
) -> Option<Piece<N>>
    ensures capacities { IfSome result (λ piece. length piece.question.capacities ≡ net.now.resources) }
    ensures lower { IfSome result (λ piece. length piece.question.window.lower ≡ length net.now.jobs) }
    ensures upper { IfSome result (λ piece. length piece.question.window.upper ≡ length net.now.jobs) }
{
    let (mut number, mut seat, mut index) = (held.number, held.seat, held.index);
    let (window, times) = (&held.question.window, [0, 0, 1, 1, 2, 3]);
    let mut units = held.question.capacities.as_slice();
    let (mut lower, mut upper) = (window.lower(), window.upper());
    match change {
        Change::Nothing => {}
        Change::Number => number = number.wrapping_add(1),
        Change::Seat => seat = seat.wrapping_add(1),
        Change::Index => index ^= 1,
        Change::NoIndex => index = index.wrapping_add(9),
        Change::Capacities => units = &[3, 3],
        Change::Window => (lower, upper) = (&times, &times),
    }
    match question(alloc, net, units, lower, upper) {
        Ok(asked) => Some(Piece::new(number, seat, index, asked)),
        Err(_) => None,
    }
}

pub(crate) fn hand<N: OfNetwork>(
    alloc: Global,
    net: &Network,
    trial: &mut Trial<N>,
    at: usize,
    change: Change,
    quantum: Option<u64>,
) -> Heard
    requires { net.now ≡ N.network }
{
    let Some(held) = trial.pieces.get(at) else {
        return Heard::Stale;
    };
    match explored(alloc, net, held, change, quantum) {
        Some(finding) => hand_in(&mut trial.core, finding),
        None => Heard::Refused,
    }
}

/// Hands a finding in, and hands it in once more if memory is refused.
fn hand_in<N: OfNetwork>(core: &mut Core<N, Vectors>, finding: Finding<N>) -> Heard {
    let finding = match core.hand(finding) {
        Ok(merged) => return of_merged(merged),
        Err((finding, _)) => finding,
    };
    match core.hand(finding) {
        Ok(merged) => of_merged(merged),
        Err((finding, _)) => {
            let _ = finding.into_found();
            Heard::Refused
        }
    }
}

/// What a search of the piece finds, with a change. It is searched once more if memory is refused.
fn explored<N: OfNetwork>(
    alloc: Global,
    net: &Network,
    held: &Held,
    change: Change,
    quantum: Option<u64>,
) -> Option<Finding<N>>
    requires { net.now ≡ N.network }
{
    if let Some(finding) = explored_once(alloc, net, held, change, quantum) {
        if !finding.short() {
            return Some(finding);
        }
        let _ = finding.into_found();
    }
    explored_once(alloc, net, held, change, quantum)
}

fn explored_once<N: OfNetwork>(
    alloc: Global,
    net: &Network,
    held: &Held,
    change: Change,
    quantum: Option<u64>,
) -> Option<Finding<N>>
    requires { net.now ≡ N.network }
{
    let Ok(board) = Board::new(alloc, net) else {
        return None;
    };
    let mut local: Local<N> = Local::new(alloc, net);
    match piece(alloc, net, held, change) {
        Some(piece) => Some(explore(alloc, net, piece, quantum, &board, &mut local, &Never)),
        None => None,
    }
}

pub(crate) fn give_back<N: OfNetwork>(
    alloc: Global,
    net: &Network,
    trial: &mut Trial<N>,
    at: usize,
    change: Change,
) -> Heard {
    let Some(held) = trial.pieces.get(at) else {
        return Heard::Stale;
    };
    let given = match piece(alloc, net, held, change) {
        Some(given) => given,
        None => match piece(alloc, net, held, change) {
            Some(given) => given,
            None => return Heard::Refused,
        },
    };
    of_merged(trial.core.give_back(given))
}

pub(crate) fn of_merged(merged: Merged) -> Heard {
    match merged {
        Merged::Taken => Heard::Taken,
        Merged::Stale => Heard::Stale,
    }
}
