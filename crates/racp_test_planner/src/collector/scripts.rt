//! Calls of a collector with the answers that they must have.

ghost use Rattle.std.specs.Prelude.{◌≡◌};

use crate::collector::rows::{Row, SCRIPTS, Script};
use crate::collector::trial::{Held, Trial, ends, make, start, verdict};
use crate::series::boxes::Boxed;
use racp_candidates::Vectors;
use racp_core::Core;
use racp_model::{Network, OfNetwork, Question};
use racp_samples::crossed;
use std::alloc::Global;
use std::marker::Brand;

/// Whether each call is answered so, and the first pieces are whole.
fn follows<N: OfNetwork>(
    alloc: Global,
    net: &Network,
    trial: &mut Trial<N>,
    script: &Script,
) -> bool
    requires { net.now ≡ N.network }
{
    for rows in script.parts {
        for row in *rows {
            if !is_answered(alloc, net, trial, row) {
                return false;
            }
        }
    }
    are_whole(&trial.pieces, script.pieces) && tells_questions(&trial.core)
}

/// Whether a call is answered so, and this is known after it.
fn is_answered<N: OfNetwork>(alloc: Global, net: &Network, trial: &mut Trial<N>, row: &Row) -> bool
    requires { net.now ≡ N.network }
{
    let (call, wanted, after, undecided) = row;
    make(alloc, net, trial, *call) == *wanted
        && verdict(&trial.core) == *after
        && trial.core.undecided() == *undecided
}

/// Whether the first pieces ask for these units, each in the root window.
fn are_whole(pieces: &[Held], units: &[&[u32]]) -> bool {
    for (piece, units) in pieces.iter().zip(units) {
        if !is_whole(&piece.question, units) {
            return false;
        }
    }
    pieces.len() >= units.len()
}

/// The root window of the six jobs for the deadline 3.
const LOWER: &[u32] = &[0, 0, 0, 1, 1, 2];

const UPPER: &[u32] = &[1, 1, 1, 2, 2, 3];

/// Whether the collector tells the first question, in the root window, and none behind all that were asked.
fn tells_questions<N: OfNetwork>(core: &Core<N, Vectors>) -> bool {
    let Some(first) = core.question(0) else {
        return false;
    };
    first.window.lower() == LOWER && first.window.upper() == UPPER && core.question(100).is_none()
}

fn is_whole(question: &Question, units: &[u32]) -> bool {
    question.window.lower() == LOWER
        && question.window.upper() == UPPER
        && question.capacities.as_slice() == units
}

fn holds<N: OfNetwork>(alloc: Global, net: &Network, script: &Script) -> bool
    requires { net.now ≡ N.network }
{
    let Some(mut trial) = begun::<N>(alloc, net, script.of) else {
        return false;
    };
    let followed = follows(alloc, net, &mut trial, script);
    ends(trial, script.end, script.reached) && followed
}

/// A collector, which is made once more if memory is refused.
fn begun<N: OfNetwork>(alloc: Global, net: &Network, row: &Boxed) -> Option<Trial<N>>
    requires { net.now ≡ N.network }
{
    match start(alloc, net, row) {
        Some(trial) => Some(trial),
        None => start(alloc, net, row),
    }
}

/// Whether a script of the six jobs is answered as it is to be. The network is made once more if memory is refused.
fn holds_of_six(alloc: Global, script: &Script) -> bool {
    match crossed(alloc) {
        Ok(net) => holds::<Brand>(alloc, &net, script),
        Err(_) => match crossed(alloc) {
            Ok(net) => holds::<Brand>(alloc, &net, script),
            Err(_) => false,
        },
    }
}

#[test]
fn scripts_are_answered(rt: HostRuntime) {
    for (place, script) in SCRIPTS.iter().enumerate() {
        assert!(rt; holds_of_six(rt.alloc(), script), "script {place}");
    }
}
