//! The first stage of planning for a small network with two resources: sharpened floors and refuted pairs, also if an asker
//! gives up.

ghost use Rattle.std.specs.Prelude.{◌≡◌, ◌<◌, ◌≤◌, ℕ, length, slice_index, IsTrue, IfOk};
ghost use Rattle.racp_model.specs.Formed.{HasBounds};
ghost use Rattle.racp_model.specs.Window.{IsYes};

use crate::tired::Tired;
use racp_bounds::{Sharp, roofs, sharpen};
use racp_model::{Capacities, Network, OfNetwork, Question, Window};
use racp_questions::AskStop;
use racp_reference::decide_by_definition;
use racp_samples::{crossed, root_window};
use std::alloc::{AllocError, Global};
use std::marker::Brand;

/// A deadline of the six jobs. From these floors on, by an asker that gives up after this many series: the floors that
/// come out, and the pairs, or none if it gives up.
struct Row {
    deadline: u32,
    least: [u32; 2],
    series: u32,
    floors: [u32; 2],
    pairs: Option<&'static [(u32, u32)]>,
}

/// An asker that never gives up.
const LASTING: Row = Row {
    deadline: 3,
    least: [1, 1],
    series: 100,
    floors: [1, 1],
    pairs: Some(&[(1, 2)]),
};

/// One that does, from floors of 0 on.
const TIRED: Row = Row {
    least: [0, 0],
    pairs: None,
    ..LASTING
};

const ROWS: &[Row] = &[
    Row {
        deadline: 2,
        least: [2, 2],
        floors: [2, 2],
        pairs: Some(&[]),
        ..LASTING
    },
    LASTING,
    Row {
        deadline: 4,
        pairs: Some(&[]),
        ..LASTING
    },
    Row {
        least: [0, 0],
        ..LASTING
    },
    Row {
        series: 0,
        floors: [0, 0],
        ..TIRED
    },
    Row {
        series: 1,
        floors: [1, 0],
        ..TIRED
    },
    Row { series: 2, ..TIRED },
];

/// The question of capacities and a window.
fn asked(capacities: &Capacities, window: &Window) -> Result<Question, AllocError>
    ensures { IfOk result (λ asked. asked ≡ record { capacities = capacities.now; window = window.now }) }
{
    let capacities = capacities.copy()?;
    let window = window.copy()?;
    Ok(Question { capacities, window })
}

/// Whether the capacities are a yes of the window.
fn is_yes(alloc: Global, net: &Network, capacities: &Capacities, window: &Window) -> bool
    requires capacities { length capacities.now ≡ net.now.resources }
    requires window { HasBounds net.now window.now }
    ensures { IsTrue result → IsYes net.now capacities.now window.now }
{
    match asked(capacities, window) {
        Ok(question) => is_answered(alloc, net, &question),
        Err(_) => false,
    }
}

/// Whether some starts answer the question.
fn is_answered(alloc: Global, net: &Network, question: &Question) -> bool
    requires capacities { length question.now.capacities ≡ net.now.resources }
    requires window { HasBounds net.now question.now.window }
    ensures { IsTrue result → IsYes net.now question.now.capacities question.now.window }
{
    matches!(decide_by_definition(alloc, net, question), Ok(Some(_)))
}

/// Whether no number is above the one at its place in another list.
fn are_bounds(low: &[u32], high: &[u32]) -> bool
    requires { length low.now ≡ length high.now }
    ensures { IsTrue result → (k : ℕ) → k < length low.now → slice_index low.now k ≤ slice_index high.now k }
{
    low.iter().zip(high).all(|(low, high)| *low <= *high)
}

/// Whether sharpening ends so.
fn is_sharp(found: &Result<Sharp, (Capacities, AskStop)>, wanted: &Row) -> bool {
    let floors = wanted.floors.as_slice();
    match (found, wanted.pairs) {
        (Ok(sharp), Some(pairs)) => {
            sharp.floors.as_slice() == floors && sharp.pairs.as_slice() == pairs
        }
        (Err((reached, AskStop::Stopped { .. })), None) => reached.as_slice() == floors,
        _ => false,
    }
}

/// Whether the floors are sharpened so in a window, up to these roofs.
fn sharpens<N: OfNetwork>(
    alloc: Global,
    net: &Network,
    window: &Window,
    most: &Capacities,
    wanted: &Row,
) -> bool
    requires named { net.now ≡ N.network }
    requires window { HasBounds net.now window.now }
    requires roofs { length most.now ≡ net.now.resources }
    requires yes { IsYes net.now most.now window.now }
{
    let least = wanted.least.as_slice();
    if least.len() != most.as_slice().len() || !are_bounds(least, most.as_slice()) {
        return false;
    }
    let Ok(least) = least.to_vec(alloc) else {
        return false;
    };
    match Tired::<N>::new(alloc, net, wanted.series) {
        Ok(mut asker) => {
            let least = Capacities::new(least);
            let found = sharpen(alloc, net, window, least, most, &mut asker);
            drop(asker);
            is_sharp(&found, wanted)
        }
        Err(_) => false,
    }
}

/// Whether the floors of a row are sharpened so in a window. Its roofs are enough.
fn sharpens_in<N: OfNetwork>(alloc: Global, net: &Network, window: &Window, wanted: &Row) -> bool
    requires named { net.now ≡ N.network }
    requires window { HasBounds net.now window.now }
{
    match roofs(alloc, net) {
        Ok(most) => {
            is_yes(alloc, net, &most, window) && sharpens::<N>(alloc, net, window, &most, wanted)
        }
        Err(_) => false,
    }
}

/// Whether the floors of a row are sharpened so for the six jobs.
fn holds(alloc: Global, row: &Row) -> bool {
    let Ok(net) = crossed(alloc) else {
        return false;
    };
    match root_window(alloc, &net, row.deadline) {
        Ok(window) => sharpens_in::<Brand>(alloc, &net, &window, row),
        Err(_) => false,
    }
}

#[test]
fn stages_end_as_they_have_to(rt: HostRuntime) {
    for (place, row) in ROWS.iter().enumerate() {
        assert!(rt; holds(rt.alloc(), row), "row {place}");
    }
}
