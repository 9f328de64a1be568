//! Which records are found, also those of another thread.

ghost use Rattle.std.specs.Prelude.{◌≡◌};

use crate::records::places::{later_node, record};
use crate::records::scripts::Step::{
    Below, Count, Find, Forget, Keep, KeepLater, PushAndFind, PushLater, Take,
};
use crate::records::scripts::{SCRIPTS, SIXTY, Script, Step};
use racp_cutset::{Board, Local};
use racp_model::{Network, OfNetwork};
use racp_samples::parallel;
use std::alloc::Global;
use std::marker::Brand;
use std::sync::Wait;
use std::thread;
use std::thread::Threads;

/// Whether a record is found that covers the root window with this many units, so much later; or `None` if memory is
/// refused.
fn finds<N: OfNetwork>(
    alloc: Global,
    net: &Network,
    board: &Board<N>,
    local: &mut Local<N>,
    units: u32,
    time: u32,
) -> Option<bool>
    requires named { net.now ≡ N.network }
{
    match later_node(alloc, net, units, time) {
        Some(node) => Some(local.find(board, &node).is_some()),
        None => None,
    }
}

/// Keeps the record of the root window with this many units, so much later, and says whether there is one.
fn keeps<N: OfNetwork>(
    alloc: Global,
    net: &Network,
    local: &mut Local<N>,
    units: u32,
    time: u32,
    first: usize,
) -> bool
    requires named { net.now ≡ N.network }
{
    match record(alloc, net, units, time) {
        Some(known) => {
            local.keep(known, first);
            true
        }
        None => false,
    }
}

fn keeps_later<N: OfNetwork>(alloc: Global, net: &Network, local: &mut Local<N>, count: u32) -> bool
    requires named { net.now ≡ N.network }
{
    for time in 0..count {
        if !keeps(alloc, net, local, 2, time, 0) {
            return false;
        }
    }
    true
}

fn pushes_later<N: OfNetwork, R: Wait>(
    rt: &R,
    alloc: Global,
    net: &Network,
    board: &Board<N>,
    count: u32,
) -> bool
    requires named { net.now ≡ N.network }
{
    for time in 0..count {
        match record(alloc, net, 2, time) {
            Some(known) => board.push(rt, known),
            None => return false,
        }
    }
    true
}

fn pushes_and_finds<N: OfNetwork, R: Wait>(
    rt: &R,
    alloc: Global,
    net: &Network,
    board: &Board<N>,
    local: &mut Local<N>,
    count: u32,
) -> bool
    requires named { net.now ≡ N.network }
{
    for _record in 0..count {
        let pushed = pushes_later(rt, alloc, net, board, 1);
        if !pushed || finds(alloc, net, board, local, 1, 0) != Some(true) {
            return false;
        }
    }
    true
}

/// Takes a step, and says whether it is answered as it is to be.
fn holds<N: OfNetwork, R: Wait>(
    rt: &R,
    alloc: Global,
    net: &Network,
    board: &Board<N>,
    local: &mut Local<N>,
    step: Step,
) -> bool
    requires named { net.now ≡ N.network }
{
    match step {
        Keep(units, first) => keeps(alloc, net, local, units, 0, first),
        KeepLater(count) => keeps_later(alloc, net, local, count),
        PushLater(count) => pushes_later(rt, alloc, net, board, count),
        PushAndFind(count) => pushes_and_finds(rt, alloc, net, board, local, count),
        Find(units, time, wanted) => finds(alloc, net, board, local, units, time) == Some(wanted),
        Forget(count) => {
            local.forget_behind(count);
            true
        }
        Take(wanted) => local.take_kept().is_some() == wanted,
        Count(count) => local.kept_count() == count && !local.is_full(),
        Below(count) => local.kept_count() < count,
    }
}

/// Whether each step is answered as it is to be, by a thread that has read nothing yet.
fn follows<N: OfNetwork, R: Wait>(
    rt: &R,
    alloc: Global,
    net: &Network,
    board: &Board<N>,
    steps: &[Step],
) -> bool
    requires named { net.now ≡ N.network }
{
    let mut local: Local<N> = Local::new(alloc, net);
    for step in steps {
        if !holds(rt, alloc, net, board, &mut local, *step) {
            return false;
        }
    }
    true
}

/// Two threads that do the steps over one board, and whether each step is answered to both as it is to be.
fn follow_both<N: OfNetwork + Send + Sync, R: Threads + Wait + Sync>(
    rt: &R,
    alloc: Global,
    net: &Network,
    board: &Board<N>,
    steps: &[Step],
) -> bool
    requires named { net.now ≡ N.network }
{
    let (one, two) = thread::join(
        rt,
        || -> bool
            requires { net.now ≡ N.network }
        { follows(rt, alloc, net, board, steps) },
        || -> bool
            requires { net.now ≡ N.network }
        { follows(rt, alloc, net, board, steps) },
    );
    one && two
}

/// Whether each step of a script is answered as it is to be, over a board of its own.
fn is_shown<N: OfNetwork + Send + Sync, R: Threads + Wait + Sync>(
    rt: &R,
    alloc: Global,
    net: &Network,
    script: &Script,
) -> bool
    requires named { net.now ≡ N.network }
{
    let Ok(board) = Board::<N>::new(alloc, net) else {
        return false;
    };
    let followed = if script.by_two {
        follow_both(rt, alloc, net, &board, script.steps)
    } else {
        follows(rt, alloc, net, &board, script.steps)
    };
    drop(board);
    followed
}

/// Whether each step of a script is answered as it is to be, with records of the five jobs.
fn is_found<R: Threads + Wait + Sync>(rt: &R, alloc: Global, script: &Script) -> bool {
    match parallel(alloc) {
        Ok(net) => is_shown::<Brand, R>(rt, alloc, &net, script),
        Err(_) => false,
    }
}

#[test]
fn finds_kept_records(rt: HostRuntime) {
    for script in SCRIPTS {
        assert!(rt; is_found(&rt, rt.alloc(), script), "{}", script.shows);
    }
}

#[test]
fn shares_a_board(rt: HostRuntime) {
    assert!(rt; is_found(&rt, rt.alloc(), &SIXTY));
}
