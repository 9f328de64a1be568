//! Searches that end before they are done: after a number of nodes, or by a stop.

ghost use Rattle.std.specs.Prelude.{◌≡◌};
ghost use Rattle.racp_model.specs.Formed.{IsFormed};

use crate::searches::equal;
use racp_cutset::{Board, Local};
use racp_delay::Steps;
use racp_model::{Network, OfNetwork, Question};
use racp_samples::question;
use racp_search::{Finding, Piece, Rest, explore};
use std::alloc::Global;
use std::marker::Brand;

/// Where a search ends before it is done: after this many nodes, or at the look of this number, from 1.
#[derive(Clone, Copy)]
enum End {
    Nodes(u64),
    Look(u32),
}

/// What a search shows: whether starts were found, whether windows are left, whether it was stopped, and after how many
/// nodes.
#[derive(Clone, Copy)]
struct Shown {
    found: bool,
    leaves: bool,
    stopped: bool,
    nodes: u64,
}

/// What a finding shows.
fn shown_by<N: OfNetwork>(finding: &Finding<N>) -> Shown
    ensures { result.nodes ≡ finding.now.nodes }
{
    let leaves = match finding.rest() {
        Rest::Whole => true,
        Rest::Windows(windows) => !windows.is_empty(),
    };
    Shown {
        found: finding.found().is_some(),
        leaves,
        stopped: finding.stopped(),
        nodes: finding.nodes(),
    }
}

/// What a search of the equal jobs with 2 units shows, each of which starts at this time at the latest; or `None` if
/// memory is refused.
fn searched(alloc: Global, net: &Network, latest: u32, end: End) -> Option<Shown> {
    match question(alloc, net, &[2], &[0; 6], &[latest; 6]) {
        Ok(asked) => searched_named::<Brand>(alloc, net, asked, end),
        Err(_) => None,
    }
}

fn searched_named<N: OfNetwork>(
    alloc: Global,
    net: &Network,
    asked: Question,
    end: End,
) -> Option<Shown>
    requires named { net.now ≡ N.network }
    requires formed { IsFormed net.now asked }
{
    let Ok(board) = Board::new(alloc, net) else {
        return None;
    };
    let mut local: Local<N> = Local::new(alloc, net);
    let (quantum, look) = match end {
        End::Nodes(most) => (Some(most), u32::MAX),
        End::Look(look) => (None, look),
    };
    let stop = Steps::new(look.saturating_sub(1));
    let piece: Piece<N> = Piece::new(0, 0, 0, asked);
    let finding = explore(alloc, net, piece, quantum, &board, &mut local, &stop);
    let told = shown_by(&finding);
    let _ = finding.into_found();
    drop((local, board));
    Some(told)
}

/// Whether windows are left by a search of the equal jobs over this many nodes, and by one that is stopped at the look
/// after them; or `None` if the two differ, or windows are left for another reason.
fn is_left(alloc: Global, net: &Network, latest: u32, nodes: u32) -> Option<bool> {
    let most = nodes as u64;
    let limited = searched(alloc, net, latest, End::Nodes(most))?;
    let cut = searched(alloc, net, latest, End::Look(nodes.saturating_add(1)))?;
    let open = limited.leaves;
    let told = !limited.stopped && cut.stopped == open && cut.leaves == open;
    let spent = !open || limited.nodes == most && cut.nodes == most;
    if told && spent { Some(open) } else { None }
}

/// How often windows are left, of all numbers of nodes up to 20; or `None` as there.
fn count_left(alloc: Global, net: &Network) -> Option<u32> {
    let mut count: u32 = 0;
    for nodes in 0..21 {
        let (no, yes) = (
            is_left(alloc, net, 3, nodes)?,
            is_left(alloc, net, 4, nodes)?,
        );
        count = count.saturating_add(no as u32 + yes as u32);
    }
    Some(count)
}

fn is_often_left(alloc: Global) -> bool {
    let Ok(net) = equal(alloc) else {
        return false;
    };
    count_left(alloc, &net).is_some_and(|count| 10 <= count)
}

#[test]
fn stops_at_the_look_behind_as_many_nodes_as_it_may_enter(rt: HostRuntime) {
    assert!(rt; is_often_left(rt.alloc()));
}
