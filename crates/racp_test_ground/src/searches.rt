//! Searches of small questions, whole and in parts.

ghost use Rattle.std.specs.Prelude.{◌≡◌};
ghost use Rattle.racp_model.specs.Formed.{IsFormed};

use racp_cutset::{Board, Local};
use racp_model::{NetFault, Network, Never, OfNetwork, Question, Window};
use racp_samples::{network, parallel, question};
use racp_search::{Piece, Rest, decide, explore};
use std::alloc::Global;
use std::marker::Brand;

mod stopping;

/// The answers with 2 units of the windows that one node leaves of the five jobs beside each other, which are to end by
/// 5.
const ANSWERS: &[&[u32]] = &[&[0, 0, 3, 3, 5], &[0, 2, 0, 0, 5]];

fn is_one_of(starts: &[u32], answers: &[&[u32]]) -> bool {
    for answer in answers {
        if starts == *answer {
            return true;
        }
    }
    false
}

/// Whether a search of the window with 2 units finds starts; or `None` if these are other ones, or memory is refused.
fn is_answered(alloc: Global, net: &Network, window: &Window) -> Option<bool> {
    let Ok(asked) = question(alloc, net, &[2], window.lower(), window.upper()) else {
        return None;
    };
    match decide(alloc, net, &asked) {
        Ok(Some(starts)) if is_one_of(starts.as_slice(), ANSWERS) => Some(true),
        Ok(None) => Some(false),
        _ => None,
    }
}

/// In how many of the windows starts are found; or `None` as there.
fn count_answers(alloc: Global, net: &Network, windows: &[Window]) -> Option<u32> {
    let mut count: u32 = 0;
    for window in windows {
        count = count.saturating_add(is_answered(alloc, net, window)? as u32);
    }
    Some(count)
}

/// In how many of the windows that one node leaves starts are found; or `None` as there, or if the node itself answers.
fn count_answers_behind_one<N: OfNetwork>(
    alloc: Global,
    net: &Network,
    asked: Question,
    board: &Board<N>,
) -> Option<u32>
    requires named { net.now ≡ N.network }
    requires formed { IsFormed net.now asked }
{
    let mut local: Local<N> = Local::new(alloc, net);
    let piece: Piece<N> = Piece::new(0, 0, 0, asked);
    let finding = explore(alloc, net, piece, Some(1), board, &mut local, &Never);
    let one = finding.nodes() == 1 && finding.found().is_none();
    let count = match finding.rest() {
        Rest::Windows(windows) if one => count_answers(alloc, net, windows),
        _ => None,
    };
    let _ = finding.into_found();
    drop(local);
    count
}

/// In how many of the windows that one node leaves starts are found, over a board of its own.
fn count_left_of<N: OfNetwork>(alloc: Global, net: &Network, asked: Question) -> Option<u32>
    requires named { net.now ≡ N.network }
    requires formed { IsFormed net.now asked }
{
    match Board::<N>::new(alloc, net) {
        Ok(board) => {
            let count = count_answers_behind_one(alloc, net, asked, &board);
            drop(board);
            count
        }
        Err(_) => None,
    }
}

/// In how many of the windows that one node leaves starts are found, for the five jobs, which are to end by 5.
fn count_left_answers(alloc: Global) -> Option<u32> {
    let Ok(net) = parallel(alloc) else {
        return None;
    };
    match question(alloc, &net, &[2], &[0, 0, 0, 0, 3], &[2, 2, 3, 3, 5]) {
        Ok(asked) => count_left_of::<Brand>(alloc, &net, asked),
        Err(_) => None,
    }
}

#[test]
fn searches_on_from_the_rest(rt: HostRuntime) {
    assert_eq!(rt; count_left_answers(rt.alloc()), Some(2));
}

/// Six equal jobs, none of which waits for another.
pub(crate) fn equal(alloc: Global) -> Result<Network, NetFault> {
    let job: (u32, &[u32]) = (2, &[1]);
    network(alloc, 1, &[job; 6], &[])
}

/// Whether a second search of the piece over the same records finds them, and so takes fewer nodes. Nothing answers.
fn is_shorter_again<N: OfNetwork>(alloc: Global, net: &Network, asked: Question) -> bool
    requires named { net.now ≡ N.network }
    requires formed { IsFormed net.now asked }
{
    let Ok(board) = Board::new(alloc, net) else {
        return false;
    };
    let mut local: Local<N> = Local::new(alloc, net);
    let piece: Piece<N> = Piece::new(7, 5, 3, asked);
    let first = explore(alloc, net, piece, None, &board, &mut local, &Never);
    let (nodes, found) = (first.nodes(), first.found().is_some());
    let piece = first.into_piece();
    let second = explore(alloc, net, piece, None, &board, &mut local, &Never);
    let again = second.nodes();
    let _ = second.into_found();
    drop((local, board));
    !found && again < nodes
}

fn finds_its_records(alloc: Global) -> bool {
    let Ok(net) = equal(alloc) else {
        return false;
    };
    match question(alloc, &net, &[1], &[0, 1, 0, 1, 0, 1], &[3; 6]) {
        Ok(asked) => is_shorter_again::<Brand>(alloc, &net, asked),
        Err(_) => false,
    }
}

#[test]
fn finds_the_records_of_a_search(rt: HostRuntime) {
    assert!(rt; finds_its_records(rt.alloc()));
}
