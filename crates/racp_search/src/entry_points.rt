ghost use Rattle.std.specs.Prelude.{◌≡◌, IsTrue, IsFalse, IfOk};
ghost use Rattle.racp_model.specs.Formed.{IsFormed};
ghost use Rattle.racp_cutset.specs.Kept.{StayKept};
ghost use Rattle.racp_search.specs.Truth.{IsExplored, IsDecision};
ghost use Rattle.racp_search.specs.Ends.{AllowsNone};

use crate::depth_first::search;
use crate::finding::Finding;
use crate::piece::Piece;
use crate::subject::Subject;
use racp_cutset::{Board, Local};
use racp_model::{Network, Never, OfNetwork, Question, Starts, Stop};
use std::alloc::{AllocError, Global};
use std::marker::Brand;

/// Searches a piece: branches at the first conflict of the early starts over the minimal delaying alternatives
/// (Demeulemeester and Herroelen 1992), by depth, until starts are found, nothing is left, as many nodes were searched
/// as the quantum allows, or the search is stopped. `None` is no bound on the nodes. The stop is asked before each
/// node.
///
/// A node that a record of the board or of `local` covers is skipped. A node is kept in `local`, behind the records
/// that are there, once all of its window has been refuted; where there is no room for a further one, one of this search
/// gives way. Where memory is refused the finding is short and leaves the whole window of the piece.
pub fn explore<N: OfNetwork, S: Stop>(
    alloc: Global,
    net: &Network,
    piece: Piece<N>,
    quantum: Option<u64>,
    board: &Board<N>,
    local: &mut Local<N>,
    stop: &S,
) -> Finding<N>
    requires named { net.now ≡ N.network }
    requires formed { IsFormed net.now piece.question }
    ensures explored { IsExplored N.network piece quantum result }
    ensures quiet { IsTrue (S.is_quiet stop.now) → IsFalse result.stopped }
    ensures kept { StayKept local.old local.new }
{
    if allows_none(quantum) {
        return Finding::whole(piece);
    }
    let mut nodes = 0;
    let subject = Subject::new(net, piece.question(), board);
    let end = search(alloc, &subject, quantum, &mut nodes, local, stop);
    Finding::after(piece, end, nodes)
}

/// Whether the quantum allows no node.
fn allows_none(quantum: Option<u64>) -> bool
    ensures { AllowsNone quantum result }
{
    match quantum {
        Some(most) => most == 0,
        None => false,
    }
}

/// Decides a question on one thread: starts that answer it, or `None` where nothing does. There is a capacity for each
/// resource and a bound for each job, by place from 0. Always ends.
///
/// # Errors
///
/// Memory was refused.
pub fn decide(
    alloc: Global,
    net: &Network,
    question: &Question,
) -> Result<Option<Starts>, AllocError>
    requires { IsFormed net.now question.now }
    ensures { IfOk result (IsDecision net.now question.now.capacities question.now.window) }
{
    decide_named::<Brand>(alloc, net, question)
}

/// The same, for the network that `N` names.
fn decide_named<N: OfNetwork>(
    alloc: Global,
    net: &Network,
    question: &Question,
) -> Result<Option<Starts>, AllocError>
    requires named { net.now ≡ N.network }
    requires formed { IsFormed net.now question.now }
    ensures { IfOk result (IsDecision net.now question.now.capacities question.now.window) }
{
    let board: Board<N> = Board::new(alloc, net)?;
    let mut local: Local<N> = Local::new(alloc, net);
    let subject = Subject::new(net, question, &board);
    search_all(alloc, &subject, &mut local)
}

/// Searches a question until starts are found or nothing is left.
fn search_all<N: OfNetwork>(
    alloc: Global,
    subject: &Subject<N>,
    local: &mut Local<N>,
) -> Result<Option<Starts>, AllocError>
    ensures { IfOk result (IsDecision N.network subject.now.capacities subject.now.window) }
{
    let mut nodes = 0;
    let ended = search(alloc, subject, None, &mut nodes, local, &Never)?;
    Ok(ended.into_found())
}
