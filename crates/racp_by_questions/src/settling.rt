//! One question after another, each searched to its end on the calling thread.

ghost use Rattle.std.specs.Prelude.{◌≡◌, None, [], false, IfOk, IfErr, IfSome, IsFalse, IsTrue};
ghost use Rattle.racp_search.specs.Truth.{rest_windows};
ghost use Rattle.racp_core.specs.Machine.{all_questions, IsSettled};
ghost use Rattle.racp_questions.specs.FirstYes.{IsFirst};
ghost use Rattle.racp_by_questions.specs.Working.{IsIdle, IsAtWork, IsGivenUp, IsNextPiece, IsHandedIn, IsGoneOn};

use racp_core::{Asked, Core, Merged, Outcome, Reply};
use racp_cutset::{Board, Local};
use racp_model::{Network, OfNetwork, Stop};
use racp_questions::{AskStop, First, Series};
use racp_search::{Finding, Piece, explore, make_room};
use std::alloc::{AllocError, Global};

/// Asks the next question, and searches it to its end, unless the search is stopped. Where it is a no, its records are
/// forgotten. False where the answer is known.
pub(crate) fn settle_next<N: OfNetwork, S: Series, P: Stop>(
    alloc: Global,
    net: &Network,
    board: &Board<N>,
    local: &mut Local<N>,
    core: &mut Core<N, S>,
    stop: &P,
) -> Result<bool, AskStop>
    requires named { net.now ≡ N.network }
    requires idle { IsIdle core.old }
    ensures questions { IfOk result (λ _. all_questions core.new ≡ all_questions core.old) }
    ensures gone_on { IfOk result (λ more. IsGoneOn core.old more core.new) }
    ensures err { IfErr result (IsGivenUp (P.is_quiet stop.now ≡ false)) }
{
    let Some(piece) = next_piece(core)? else {
        return Ok(false);
    };
    let kept = make_room(local);
    let finding = explore(alloc, net, piece, None, board, local, stop);
    if let Some(end) = end_of(&finding) {
        // Dropped here once, not at each way out.
        drop(finding.into_found());
        return Err(end);
    }
    if finding.found().is_none() {
        local.forget_behind(kept);
    }
    Ok(hand_in(core, finding)?)
}

/// Why a finding does not tell of its piece: memory was refused to the search, or it was stopped. `None` where neither is so.
pub(crate) fn end_of<N: OfNetwork>(finding: &Finding<N>) -> Option<AskStop>
    ensures some { IfSome result (IsGivenUp (IsTrue finding.now.stopped)) }
    ensures long { result ≡ None → IsFalse finding.now.short }
    ensures whole { result ≡ None → IsFalse finding.now.stopped }
{
    if finding.short() {
        return Some(AskStop::Memory);
    }
    if finding.stopped() {
        return Some(AskStop::Stopped { reached: None });
    }
    None
}

/// Asks the next question, and takes its one piece. `None` where no question is to come, so that the answer is known.
fn next_piece<N: OfNetwork, S: Series>(
    core: &mut Core<N, S>,
) -> Result<Option<Piece<N>>, AllocError>
    requires { IsIdle core.old }
    ensures questions { IfOk result (λ _. all_questions core.new ≡ all_questions core.old) }
    ensures next { IfOk result (λ piece. IsNextPiece N.network core.old piece core.new) }
{
    match core.ask()? {
        Asked::Question(_) => {}
        Asked::End => return Ok(None),
        Asked::Enough => unreachable!(),
        Asked::Halted => unreachable!(),
    }
    match core.take(0)? {
        Reply::Piece(piece) => Ok(Some(piece)),
        Reply::Nothing => unreachable!(),
        Reply::Done => unreachable!(),
        Reply::Halted => unreachable!(),
    }
}

/// Hands in the finding of the one piece that is out. False where the answer is then known.
fn hand_in<N: OfNetwork, S: Series>(
    core: &mut Core<N, S>,
    finding: Finding<N>,
) -> Result<bool, AllocError>
    requires work { IsAtWork core.old finding.piece }
    requires whole { finding.found ≡ None → rest_windows finding.piece.question.window finding.rest ≡ [] }
    ensures questions { IfOk result (λ _. all_questions core.new ≡ all_questions core.old) }
    ensures handed { IfOk result (λ more. IsHandedIn core.old more core.new) }
{
    let more = finding.found().is_none();
    match core.hand(finding) {
        Ok(Merged::Taken) => Ok(more),
        Ok(Merged::Stale) => unreachable!(),
        Err((finding, error)) => {
            // Dropped here once, not at each way out.
            drop(finding.into_found());
            Err(error)
        }
    }
}

/// The first yes of the series, of a collector that knows it.
pub(crate) fn first_of<N: OfNetwork, S: Series>(core: Core<N, S>) -> First
    requires { IsSettled core }
    ensures { IsFirst N.network (all_questions core) result }
{
    let (outcome, _) = core.into_answer();
    match outcome {
        Outcome::First { index, starts } => First::Yes { index, starts },
        Outcome::NoYes => First::None,
        Outcome::Open { first_open: _ } => unreachable!(),
    }
}
