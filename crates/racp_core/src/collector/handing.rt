//! Taking in findings, and pieces that are given back.

ghost use Rattle.std.specs.Prelude.{◌≡◌, ◌<◌, ◌∷◌, [], None, Some, length, IfOk, IfErr, IfSome, IfNone};
ghost use Rattle.racp_model.specs.Window.{Answers};
ghost use Rattle.racp_search.specs.Truth.{rest_windows};
ghost use Rattle.racp_core.specs.Machine.{all_questions, row_at};
ghost use Rattle.racp_core.specs.Steps.{IsOut, IsReturned, IsAnswered, AreShutFrom, lesser, listed};
ghost use Rattle.racp_core.specs.Rows.{IsPlaceIn, IsRemovedIfDone, IsCutAt};
ghost use Rattle.racp_core.specs.Runs.{Step, Hand, GiveBack};

use super::{Core, LeastYes};
use crate::replies::Merged;
use crate::row::Row;
use crate::undecided::Undecided;
use racp_model::{OfNetwork, Starts};
use racp_questions::Series;
use racp_search::{Finding, Piece};
use std::alloc::AllocError;

impl<N: OfNetwork, S: Series> Core<N, S> {
    /// Takes in a finding. A yes discards the open windows of its question and of each later one; else what is left of
    /// the piece is open again, if its question stands before each known yes. Whether the finding is true is not
    /// tested: its type keeps that.
    ///
    /// # Errors
    ///
    /// Memory was refused, for windows that are left of the piece. Nothing has changed, and the finding comes back.
    pub fn hand(&mut self, finding: Finding<N>) -> Result<Merged, (Finding<N>, AllocError)>
        ensures step { IfOk result (λ merged. Step self.old (Hand finding merged) self.new) }
        ensures questions { all_questions self.new ≡ all_questions self.old }
        ensures err { IfErr result (λ e. (self.new ≡ self.old) × (e.0 ≡ finding) × (finding.found ≡ None) ×
            (0 < listed finding.rest)) }
    {
        let Some(at) = self.place(finding.piece()) else {
            // Dropped here once, not at each way out.
            drop(finding.into_found());
            return Ok(Merged::Stale);
        };
        if finding.found().is_none() {
            self.put(at, finding)?;
            return Ok(Merged::Taken);
        }
        let (piece, rest, found) = finding.into_parts();
        // Dropped here once, not at each way out.
        drop(rest);
        if let Some(starts) = found {
            self.put_yes(at, &piece, starts);
        }
        // Dropped here once, not at each way out.
        drop(piece.into_question::<Row>());
        Ok(Merged::Taken)
    }

    /// Takes back a piece that was not searched: its window is open again, if its question stands before each known
    /// yes. Takes no memory.
    pub fn give_back(&mut self, piece: Piece<N>) -> Merged
        ensures step { Step self.old (GiveBack piece result) self.new }
        ensures questions { all_questions self.new ≡ all_questions self.old }
    {
        match self.place(&piece) {
            Some(at) => {
                self.put_whole(at, piece);
                Merged::Taken
            }
            None => {
                // Dropped here once, not at each way out.
                drop(piece.into_question::<Row>());
                Merged::Stale
            }
        }
    }

    /// Where the piece stands among those that are out of its question.
    fn place(&self, piece: &Piece<N>) -> Option<usize>
        ensures some { IfSome result (IsPlaceIn self.now.asked piece.now) }
        ensures none { IfNone result (IsOut self.now piece.now → ⊥) }
    {
        let index = piece.index() as usize;
        if index >= self.rows.len() {
            return None;
        }
        let row = &self.rows[index];
        row.place_of(piece)
    }

    /// A finding without a yes is in.
    fn put(&mut self, at: usize, finding: Finding<N>) -> Result<(), (Finding<N>, AllocError)>
        requires place { IsPlaceIn self.old.asked finding.piece at }
        requires none { finding.found ≡ None }
        ensures ok { IfOk result (λ _. IsReturned self.old finding.piece
            (rest_windows finding.piece.question.window finding.rest) self.new) }
        ensures err { IfErr result (λ e. (self.new ≡ self.old) × (e.0 ≡ finding) × (0 < listed finding.rest)) }
    {
        let index = finding.piece().index() as usize;
        let opens = self.is_before(index);
        let row = &mut self.rows[index];
        row.put(at, finding, opens)?;
        remove_if_done(&mut self.undecided, &self.rows, index);
        Ok(())
    }

    /// A piece is in, and its window is open in its place.
    fn put_whole(&mut self, at: usize, piece: Piece<N>)
        requires { IsPlaceIn self.old.asked piece at }
        ensures { IsReturned self.old piece (piece.question.window ∷ []) self.new }
    {
        let index = piece.index() as usize;
        let opens = self.is_before(index);
        let question = piece.into_question::<Row>();
        let row = &mut self.rows[index];
        row.put_whole(at, question.window, opens);
        remove_if_done(&mut self.undecided, &self.rows, index);
    }

    /// A piece is in, with a yes.
    fn put_yes(&mut self, at: usize, piece: &Piece<N>, starts: Starts)
        requires place { IsPlaceIn self.old.asked piece.now at }
        requires yes { Answers N.network piece.now.question.capacities piece.now.question.window starts }
        ensures { IsAnswered self.old piece.now starts self.new }
    {
        let index = piece.index() as usize;
        let row = &mut self.rows[index];
        row.close(at);
        shut_from(&mut self.rows, index);
        self.undecided.cut_at(index);
        self.least = Some(lesser_yes(self.least.take(), index, starts));
    }
}

/// Takes a place away if nothing of its question is open or out.
fn remove_if_done(undecided: &mut Undecided, rows: &[Row], index: usize)
    requires { index < length rows.now }
    ensures { IsRemovedIfDone rows.now undecided.old index undecided.new }
{
    if rows[index].is_done() {
        undecided.remove(index);
    }
}

/// Discards the open windows of all questions from a place on.
fn shut_from(rows: &mut Vec<Row>, index: usize)
    ensures { AreShutFrom index rows.old.items rows.new.items }
{
    for place in index..rows.len() {
        let row = &mut rows[place];
        row.shut();
    }
}

/// The lesser of two yeses.
fn lesser_yes(least: Option<LeastYes>, index: usize, starts: Starts) -> LeastYes
    ensures { result ≡ lesser least (record { index = index; starts = starts }) }
{
    match least {
        Some(least) if least.index <= index => least,
        _ => LeastYes { index, starts },
    }
}
