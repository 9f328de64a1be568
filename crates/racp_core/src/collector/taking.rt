//! Handing out a piece.

ghost use Rattle.std.specs.Prelude.{◌≡◌, ◌<◌, ◌-◌, ◌^◌, IfOk, IfErr};
ghost use Rattle.racp_core.specs.Machine.{all_questions};
ghost use Rattle.racp_core.specs.Replies.{IsFormedReply};
ghost use Rattle.racp_core.specs.Runs.{Step, Take};

use super::Core;
use crate::replies::Reply;
use racp_model::OfNetwork;
use racp_questions::Series;
use racp_search::Piece;
use std::alloc::AllocError;

impl<N: OfNetwork, S: Series> Core<N, S> {
    /// Hands out a piece to the worker at a seat: an open window of the least undecided question that has one and
    /// stands before each known yes. Pieces are numbered from 0 on in the order of these calls. Makes the room that the
    /// piece needs to come back.
    ///
    /// # Errors
    ///
    /// Memory was refused. Nothing has changed.
    pub fn take(&mut self, seat: usize) -> Result<Reply<Piece<N>>, AllocError>
        requires { self.old.taken < 2 ^ 64 - 1 }
        ensures step { IfOk result (λ reply. Step self.old (Take seat reply) self.new) }
        ensures formed { IfOk result (IsFormedReply N.network) }
        ensures questions { all_questions self.new ≡ all_questions self.old }
        ensures err { IfErr result (λ _. self.new ≡ self.old) }
    {
        if self.is_settled() {
            return Ok(Reply::Done);
        }
        if self.halted {
            return Ok(Reply::Halted);
        }
        let Some(index) = self.undecided.first_ready(&self.rows) else {
            return Ok(Reply::Nothing);
        };
        let row = &mut self.rows[index];
        let piece = row.take(self.taken, seat, index)?;
        self.taken += 1;
        Ok(Reply::Piece(piece))
    }
}
