//! Runs one after the other, whose workers share their records.

ghost use Rattle.std.specs.Prelude.{◌≡◌, IfOk};
ghost use Rattle.racp_cutset.specs.Kept.{AreShares};
ghost use Rattle.racp_model.specs.Formed.{AreFormed};
ghost use Rattle.racp_desk.specs.Closing.{IsRunClosed};

use crate::closed::Closed;
use crate::fault::DeskFault;
use crate::gate::Gate;
use crate::limits::RunBounds;
use crate::worker::RunSetup;
use racp_cutset::{Board, Local, MemoryLimit};
use racp_model::{Network, OfNetwork, Stop};
use racp_questions::Series;
use std::alloc::{AllocError, Global};
use std::cell::Cell;
use std::sync::Wait;
use std::thread::Threads;

/// What one thread keeps from run to run: the board that workers share, and the records that each of them has of its own.
#[derive(Drop)]
pub struct Records<N: OfNetwork> {
    board: Board<N>,
    locals: Cell<Vec<Local<N>>>,
}

impl<N: OfNetwork> Records<N> {
    /// No records, for runs of at most so many workers. What is kept takes at most about so much memory.
    ///
    /// # Errors
    ///
    /// Memory was refused.
    pub fn within(alloc: Global, net: &Network, limit: MemoryLimit) -> Result<Self, AllocError>
        requires { net.now ≡ N.network }
        ensures { IfOk result (λ records.
            AreShares net.now limit.mebibytes limit.workers records.board.limit records.board.own) }
    {
        let board = Board::within(alloc, net, limit)?;
        Ok(Records {
            board,
            locals: Cell::new(Vec::new(alloc)),
        })
    }
}

impl<N: OfNetwork + Send + Sync> Records<N> {
    /// Lets workers answer a series of questions about the network, as `run` does, as far as its bounds let them, with
    /// what those of the runs before have kept.
    ///
    /// # Errors
    ///
    /// Memory was refused, or a worker could not be started, and the answer is not known.
    pub fn run<S: Series + Send, G: Gate + Sync, P: Stop + Sync, R: Threads + Wait + Sync>(
        &self,
        rt: &R,
        alloc: Global,
        net: &Network,
        series: S,
        bounds: &RunBounds<'_, G, P>,
    ) -> Result<Closed, DeskFault>
        requires named { net.now ≡ N.network }
        requires formed { AreFormed net.now (S.questions series) }
        ensures { IfOk result (IsRunClosed net.now (S.questions series) bounds.now.limits.turns
            (P.is_quiet bounds.now.stop.now)) }
    {
        let setup = RunSetup {
            alloc,
            net,
            limits: bounds.limits,
            board: &self.board,
            gate: bounds.gate,
            stop: bounds.stop,
        };
        let mut locals = self.locals.replace(Vec::new(alloc));
        let closed = setup.run(rt, series, &mut locals);
        self.locals.set(locals);
        closed
    }
}
