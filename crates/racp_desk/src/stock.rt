//! What the calling thread has beside its workers.

ghost use Rattle.std.specs.Prelude.{◌≡◌, ◌+◌, ◌≤◌};

use crate::names::RunNames;
use crate::worker::Worker;
use racp_cutset::{Board, Local};
use racp_model::OfNetwork;
use std::alloc::Global;
use std::sync::ledger::Share;

/// What the calling thread has beside its workers: the share of the ledger that is left beside theirs, and the records
/// that others have kept of their own.
#[derive(Drop)]
pub(crate) struct Stock<N: OfNetwork, M: RunNames> {
    pub(crate) share: Share<M>,
    pub(crate) locals: Vec<Local<N>>,
}

impl<N: OfNetwork, M: RunNames> Stock<N, M> {
    /// The worker at a seat, with records that another has kept, or with none.
    pub(crate) fn hire(&mut self, alloc: Global, board: &Board<N>, seat: usize) -> Worker<N, M>
        requires { 2 ≤ self.old.share.parts }
        ensures { self.new.share.parts + 1 ≡ self.old.share.parts }
    {
        let share = self.share.split_off(1, 0);
        let local = match self.locals.pop() {
            Some(local) => local,
            None => board.own_part(alloc),
        };
        Worker { seat, share, local }
    }

    /// Takes back what a worker has. Its records are dropped where there is no room for them.
    pub(crate) fn take_back(&mut self, worker: Worker<N, M>)
        ensures { self.new.share.parts ≡ self.old.share.parts + 1 }
    {
        let Worker { share, local, .. } = worker;
        self.share.merge(share);
        let _ = self.locals.push(local);
    }
}
