//! The records that threads share.

ghost use Rattle.std.specs.Prelude.{◌≡◌, ◌≤◌, [], IfOk};
ghost use Rattle.racp_cutset.specs.Kept.{AreShares, most_records};

use crate::local::Local;
use crate::nogood::Nogood;
use crate::shares::{DEFAULT_MEMORY, MemoryLimit, Shares, most_records, shares_of};
use racp_model::{Network, OfNetwork};
use std::alloc::{AllocError, Global};
use std::sync::Wait;

/// The records that the threads share, of the network that `N` names. It only grows, and is read without waiting.
#[derive(Drop)]
pub struct Board<N: OfNetwork> {
    records: boxcar::Vec<Nogood<N>>,
    /// How many records it takes at most.
    limit: usize,
    /// How many records each own part keeps at most.
    own: usize,
}

impl<N: OfNetwork> Board<N> {
    /// A board without records. It takes as many as take about 1 GiB, and so does each own part.
    ///
    /// # Errors
    ///
    /// Memory was refused.
    pub fn new(alloc: Global, net: &Network) -> Result<Self, AllocError>
        requires { net.now ≡ N.network }
        ensures shared { IfOk result (λ board. board.limit ≡ most_records net.now 1024) }
        ensures own { IfOk result (λ board. board.own ≡ most_records net.now 1024) }
    {
        let most = most_records(net, DEFAULT_MEMORY);
        Board::of_shares(
            alloc,
            Shares {
                shared: most,
                own: most,
            },
        )
    }

    /// A board without records. What it takes and what all own parts keep take at most about as much memory as the
    /// limit says, with the places of the records in the index of each worker.
    ///
    /// # Errors
    ///
    /// Memory was refused.
    pub fn within(alloc: Global, net: &Network, limit: MemoryLimit) -> Result<Self, AllocError>
        requires { net.now ≡ N.network }
        ensures { IfOk result (λ board. AreShares net.now limit.mebibytes limit.workers board.limit board.own) }
    {
        Board::of_shares(alloc, shares_of(net, limit))
    }

    /// A board without records, which takes this many.
    fn of_shares(alloc: Global, shares: Shares) -> Result<Self, AllocError>
        ensures shared { IfOk result (λ board. board.limit ≡ shares.shared) }
        ensures own { IfOk result (λ board. board.own ≡ shares.own) }
    {
        Ok(Board {
            records: boxcar::Vec::new(alloc)?,
            limit: shares.shared,
            own: shares.own,
        })
    }

    /// Whether it has as many records as it takes at most.
    pub fn is_full(&self) -> bool {
        self.limit <= self.count()
    }

    /// Shares a record; it is dropped if there is no room. May wait for another thread that is making room.
    pub fn push(&self, rt: &impl Wait, nogood: Nogood<N>) {
        let _ = self.records.push(rt, nogood);
    }

    /// The own part of a thread, which keeps no record and has read nothing. Takes no memory until a record is kept or
    /// read.
    pub fn own_part(&self, alloc: Global) -> Local<N>
        ensures { result ≡ record { records = []; most = self.now.own } }
    {
        Local::of_most(alloc, self.own)
    }

    /// The record at a place, from 0, if it has been written.
    pub(crate) fn record(&self, place: usize) -> Option<&Nogood<N>> {
        self.records.get(place)
    }

    /// How many records have been written.
    pub(crate) fn count(&self) -> usize {
        self.records.count()
    }
}
