//! Which closed nodes are offered to cover others.

ghost use Rattle.std.specs.Prelude.{IfSome, IsTrue};
ghost use Rattle.racp_trees.specs.Nodes.{HaveRows, HasPlace};
ghost use Rattle.racp_trees.specs.Records.{HasRows};

use crate::closed::Closed;
use crate::record::Record;
use racp_model::{JobSet, Network};
use std::alloc::{AllocError, Global};
use std::collections::HashMap;

/// How many nodes with the same started jobs are looked at; if there are more, the oldest gives way.
const MOST_PLACES: usize = 64;

/// How many bytes the records of all nodes take at most, about.
const MOST_BYTES: usize = 1 << 30;

/// How many bytes a record takes, besides 2 for each job and 4 for each resource.
const RECORD_BYTES: usize = 256;

/// The numbers of nodes that may cover others, by a hash of their started jobs, the oldest first. Not all of them are
/// closed, or still known, so what stands there is tested.
#[derive(Drop)]
pub(crate) struct Offers {
    numbers: HashMap<u64, Vec<u32>>,
    room: usize,
}

impl Offers {
    /// None, with room for the records of a network.
    pub(crate) fn new(alloc: Global, net: &Network) -> Self {
        let bytes = 2 * net.job_count() + 4 * net.resource_count() + RECORD_BYTES;
        Offers {
            numbers: HashMap::new(alloc),
            room: MOST_BYTES / bytes,
        }
    }

    /// Whether there is no room for another node.
    pub(crate) fn is_full(&self) -> bool {
        self.room == 0
    }

    /// The number of a closed node that covers one with this record, the newest one; or `None` if none is offered.
    pub(crate) fn covering(&self, net: &Network, closed: &Closed, row: &Record) -> Option<u32>
        requires rows { HaveRows net.now closed.now }
        requires row { HasRows net.now row.now }
        ensures { IfSome result (HasPlace closed.now) }
    {
        let numbers = self.numbers.get(&key_of(&row.started))?;
        for number in numbers.iter().rev() {
            if is_covered_by(net, closed, *number, row) {
                return Some(*number);
            }
        }
        None
    }

    /// Enters the number of a node by its started jobs. Answers the one that gives way to it.
    pub(crate) fn enter(
        &mut self,
        alloc: Global,
        started: &JobSet,
        number: u32,
    ) -> Result<Option<u32>, AllocError> {
        let key = key_of(started);
        self.room = self.room.saturating_sub(1);
        let Some(numbers) = self.numbers.get_mut(&key) else {
            let mut numbers = Vec::new(alloc);
            numbers.push(number)?;
            self.numbers.insert(key, numbers)?;
            return Ok(None);
        };
        let oldest = if MOST_PLACES <= numbers.len() {
            self.room += 1;
            Some(numbers.remove(0))
        } else {
            None
        };
        numbers.push(number)?;
        Ok(oldest)
    }
}

/// Whether a node with this number is closed and covers one with this record.
fn is_covered_by(net: &Network, closed: &Closed, number: u32, row: &Record) -> bool
    requires rows { HaveRows net.now closed.now }
    requires row { HasRows net.now row.now }
    ensures { IsTrue result → HasPlace closed.now number }
{
    match closed.record(number as u64) {
        Some(kept) => kept.covers(row),
        None => false,
    }
}

/// A hash of a set of jobs.
fn key_of(jobs: &JobSet) -> u64 {
    let mut key: u64 = 0;
    for word in jobs.words() {
        key = (key ^ *word)
            .wrapping_mul(0x9E37_79B9_7F4A_7C15)
            .rotate_left(29);
    }
    key
}
