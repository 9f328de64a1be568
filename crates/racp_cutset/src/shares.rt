//! How many records so much memory holds.

ghost use Rattle.std.specs.Prelude.{◌≡◌, ◌≤◌};
ghost use Rattle.racp_cutset.specs.Kept.{AreShares, most_own, most_records, most_shared, record_numbers};

use racp_model::Network;

/// How many mebibytes all records of a plan take at most, if nothing else is said.
pub const DEFAULT_MEMORY: usize = 1024;

/// How many numbers of 32 bits a mebibyte has.
const NUMBERS: usize = 262_144;

/// How many numbers a record takes, about, beside one for each resource and two for each job: its other fields, its
/// place in the index, and what the allocator needs for each piece of memory.
const OTHER_NUMBERS: usize = 100;

/// How many numbers a place in an index takes, about.
const PLACE_NUMBERS: usize = 30;

/// How many records of a network take this many mebibytes, up to 1,048,576, with their places in an index. A record
/// counts for 8 bytes for each job, 4 for each resource, and 400 others.
pub fn most_records(net: &Network, mebibytes: usize) -> usize
    requires { mebibytes ≤ 1048576 }
    ensures { result ≡ most_records net.now mebibytes }
{
    mebibytes * NUMBERS / record_numbers(net)
}

/// How much memory the records of a run take at most, about, and how many workers share it.
#[derive(Clone, Copy)]
pub struct MemoryLimit {
    /// How many mebibytes, up to 1,048,576.
    pub mebibytes: usize,
    /// How many workers, 1 to 64.
    pub workers: usize,
    pub ghost mebibytes_few: { mebibytes ≤ 1048576 },
    pub ghost workers_some: { 1 ≤ workers },
    pub ghost workers_few: { workers ≤ 64 },
}

/// The most records that a board takes, and that each own part keeps.
#[derive(Clone, Copy)]
pub(crate) struct Shares {
    pub(crate) shared: usize,
    pub(crate) own: usize,
}

/// The parts of the memory for records: the board has one half and the own parts of the workers the other.
pub(crate) fn shares_of(net: &Network, limit: MemoryLimit) -> Shares
    ensures { AreShares net.now limit.mebibytes limit.workers result.shared result.own }
{
    let MemoryLimit { mebibytes, workers } = limit;
    Shares {
        shared: most_shared(net, mebibytes, workers),
        own: most_own(net, mebibytes, workers),
    }
}

/// How many records half of this many mebibytes holds, each with a place in the index of each worker.
fn most_shared(net: &Network, mebibytes: usize, workers: usize) -> usize
    requires memory { mebibytes ≤ 1048576 }
    requires workers { workers ≤ 64 }
    ensures { result ≡ most_shared net.now mebibytes workers }
{
    mebibytes * (NUMBERS / 2) / (record_numbers(net) + PLACE_NUMBERS * workers)
}

/// How many records of its own each of several workers keeps in half of this many mebibytes.
fn most_own(net: &Network, mebibytes: usize, workers: usize) -> usize
    requires memory { mebibytes ≤ 1048576 }
    requires some { 1 ≤ workers }
    requires workers { workers ≤ 64 }
    ensures { result ≡ most_own net.now mebibytes workers }
{
    mebibytes * (NUMBERS / 2) / (record_numbers(net) * workers)
}

/// How many numbers of 32 bits a record takes, about, with its place in an index.
fn record_numbers(net: &Network) -> usize
    ensures exact { result ≡ record_numbers net.now }
    ensures some { 100 ≤ result }
    ensures few { result ≤ 2000 }
{
    2 * net.job_count() + net.resource_count() + OTHER_NUMBERS
}
