//! Ranks of the jobs along their pairs, and the pairs in topological order.

ghost use Rattle.std.specs.Prelude.{◌≡◌, ℕ, ◌<◌, ◌≤◌, ◌↔◌, All, IsTrue, IsFalse, IfOk, length, slice_index};
ghost use Rattle.racp_model.specs.Project.{number, AreNumbers};
ghost use Rattle.racp_model.specs.Ranks.{RisesAlong, IsRankable, AreBelow, ArePairsOf, AreByRank, IsOrdered, IsSortedSet, IsSwept};

use crate::fault::NetFault;
use crate::limits::MOST_JOBS;
use std::alloc::{AllocError, Global};

/// Whether each pair names two of this many jobs.
pub fn are_numbers(arcs: &[(u32, u32)], count: usize) -> bool
    ensures { IsTrue result ↔ AreNumbers count arcs.now }
{
    arcs.iter().all(|arc| 1 <= arc.0
        && arc.0 as usize <= count
        && 1 <= arc.1
        && arc.1 as usize <= count)
}

/// Sorts the pairs and drops repeated ones: each stands once, in rising order. Takes no memory.
pub fn sorted(mut arcs: Vec<(u32, u32)>) -> Vec<(u32, u32)>
    ensures { IsSortedSet arcs.items result.items }
{
    arcs.sort_unstable();
    arcs.dedup();
    arcs
}

/// The pairs by places, in topological order. Only the result takes memory, so that a ring is found without any.
pub fn topological(
    alloc: Global,
    arcs: &[(u32, u32)],
    count: usize,
) -> Result<Vec<(u32, u32)>, NetFault>
    requires numbers { AreNumbers count arcs.now }
    requires some { 0 < count }
    requires most { count ≤ 512 }
    ensures { IsOrdered arcs.now result }
{
    let mut rank = [0; MOST_JOBS];
    ordered(alloc, arcs, &mut rank[..count])
}

/// The pairs by places, in topological order, with a row of zeros to rank the jobs in.
fn ordered(
    alloc: Global,
    arcs: &[(u32, u32)],
    rank: &mut [u32],
) -> Result<Vec<(u32, u32)>, NetFault>
    requires numbers { AreNumbers (length rank.old) arcs.now }
    requires some { 0 < length rank.old }
    requires clear { (i : ℕ) → slice_index rank.old i ≡ 0 }
    requires small { length rank.old ≤ 512 }
    ensures { IsOrdered arcs.now result }
{
    if !rank_jobs(arcs, rank) {
        return Err(NetFault::Cycle);
    }
    Ok(by_rank(alloc, arcs, rank)?)
}

/// Ranks the jobs so that the rank rises along each pair, and says whether that can be done.
fn rank_jobs(arcs: &[(u32, u32)], rank: &mut [u32]) -> bool
    requires numbers { AreNumbers (length rank.old) arcs.now }
    requires some { 0 < length rank.old }
    requires clear { (i : ℕ) → slice_index rank.old i ≡ 0 }
    requires small { length rank.old ≤ 512 }
    ensures rises { IsTrue result → RisesAlong arcs.now (slice_index rank.new) }
    ensures ring { IsFalse result → IsRankable arcs.now → ⊥ }
{
    'sweeps: loop {
        match raise_ranks(arcs, rank) {
            Sweep::Settled => return true,
            Sweep::Ring => return false,
            Sweep::Raised => {}
        }
    }
}

/// What a sweep over the pairs found.
enum Sweep {
    /// The ranks rise along each pair.
    Settled,
    /// Some rank was raised.
    Raised,
    /// A rank would have to reach the number of jobs, so some job waits for itself.
    Ring,
}

/// Raises the rank of the second job of each pair above that of the first, in one sweep.
fn raise_ranks(arcs: &[(u32, u32)], rank: &mut [u32]) -> Sweep
    requires numbers { AreNumbers (length rank.old) arcs.now }
    requires below { AreBelow (length rank.old) rank.old }
    requires small { length rank.old ≤ 512 }
    ensures { IsSwept arcs.now rank.old rank.new result }
{
    let mut raised = false;
    for &(i, j) in arcs {
        let (from, to) = (place_of(i) as usize, place_of(j) as usize);
        if rank[to] <= rank[from] {
            if rank[from] as usize + 1 == rank.len() {
                return Sweep::Ring;
            }
            rank[to] = rank[from] + 1;
            raised = true;
        }
    }
    if raised {
        Sweep::Raised
    } else {
        Sweep::Settled
    }
}

/// The place, from 0, of the job with this number, from 1.
fn place_of(job: u32) -> u32
    requires { 1 ≤ job }
    ensures { number result ≡ job }
{
    job - 1
}

/// The pairs by places, by rising rank of the first job.
fn by_rank(alloc: Global, arcs: &[(u32, u32)], rank: &[u32]) -> Result<Vec<(u32, u32)>, AllocError>
    requires numbers { AreNumbers (length rank.now) arcs.now }
    requires small { length rank.now ≤ 512 }
    ensures { IfOk result (λ pairs. AreByRank arcs.now rank.now pairs.items) }
{
    let mut pairs = places(alloc, arcs)?;
    pairs.sort_unstable_by_key(|pair| rank.get(pair.0 as usize).copied().unwrap_or(0));
    Ok(pairs)
}

/// The pairs by places.
fn places(alloc: Global, arcs: &[(u32, u32)]) -> Result<Vec<(u32, u32)>, AllocError>
    requires { All (λ arc. (1 ≤ arc.0) × (1 ≤ arc.1)) arcs.now }
    ensures { IfOk result (λ pairs. ArePairsOf arcs.now pairs.items) }
{
    let mut pairs = Vec::with_capacity(alloc, arcs.len())?;
    for &(i, j) in arcs {
        pairs.push((place_of(i), place_of(j)))?;
    }
    Ok(pairs)
}
