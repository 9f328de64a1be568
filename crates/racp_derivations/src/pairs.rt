//! Pairs of the precedence relation by the jobs that they name.

ghost use Rattle.std.specs.Prelude.{◌≡◌, ◌↔◌, ◌<◌, ◌≤◌, AllPairs, IsTrue, length, slice_index_or};
ghost use Rattle.racp_model.specs.Project.{IsArcBefore};
ghost use Rattle.racp_derivations.specs.Lines.{pair_at};
ghost use Rattle.racp_derivations.specs.Pairs.{HasPairAt, IsPlaceIn};

use racp_model::Network;

/// Where the pair of the jobs at these places stands in the precedence relation, by halving.
pub(crate) fn pair_at(net: &Network, first: usize, second: usize) -> Option<usize>
    requires first { first ≤ 1000 }
    requires second { second ≤ 1000 }
    ensures { result ≡ pair_at net.now first second }
{
    let wanted = (first as u32 + 1, second as u32 + 1);
    let arcs = net.arcs();
    let at = place_in(arcs, wanted);
    if is_at(arcs, at, wanted) {
        Some(at)
    } else {
        None
    }
}

/// Whether a pair stands at a place.
fn is_at(arcs: &[(u32, u32)], at: usize, wanted: (u32, u32)) -> bool
    ensures { IsTrue result ↔ HasPairAt arcs.now at wanted }
{
    match arcs.get(at) {
        Some(pair) => is_same(*pair, wanted),
        None => false,
    }
}

/// How many pairs stand before one.
fn place_in(arcs: &[(u32, u32)], wanted: (u32, u32)) -> usize
    requires { AllPairs IsArcBefore arcs.now }
    ensures { IsPlaceIn arcs.now wanted result result }
{
    let mut low = 0;
    let mut high = arcs.len();
    while low < high {
        let middle = low + (high - low) / 2;
        if stands_before(arcs, middle, wanted) {
            low = middle + 1;
        } else {
            high = middle;
        }
    }
    low
}

/// Whether a pair stands at a place, and before another.
fn stands_before(arcs: &[(u32, u32)], at: usize, wanted: (u32, u32)) -> bool
    ensures { IsTrue result ↔ ((at < length arcs.now) × IsArcBefore (slice_index_or arcs.now at wanted) wanted) }
{
    match arcs.get(at) {
        Some(pair) => is_before(*pair, wanted),
        None => false,
    }
}

/// Whether a pair stands before another.
fn is_before(pair: (u32, u32), other: (u32, u32)) -> bool
    ensures { IsTrue result ↔ IsArcBefore pair other }
{
    pair.0 < other.0 || pair.0 == other.0 && pair.1 < other.1
}

/// Whether two pairs name the same jobs.
fn is_same(pair: (u32, u32), other: (u32, u32)) -> bool
    ensures { IsTrue result ↔ ((pair.0 ≡ other.0) × (pair.1 ≡ other.1)) }
{
    pair.0 == other.0 && pair.1 == other.1
}
