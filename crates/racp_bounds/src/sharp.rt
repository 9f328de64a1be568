//! Floors that are raised by questions about the root window, and pairs of resources that are refuted.

ghost use Rattle.std.specs.Prelude.{◌≡◌, ◌↔◌, ℕ, ◌+◌, ◌-◌, ◌<◌, ◌≤◌, [], ◌∷◌, ◌++◌, List, OnOk, OnErr, IfOk, IfErr, IsTrue, length, slice_index, set};
ghost use Rattle.racp_model.specs.Project.{number};
ghost use Rattle.racp_model.specs.Formed.{HasBounds};
ghost use Rattle.racp_model.specs.Window.{IsYes};
ghost use Rattle.racp_candidates.specs.Box.{AreBounds};
ghost use Rattle.racp_questions.specs.FirstYes.{MayGiveUp};
ghost use Rattle.racp_found.specs.declared.observer.News.{News};
ghost use Rattle.racp_bounds.specs.Sharp.{IsReachedNews, IsSharpened, IsRefutedPair, AreRefutedPairs, IsSharp, pair_count, IsUnsharpened};

use racp_candidates::{AnySeries, One, Singles};
use racp_found::News;
use racp_model::{Capacities, Network, Window};
use racp_questions::{AskStop, Asker, First};
use std::alloc::{AllocError, Global};

/// Sharpened floors, and the pairs of resources that are refuted.
#[derive(Drop)]
pub struct Sharp {
    /// The sharpened floor of each resource, by place from 0, in units.
    pub floors: Capacities,
    /// The pairs of resources, by their numbers from 1, the lesser one first and in lexicographic order, of which both
    /// cannot be at their sharpened floors.
    pub pairs: Vec<(u32, u32)>,
}

/// Bounds on the units of each resource, by place from 0.
#[derive(Clone, Copy)]
struct Bounds<'a> {
    floors: &'a Capacities,
    roofs: &'a Capacities,
}

/// Sharpens the floors of a project by questions about its root window. The sharpened floor of a resource is the least
/// number of units, from its floor on, with which some starts fit when the other resources have their roofs. A pair of
/// resources is refuted if no starts fit when both have their sharpened floors and the others their roofs. Floors
/// and roofs are by resource, from place 0, with no floor above its roof, and some starts in the root window fit the
/// roofs. The asker is told the floors that were reached, each time that it is asked for a further one.
///
/// # Errors
///
/// The asker gave up, or memory was refused. The floors that were reached come back: with each series that was answered
/// one more is sharpened, from the first resource on, and the others are the first ones.
pub fn sharpen<A: Asker<AnySeries>>(
    alloc: Global,
    net: &Network,
    root: &Window,
    floors: Capacities,
    roofs: &Capacities,
    asker: &mut A,
) -> Result<Sharp, (Capacities, AskStop)>
    requires named { A.about asker.old net.now }
    requires root { HasBounds net.now root.now }
    requires floors { length floors ≡ net.now.resources }
    requires roofs { length roofs.now ≡ net.now.resources }
    requires bounds { AreBounds floors roofs.now }
    requires admits { IsYes net.now roofs.now root.now }
    requires heard { (n : ℕ) (news : News) → IsReachedNews net.now root.now floors roofs.now n news → A.may_hear news }
    ensures network { A.about asker.new net.now }
    ensures sharp { IfOk result (IsSharp net.now root.now floors roofs.now) }
    ensures answered { OnOk result
        (A.answered asker.new ≡ A.answered asker.old + net.now.resources + pair_count net.now.resources) }
    ensures no_fewer { A.answered asker.old ≤ A.answered asker.new }
    ensures refusal { IfErr result (IsUnsharpened net.now root.now floors roofs.now
        (A.answered asker.new - A.answered asker.old) (A.may_stop asker.new) (A.may_want_thread asker.new)) }
{
    let mut reached = floors;
    for k in 0..net.resource_count() {
        asker.hear(News::Floors(&reached));
        let bounds = Bounds {
            floors: &reached,
            roofs,
        };
        match raised(alloc, net, root, &bounds, k, asker) {
            Ok(units) => reached = reached.with_units(k, units),
            Err(stop) => return Err((reached, stop)),
        }
    }
    asker.hear(News::Floors(&reached));
    let bounds = Bounds {
        floors: &reached,
        roofs,
    };
    match refuted_pairs(alloc, net, root, &bounds, asker) {
        Ok(pairs) => Ok(Sharp {
            floors: reached,
            pairs,
        }),
        Err(stop) => Err((reached, stop)),
    }
}

/// The sharpened floor of one resource.
fn raised<A: Asker<AnySeries>>(
    alloc: Global,
    net: &Network,
    root: &Window,
    bounds: &Bounds,
    k: usize,
    asker: &mut A,
) -> Result<u32, AskStop>
    requires named { A.about asker.old net.now }
    requires root { HasBounds net.now root.now }
    requires floors { length bounds.now.floors.now ≡ net.now.resources }
    requires roofs { length bounds.now.roofs.now ≡ net.now.resources }
    requires resource { k < net.now.resources }
    requires bounds { slice_index bounds.now.floors.now k ≤ slice_index bounds.now.roofs.now k }
    requires admits { IsYes net.now bounds.now.roofs.now root.now }
    ensures network { A.about asker.new net.now }
    ensures sharp { IfOk result (IsSharpened net.now root.now bounds.now.floors.now bounds.now.roofs.now k) }
    ensures answered { OnOk result (A.answered asker.new ≡ A.answered asker.old + 1) }
    ensures unanswered { OnErr result (A.answered asker.new ≡ A.answered asker.old) }
    ensures stop { IfErr result (MayGiveUp (A.may_stop asker.new) (A.may_want_thread asker.new)) }
{
    let singles = Singles::new(alloc, bounds.floors, bounds.roofs, k, root)?;
    match asker.first(net, AnySeries::Singles(singles))? {
        First::Yes { index, .. } => Ok(units_at(
            bounds.floors.as_slice(),
            bounds.roofs.as_slice(),
            k,
            index,
        )),
        First::None => unreachable!(),
    }
}

/// The number at an index, from 0, among the units of one resource from its floor to its roof.
fn units_at(floors: &[u32], roofs: &[u32], k: usize, index: usize) -> u32
    requires floor { k < length floors.now }
    requires roof { k < length roofs.now }
    requires within { slice_index floors.now k + index ≤ slice_index roofs.now k }
    ensures { result ≡ slice_index floors.now k + index }
{
    prove!(index <= roofs[k] as usize);
    floors[k] + index as u32
}

/// The refuted pairs of resources, by their numbers, in lexicographic order.
fn refuted_pairs<A: Asker<AnySeries>>(
    alloc: Global,
    net: &Network,
    root: &Window,
    bounds: &Bounds,
    asker: &mut A,
) -> Result<Vec<(u32, u32)>, AskStop>
    requires named { A.about asker.old net.now }
    requires root { HasBounds net.now root.now }
    requires floors { length bounds.now.floors.now ≡ net.now.resources }
    requires roofs { length bounds.now.roofs.now ≡ net.now.resources }
    ensures network { A.about asker.new net.now }
    ensures refuted { IfOk result (λ pairs. AreRefutedPairs net.now root.now bounds.now.floors.now bounds.now.roofs.now pairs.items) }
    ensures answered { OnOk result (A.answered asker.new ≡ A.answered asker.old + pair_count net.now.resources) }
    ensures no_fewer { A.answered asker.old ≤ A.answered asker.new }
    ensures stop { IfErr result (MayGiveUp
        (A.may_stop asker.new × (A.answered asker.new - A.answered asker.old < pair_count net.now.resources))
        (A.may_want_thread asker.new)) }
{
    let mut pairs = Vec::new(alloc);
    for k in 0..net.resource_count() {
        for l in k + 1..net.resource_count() {
            if is_refuted(alloc, net, root, bounds, (k, l), asker)? {
                add_pair(&mut pairs, k, l)?;
            }
        }
    }
    Ok(pairs)
}

/// Adds the pair of the resources at two places, by their numbers.
fn add_pair(pairs: &mut Vec<(u32, u32)>, k: usize, l: usize) -> Result<(), AllocError>
    requires first { k < 16 }
    requires second { l < 16 }
    ensures { OnOk result (pairs.new.items ≡ pairs.old.items ++ (number k, number l) ∷ []) }
{
    pairs.push((k as u32 + 1, l as u32 + 1))?;
    Ok(())
}

/// Whether a pair of resources, by their places, is refuted.
fn is_refuted<A: Asker<AnySeries>>(
    alloc: Global,
    net: &Network,
    root: &Window,
    bounds: &Bounds,
    pair: (usize, usize),
    asker: &mut A,
) -> Result<bool, AskStop>
    requires named { A.about asker.old net.now }
    requires root { HasBounds net.now root.now }
    requires floors { length bounds.now.floors.now ≡ net.now.resources }
    requires roofs { length bounds.now.roofs.now ≡ net.now.resources }
    requires first { pair.0 < net.now.resources }
    requires second { pair.1 < net.now.resources }
    ensures network { A.about asker.new net.now }
    ensures refuted { IfOk result (λ refuted. IsTrue refuted ↔
        IsRefutedPair net.now root.now bounds.now.floors.now bounds.now.roofs.now pair.0 pair.1) }
    ensures answered { OnOk result (A.answered asker.new ≡ A.answered asker.old + 1) }
    ensures unanswered { OnErr result (A.answered asker.new ≡ A.answered asker.old) }
    ensures stop { IfErr result (MayGiveUp (A.may_stop asker.new) (A.may_want_thread asker.new)) }
{
    let capacities = pair_capacities(alloc, bounds, pair)?;
    let question = One::new(alloc, &capacities, root)?;
    let first = asker.first(net, AnySeries::One(question))?;
    Ok(matches!(first, First::None))
}

/// The roofs, with the floors of a pair of resources.
fn pair_capacities(
    alloc: Global,
    bounds: &Bounds,
    pair: (usize, usize),
) -> Result<Capacities, AllocError>
    requires first { pair.0 < length bounds.now.roofs.now }
    requires second { pair.1 < length bounds.now.roofs.now }
    requires floors { length bounds.now.floors.now ≡ length bounds.now.roofs.now }
    ensures { IfOk result (λ capacities. capacities ≡
        set (set bounds.now.roofs.now pair.0 (slice_index bounds.now.floors.now pair.0)) pair.1 (slice_index bounds.now.floors.now pair.1)) }
{
    let (k, l) = pair;
    let mut units = bounds.roofs.as_slice().to_vec(alloc)?;
    units[k] = bounds.floors.as_slice()[k];
    units[l] = bounds.floors.as_slice()[l];
    Ok(Capacities::new(units))
}
