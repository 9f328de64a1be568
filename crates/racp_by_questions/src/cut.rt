//! What a box has to offer: its vectors that stand before the best known one.

ghost use Rattle.std.specs.Prelude.{◌≡◌, ◌<◌, ◌≤◌, IfOk, length, slice_index};
ghost use Rattle.racp_model.specs.Terms.{AreTermsOf, cost};
ghost use Rattle.racp_by_questions.specs.Enough.{IsAtMost};
ghost use Rattle.racp_by_questions.specs.Searched.{IsAsBefore, IsCutAnswer, IsMostBefore};

use crate::known::Known;
use racp_model::{Capacities, Network};
use racp_prices::Order;
use std::alloc::{AllocError, Global};

/// The high numbers of a box, each lowered to the most units of a vector of the box that stands before the best one;
/// `None` if not even the low vector does, so that none of the box does.
pub(crate) fn cut(
    alloc: Global,
    net: &Network,
    order: &Order,
    known: &Known,
    low: &Capacities,
    high: &Capacities,
) -> Result<Option<Capacities>, AllocError>
    requires terms { AreTermsOf net.now order.now }
    requires low { length low.now ≡ net.now.resources }
    requires high { length high.now ≡ net.now.resources }
    requires bounds { IsAtMost net.now low.now high.now }
    requires priced { known.now.cost ≡ cost order.now known.now.best }
    ensures { IfOk result (IsCutAnswer net.now order.now low.now high.now known.now.best) }
{
    let mut units = low.copy()?.into_vec();
    if !known.comes_after(net, order, &units) {
        return Ok(None);
    }
    let mut most = Vec::with_capacity(alloc, net.resource_count())?;
    for k in 0..net.resource_count() {
        most.push(most_before(net, order, known, &mut units, k, high.as_slice()[k]))?;
    }
    Ok(Some(Capacities::new(most)))
}

/// The most units of the resource at place `k`, up to a roof, with which the vector still stands before the best one.
/// Puts other units in that place and takes them back.
fn most_before(
    net: &Network,
    order: &Order,
    known: &Known,
    units: &mut Vec<u32>,
    k: usize,
    roof: u32,
) -> u32
    requires terms { AreTermsOf net.now order.now }
    requires units { length units.old.items ≡ net.now.resources }
    requires resource { k < net.now.resources }
    requires roof { slice_index units.old.items k ≤ roof }
    requires priced { known.now.cost ≡ cost order.now known.now.best }
    ensures same { IsAsBefore units.old.items units.new.items }
    ensures most { IsMostBefore net.now order.now units.old.items known.now.best k roof result }
{
    let floor = units[k];
    let mut least = floor;
    let mut most = roof;
    while least < most {
        let middle = most - (most - least) / 2;
        units[k] = middle;
        if known.comes_after(net, order, units) {
            least = middle;
        } else {
            most = middle - 1;
        }
    }
    units[k] = floor;
    most
}
