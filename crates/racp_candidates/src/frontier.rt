//! The vectors between floors and roofs in the order of vectors: by cost, and at equal cost in lexicographic order.

ghost use Rattle.std.specs.Prelude.{◌≡◌, length, IfOk};
ghost use Rattle.racp_candidates.specs.Box.{ArePrices, AreBounds};
ghost use Rattle.racp_candidates.specs.Vectors.{AreVectorsInOrder, IsNextVector};

use crate::children::{children_of, enter};
use crate::copies::copy_list;
use crate::entry::Entry;
use std::alloc::{AllocError, Global};
use std::cmp::Reverse;
use std::collections::BinaryHeap;
use std::marker::Model;

/// The vectors still to come. The heap has those of them whose parents were taken: the parent of a vector has one unit
/// less at the last place that is above its floor, and stands before it. Contracts see the list of the vectors.
#[derive(Drop)]
pub(crate) struct Frontier {
    alloc: Global,
    prices: Vec<u32>,
    owned: Vec<u32>,
    floors: Vec<u32>,
    roofs: Vec<u32>,
    heap: BinaryHeap<Reverse<Entry>>,
}

impl Model for Frontier {
    ghost use Rattle.std.specs.Prelude.{ℕ, List};
    ghost use Rattle.std.specs.BinaryHeap.{heap_items};
    ghost use Rattle.racp_candidates.specs.Vectors.{terms_of, to_come};
    ghost use Rattle.racp_candidates.specs.Frontier.{vectors_in, IsFrontierHeap};

    ghost Value = { List (List ℕ) };

    ghost view = { λ s. to_come (terms_of s.prices.items s.owned.items) s.floors.items s.roofs.items
        (vectors_in (heap_items s.heap)) };

    ghost invariant = { λ s. IsFrontierHeap s.prices.items s.owned.items s.floors.items s.roofs.items
        (heap_items s.heap) };
}

impl Frontier {
    ghost use Rattle.racp_candidates.specs.Vectors.{terms_of};

    /// All vectors between these floors and roofs.
    pub(crate) fn new(
        alloc: Global,
        prices: Vec<u32>,
        owned: Vec<u32>,
        floors: Vec<u32>,
        roofs: Vec<u32>,
    ) -> Result<Self, AllocError>
        requires prices { ArePrices prices.items owned.items }
        requires floors { length prices.items ≡ length floors.items }
        requires roofs { length roofs.items ≡ length floors.items }
        requires bounds { AreBounds floors.items roofs.items }
        ensures { IfOk result (AreVectorsInOrder (terms_of prices.items owned.items) floors.items roofs.items) }
    {
        let mut heap = BinaryHeap::new(alloc);
        enter(&mut heap, &prices, &owned, copy_list(alloc, &floors)?)?;
        Ok(Frontier {
            alloc,
            prices,
            owned,
            floors,
            roofs,
            heap,
        })
    }

    /// Takes the first vector off, or gives `None` if none is left. The children are put in before their parent is
    /// taken out, so that nothing changes if memory is refused.
    pub(crate) fn next(&mut self) -> Result<Option<Vec<u32>>, AllocError>
        ensures { IsNextVector self.old self.new result }
    {
        let mut children = match self.heap.peek() {
            Some(first) => children_of(
                self.alloc,
                &self.prices,
                &self.owned,
                &self.floors,
                &self.roofs,
                &first.0.units,
            )?,
            None => return Ok(None),
        };
        self.heap.append(&mut children)?;
        match self.heap.pop() {
            Some(first) => Ok(Some(first.0.units)),
            None => Ok(None),
        }
    }
}
