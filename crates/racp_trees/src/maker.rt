//! Making the tree of a block, line by line.

ghost use Rattle.std.specs.Prelude.{◌≡◌, ◌≤◌, ℕ, [], All, IfOk, IsFalse, IsTrue, OnOk, None, length, slice_index};
ghost use Rattle.racp_model.specs.Formed.{HasBounds};
ghost use Rattle.racp_model.specs.Limits.{most_bound};
ghost use Rattle.racp_model.specs.Path.{IsEarly};
ghost use Rattle.racp_trees.specs.Making.{IsChoice, IsThinnedReader, IsLineMade, HasMadeTree};
ghost use Rattle.racp_trees.specs.Readers.{IsReady};
ghost use Rattle.racp_trees.specs.Records.{HasRows, record_at};

use crate::branch::copied;
use crate::closed::Closed;
use crate::offer::Offers;
use crate::patience::Brief;
use crate::reader::{Ground, Reader};
use crate::record::{NodeTimes, Record};
use crate::step::Step;
use crate::writer::push_step;
use racp_cpm::early;
use racp_delay::{conflict, laws};
use racp_model::{Network, Starts, Stop, Unfound, Window};
use racp_text::MOST_TEXT_BYTES;
use std::alloc::{AllocError, Global};
use std::rc::Rc;

/// A maker of trees: a reader of the lines that it makes itself, and the nodes that may cover others. It gives a tree up
/// where its stop asks for it.
#[derive(Drop)]
pub(crate) struct Maker<'a, S: Stop> {
    pub(crate) reader: Reader,
    pub(crate) offers: Offers,
    pub(crate) stop: &'a S,
}

impl<'a, S: Stop> Maker<'a, S> {
    /// A maker that has made nothing, with its stop. The lower bounds of the root window are usual.
    pub(crate) fn new(
        alloc: Global,
        net: &Network,
        root: &Window,
        stop: &'a S,
    ) -> Result<Self, AllocError>
        ensures number { IfOk result (λ maker. maker.reader.number ≡ 1) }
        ensures closed { IfOk result (λ maker. (number : ℕ) → record_at maker.reader.closed number ≡ None) }
        ensures branches { IfOk result (λ maker. maker.reader.branches.items ≡ []) }
    {
        let reader = Reader::new(alloc, root, Closed::none(alloc))?;
        Ok(Maker {
            reader,
            offers: Offers::new(alloc, net),
            stop,
        })
    }

    /// Makes the tree of the root window, and adds its lines to the text. Each line that is chosen is read as a reader
    /// of the text reads it. False if some window of the tree has starts that fit, the text would have too many bytes,
    /// the search for some child took too many steps, or the stop asked for it, which is asked at each line.
    pub(crate) fn make_tree(
        &mut self,
        alloc: Global,
        ground: &Ground,
        text: &mut Vec<u8>,
    ) -> Result<bool, AllocError>
        requires capacities { length ground.now.capacities.now ≡ ground.now.net.now.resources }
        requires root { HasBounds ground.now.net.now ground.now.root.now }
        requires branches { self.old.reader.branches.items ≡ [] }
        requires room { self.old.reader.number ≤ length text.old.items }
        ensures { IfOk result (λ made. IsTrue made → HasMadeTree ground.now.net.now ground.now.capacities.now ground.now.root.now self.old.reader text.old.items self.new.reader text.new.items) }
    {
        laws::some_job_goes();
        laws::conflict_is_one();
        self.forget(alloc, ground.net);
        let mut lower = copied(alloc, ground.root.lower())?;
        while text.len() < MOST_TEXT_BYTES {
            if self.stop.asked() {
                return Ok(false);
            }
            if !self.make_line(alloc, ground, lower, text)? {
                return Ok(false);
            }
            let brief = Brief { stop: self.stop };
            let next = match self.reader.next_window(alloc, ground, &brief) {
                Ok(next) => next,
                Err(unfound) => return given_up(unfound),
            };
            match next {
                Some(next) => lower = next,
                None => return Ok(true),
            }
        }
        Ok(false)
    }

    /// Makes the line of the window with these lower bounds, adds it to the text, and reads it. False if the window has
    /// starts that fit.
    fn make_line(
        &mut self,
        alloc: Global,
        ground: &Ground,
        lower: Vec<u32>,
        text: &mut Vec<u8>,
    ) -> Result<bool, AllocError>
        requires capacities { length ground.now.capacities.now ≡ ground.now.net.now.resources }
        requires root { HasBounds ground.now.net.now ground.now.root.now }
        requires lower { length lower.items ≡ length ground.now.net.now.jobs }
        requires small { All (λ x. x ≤ most_bound) lower.items }
        requires ready { IsReady ground.now.net.now ground.now.capacities.now self.old.reader }
        requires room { self.old.reader.number ≤ length text.old.items }
        ensures { IfOk result (λ yes. IsTrue yes → IsLineMade ground.now.net.now ground.now.capacities.now (record { lower = lower.items; upper = ground.now.root.now.upper }) self.old.reader text.old.items self.new.reader text.new.items) }
    {
        let Some(step) = self.choose(alloc, ground, &lower)? else {
            return Ok(false);
        };
        push_step(alloc, text, step)?;
        if !self.reader.read_line(alloc, ground, step, lower)? {
            return Ok(false);
        }
        self.reader.number += 1;
        Ok(true)
    }

    /// Forgets all closed nodes.
    fn forget(&mut self, alloc: Global, net: &Network)
        ensures thinned { IsThinnedReader self.old.reader self.new.reader }
        ensures closed { (number : ℕ) → record_at self.new.reader.closed number ≡ None }
    {
        self.reader.closed = Closed::none(alloc);
        self.offers = Offers::new(alloc, net);
    }

    /// A line for the node of the window with these lower bounds, or `None` if its early starts fit. A node that is
    /// divided may cover others once it is closed.
    fn choose(
        &mut self,
        alloc: Global,
        ground: &Ground,
        lower: &[u32],
    ) -> Result<Option<Step>, AllocError>
        requires capacities { length ground.now.capacities.now ≡ ground.now.net.now.resources }
        requires root { HasBounds ground.now.net.now ground.now.root.now }
        requires lower { length lower.now ≡ length ground.now.net.now.jobs }
        requires small { All (λ x. x ≤ most_bound) lower.now }
        requires ready { IsReady ground.now.net.now ground.now.capacities.now self.old.reader }
        ensures { IfOk result (IsChoice self.old.reader self.new.reader) }
    {
        prove!(ground.net.job_count() == ground.net.job_count());
        let early = early(alloc, ground.net, lower)?;
        if let Some(job) = first_too_late(ground.root.upper(), early.as_slice()) {
            return Ok(Some(Step::L(job)));
        }
        let Some(clash) = conflict(ground.net, ground.capacities, &early) else {
            return Ok(None);
        };
        let row = row_of(alloc, ground, lower, &early, clash.time, &self.reader.usual)?;
        if let Some(node) = self.offers.covering(ground.net, &self.reader.closed, &row) {
            return Ok(Some(Step::C(node)));
        }
        self.expect(alloc, ground.net, &row)?;
        Ok(Some(Step::D(clash.time)))
    }

    /// Makes a place for the next node, which has this record.
    fn expect(&mut self, alloc: Global, net: &Network, row: &Record) -> Result<(), AllocError>
        ensures { OnOk result (IsThinnedReader self.old.reader self.new.reader) }
    {
        if self.reader.number > u32::MAX as u64 {
            return Ok(());
        }
        self.make_room(alloc, net);
        let number = self.reader.number;
        self.enter(alloc, row, number as u32)?;
        self.reader.closed.expect(number)?;
        Ok(())
    }

    /// Forgets all closed nodes if there is no room for another one.
    fn make_room(&mut self, alloc: Global, net: &Network)
        ensures { IsThinnedReader self.old.reader self.new.reader }
    {
        if self.offers.is_full() {
            self.forget(alloc, net);
        }
    }

    /// Offers the node with this number and this record. The one that gives way to it is forgotten.
    fn enter(&mut self, alloc: Global, row: &Record, number: u32) -> Result<(), AllocError>
        ensures { OnOk result (IsThinnedReader self.old.reader self.new.reader) }
    {
        let Some(oldest) = self.offers.enter(alloc, &row.started, number)? else {
            return Ok(());
        };
        self.reader.closed.forget(oldest as u64);
        Ok(())
    }
}

/// That none was made, if a search was stopped or took too many steps.
pub(crate) fn given_up(unfound: Unfound) -> Result<bool, AllocError>
    ensures { IfOk result (λ made. IsFalse made) }
{
    match unfound {
        Unfound::Memory => Err(AllocError),
        Unfound::Stopped => Ok(false),
    }
}

/// The record of the node of a window with these lower bounds and early starts, at this time. It shares the row of
/// usual bounds if it can.
fn row_of(
    alloc: Global,
    ground: &Ground,
    lower: &[u32],
    early: &Starts,
    time: u32,
    usual: &Rc<Vec<u32>>,
) -> Result<Record, AllocError>
    requires capacities { length ground.now.capacities.now ≡ ground.now.net.now.resources }
    requires lower { length lower.now ≡ length ground.now.net.now.jobs }
    requires small { All (λ x. x ≤ most_bound) lower.now }
    requires early { IsEarly ground.now.net.now (slice_index lower.now) early.now }
    ensures { IfOk result (HasRows ground.now.net.now) }
{
    prove!(ground.net.job_count() == ground.net.job_count());
    let node = NodeTimes { lower, early };
    let row = Record::new(
        alloc,
        ground.net,
        ground.capacities.as_slice(),
        &node,
        time,
        usual,
    )?;
    Ok(row)
}

/// The number of the first job whose early start exceeds its upper bound.
fn first_too_late(upper: &[u32], early: &[u32]) -> Option<u32>
    requires places { length upper.now ≡ length early.now }
    requires few { length early.now ≤ 512 }
{
    for i in 0..early.len() {
        if upper[i] < early[i] {
            return Some(i as u32 + 1);
        }
    }
    None
}
