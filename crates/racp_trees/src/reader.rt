//! Reading the tree of a block, line by line.

ghost use Rattle.std.specs.Prelude.{◌≡◌, ◌+◌, ◌<◌, ◌≤◌, ◌^◌, ℕ, All, [], IfOk, IsErrOf, IsTrue, OnOk, length, slice_index};
ghost use Rattle.racp_model.specs.Path.{IsEarly};
ghost use Rattle.racp_model.specs.Formed.{HasBounds};
ghost use Rattle.racp_model.specs.Limits.{most_bound, most_start};
ghost use Rattle.racp_trees.specs.Nodes.{HasPlace};
ghost use Rattle.racp_trees.specs.Reading.{IsNamed};
ghost use Rattle.racp_trees.specs.Readers.{IsReady, IsLineAnswer, IsNextAnswer, IsClosedBy, IsGoneOn, IsTreeAnswer, StaysReady};
ghost use Rattle.racp_trees.specs.Branches.{IsBranch};
ghost use Rattle.racp_trees.specs.declared.step.Step.TheVariants.{C, D};

use crate::branch::{Branch, copied};
use crate::closed::Closed;
use crate::node::{active_at, is_covered, is_too_late};
use crate::patience::Patience;
use crate::reading::read_step;
use crate::record::NodeTimes;
use crate::shared_row::SharedRow;
use crate::step::Step;
use racp_cpm::early;
use racp_delay::laws;
use racp_model::{Capacities, Network, Starts, Unfound, Window};
use std::alloc::{AllocError, Global};
use std::rc::Rc;

/// What a tree is about: a network, the root window, and the capacities of its block.
#[derive(Clone, Copy)]
pub(crate) struct Ground<'a> {
    pub(crate) net: &'a Network,
    pub(crate) root: &'a Window,
    pub(crate) capacities: &'a Capacities,
}

/// Where a reader stands: the closed nodes that lines name, the nodes that are open, the innermost last, the number of
/// the next node, and the bounds that are usual.
#[derive(Drop)]
pub(crate) struct Reader {
    pub(crate) closed: Closed,
    pub(crate) branches: Vec<Branch>,
    pub(crate) number: u64,
    pub(crate) usual: Rc<Vec<u32>>,
}

impl Reader {
    /// A reader that has read nothing, with these closed nodes. The lower bounds of the root window are usual.
    pub(crate) fn new(alloc: Global, root: &Window, closed: Closed) -> Result<Self, AllocError>
        ensures closed { IfOk result (λ reader. reader.closed ≡ closed) }
        ensures branches { IfOk result (λ reader. reader.branches.items ≡ []) }
        ensures number { IfOk result (λ reader. reader.number ≡ 1) }
    {
        let usual = Rc::new(alloc, copied(alloc, root.lower())?)?;
        Ok(Reader {
            closed,
            branches: Vec::new(alloc),
            number: 1,
            usual,
        })
    }

    /// Reads the tree of the root window, and answers what stands after it; `None` if a text does not begin with a
    /// tree that holds. The stop is asked at each line, and in each search for a child.
    pub(crate) fn read_tree<'t, P: Patience>(
        &mut self,
        alloc: Global,
        ground: &Ground,
        text: &'t [u8],
        patience: &P,
    ) -> Result<Option<&'t [u8]>, Unfound>
        requires capacities { length ground.now.capacities.now ≡ ground.now.net.now.resources }
        requires root { HasBounds ground.now.net.now ground.now.root.now }
        requires ready { IsReady ground.now.net.now ground.now.capacities.now self.old }
        requires places { (node : ℕ) → IsNamed text.now node → HasPlace self.old.closed node }
        requires room { self.old.number + length text.now < 2 ^ 64 }
        ensures quiet { IsTrue (P.is_quiet patience.now) → IsErrOf result Unfound.Stopped → ⊥ }
        ensures tree { IfOk result (IsTreeAnswer ground.now.net.now ground.now.capacities.now ground.now.root.now self.old text.now self.new) }
    {
        laws::some_job_goes();
        laws::conflict_is_one();
        let mut lower = copied(alloc, ground.root.lower())?;
        let mut rest = text;
        while let Some((step, more)) = read_step(rest) {
            if patience.asked() {
                return Err(Unfound::Stopped);
            }
            if !self.read_line(alloc, ground, step, lower)? {
                return Ok(None);
            }
            self.number += 1;
            rest = more;
            match self.next_window(alloc, ground, patience)? {
                Some(next) => lower = next,
                None => return Ok(Some(rest)),
            }
        }
        Ok(None)
    }

    /// Whether a line holds of the node of the window with these lower bounds. If it divides the node, that is open
    /// then.
    pub(crate) fn read_line(
        &mut self,
        alloc: Global,
        ground: &Ground,
        step: Step,
        lower: Vec<u32>,
    ) -> Result<bool, AllocError>
        requires capacities { length ground.now.capacities.now ≡ ground.now.net.now.resources }
        requires root { HasBounds ground.now.net.now ground.now.root.now }
        requires lower { length lower.items ≡ length ground.now.net.now.jobs }
        requires small { All (λ x. x ≤ most_bound) lower.items }
        requires ready { IsReady ground.now.net.now ground.now.capacities.now self.old }
        requires place { (node : ℕ) → step ≡ C node → HasPlace self.old.closed node }
        ensures line { IfOk result (λ yes. IsLineAnswer ground.now.net.now ground.now.capacities.now (record { lower = lower.items; upper = ground.now.root.now.upper }) self.old step yes self.new) }
        ensures number { self.new.number ≡ self.old.number }
    {
        prove!(ground.net.job_count() == ground.net.job_count());
        let early = early(alloc, ground.net, &lower)?;
        let upper = ground.root.upper();
        match step {
            Step::L(job) => Ok(is_too_late(upper, early.as_slice(), job)),
            Step::C(node) => {
                let times = NodeTimes {
                    lower: &lower,
                    early: &early,
                };
                is_covered(alloc, ground, &times, &self.closed, node, &self.usual)
            }
            Step::D(time) => self.open(alloc, ground, lower, &early, time),
        }
    }

    /// Opens the node of the window with these lower bounds and early starts, if it is divided at this time.
    fn open(
        &mut self,
        alloc: Global,
        ground: &Ground,
        lower: Vec<u32>,
        early: &Starts,
        time: u32,
    ) -> Result<bool, AllocError>
        requires capacities { length ground.now.capacities.now ≡ ground.now.net.now.resources }
        requires root { HasBounds ground.now.net.now ground.now.root.now }
        requires lower { length lower.items ≡ length ground.now.net.now.jobs }
        requires small { All (λ x. x ≤ most_bound) lower.items }
        requires early { IsEarly ground.now.net.now (slice_index lower.items) early.now }
        ensures line { IfOk result (λ yes. IsLineAnswer ground.now.net.now ground.now.capacities.now (record { lower = lower.items; upper = ground.now.root.now.upper }) self.old (D time) yes self.new) }
        ensures number { self.new.number ≡ self.old.number }
    {
        prove!(ground.net.job_count() == ground.net.job_count());
        let upper = ground.root.upper();
        let Some(active) = active_at(ground.net, ground.capacities, upper, early, time) else {
            return Ok(false);
        };
        let lower = self.shared(alloc, lower)?;
        let last = Vec::new(alloc);
        let branch = Branch {
            number: self.number,
            lower,
            active,
            time,
            last,
        };
        self.branches.push(branch)?;
        Ok(true)
    }

    /// These lower bounds, as a row that may share the one of the innermost open node, or the usual one.
    fn shared(&self, alloc: Global, lower: Vec<u32>) -> Result<SharedRow, AllocError>
        requires { length lower.items ≤ 512 }
        ensures { IfOk result (λ row. row ≡ lower.items) }
    {
        let Some(branch) = self.branches.last() else {
            return SharedRow::new(alloc, &self.usual, lower.len() / 2, lower);
        };
        let near = &branch.lower;
        SharedRow::new(alloc, near.whole(), near.room(), lower)
    }

    /// The lower bounds of the next window, or `None` if no node is open any more. Open nodes without children to
    /// come are closed.
    pub(crate) fn next_window<P: Patience>(
        &mut self,
        alloc: Global,
        ground: &Ground,
        patience: &P,
    ) -> Result<Option<Vec<u32>>, Unfound>
        requires capacities { length ground.now.capacities.now ≡ ground.now.net.now.resources }
        requires root { HasBounds ground.now.net.now ground.now.root.now }
        requires ready { IsReady ground.now.net.now ground.now.capacities.now self.old }
        ensures quiet { IsTrue (P.is_quiet patience.now) → IsErrOf result Unfound.Stopped → ⊥ }
        ensures window { IfOk result (IsNextAnswer ground.now.net.now ground.now.capacities.now ground.now.root.now self.old self.new) }
        ensures ready { IfOk result (λ _. StaysReady ground.now.net.now ground.now.capacities.now self.old self.new) }
    {
        while let Some(branch) = self.branches.pop() {
            if let Some(lower) = self.go_on(alloc, ground, branch, patience)? {
                return Ok(Some(lower));
            }
        }
        Ok(None)
    }

    /// The lower bounds of the next child window of a node, which is open then; or `None` if none is to come, and it
    /// is closed.
    fn go_on<P: Patience>(
        &mut self,
        alloc: Global,
        ground: &Ground,
        branch: Branch,
        patience: &P,
    ) -> Result<Option<Vec<u32>>, Unfound>
        requires capacities { length ground.now.capacities.now ≡ ground.now.net.now.resources }
        requires branch { IsBranch ground.now.net.now ground.now.capacities.now branch }
        ensures quiet { IsTrue (P.is_quiet patience.now) → IsErrOf result Unfound.Stopped → ⊥ }
        ensures gone { IfOk result (IsGoneOn ground.now.net.now ground.now.capacities.now self.old branch self.new) }
    {
        let mut branch = branch;
        if let Some(lower) = branch.next_child(alloc, ground.net, ground.capacities, patience)? {
            self.branches.push(branch)?;
            return Ok(Some(lower));
        }
        let closed = self.close(alloc, ground, &branch);
        // Dropped here once, not at each way out.
        drop(branch);
        closed?;
        Ok(None)
    }

    /// Closes a node, whose children were all read.
    fn close(&mut self, alloc: Global, ground: &Ground, branch: &Branch) -> Result<(), AllocError>
        requires { IsBranch ground.now.net.now ground.now.capacities.now branch.now }
        ensures { OnOk result (IsClosedBy ground.now.net.now ground.now.capacities.now self.old branch.now self.new) }
    {
        let kept = branch.record(alloc, ground.net, ground.capacities, &self.usual)?;
        self.closed.keep(branch.number, kept)?;
        Ok(())
    }
}
