ghost use Rattle.std.specs.Prelude.{◌≡◌, ◌≢◌, ℕ, List, ◌<◌, ◌≤◌, [], ◌∷◌, IfOk, IsTrue, IsFalse, true, length, slice_index};
ghost use Rattle.racp_model.specs.Formed.{HasBounds};
ghost use Rattle.racp_model.specs.Path.{IsEarly};
ghost use Rattle.racp_delay.specs.Alternatives.{AreAlternatives, IsMinimalDelayingAlternative, job_lists};
ghost use Rattle.racp_search.specs.DepthFirst.{HasActive, IsEachAlone, IsFrameOf, IsGoneOn, IsNextToLookAt, IsRestOfFrame, IsTakenUp, child_windows, steps_left};
ghost use Rattle.racp_search.specs.Glances.{HasConflict, IsExpanded};
ghost use Rattle.racp_search.specs.Steps.{IsTakenAnswer};

use crate::child::{Child, child_of, free_of, insert};
use crate::subject::Subject;
use crate::workspace::{Spare, Workspace};
use racp_cutset::Node;
use racp_delay::{ActiveJobs, Steps, laws};
use racp_model::{JobSet, OfNetwork, Unfound, Window};
use smallvec::SmallVec;
use std::alloc::AllocError;
use std::marker::Model;

/// How many child windows are made at a time, those with the most slack to be searched first.
const MOST_CHILDREN: usize = 64;

/// How many steps, of those that `find_behind` counts, may be taken to make child windows. The paths to 64 alternatives of
/// 512 jobs are fewer.
const MOST_STEPS: u32 = 50_000;

/// A node on the way to the window that is searched next, with child windows that are still to be searched, those with
/// more slack behind. Child windows of alternatives behind the last that was looked at are made when they are wanted.
/// Contracts see a `SearchFrame`.
#[derive(Drop)]
pub(crate) struct Frame<N: OfNetwork> {
    pub(crate) node: Node<N>,
    pub(crate) active: JobSet,
    pub(crate) children: Vec<Child>,
    last: Vec<u32>,
    pub(crate) more: bool,
}

impl<N: OfNetwork> Model for Frame<N> {
    ghost use Rattle.racp_search.specs.DepthFirst.{SearchFrame, IsFrame, child_windows};

    ghost Value = { SearchFrame };

    ghost view = { λ f. record {
      node = f.node;
      active = f.active;
      windows = child_windows f.children.items;
      last = f.last.items;
      more = f.more;
    } };

    ghost invariant = { λ f. IsFrame N.network (record {
      node = f.node;
      active = f.active;
      windows = child_windows f.children.items;
      last = f.last.items;
      more = f.more;
    }) };
}

impl<N: OfNetwork> Frame<N> {
    /// The frame of a node and the active jobs of its conflict, without child windows. The two lists are empty.
    pub(crate) fn new(node: Node<N>, active: JobSet, children: Vec<Child>, last: Vec<u32>) -> Self
        requires active { HasActive N.network node active }
        requires children { children.items ≡ [] }
        requires last { last.items ≡ [] }
        ensures { result ≡ record { node = node; active = active; windows = []; last = []; more = true } }
    {
        Frame {
            node,
            active,
            children,
            last,
            more: true,
        }
    }

    /// The window of the node.
    pub(crate) fn window(&self) -> &Window
        ensures { result.now ≡ self.now.node.window }
    {
        &self.node.question().window
    }

    /// The time of the node, before which the early starts of its child windows keep the capacities.
    pub(crate) fn time(&self) -> u32
        ensures { result ≡ self.now.node.time }
    {
        self.node.time()
    }

    /// The node, and the lists of which nothing is in use any more.
    pub(crate) fn into_parts(self) -> (Node<N>, Vec<Child>, Vec<u32>)
        ensures node { result.0 ≡ self.node }
        ensures active { HasActive N.network self.node self.active }
    {
        (self.node, self.children, self.last)
    }

    /// The child windows that were made and not taken.
    pub(crate) fn into_children(self) -> Vec<Child>
        ensures windows { child_windows result.items ≡ self.windows }
    {
        self.children
    }

    /// The next child window to be searched; `None` where none is left.
    pub(crate) fn next_child(
        &mut self,
        workspace: &mut Workspace,
        subject: &Subject<N>,
    ) -> Result<Option<Window>, AllocError>
        requires { self.old.node.capacities ≡ subject.now.capacities }
        ensures { IfOk result (IsTakenAnswer N.network subject.now.capacities self.old self.new) }
    {
        let enough = self.wanted();
        self.find_children(workspace, subject, enough)?;
        if let Some(child) = self.children.pop() {
            return Ok(Some(child.window));
        }
        Ok(None)
    }

    /// How many child windows there should be when the next one is taken: one will do where there are some.
    fn wanted(&self) -> usize
        ensures { 1 ≤ result }
    {
        if self.children.is_empty() {
            return MOST_CHILDREN;
        }
        1
    }

    /// Makes child windows until there are enough or none is left. That takes a bounded number of steps.
    pub(crate) fn find_children(
        &mut self,
        workspace: &mut Workspace,
        subject: &Subject<N>,
        enough: usize,
    ) -> Result<(), AllocError>
        requires { self.old.node.capacities ≡ subject.now.capacities }
        ensures further { IfOk result (λ _. IsGoneOn N.network subject.now.capacities self.old self.new) }
        ensures enough { IfOk result (λ _. IsTrue self.new.more → enough ≤ length self.new.windows) }
    {
        let steps = Steps::new(MOST_STEPS);
        while self.more && self.children.len() < enough {
            self.find_child(workspace, subject, &steps)?;
        }
        Ok(())
    }

    /// Looks at the next alternative in which only free jobs go, and makes its child window where something may lie in
    /// it. Nothing lies in the child windows of those that are passed over. Where too many steps were taken, all that is
    /// left are then the windows in which each active job alone is put off.
    fn find_child(
        &mut self,
        workspace: &mut Workspace,
        subject: &Subject<N>,
        steps: &Steps,
    ) -> Result<(), AllocError>
        requires same { self.old.node.capacities ≡ subject.now.capacities }
        requires more { IsTrue self.old.more }
        ensures further { IfOk result (λ _. IsGoneOn N.network subject.now.capacities self.old self.new) }
        ensures fewer { IfOk result (λ _.
            steps_left self.new.more self.new.last < steps_left self.old.more self.old.last) }
    {
        laws::each_has_child();
        laws::subsets_go();
        laws::others_stay();
        let (net, capacities) = (subject.network(), subject.capacities());
        let free = free_of(net, &self.node, &self.active);
        let active = ActiveJobs {
            all: &self.active,
            free: &free,
        };
        let next = &mut workspace.next;
        match next.find_behind(net, capacities, &active, &self.last, steps) {
            Ok(true) => self.take_up(&mut workspace.spare, subject, workspace.next.jobs()),
            Ok(false) => {
                self.more = false;
                Ok(())
            }
            Err(Unfound::Stopped) => self.settle(&mut workspace.spare, subject),
            Err(Unfound::Memory) => Err(AllocError),
        }
    }

    /// Puts the windows in which each active job alone is put off in place of all that is left.
    fn settle(&mut self, spare: &mut Spare, subject: &Subject<N>) -> Result<(), AllocError>
        requires same { self.old.node.capacities ≡ subject.now.capacities }
        requires more { IsTrue self.old.more }
        ensures further { IfOk result (λ _. IsGoneOn N.network subject.now.capacities self.old self.new) }
        ensures done { IfOk result (λ _. IsFalse self.new.more) }
    {
        self.children = self.put_off_each(spare, subject)?;
        self.more = false;
        Ok(())
    }

    /// Takes up the next alternative: makes its child window where something may lie in it.
    fn take_up(
        &mut self,
        spare: &mut Spare,
        subject: &Subject<N>,
        gone: &[u32],
    ) -> Result<(), AllocError>
        requires more { IsTrue self.old.more }
        requires next { IsNextToLookAt N.network self.old.node self.old.active self.old.last gone.now }
        ensures further { IfOk result (λ _. IsGoneOn N.network subject.now.capacities self.old self.new) }
        ensures taken { IfOk result (λ _. IsTakenUp self.old gone.now self.new) }
        ensures fewer { IfOk result (λ _. steps_left self.new.more self.new.last < steps_left self.old.more self.old.last) }
    {
        laws::each_has_child();
        laws::subsets_go();
        prove!(subject.network().job_count() == subject.network().job_count());
        let child = child_of(spare, subject, &self.node, &self.active, gone)?;
        self.last.clear();
        self.last.extend_from_slice(gone)?;
        match child {
            Some(child) => insert(&mut self.children, child)?,
            None => return Ok(()),
        }
        Ok(())
    }

    /// Takes up all alternatives, which are these.
    pub(crate) fn take_all(
        &mut self,
        spare: &mut Spare,
        subject: &Subject<N>,
        all: &[SmallVec<u32, 8>],
    ) -> Result<(), AllocError>
        requires more { IsTrue self.old.more }
        requires first { self.old.last ≡ [] }
        requires all { AreAlternatives N.network self.old.node.capacities self.old.active (job_lists all.now) }
        requires some { (gone : List ℕ) →
            IsMinimalDelayingAlternative N.network self.old.node.capacities self.old.active gone → gone ≢ [] }
        ensures { IfOk result (λ _. IsGoneOn N.network subject.now.capacities self.old self.new) }
    {
        for list in all {
            self.take_up(spare, subject, list.as_slice())?;
        }
        self.more = false;
        Ok(())
    }
}
