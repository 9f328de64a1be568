//! What is left of a frame, where a search ends early.

ghost use Rattle.std.specs.Prelude.{◌≡◌, IfOk};
ghost use Rattle.racp_search.specs.DepthFirst.{IsEachAlone, IsRestOfFrame};

use crate::child::{Child, child_of, windows_of};
use crate::frame::Frame;
use crate::subject::Subject;
use crate::workspace::{Spare, Workspace};
use racp_delay::laws;
use racp_model::{OfNetwork, Window};
use std::alloc::{AllocError, Global};

impl<N: OfNetwork> Frame<N> {
    /// The windows that are left: its child windows, where those still to be made are fewer than the jobs; else, for
    /// each active job, the window in which this job alone is put off behind the first end of the others.
    pub(crate) fn into_rest(
        mut self,
        alloc: Global,
        workspace: &mut Workspace,
        subject: &Subject<N>,
    ) -> Result<Vec<Window>, AllocError>
        requires { self.node.capacities ≡ subject.now.capacities }
        ensures { IfOk result (λ rest. IsRestOfFrame N.network subject.now.capacities self rest.items) }
    {
        let jobs = subject.network().job_count();
        let enough = self.children.len().saturating_add(jobs);
        if let Err(error) = self.find_children(workspace, subject, enough) {
            // Dropped here once, not at each way out.
            drop(self);
            return Err(error);
        }
        if self.more {
            let rest = self.put_off_each(&mut workspace.spare, subject);
            // Dropped here once, not at each way out.
            drop(self);
            return windows_of(alloc, rest?);
        }
        windows_of(alloc, self.into_children())
    }

    /// For each active job the child window in which it alone is put off, where something may lie in it.
    pub(crate) fn put_off_each(
        &self,
        spare: &mut Spare,
        subject: &Subject<N>,
    ) -> Result<Vec<Child>, AllocError>
        requires { self.now.node.capacities ≡ subject.now.capacities }
        ensures { IfOk result (λ rest. IsEachAlone N.network subject.now.capacities self.now rest.items) }
    {
        laws::each_job_alone_covers();
        laws::each_has_child();
        laws::child_is_inside();
        laws::subsets_go();
        let mut rest = spare.list();
        for job in self.active.iter() {
            let gone = [job];
            if let Some(child) = child_of(spare, subject, &self.node, &self.active, &gone)? {
                rest.push(child)?;
            }
        }
        Ok(rest)
    }
}
