//! Trees that refute questions.

ghost use Rattle.std.specs.Prelude.{◌≡◌, ◌≢◌, ℕ, ◌≤◌, List, [], IfOk, length, Contains};
ghost use Rattle.racp_model.specs.Formed.{HasBounds, IsFormed};
ghost use Rattle.racp_delay.specs.Alternatives.{AreAlternatives, Splits, job_lists};
ghost use Rattle.racp_search.specs.Refuting.{ArePutOn, IsConflicting, IsLateAnswer, IsLineOf, IsPartAnswer, IsRefuteAnswer};

use crate::child::put_off;
use crate::glance::early_in;
use crate::workspace::{Spare, Workspace};
use racp_delay::{Clash, conflict, first_end, laws};
use racp_model::{Capacities, Network, Question, Starts, Window};
use racp_trees::Step;
use smallvec::SmallVec;
use std::alloc::{AllocError, Global};

/// The lines of a tree that shows that a question is infeasible, a node before its children; or `None` where starts
/// answer it. Branches at the first conflict of the early starts over all minimal delaying alternatives (Demeulemeester
/// and Herroelen 1992), in lexicographic order. No node is covered by another, so no line is a `C`: that costs only
/// length. There is a capacity for each resource and a bound for each job, by place from 0. Always ends.
///
/// # Errors
///
/// Memory was refused.
pub fn refute(
    alloc: Global,
    net: &Network,
    question: &Question,
) -> Result<Option<Vec<Step>>, AllocError>
    requires { IsFormed net.now question.now }
    ensures { IfOk result (IsRefuteAnswer net.now question.now) }
{
    let mut workspace = Workspace::new(alloc, net);
    let mut steps = Vec::new(alloc);
    let mut windows = Vec::new(alloc);
    windows.push(question.window.copy()?)?;
    while let Some(window) = windows.pop() {
        let (capacities, window) = (&question.capacities, &window);
        let Some(step) = line_of(&mut workspace, net, capacities, window, &mut windows)? else {
            return Ok(None);
        };
        steps.push(step)?;
    }
    Ok(Some(steps))
}

/// The line of a window, or `None` where its early starts answer. If it is divided its child windows are put on the
/// stack, so that the first is the next one.
fn line_of<'a>(
    workspace: &mut Workspace,
    net: &'a Network,
    capacities: &'a Capacities,
    window: &'a Window,
    windows: &mut Vec<Window>,
) -> Result<Option<Step>, AllocError>
    requires capacities { length capacities.now ≡ net.now.resources }
    requires bounds { HasBounds net.now window.now }
    ensures { IfOk result (IsLineOf net.now capacities.now window.now windows.old.items windows.new.items) }
{
    laws::some_job_goes();
    laws::subsets_go();
    prove!(net.job_count() == net.job_count());
    let early = early_in(&mut workspace.spare, net, window.lower())?;
    if let Some(job) = late_job(early.as_slice(), window.upper()) {
        return Ok(Some(Step::L(job)));
    }
    let Some(clash) = conflict(net, capacities, &early) else {
        return Ok(None);
    };
    workspace.all.find(net, capacities, &clash)?;
    let divided = Divided {
        net,
        capacities,
        window,
        early: &early,
        clash: &clash,
    };
    divided.put_on(&mut workspace.spare, workspace.all.lists(), windows)?;
    Ok(Some(Step::D(clash.time)))
}

/// The number of the first job whose early start exceeds its upper bound.
fn late_job(early: &[u32], upper: &[u32]) -> Option<u32>
    requires places { length upper.now ≡ length early.now }
    requires few { length early.now ≤ 512 }
    ensures { IsLateAnswer early.now upper.now result }
{
    for i in 0..early.len() {
        if upper[i] < early[i] {
            return Some(i as u32 + 1);
        }
    }
    None
}

/// A window whose early starts have a conflict.
#[derive(Clone, Copy)]
struct Divided<'a> {
    net: &'a Network,
    capacities: &'a Capacities,
    window: &'a Window,
    early: &'a Starts,
    clash: &'a Clash,
}

impl<'a> Divided<'a> {
    /// Puts the child windows of these alternatives, where some active job stays, on a stack of windows. The first comes
    /// to stand last.
    fn put_on(
        &self,
        spare: &mut Spare,
        lists: &[SmallVec<u32, 8>],
        windows: &mut Vec<Window>,
    ) -> Result<(), AllocError>
        requires conflicting { IsConflicting self.now }
        requires all { AreAlternatives self.now.net.now self.now.capacities.now self.now.clash.now.active (job_lists lists.now) }
        requires some { (gone : List ℕ) → Contains (job_lists lists.now) gone → gone ≢ [] }
        ensures { IfOk result (λ _. ArePutOn self.now (job_lists lists.now) windows.old.items windows.new.items) }
    {
        let mut left = lists.len();
        while 0 < left {
            left -= 1;
            if let Some(part) = self.part_of(spare, lists[left].as_slice())? {
                windows.push(part)?;
            }
        }
        Ok(())
    }

    /// The child window in which these jobs are put off, or `None` where no active job stays.
    fn part_of(&self, spare: &mut Spare, gone: &[u32]) -> Result<Option<Window>, AllocError>
        requires conflicting { IsConflicting self.now }
        requires splits { (kept : List ℕ) × Splits self.now.clash.now.active gone.now kept }
        requires some { gone.now ≢ [] }
        ensures { IfOk result (IsPartAnswer self.now gone.now) }
    {
        laws::others_stay();
        laws::subsets_go();
        laws::child_is_inside();
        laws::child_is_higher();
        laws::no_conflict_before();
        prove!(self.net.job_count() == self.net.job_count());
        let Some(end) = first_end(self.net, self.early, &self.clash.active, gone) else {
            return Ok(None);
        };
        let part = put_off(spare, self.window, gone, end as u32)?;
        Ok(Some(part))
    }
}
