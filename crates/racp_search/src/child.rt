ghost use Rattle.std.specs.Prelude.{◌≡◌, ◌≢◌, ℕ, ◌<◌, ◌≤◌, [], All, IfOk, MatchResult, List, length};
ghost use Rattle.racp_model.specs.Project.{IsNumber};
ghost use Rattle.racp_model.specs.Limits.{most_bound};
ghost use Rattle.racp_delay.specs.Alternatives.{Splits};
ghost use Rattle.racp_search.specs.Children.{AreFree, IsChildAnswer, IsInserted, IsPutOff, IsRaised, IsSlackAnswer};
ghost use Rattle.racp_search.specs.DepthFirst.{HasActive, child_windows};

use crate::subject::Subject;
use crate::workspace::Spare;
use racp_cutset::Node;
use racp_delay::{first_end, laws};
use racp_model::{JobSet, Network, OfNetwork, Starts, Window};
use std::alloc::{AllocError, Global};
use std::cmp::min;

/// A child window of a node: that of an alternative, in which the lower bounds of the jobs that go are raised to the
/// first end of a job that stays (Demeulemeester and Herroelen 1992).
#[derive(Drop)]
pub(crate) struct Child {
    /// The window.
    pub(crate) window: Window,
    /// How much time its jobs that go have left, at the least: those with more are searched first.
    pub(crate) slack: u32,
}

/// The child window of a node in which these of its active jobs go. `None` where no active job stays, or the first end
/// exceeds the upper bound of a job that goes: then nothing lies in it.
pub(crate) fn child_of<N: OfNetwork>(
    spare: &mut Spare,
    subject: &Subject<N>,
    node: &Node<N>,
    active: &JobSet,
    gone: &[u32],
) -> Result<Option<Child>, AllocError>
    requires active { HasActive N.network node.now active.now }
    requires splits { (kept : List ℕ) × Splits active.now gone.now kept }
    requires some { gone.now ≢ [] }
    ensures { IfOk result (IsChildAnswer N.network node.now active.now gone.now) }
{
    laws::others_stay();
    laws::subsets_go();
    laws::child_is_inside();
    laws::child_is_higher();
    laws::no_conflict_before();
    let window = &node.question().window;
    let end = match first_end(subject.network(), node.early(), active, gone) {
        Some(end) => end as u32,
        None => return Ok(None),
    };
    let slack = match slack_of(window.upper(), gone, end) {
        Some(slack) => slack,
        None => return Ok(None),
    };
    let window = put_off(spare, window, gone, end)?;
    Ok(Some(Child { window, slack }))
}

/// The free jobs: the active jobs of a node whose upper bounds are at least the first end of its active jobs. Where any
/// other goes nothing lies in the child window, for the first end of those that stay is no earlier.
pub(crate) fn free_of<N: OfNetwork>(net: &Network, node: &Node<N>, active: &JobSet) -> JobSet
    requires net { net.now ≡ N.network }
    requires active { HasActive N.network node.now active.now }
    ensures { AreFree N.network node.now active.now result }
{
    let mut free = JobSet::new();
    let Some(end) = first_end(net, node.early(), active, &[]) else {
        return free;
    };
    let upper = node.question().window.upper();
    for job in active.iter() {
        if end <= upper[job as usize - 1] as u64 {
            free.insert(job);
        }
    }
    free
}

/// How many time units are left, at the least, from a time to the upper bound of one of these jobs; `None` where the
/// time exceeds it.
fn slack_of(upper: &[u32], gone: &[u32], end: u32) -> Option<u32>
    requires { All (IsNumber (length upper.now)) gone.now }
    ensures { IsSlackAnswer upper.now gone.now end result }
{
    let mut slack = u32::MAX;
    for job in gone {
        let most = upper[*job as usize - 1];
        if most < end {
            return None;
        }
        slack = min(slack, most - end);
    }
    Some(slack)
}

/// Puts a child among others, behind those with as much slack or less.
pub(crate) fn insert(children: &mut Vec<Child>, child: Child) -> Result<(), AllocError>
    ensures { MatchResult result (λ _. IsInserted children.old.items child children.new.items)
        (λ _. children.new.items ≡ children.old.items) }
{
    let mut at = children.len();
    while 0 < at && child.slack < children[at - 1].slack {
        at -= 1;
    }
    children.insert(at, child)?;
    Ok(())
}

/// The windows of children.
pub(crate) fn windows_of(alloc: Global, children: Vec<Child>) -> Result<Vec<Window>, AllocError>
    ensures { IfOk result (λ windows. windows.items ≡ child_windows children.items) }
{
    let mut windows = Vec::new(alloc);
    for child in children {
        windows.push(child.window)?;
    }
    Ok(windows)
}

/// The window with the lower bounds of these jobs raised to a time.
pub(crate) fn put_off(
    spare: &mut Spare,
    window: &Window,
    gone: &[u32],
    end: u32,
) -> Result<Window, AllocError>
    requires gone { All (IsNumber (length window.now.lower)) gone.now }
    requires end { end ≤ most_bound }
    ensures { IfOk result (IsPutOff window.now gone.now end) }
{
    let mut lower = spare.row_of(window.lower())?;
    raise(&mut lower, gone, end);
    let upper = spare.row_of(window.upper())?;
    Ok(Window::new(Starts::new(lower), Starts::new(upper)))
}

/// Raises the times of these jobs to a time at least.
fn raise(times: &mut [u32], gone: &[u32], end: u32)
    requires { All (IsNumber (length times.old)) gone.now }
    ensures { IsRaised times.old gone.now end times.new }
{
    for job in gone {
        let place = *job as usize - 1;
        if times[place] < end {
            times[place] = end;
        }
    }
}
