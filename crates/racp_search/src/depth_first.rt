ghost use Rattle.std.specs.Prelude.{◌≡◌, ◌≤◌, [], IsTrue, IsFalse, IfOk, IfSome};
ghost use Rattle.racp_model.specs.Window.{IsNo};
ghost use Rattle.racp_cutset.specs.Kept.{StayKept, front};
ghost use Rattle.racp_search.specs.DepthFirst.{IsSearching, IsSearchingNext};
ghost use Rattle.racp_search.specs.Ends.{IsEnd, IsFinished, IsHalt, IsHaltOf};
ghost use Rattle.racp_search.specs.Steps.{IsEntered, IsNextAnswer, IsKeptSomeOrDropped, IsStep};

use crate::ended::Ended;
use crate::expanding::expand;
use crate::frame::Frame;
use crate::glance::{Glance, look_at};
use crate::halt::{Halt, Limit, Next, Step, is_spent};
use crate::subject::Subject;
use crate::workspace::{Spare, Workspace};
use racp_cutset::{Local, Nogood};
use racp_model::{Network, OfNetwork, Starts, Stop, Window};
use racp_timetable::{Tightened, tighten};
use std::alloc::{AllocError, Global};

/// Searches a question's window by depth, until starts are found, nothing is left, as many nodes were entered as the
/// quantum allows, or the search is stopped. Counts the nodes.
pub(crate) fn search<N: OfNetwork, S: Stop>(
    alloc: Global,
    subject: &Subject<N>,
    quantum: Option<u64>,
    nodes: &mut u64,
    local: &mut Local<N>,
    stop: &S,
) -> Result<Ended, AllocError>
    requires quantum { IfSome quantum (λ most. 1 ≤ most) }
    requires nodes { nodes.old ≡ 0 }
    ensures end { IfOk result (IsEnd N.network subject.now.capacities subject.now.window quantum nodes.new) }
    ensures quiet { IfOk result (λ ended. IsTrue (S.is_quiet stop.now) → IsFalse ended.stopped) }
    ensures nodes { IfSome quantum (λ most. nodes.new ≤ most) }
    ensures kept { StayKept local.old local.new }
{
    let window = subject.whole().copy()?;
    let next = Next { window, from: 0 };
    let limit = Limit { quantum, stop };
    let mut stack: Stack<N> = Stack::new(alloc, subject.network());
    let halt = stack.go_on(subject, next, &limit, nodes, local);
    let ended = stack.finish(alloc, subject, halt);
    // Dropped here once, not at each way out.
    drop(stack);
    ended
}

/// The frames on the way to the window that is searched next, the first node first, and the memory that is used again
/// from node to node.
#[derive(Drop)]
pub(crate) struct Stack<N: OfNetwork> {
    pub(crate) frames: Vec<Frame<N>>,
    pub(crate) workspace: Workspace,
}

impl<N: OfNetwork> Stack<N> {
    /// A stack without frames. Takes no memory.
    fn new(alloc: Global, net: &Network) -> Self
        ensures { result.frames.items ≡ [] }
    {
        Stack {
            frames: Vec::new(alloc),
            workspace: Workspace::new(alloc, net),
        }
    }

    /// Goes on by depth, until starts are found, nothing is left, as many nodes were entered as the quantum allows, or the
    /// search is stopped. Counts the nodes. The records that were kept stay.
    fn go_on<S: Stop>(
        &mut self,
        subject: &Subject<N>,
        mut next: Next,
        limit: &Limit<'_, S>,
        nodes: &mut u64,
        local: &mut Local<N>,
    ) -> Result<Halt, AllocError>
        requires state { IsSearchingNext N.network subject.now.capacities subject.now.window
            self.old.frames.items next.window next.from }
        requires nodes { nodes.old ≡ 0 }
        requires quantum { IfSome limit.now.quantum (λ most. 1 ≤ most) }
        ensures halt { IfOk result (IsHalt N.network subject.now.capacities subject.now.window limit.now.quantum nodes.new
            (S.is_quiet limit.now.stop.now) self.new.frames.items) }
        ensures nodes { IfSome limit.now.quantum (λ most. nodes.new ≤ most) }
        ensures kept { StayKept local.old local.new }
    {
        let first = local.kept_count();
        'next: loop {
            if is_spent(limit.quantum, *nodes) {
                return Ok(Halt::Left(next, false));
            }
            if limit.stop.asked() {
                return Ok(Halt::Left(next, true));
            }
            *nodes = nodes.saturating_add(1);
            next = match self.step(subject, next, local, first)? {
                Step::Further(next) => next,
                Step::Found(starts) => return Ok(Halt::Found(starts)),
                Step::Nothing => return Ok(Halt::Nothing),
            };
        }
    }

    /// How a search ended that came to a halt.
    fn finish(
        &mut self,
        alloc: Global,
        subject: &Subject<N>,
        halt: Result<Halt, AllocError>,
    ) -> Result<Ended, AllocError>
        requires { IfOk halt (IsHaltOf N.network subject.now.capacities subject.now.window self.old.frames.items) }
        ensures { IfOk result (IsFinished N.network subject.now.capacities subject.now.window halt) }
    {
        match halt {
            Ok(Halt::Found(starts)) => Ok(Ended::found(alloc, starts)),
            Ok(Halt::Nothing) => Ok(Ended::nothing(alloc)),
            Ok(Halt::Left(next, stopped)) => self.leave(alloc, subject, next, stopped),
            Err(error) => Err(error),
        }
    }

    /// Enters a window, and tells the next one. The first `count` records stay.
    fn step(
        &mut self,
        subject: &Subject<N>,
        next: Next,
        local: &mut Local<N>,
        count: usize,
    ) -> Result<Step, AllocError>
        requires { IsSearchingNext N.network subject.now.capacities subject.now.window
            self.old.frames.items next.window next.from }
        ensures step { IfOk result (IsStep N.network subject.now.capacities subject.now.window
            self.old.frames.items next.window self.new.frames.items) }
        ensures kept { StayKept (front count local.old) local.new }
    {
        if let Some(starts) = self.enter(subject, next.window, next.from, local)? {
            return Ok(Step::Found(starts));
        }
        match self.next_window(subject, local, count)? {
            Some(next) => Ok(Step::Further(next)),
            None => Ok(Step::Nothing),
        }
    }

    /// Enters a window: tightens it, and looks into the node of what is left of it. Answers the early starts where they
    /// answer, and takes up a frame where they have a conflict.
    fn enter(
        &mut self,
        subject: &Subject<N>,
        window: Window,
        from: u32,
        local: &mut Local<N>,
    ) -> Result<Option<Starts>, AllocError>
        requires { IsSearchingNext N.network subject.now.capacities subject.now.window
            self.old.frames.items window from }
        ensures entered { IfOk result (IsEntered N.network subject.now.capacities subject.now.window
            self.old.frames.items window self.new.frames.items) }
        ensures kept { local.new ≡ local.old }
    {
        let (net, capacities) = (subject.network(), subject.capacities());
        let workspace = &mut self.workspace;
        let window = match tighten(net, capacities, window, from, &mut workspace.scratch)? {
            Tightened::Open(window) => window,
            Tightened::No(window) => {
                workspace.spare.give_window(window);
                return Ok(None);
            }
        };
        match look_at(&mut workspace.spare, net, capacities, &window, from) {
            Ok(Glance::Refuted) => {
                workspace.spare.give_window(window);
                Ok(None)
            }
            Ok(Glance::Found(starts)) => {
                // Dropped here once, not at each way out.
                drop(window);
                Ok(Some(starts))
            }
            Err(error) => {
                // Dropped here once, not at each way out.
                drop(window);
                Err(error)
            }
            Ok(Glance::Conflict(starts, first)) => {
                if let Some(frame) = expand(workspace, subject, window, starts, first, local)? {
                    self.frames.push(frame)?;
                }
                Ok(None)
            }
        }
    }

    /// The next window to be searched: a child window of the last frame that has one. Frames that have none are taken
    /// out, and their nodes, which are refuted, are kept as records; the first `count` records stay.
    fn next_window(
        &mut self,
        subject: &Subject<N>,
        local: &mut Local<N>,
        count: usize,
    ) -> Result<Option<Next>, AllocError>
        requires { IsSearching N.network subject.now.capacities subject.now.window self.old.frames.items [] }
        ensures next { IfOk result (IsNextAnswer N.network subject.now.capacities subject.now.window
            self.old.frames.items self.new.frames.items) }
        ensures kept { StayKept (front count local.old) local.new }
    {
        while let Some(mut frame) = self.frames.pop() {
            let child = match frame.next_child(&mut self.workspace, subject) {
                Ok(child) => child,
                Err(error) => {
                    // Dropped here once, not at each way out.
                    drop(frame);
                    return Err(error);
                }
            };
            if let Some(window) = child {
                let from = frame.time();
                self.frames.push(frame)?;
                return Ok(Some(Next { window, from }));
            }
            record_frame(&mut self.workspace.spare, frame, local, count);
        }
        Ok(None)
    }
}

/// Keeps the node of a frame, which is refuted, as a record; the first `count` records stay.
fn record_frame<N: OfNetwork>(
    spare: &mut Spare,
    frame: Frame<N>,
    local: &mut Local<N>,
    count: usize,
)
    requires { IsNo N.network frame.node.capacities frame.node.window }
    ensures { IsKeptSomeOrDropped count local.old local.new }
{
    let (node, children, last) = frame.into_parts();
    let (nogood, lower, early, ends) = Nogood::of_reusing(node);
    local.keep(nogood, count);
    spare.give_list(children);
    spare.give_row(last);
    spare.give_row(lower.into_vec());
    spare.give_row(early.into_vec());
    spare.give_row(ends);
}
