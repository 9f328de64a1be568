//! The windows that are left where a search ends early.

ghost use Rattle.std.specs.Prelude.{◌≡◌, ◌<◌, ◌∷◌, ◌++◌, IfOk, OnOk, length};
ghost use Rattle.racp_search.specs.declared.halt.Halt.TheVariants.{Left};
ghost use Rattle.racp_search.specs.DepthFirst.{IsSearchingNext};
ghost use Rattle.racp_search.specs.Ends.{IsEndOf};
ghost use Rattle.racp_search.specs.Steps.{HasFirst, IsFirstLeft, IsFrontWindow, IsLeft};

use crate::depth_first::Stack;
use crate::ended::Ended;
use crate::frame::Frame;
use crate::halt::Next;
use crate::subject::Subject;
use racp_model::{OfNetwork, Window};
use std::alloc::{AllocError, Global};

/// How many windows a search leaves where it can, beside the one in which it is gone on with: enough for other threads
/// to have one each, and few, as a search that goes by depth through all of them keeps better records.
const ENOUGH_WINDOWS: usize = 8;

impl<N: OfNetwork> Stack<N> {
    /// Leaves a search: answers the windows that are left of the first frames, of as many as make enough, and the window of
    /// the frame behind those, or the one that is searched next.
    pub(crate) fn leave(
        &mut self,
        alloc: Global,
        subject: &Subject<N>,
        next: Next,
        stopped: bool,
    ) -> Result<Ended, AllocError>
        requires { IsSearchingNext N.network subject.now.capacities subject.now.window
            self.old.frames.items next.window next.from }
        ensures { IfOk result (IsEndOf N.network subject.now.capacities subject.now.window (Left next stopped)) }
    {
        let rest = self.gather(alloc, subject, &next)?;
        Ok(Ended::left(rest, stopped))
    }

    /// The windows that are left. The frames of which some are left are taken out.
    fn gather(
        &mut self,
        alloc: Global,
        subject: &Subject<N>,
        next: &Next,
    ) -> Result<Vec<Window>, AllocError>
        requires { IsSearchingNext N.network subject.now.capacities subject.now.window
            self.old.frames.items next.now.window next.now.from }
        ensures { IfOk result (λ rest.
            IsLeft N.network subject.now.capacities subject.now.window next.now.window rest.items) }
    {
        let mut rest: Vec<Window> = Vec::new(alloc);
        while rest.len() < ENOUGH_WINDOWS && !self.frames.is_empty() {
            self.leave_first(alloc, subject, &mut rest)?;
        }
        let window = front_window(&self.frames, next)?;
        rest.push(window)?;
        Ok(rest)
    }

    /// Takes the first frame out, and puts the windows that are left of it behind others.
    fn leave_first(
        &mut self,
        alloc: Global,
        subject: &Subject<N>,
        rest: &mut Vec<Window>,
    ) -> Result<(), AllocError>
        requires { HasFirst subject.now.capacities self.old.frames.items }
        ensures { IfOk result (λ _. IsFirstLeft N.network subject.now.capacities
            self.old.frames.items self.new.frames.items rest.old.items rest.new.items) }
    {
        let frame = take_first(&mut self.frames);
        let more = frame.into_rest(alloc, &mut self.workspace, subject)?;
        append(rest, more)
    }
}

/// Puts windows behind others.
fn append(rest: &mut Vec<Window>, more: Vec<Window>) -> Result<(), AllocError>
    ensures { OnOk result (rest.new.items ≡ rest.old.items ++ more.items) }
{
    for window in more {
        rest.push(window)?;
    }
    Ok(())
}

/// Takes the first frame out.
fn take_first<N: OfNetwork>(frames: &mut Vec<Frame<N>>) -> Frame<N>
    requires { 0 < length frames.old.items }
    ensures { frames.old.items ≡ result ∷ frames.new.items }
{
    frames.remove(0)
}

/// The window of the first frame, or, where there is none, the one that is searched next.
fn front_window<N: OfNetwork>(frames: &Vec<Frame<N>>, next: &Next) -> Result<Window, AllocError>
    ensures { IfOk result (IsFrontWindow frames.now.items next.now.window) }
{
    match frames.first() {
        Some(frame) => frame.window().copy(),
        None => next.window.copy(),
    }
}
