//! The frame of a window, at the first conflict of its early starts.

ghost use Rattle.std.specs.Prelude.{◌≡◌, [], IfOk, true, slice_index};
ghost use Rattle.racp_model.specs.Formed.{HasBounds};
ghost use Rattle.racp_model.specs.Path.{IsEarly};
ghost use Rattle.racp_search.specs.DepthFirst.{HasActive, IsFrameOf};
ghost use Rattle.racp_search.specs.Glances.{HasConflict, IsExpanded};

use crate::frame::Frame;
use crate::subject::Subject;
use crate::workspace::{Spare, Workspace};
use racp_cutset::{Local, Node};
use racp_delay::{Clash, laws};
use racp_model::{Capacities, JobSet, OfNetwork, Question, Starts, Window};
use std::alloc::AllocError;

/// Up to this number of active jobs all alternatives are listed at once: they are 70 at the most.
const FEW_ACTIVE: usize = 8;

/// The frame of a window's node at the first conflict of its early starts; or `None` where a record covers the node, so
/// that nothing in the window answers.
pub(crate) fn expand<N: OfNetwork>(
    workspace: &mut Workspace,
    subject: &Subject<N>,
    window: Window,
    starts: Starts,
    conflict: Clash,
    local: &mut Local<N>,
) -> Result<Option<Frame<N>>, AllocError>
    requires bounds { HasBounds N.network window }
    requires conflict { HasConflict N.network subject.now.capacities window starts conflict }
    ensures expanded { IfOk result (IsExpanded N.network subject.now.capacities window) }
    ensures kept { local.new ≡ local.old }
{
    let spare = &mut workspace.spare;
    let node: Node<N> = node_of(spare, subject, window, starts, conflict.time)?;
    if local.find(subject.board(), &node).is_some() {
        spare.give_node(node);
        return Ok(None);
    }
    prove!(node.question().window.lower().len() == subject.network().job_count());
    Ok(Some(first_frame(workspace, subject, node, conflict)?))
}

/// The node of a window, its early starts and a time.
fn node_of<N: OfNetwork>(
    spare: &mut Spare,
    subject: &Subject<N>,
    window: Window,
    starts: Starts,
    time: u32,
) -> Result<Node<N>, AllocError>
    requires bounds { HasBounds N.network window }
    requires early { IsEarly N.network (slice_index window.lower) starts }
    ensures capacities { IfOk result (λ node. node.capacities ≡ subject.now.capacities) }
    ensures window { IfOk result (λ node. node.window ≡ window) }
    ensures early { IfOk result (λ node. node.early ≡ starts) }
    ensures time { IfOk result (λ node. node.time ≡ time) }
{
    let capacities = spare.row_of(subject.capacities().as_slice())?;
    let question = Question {
        capacities: Capacities::new(capacities),
        window,
    };
    let rows = (spare.row(), spare.row());
    Node::reusing(subject.network(), question, starts, rows, time)
}

/// The frame of a node at its conflict. Its child windows are made at once where few jobs are active.
fn first_frame<N: OfNetwork>(
    workspace: &mut Workspace,
    subject: &Subject<N>,
    node: Node<N>,
    conflict: Clash,
) -> Result<Frame<N>, AllocError>
    requires active { HasActive N.network node conflict.active }
    requires same { node.capacities ≡ subject.now.capacities }
    ensures { IfOk result (IsFrameOf N.network subject.now.capacities node.window) }
{
    laws::branching_loses_nothing();
    laws::some_job_goes();
    if !are_few(&conflict.active) {
        return Ok(bare_frame(&mut workspace.spare, node, conflict.active));
    }
    let (net, capacities) = (subject.network(), subject.capacities());
    if let Err(error) = workspace.all.find(net, capacities, &conflict) {
        // Dropped here once, not at each way out.
        drop(node);
        return Err(error);
    }
    let mut frame = bare_frame(&mut workspace.spare, node, conflict.active);
    if let Err(error) = frame.take_all(&mut workspace.spare, subject, workspace.all.lists()) {
        // Dropped here once, not at each way out.
        drop(frame);
        return Err(error);
    }
    Ok(frame)
}

/// The frame of a node and the active jobs of its conflict, without child windows.
fn bare_frame<N: OfNetwork>(spare: &mut Spare, node: Node<N>, active: JobSet) -> Frame<N>
    requires { HasActive N.network node active }
    ensures { result ≡ record { node = node; active = active; windows = []; last = []; more = true } }
{
    let children = spare.list();
    let last = spare.empty_row();
    Frame::new(node, active, children, last)
}

/// Whether the alternatives of these active jobs are so few that they are listed at once.
fn are_few(active: &JobSet) -> bool {
    active.iter().count() <= FEW_ACTIVE
}
