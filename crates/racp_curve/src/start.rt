//! Where searches that learn begin.

ghost use Rattle.std.specs.Prelude.{IfOk, IfSome};
ghost use Rattle.racp_model.specs.Terms.{release_of, due_of};
ghost use Rattle.racp_model.specs.Window.{IsRootWindow};
ghost use Rattle.racp_curve.specs.Following.{IsStart};

use crate::ground::Ground;
use racp_clauses::Domain;
use racp_lexfix::root_bounds;
use racp_model::Window;
use racp_questions::Leeway;
use racp_root::{Opening, opening_of};
use std::alloc::AllocError;

/// Where searches that learn begin: the root window of an order, and its root bounds.
#[derive(Drop)]
pub(crate) struct Start {
    pub(crate) window: Window,
    pub(crate) bounds: Domain,
}

/// Where searches for the plans of a curve begin, if there are many vectors, and so much leeway leaves room for them.
pub(crate) fn start_of(ground: &Ground, leeway: Leeway) -> Result<Option<Start>, AllocError>
    ensures { IfOk result (λ start. IfSome start (IsStart ground.now.net.now ground.now.order.now)) }
{
    if leeway.conflicts == 0 {
        return Ok(None);
    }
    match opening_of(ground.alloc, ground.net, ground.order)? {
        Opening::Root { window, .. } => start_within(ground, window),
        _ => Ok(None),
    }
}

/// The same within the root window.
fn start_within(ground: &Ground, window: Window) -> Result<Option<Start>, AllocError>
    requires root { IsRootWindow ground.now.net.now (release_of ground.now.order.now) (due_of ground.now.order.now) window }
    ensures { IfOk result (λ start. IfSome start (IsStart ground.now.net.now ground.now.order.now)) }
{
    match root_bounds(ground.alloc, ground.net, ground.order, &window)? {
        Some(root) if !root.is_small => Ok(Some(Start {
            window,
            bounds: root.bounds,
        })),
        _ => Ok(None),
    }
}
