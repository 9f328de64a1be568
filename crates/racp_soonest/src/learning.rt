//! Whether an order has a plan at all, by a search that learns.

ghost use Rattle.std.specs.Prelude.{IfOk, IfSome};
ghost use Rattle.racp_by_clauses.specs.Optima.{IsFeasible};
ghost use Rattle.racp_model.specs.Terms.{release_of, due_of};
ghost use Rattle.racp_model.specs.Window.{IsRootWindow};
ghost use Rattle.racp_soonest.specs.Steps.{IsLearnedOf, IsStart};

use racp_by_clauses::{Feasible, Task as Part};
use racp_clauses::{Domain, OfProblem};
use racp_found::Deaf;
use racp_lexfix::{Learned, root_bounds};
use racp_model::{Stop, Window};
use racp_questions::Leeway;
use racp_root::{Opening, Task, opening_of};
use std::alloc::AllocError;
use std::marker::Brand;

/// Where a search that learns begins: the root window of an order, and its root bounds.
#[derive(Drop)]
pub(crate) struct Start {
    pub(crate) window: Window,
    pub(crate) bounds: Domain,
}

/// Where a search for starts begins, if so much leeway leaves room for one and some starts may be in time.
pub(crate) fn start_of(task: &Task<'_>, leeway: Leeway) -> Result<Option<Start>, AllocError>
    ensures { IfOk result (λ start. IfSome start (IsStart task.now.net.now task.now.order.now)) }
{
    if leeway.conflicts == 0 {
        return Ok(None);
    }
    match opening_of(task.alloc, task.net, task.order)? {
        Opening::Root { window, .. } => start_within(task, window),
        _ => Ok(None),
    }
}

/// The same within the root window.
fn start_within(task: &Task<'_>, window: Window) -> Result<Option<Start>, AllocError>
    requires root { IsRootWindow task.now.net.now (release_of task.now.order.now) (due_of task.now.order.now) window }
    ensures { IfOk result (λ start. IfSome start (IsStart task.now.net.now task.now.order.now)) }
{
    match root_bounds(task.alloc, task.net, task.order, &window)? {
        Some(root) => Ok(Some(Start {
            window,
            bounds: root.bounds,
        })),
        None => Ok(None),
    }
}

/// Whether some capacities are enough for an order, by what is learned of it or of one like it, if anything is. Where no starts
/// are in time by their early starts alone, that is left to others.
pub(crate) fn feasible<N: OfProblem, P: Stop>(
    learned: &mut Option<Learned<'_, N>>,
    task: &Task<'_>,
    stop: &P,
) -> Result<Feasible, AllocError>
    requires of { IsLearnedOf N.problem task.now.net.now task.now.order.now }
    ensures { IfOk result (IsFeasible task.now.net.now task.now.order.now) }
{
    match learned {
        Some(learned) => feasible_by(learned, task, stop),
        None => Ok(Feasible::Unknown),
    }
}

/// The same, by what is learned.
fn feasible_by<N: OfProblem, P: Stop>(
    learned: &mut Learned<'_, N>,
    task: &Task<'_>,
    stop: &P,
) -> Result<Feasible, AllocError>
    requires of { IsLearnedOf N.problem task.now.net.now task.now.order.now }
    ensures { IfOk result (IsFeasible task.now.net.now task.now.order.now) }
{
    match opening_of(task.alloc, task.net, task.order)? {
        Opening::Root { window, .. } => feasible_within(learned, task, &window, stop),
        _ => Ok(Feasible::Unknown),
    }
}

/// The same within the root window.
fn feasible_within<N: OfProblem, P: Stop>(
    learned: &mut Learned<'_, N>,
    task: &Task<'_>,
    window: &Window,
    stop: &P,
) -> Result<Feasible, AllocError>
    requires of { IsLearnedOf N.problem task.now.net.now task.now.order.now }
    requires root { IsRootWindow task.now.net.now (release_of task.now.order.now) (due_of task.now.order.now) window.now }
    ensures { IfOk result (IsFeasible task.now.net.now task.now.order.now) }
{
    let Some(root) = root_bounds(task.alloc, task.net, task.order, window)? else {
        return Ok(Feasible::NoneFits);
    };
    let part = Part {
        alloc: task.alloc,
        net: task.net,
        order: task.order,
        window,
        root: &root.bounds,
    };
    let deaf = Deaf { stop };
    learned
        .optimizer
        .feasible::<Brand, Deaf<'_, P>>(learned.whole, part, &deaf)
}
