//! The answer of a question by its definition: every start vector of the window is looked at.

ghost use Rattle.std.specs.Prelude.{◌≡◌, ◌↔◌, IfOk, IsTrue, length};
ghost use Rattle.racp_model.specs.Schedule.{Fits};
ghost use Rattle.racp_reference.specs.Outcomes.{IsFirstAnswer};

use crate::boxes::{is_box, next_in};
use racp_cpm::last_end;
use racp_model::{Capacities, Network, Question, Starts, Window, fits};
use std::alloc::{AllocError, Global};

/// The lexicographically least starts that answer the question, or `None` if none do. The capacities have an entry
/// for each resource, the bounds of the window one for each job. All start vectors in the window are looked at, one by
/// one.
///
/// # Errors
///
/// Memory was refused.
pub fn decide_by_definition(
    alloc: Global,
    net: &Network,
    question: &Question,
) -> Result<Option<Starts>, AllocError>
    requires capacities { length question.now.capacities ≡ net.now.resources }
    requires lower { length question.now.window.lower ≡ length net.now.jobs }
    requires upper { length question.now.window.upper ≡ length net.now.jobs }
    ensures { IfOk result (IsFirstAnswer net.now question.now.capacities question.now.window) }
{
    first_answer(alloc, net, &question.capacities, &question.window)
}

/// The lexicographically least starts in the window that keep precedence and the capacities, or `None` if there are
/// none.
///
/// # Errors
///
/// Memory was refused.
pub(crate) fn first_answer(
    alloc: Global,
    net: &Network,
    capacities: &Capacities,
    window: &Window,
) -> Result<Option<Starts>, AllocError>
    requires capacities { length capacities.now ≡ net.now.resources }
    requires lower { length window.now.lower ≡ length net.now.jobs }
    requires upper { length window.now.upper ≡ length net.now.jobs }
    ensures { IfOk result (IsFirstAnswer net.now capacities.now window.now) }
{
    let (lower, upper) = (window.lower(), window.upper());
    if !is_box(lower, upper) {
        return Ok(None);
    }
    let mut starts = Starts::new(lower.to_vec(alloc)?);
    'starts: while !keeps_all(net, capacities, &starts) {
        match next_in(lower, upper, starts.into_vec()) {
            Some(next) => starts = Starts::new(next),
            None => return Ok(None),
        }
    }
    Ok(Some(starts))
}

/// Whether the starts keep precedence and the capacities.
fn keeps_all(net: &Network, capacities: &Capacities, starts: &Starts) -> bool
    requires capacities { length capacities.now ≡ net.now.resources }
    requires starts { length starts.now ≡ length net.now.jobs }
    ensures { IsTrue result ↔ Fits net.now capacities.now starts.now }
{
    fits(net, capacities, starts, last_end(net, starts))
}
