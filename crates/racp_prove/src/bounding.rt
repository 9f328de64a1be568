//! A certificate by clauses of what all capacities that are enough cost at least, where the plan is not known.

ghost use Rattle.std.specs.Prelude.{◌≡◌, ◌⊎◌, IfOk, IfSome};
ghost use Rattle.racp_derivations.specs.BoundTexts.{IsBoundText};
ghost use Rattle.racp_prove.specs.Showing.{IsAnswerShown};

use crate::by_clauses::unproved;
use racp_derivations::{BoundCertificate, bound_certificate};
use racp_learning::Derivations;
use racp_lexfix::Printed;
use racp_lexfix::status::STOPPED;
use racp_root::Task;
use std::alloc::AllocError;

/// A certificate of what everything costs at least, the greater of those by two searches, or that none was made.
pub(crate) fn bound_shown(
    task: &Task,
    derivations: &Option<Derivations>,
    below: &Option<Derivations>,
) -> Result<Printed, AllocError>
    ensures { IfOk result (λ printed. IsAnswerShown task.now.net.now task.now.order.now printed.text.items printed.status) }
{
    let one = bound_by(task, derivations)?;
    let other = bound_by(task, below)?;
    answer_bound(task, greater_bound(one, other))
}

/// A certificate that was made, or that none was.
fn answer_bound(task: &Task, made: Option<BoundCertificate>) -> Result<Printed, AllocError>
    requires { IfSome made (λ made. IsBoundText task.now.net.now task.now.order.now made.least made.text.items) }
    ensures { IfOk result (λ printed. IsAnswerShown task.now.net.now task.now.order.now printed.text.items printed.status) }
{
    match made {
        Some(made) => {
            let BoundCertificate { text, .. } = made;
            Ok(Printed {
                text,
                status: STOPPED,
            })
        }
        None => unproved(task),
    }
}

/// A certificate of what everything costs at least, by the derivations of a search, if there are such and they show it.
fn bound_by(
    task: &Task,
    derivations: &Option<Derivations>,
) -> Result<Option<BoundCertificate>, AllocError>
    ensures { IfOk result (λ found. IfSome found (λ made. IsBoundText task.now.net.now task.now.order.now made.least made.text.items)) }
{
    match derivations {
        Some(derivations) => bound_certificate(task.alloc, task.net, task.order, derivations),
        None => Ok(None),
    }
}

/// The one of two certificates whose bound is greater, if there are any.
fn greater_bound(
    one: Option<BoundCertificate>,
    other: Option<BoundCertificate>,
) -> Option<BoundCertificate>
    ensures { (result ≡ one) ⊎ (result ≡ other) }
{
    match (&one, &other) {
        (Some(a), Some(b)) if a.least < b.least => other,
        (None, _) => other,
        _ => one,
    }
}
