//! A certificate by clauses for the plan of an order.

ghost use Rattle.std.specs.Prelude.{◌≡◌, ℕ, List, Ok, IfOk};
ghost use Rattle.racp_model.specs.Path.{IsCriticalLength};
ghost use Rattle.racp_model.specs.Terms.{release_of, due_of};
ghost use Rattle.racp_model.specs.Window.{IsRootWindow};
ghost use Rattle.racp_clauses.specs.Roots.{IsOpen};
ghost use Rattle.racp_sm.specs.Reading.{IsReading};
ghost use Rattle.racp_found.specs.Finds.{IsFound};
ghost use Rattle.racp_lexfix.specs.Answers.{IsAnswer};
ghost use Rattle.racp_prove.specs.Proving.{unproved_line};
ghost use Rattle.racp_prove.specs.Showing.{IsAnswerShown, IsShowing};
ghost use Rattle.racp_plan.specs.declared.plan.Plan.{Plan};
ghost use Rattle.racp_lexfix.specs.declared.answer.Answer.TheVariants.{Plan as ThePlan};

use crate::bounding::bound_shown;
use racp_by_clauses::{Recorded, optimum_recorded};
use racp_clauses::Domain;
use racp_derivations::{certificate_by_clauses, root_bounds};
use racp_found::{Deaf, Found};
use racp_learning::Derivations;
use racp_lexfix::status::{CHECK_FAILED, DONE};
use racp_lexfix::{Answer, Printed, Refusal, answer_printed, limits_of, plan_of};
use racp_model::{Network, Stop, Window};
use racp_plan::Plan;
use racp_prices::read_order;
use racp_questions::Leeway;
use racp_root::{Opening, Task, opening_of};
use racp_sm::read_sm;
use std::alloc::{AllocError, Global};
use std::marker::Brand;

/// So many bytes the clauses of the search take at most, about, and so many what they were derived from.
const MOST_BYTES: u32 = 1 << 30;

/// A certificate by clauses for the plan of the texts of a network and an order, made on the calling thread: a text that
/// shows that its capacities are the first of all that are enough, and its starts the least. Where there is no plan, the line
/// that says why. Where the certificate would have more than 16,777,216 bytes, the line `unproved`, with the status 8. Where what
/// clauses were derived from takes more than about 1 GiB, or the search for the plan was stopped, a certificate of what all
/// capacities that are enough cost at least, with the status 4, or the same line.
///
/// # Errors
///
/// A text is refused, the network's first; or memory was refused. It wants no thread.
pub fn prove_by_clauses<P: Stop>(
    alloc: Global,
    net_bytes: &[u8],
    order_text: &[u8],
    stop: &P,
) -> Result<Printed, Refusal>
    ensures { IsShowing net_bytes.now order_text.now result }
{
    let net = read_sm(alloc, net_bytes)?;
    prove_order(alloc, &net, order_text, stop)
}

/// A certificate for the plan of the text of an order for a network, or why there is none.
fn prove_order<P: Stop>(
    alloc: Global,
    net: &Network,
    order_text: &[u8],
    stop: &P,
) -> Result<Printed, Refusal>
    ensures { (text : List ℕ) → IsReading text (Ok net.now) → IsShowing text order_text.now result }
{
    let order = read_order(alloc, order_text, net.resource_count(), net.job_count())?;
    let task = Task {
        alloc,
        net,
        order: &order,
    };
    let printed = show_plan(&task, stop);
    // Dropped here once, not at each way out.
    drop(order);
    Ok(printed?)
}

/// A certificate for the plan of an order, or why there is none.
fn show_plan<P: Stop>(task: &Task, stop: &P) -> Result<Printed, AllocError>
    ensures { IfOk result (λ printed. IsAnswerShown task.now.net.now task.now.order.now printed.text.items printed.status) }
{
    match opening_of(task.alloc, task.net, task.order)? {
        Opening::Root { critical, window } => show_within(task, critical, &window, stop),
        Opening::TooLong { critical } => answer_none(
            task,
            &Answer::Impossible { longest: critical },
        ),
        Opening::TooLate { job } => answer_none(task, &Answer::Due { job }),
    }
}

/// The same within the root window, with the critical length.
fn show_within<P: Stop>(
    task: &Task,
    critical: u64,
    window: &Window,
    stop: &P,
) -> Result<Printed, AllocError>
    requires critical { IsCriticalLength task.now.net.now (release_of task.now.order.now) critical }
    requires window { IsRootWindow task.now.net.now (release_of task.now.order.now) (due_of task.now.order.now) window.now }
    ensures { IfOk result (λ printed. IsAnswerShown task.now.net.now task.now.order.now printed.text.items printed.status) }
{
    let Some(root) = root_bounds(task.alloc, task.net, task.order)? else {
        return unproved(task);
    };
    let Recorded {
        found,
        derivations,
        below,
    } = recorded(task, window, &root, stop)?;
    match found {
        Found::Plan(capacities, starts) => {
            let plan = plan_of(task, critical, capacities, starts);
            answer_shown(task, &root, &plan, &derivations)
        }
        Found::NoneEnough => answer_none(task, &Answer::Ceiling),
        Found::Open => bound_shown(task, &derivations, &below),
    }
}

/// What a search finds of the plan, with its derivations, until it is stopped.
fn recorded<P: Stop>(
    given: &Task,
    window: &Window,
    root: &Domain,
    stop: &P,
) -> Result<Recorded, AllocError>
    requires { IsOpen (record { network = given.now.net.now; terms = given.now.order.now; root = root.now }) }
    ensures { IfOk result (λ recorded. IsFound given.now.net.now given.now.order.now recorded.found) }
{
    let task = racp_by_clauses::Task {
        alloc: given.alloc,
        net: given.net,
        order: given.order,
        window,
        root,
    };
    let limits = limits_of(Leeway {
        conflicts: u64::MAX,
        bytes: MOST_BYTES as u64,
    });
    let deaf = Deaf { stop };
    optimum_recorded::<Brand, Deaf<'_, P>>(task, limits, MOST_BYTES as usize, &deaf)
}

/// A certificate for the plan, or that none was made.
fn answer_shown(
    task: &Task,
    root: &Domain,
    plan: &Plan,
    derivations: &Option<Derivations>,
) -> Result<Printed, AllocError>
    requires plan { IsAnswer task.now.net.now task.now.order.now (ThePlan plan.now) }
    ensures { IfOk result (λ printed. IsAnswerShown task.now.net.now task.now.order.now printed.text.items printed.status) }
{
    let Some(derivations) = derivations else {
        return unproved(task);
    };
    let (alloc, net, order) = (task.alloc, task.net, task.order);
    match certificate_by_clauses(alloc, net, order, root, plan, derivations)? {
        Some(text) => Ok(Printed { text, status: DONE }),
        None => unproved(task),
    }
}

/// Why there is no plan.
fn answer_none(task: &Task, answer: &Answer) -> Result<Printed, AllocError>
    requires answer { IsAnswer task.now.net.now task.now.order.now answer.now }
    requires none { (plan : Plan) → answer.now ≡ ThePlan plan → ⊥ }
    ensures { IfOk result (λ printed. IsAnswerShown task.now.net.now task.now.order.now printed.text.items printed.status) }
{
    answer_printed(task.alloc, task.order, answer)
}

/// That no certificate was made.
pub(crate) fn unproved(task: &Task) -> Result<Printed, AllocError>
    ensures line { IfOk result (λ printed. (printed.status ≡ 8) × (printed.text.items ≡ unproved_line)) }
    ensures shown { IfOk result (λ printed. IsAnswerShown task.now.net.now task.now.order.now printed.text.items printed.status) }
{
    Ok(Printed {
        text: b"unproved\n".to_vec(task.alloc)?,
        status: CHECK_FAILED,
    })
}
