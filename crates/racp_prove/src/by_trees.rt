//! A certificate that no capacities before those of a plan are enough.

ghost use Rattle.std.specs.Prelude.{◌≡◌, ℕ, List, Ok, IfOk, IfErr, IfSome, length};
ghost use Rattle.racp_model.specs.Terms.{release_of, due_of};
ghost use Rattle.racp_model.specs.Window.{IsRootWindow};
ghost use Rattle.racp_sm.specs.Reading.{IsReading};
ghost use Rattle.racp_trees.specs.Certificates.{IsCertificate};
ghost use Rattle.racp_lexfix.specs.Answers.{IsAnswer};
ghost use Rattle.racp_prove.specs.Proving.{IsAnswerProvedUntil, IsProofOf, IsProving, IsProvingUntil, MayEndPlanning};
ghost use Rattle.racp_lexfix.specs.declared.answer.Answer.TheVariants.{Plan as ThePlan};
ghost use Rattle.racp_by_questions.specs.declared.stop.PlanStop.TheVariants.{Memory};

use crate::by_clauses::unproved;
use crate::hints::hints_of;
use racp_by_questions::{Alone, OfTurns, PlanStop, Sharp};
use racp_lexfix::status::DONE;
use racp_lexfix::{Answer, Printed, Refusal, answer_printed, plan_after};
use racp_model::{Network, Never, OfNetwork, Stop, Window};
use racp_plan::Plan;
use racp_prices::{most_units, read_order};
use racp_root::{Opening, Task, opening_of};
use racp_sm::read_sm;
use racp_trees::{Claim, certificate};
use std::alloc::{AllocError, Global};
use std::marker::Brand;

/// A certificate for the plan of the texts of a network and an order, made on the calling thread: a text that shows that
/// no capacities before those of the plan are enough. Where there is no plan, the line that says why. Where the
/// certificate would have more than 16,777,216 bytes, the line `unproved`, with the status 8.
///
/// # Errors
///
/// A text is refused, the network's first; or memory was refused. It neither stops nor wants a thread.
pub fn prove_alone(alloc: Global, net_bytes: &[u8], order_text: &[u8]) -> Result<Printed, Refusal>
    ensures { IsProving net_bytes.now order_text.now result }
{
    prove_until(alloc, net_bytes, order_text, &Never)
}

/// What `prove_alone` answers, unless it is stopped: then the line `unproved`, with the status 8, whether there is a plan
/// or not. The stop is asked at each node of a search, and at each line of the certificate.
///
/// # Errors
///
/// As with `prove_alone`.
pub fn prove_until<P: Stop>(
    alloc: Global,
    net_bytes: &[u8],
    order_text: &[u8],
    stop: &P,
) -> Result<Printed, Refusal>
    ensures { IsProvingUntil (P.is_quiet stop.now) net_bytes.now order_text.now result }
{
    let net = read_sm(alloc, net_bytes)?;
    prove_order(alloc, &net, order_text, stop)
}

/// A certificate for the plan of the text of an order for a network, or why there is none.
fn prove_order<P: Stop>(
    alloc: Global,
    net: &Network,
    order_text: &[u8],
    stop: &P,
) -> Result<Printed, Refusal>
    ensures { (text : List ℕ) → IsReading text (Ok net.now) → IsProvingUntil (P.is_quiet stop.now) text order_text.now result }
{
    let order = read_order(alloc, order_text, net.resource_count(), net.job_count())?;
    let task = Task {
        alloc,
        net,
        order: &order,
    };
    let printed = prove_plan(&task, stop);
    // Dropped here once, not at each way out.
    drop(order);
    Ok(printed?)
}

/// A certificate for the plan of an order, or why there is none.
fn prove_plan<P: Stop>(task: &Task, stop: &P) -> Result<Printed, PlanStop>
    ensures proof { IfOk result (λ printed. IsAnswerProvedUntil (P.is_quiet stop.now) task.now.net.now
        task.now.order.now printed.text.items printed.status) }
    ensures stop { IfErr result (λ stop. stop ≡ Memory) }
{
    let mut sharp = None;
    prove_and_keep(task, &mut sharp, stop)
}

/// A certificate for the plan of an order, or why there is none. The sharpened floors are kept, once they are known.
fn prove_and_keep<P: Stop>(
    task: &Task,
    sharp: &mut Option<Sharp>,
    stop: &P,
) -> Result<Printed, PlanStop>
    ensures proof { IfOk result (λ printed. IsAnswerProvedUntil (P.is_quiet stop.now) task.now.net.now
        task.now.order.now printed.text.items printed.status) }
    ensures stop { IfErr result (λ stop. stop ≡ Memory) }
{
    match plan_with_floors::<Brand, Brand, P>(task, sharp, stop) {
        Ok(answer) => answer_proof(task, &answer, sharp, stop),
        Err(PlanStop::Stopped { .. }) => Ok(unproved(task)?),
        // It wants no thread, so memory was refused.
        Err(_) => Err(PlanStop::Memory),
    }
}

/// The plan of an order, or why there is none; the sharpened floors are kept where they were asked for. The network is
/// the one that `N` names, and the stop is as quiet as `M` says.
fn plan_with_floors<N: OfNetwork, M: OfTurns, P: Stop>(
    task: &Task,
    sharp: &mut Option<Sharp>,
    stop: &P,
) -> Result<Answer, PlanStop>
    requires named { task.now.net.now ≡ N.network }
    requires quiet { P.is_quiet stop.now ≡ M.quiet }
    ensures answer { IfOk result (IsAnswer task.now.net.now task.now.order.now) }
    ensures stop { IfErr result (MayEndPlanning M.quiet) }
{
    // A search of its own would not sharpen the floors.
    let alone: Alone<N> = Alone::new(task.alloc, task.net)?.with_conflicts(0);
    let mut until = alone.until::<M, P>(stop);
    let planned = plan_after(task, None, &mut until, sharp);
    // Dropped here once, not at each way out.
    drop(until);
    planned
}

/// The text and the status for an answer: a certificate for the plan, or why there is no plan.
fn answer_proof<P: Stop>(
    task: &Task,
    answer: &Answer,
    sharp: &Option<Sharp>,
    stop: &P,
) -> Result<Printed, PlanStop>
    requires answer { IsAnswer task.now.net.now task.now.order.now answer.now }
    ensures proof { IfOk result (λ printed. IsProofOf task.now.net.now task.now.order.now answer.now printed.text.items
        printed.status) }
    ensures stop { IfErr result (λ stop. stop ≡ Memory) }
{
    match answer {
        Answer::Plan(plan) => Ok(answer_certificate(task, plan, sharp, stop)?),
        _ => {
            let printed = answer_printed(task.alloc, task.order, answer)?;
            Ok(printed)
        }
    }
}

/// A certificate for a plan, or that none was made, with its status.
fn answer_certificate<P: Stop>(
    task: &Task,
    plan: &Plan,
    sharp: &Option<Sharp>,
    stop: &P,
) -> Result<Printed, AllocError>
    requires plan { IsAnswer task.now.net.now task.now.order.now (ThePlan plan.now) }
    ensures { IfOk result (λ printed. IsProofOf task.now.net.now task.now.order.now (ThePlan plan.now) printed.text.items
        printed.status) }
{
    let Some(text) = certificate_of(task, plan.capacities.as_slice(), sharp, stop)? else {
        return unproved(task);
    };
    Ok(Printed { text, status: DONE })
}

/// A certificate that no capacities before these are enough, or `None` where none was made.
fn certificate_of<P: Stop>(
    task: &Task,
    capacities: &[u32],
    sharp: &Option<Sharp>,
    stop: &P,
) -> Result<Option<Vec<u8>>, AllocError>
    requires capacities { length capacities.now ≡ task.now.net.now.resources }
    ensures { IfOk result (λ text. IfSome text (λ text. IsCertificate task.now.net.now task.now.order.now capacities.now
        text.items)) }
{
    let Opening::Root { window, .. } = opening_of(task.alloc, task.net, task.order)? else {
        return Ok(None);
    };
    certificate_within(task, &window, capacities, sharp, stop)
}

/// A certificate that no capacities before these are enough, by the root window of the task. `None` where none is made.
fn certificate_within<P: Stop>(
    task: &Task,
    root: &Window,
    capacities: &[u32],
    sharp: &Option<Sharp>,
    stop: &P,
) -> Result<Option<Vec<u8>>, AllocError>
    requires root { IsRootWindow task.now.net.now (release_of task.now.order.now) (due_of task.now.order.now) root.now }
    requires capacities { length capacities.now ≡ task.now.net.now.resources }
    ensures { IfOk result (λ text. IfSome text (λ text. IsCertificate task.now.net.now task.now.order.now capacities.now
        text.items)) }
{
    let (alloc, net, order) = (task.alloc, task.net, task.order);
    let roofs = most_units(alloc, net, order)?;
    let hints = hints_of(alloc, sharp, &roofs)?;
    let claim = Claim {
        net,
        order,
        roofs: roofs.as_slice(),
        capacities,
    };
    certificate(alloc, &claim, root, &hints, stop)
}
