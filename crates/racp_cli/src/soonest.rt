//! `soonest`: the plan of an order with the least deadline that has one.

ghost use Rattle.std.specs.Prelude.{◌≡◌, ℕ, Bool, IfErr, IfOk};
ghost use Rattle.racp_found.specs.Told.{HearsAll};
ghost use Rattle.racp_model.specs.Project.{Project};
ghost use Rattle.racp_model.specs.Terms.{AreTermsOf};
ghost use Rattle.racp_by_questions.specs.Crowds.{MayStop};
ghost use Rattle.racp_soonest.specs.Soonest.{IsSoonestAnswer as IsAnswerOf, IsSoonestStop};
ghost use Rattle.racp_soonest.specs.Teams.{order_of_team};
ghost use Rattle.racp_streams.specs.Streams.{IsAnswerWritten};
ghost use Rattle.racp_cli.specs.SoonestAnswers.{IsSoonestAnswer, IsStoppedSoonest, IsToldSoonest, soonest_status};

use crate::respond::respond;
use crate::status::{DONE, IMPOSSIBLE, STOPPED, STREAM_FAILED};
use crate::texts::read_texts;
use racp_desk::Gate;
use racp_found::Observer;
use racp_lexfix::{Crew, PlanStop};
use racp_model::{Network, Stop};
use racp_prices::Order;
use racp_root::Task;
use racp_soonest::{
    Soonest, SoonestStop, Span, soonest_by_crew, soonest_lines, span_lines, team_order,
};
use racp_streams::StreamFault;
use std::alloc::{AllocError, Global};
use std::io::Write;
use std::sync::Wait;
use std::thread::Threads;

/// Has such workers make the plan of the team's order with the least deadline, up to the order's own, that has one, for the texts
/// of a network and an order, and writes to `out` the text of that plan, or the line that says why there is none for the
/// order's own deadline. Without ceilings, the team is what is owned. If they are stopped, it writes a line that tells between
/// which deadlines the least one lies; if no thread could be started, a line alone. Returns the status that belongs to what was
/// written: 0 for the plan, 3 if there is none, 4 if they were stopped, 5 if a text is refused, 6 if memory ran out, 7 if a
/// worker could not be started.
///
/// # Errors
///
/// `Write`: a write failed or took no byte, and what is out is a beginning of the text.
pub fn soonest_to<R: Threads + Wait + Sync, G: Gate + Sync, P: Stop + Sync, B: Observer, W: Write>(
    rt: &R,
    alloc: Global,
    net: &[u8],
    order: &[u8],
    crew: Crew<'_, G, P, B>,
    out: &mut W,
) -> Result<u8, StreamFault>
    requires heard { HearsAll B.may_hear }
    ensures { IsAnswerWritten
        (IsSoonestAnswer crew.entry.turns (P.is_quiet crew.entry.stop.now) net.now order.now)
        (W.contents out.old) (W.contents out.new) result }
{
    respond(answer(rt, alloc, net, order, &crew), out)
}

/// The status and the text of the answer to these texts.
fn answer<G: Gate + Sync, P: Stop + Sync, B: Observer, R: Threads + Wait + Sync>(
    rt: &R,
    alloc: Global,
    net: &[u8],
    order: &[u8],
    crew: &Crew<'_, G, P, B>,
) -> Result<(u8, Vec<u8>), AllocError>
    requires heard { HearsAll B.may_hear }
    ensures { IfOk result (λ answer. IsSoonestAnswer crew.now.turns (P.is_quiet crew.now.stop.now) net.now order.now
        answer.0 answer.1.items) }
{
    match read_texts(alloc, net, order) {
        Ok((net, order)) => told_of(rt, alloc, &net, &order, crew),
        Err(refused) => refused,
    }
}

/// The status and the text of the answer to an order for a network.
fn told_of<G: Gate + Sync, P: Stop + Sync, B: Observer, R: Threads + Wait + Sync>(
    rt: &R,
    alloc: Global,
    net: &Network,
    order: &Order,
    crew: &Crew<'_, G, P, B>,
) -> Result<(u8, Vec<u8>), AllocError>
    requires terms { AreTermsOf net.now order.now }
    requires heard { HearsAll B.may_hear }
    ensures { IfOk result (λ answer. IsToldSoonest crew.now.turns (P.is_quiet crew.now.stop.now) net.now order.now
        answer.0 answer.1.items) }
{
    let team = team_order(alloc, order)?;
    let task = Task {
        alloc,
        net,
        order: &team,
    };
    let found = soonest_by_crew(rt, &task, crew);
    // Dropped here once, not at each way out.
    drop(team);
    told(alloc, order, found)
}

/// The status and the text of what is found.
fn told(
    alloc: Global,
    order: &Order,
    found: Result<Soonest, SoonestStop>,
) -> Result<(u8, Vec<u8>), AllocError>
    ensures { (network : Project) (turns : ℕ) (quiet : Bool) → IfOk found (IsAnswerOf network (order_of_team order.now)) →
        IfErr found (IsSoonestStop network (order_of_team order.now) (MayStop network quiet turns)) →
        IfOk result (λ answer. IsToldSoonest turns quiet network order.now answer.0 answer.1.items) }
{
    match found {
        Ok(soonest) => {
            let text = soonest_lines(alloc, order.deadline, &soonest)?;
            Ok((status_of(&soonest), text))
        }
        Err(SoonestStop { span, stop }) => ended(alloc, span, stop),
    }
}

/// The status that belongs to an answer.
fn status_of(soonest: &Soonest) -> u8
    ensures { result ≡ soonest_status soonest.now }
{
    match soonest {
        Soonest::Plan(_) => DONE,
        Soonest::NoPlan(_) => IMPOSSIBLE,
    }
}

/// The status and the text if the search for the least deadline ended early, with the span that was left.
fn ended(alloc: Global, span: Span, stop: PlanStop) -> Result<(u8, Vec<u8>), AllocError>
    ensures { IfOk result (λ answer. IsStoppedSoonest span stop answer.0 answer.1.items) }
{
    match stop {
        PlanStop::Stopped { not_before } => {
            drop(not_before);
            let text = span_lines(alloc, span)?;
            Ok((STOPPED, text))
        }
        PlanStop::Memory => Err(AllocError),
        PlanStop::NoThread => Ok((STREAM_FAILED, b"no thread\n".to_vec(alloc)?)),
    }
}
