//! `curve` by workers: what each deadline up to that of an order costs, by plans that are made on threads of their own.

ghost use Rattle.std.specs.Prelude.{◌≡◌, ℕ, ◌≤◌, Bool, IfErr, IfOk, ⊤};
ghost use Rattle.racp_found.specs.Told.{HearsAll};
ghost use Rattle.racp_model.specs.Project.{Project};
ghost use Rattle.racp_by_questions.specs.Crowds.{MayStop};
ghost use Rattle.racp_curve.specs.Curves.{IsCurveAnswer as IsAnswerOfCurve, IsCurveStop};
ghost use Rattle.racp_cli.specs.CurveAnswers.{IsCurveCrowdAnswer, IsCurveCrowdRun, IsToldByCrowd, stopped_text};
ghost use Rattle.racp_cli.specs.Responses.{IsEndedText};

use crate::curve::{CurveForm, curve_answer};
use crate::lines::stopped_line;
use crate::respond::respond;
use crate::status::{STOPPED, STREAM_FAILED};
use crate::texts::read_texts;
use racp_curve::{CurveAnswer, CurveStop, Step, curve_crowd, step_lines};
use racp_desk::Gate;
use racp_found::Observer;
use racp_lexfix::{Crew, PlanStop};
use racp_model::Stop;
use racp_prices::Order;
use racp_streams::{StreamFault, read_whole};
use std::alloc::{AllocError, Global};
use std::io::{Read, Write};
use std::sync::Wait;
use std::thread::Threads;

/// Reads a network text and an order text, all of each before the next, has such workers make the plans, and writes to
/// `out` what `curve_over` writes. Their observer is told how far that has come. If they are stopped, it writes the
/// lines of the steps so far, or nothing in place of a picture, and a line that tells capacities before which none are
/// enough for a deadline before these steps; if no thread could be started, a line alone. Returns the status that
/// belongs to what was written: that of `curve_over`, 4 if they were stopped, 7 if a worker could not be started.
///
/// # Errors
///
/// After these nothing was written: `Read`, a read failed; `TooLong`, a reader has more than 16,777,216 bytes;
/// `Memory`, memory for an input was refused. After `Write`, a write failed or took no byte, and what is out is a
/// beginning of the text.
pub fn curve_crowd_over<
    R: Threads + Wait + Sync + AllocGlobal,
    G: Gate + Sync,
    P: Stop + Sync,
    B: Observer,
    N: Read,
    O: Read,
    W: Write,
>(
    rt: &R,
    crew: Crew<'_, G, P, B>,
    net: &mut N,
    order: &mut O,
    form: CurveForm<'_>,
    out: &mut W,
) -> Result<u8, StreamFault>
    requires workers { crew.workers ≤ 64 }
    requires turns { crew.turns ≤ 1000000000000 }
    requires memory { crew.memory ≤ 1048576 }
    requires heard { HearsAll B.may_hear }
    ensures { IsCurveCrowdRun crew.entry.turns (P.is_quiet crew.entry.stop.now) form.entry (record { unread = N.remaining net.old; left = N.remaining net.new })
        (record { unread = O.remaining order.old; left = O.remaining order.new })
        (W.contents out.old) (W.contents out.new) result }
{
    let alloc = rt.alloc();
    let net = read_whole(alloc, net)?;
    let order = read_whole(alloc, order)?;
    respond(answer(rt, alloc, &net, &order, form, crew), out)
}

/// The status and the text of the answer to the texts of a network and an order.
fn answer<G: Gate + Sync, P: Stop + Sync, B: Observer, R: Threads + Wait + Sync>(
    rt: &R,
    alloc: Global,
    net: &[u8],
    order: &[u8],
    form: CurveForm<'_>,
    crew: Crew<'_, G, P, B>,
) -> Result<(u8, Vec<u8>), AllocError>
    requires workers { crew.workers ≤ 64 }
    requires turns { crew.turns ≤ 1000000000000 }
    requires memory { crew.memory ≤ 1048576 }
    requires heard { HearsAll B.may_hear }
    ensures { IfOk result (λ answer. IsCurveCrowdAnswer crew.entry.turns (P.is_quiet crew.entry.stop.now) form.entry net.now
        order.now answer.0 answer.1.items) }
{
    match read_texts(alloc, net, order) {
        Ok((net, order)) => {
            let curve = curve_crowd(rt, alloc, &net, &order, crew);
            told(alloc, &order, curve, form)
        }
        Err(refused) => refused,
    }
}

/// The status and the text of a curve for these terms, or of the reason why there is no plan, or why the workers ended
/// early.
fn told(
    alloc: Global,
    order: &Order,
    curve: Result<CurveAnswer, CurveStop>,
    form: CurveForm<'_>,
) -> Result<(u8, Vec<u8>), AllocError>
    ensures { (network : Project) (turns : ℕ) (quiet : Bool) → IfOk curve (IsAnswerOfCurve network order.now) →
        IfErr curve (λ end. IsCurveStop network order.now (MayStop network quiet turns) ⊤ end.steps.items end.stop) →
        IfOk result (λ answer. IsToldByCrowd turns quiet form.entry network order.now answer.0 answer.1.items) }
{
    match curve {
        Ok(answer) => curve_answer(alloc, order, answer, form),
        Err(CurveStop { steps, stop }) => ended_answer(alloc, &steps, stop, form),
    }
}

/// The status and the text if following a curve ended early with these steps.
fn ended_answer(
    alloc: Global,
    steps: &[Step],
    stop: PlanStop,
    form: CurveForm<'_>,
) -> Result<(u8, Vec<u8>), AllocError>
    ensures { IfOk result (λ answer. IsEndedText form.entry steps.now stop answer.0 answer.1.items) }
{
    match stop {
        PlanStop::Stopped { not_before } => {
            let text = stopped_text(alloc, steps, not_before.as_slice(), form)?;
            Ok((STOPPED, text))
        }
        PlanStop::Memory => Err(AllocError),
        PlanStop::NoThread => Ok((STREAM_FAILED, b"no thread\n".to_vec(alloc)?)),
    }
}

/// The lines of the steps so far, or nothing in place of a picture, and the line that tells these capacities.
fn stopped_text(
    alloc: Global,
    steps: &[Step],
    not_before: &[u32],
    form: CurveForm<'_>,
) -> Result<Vec<u8>, AllocError>
    ensures { IfOk result (λ text. text.items ≡ stopped_text form.entry steps.now not_before.now) }
{
    let line = stopped_line(alloc, not_before)?;
    match form {
        CurveForm::Lines => {
            let mut text = step_lines(alloc, steps)?;
            text.extend_from_slice(&line)?;
            Ok(text)
        }
        CurveForm::Picture(_) => Ok(line),
    }
}
