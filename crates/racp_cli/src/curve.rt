//! `curve`: what each deadline up to that of an order costs.

ghost use Rattle.std.specs.Prelude.{◌≡◌, ◌≤◌, IfOk, map};
ghost use Rattle.racp_model.specs.Project.{Project};
ghost use Rattle.racp_model.specs.Terms.{AreTermsOf};
ghost use Rattle.racp_curve.specs.Curves.{IsCurveAnswer as IsAnswerOfCurve};
ghost use Rattle.racp_cli.specs.CurveAnswers.{IsCurveAnswer, IsCurveRun, IsCurveText, IsToldCurve, corner_of};
ghost use Rattle.racp_charts.specs.Pictures.{IsCostPicture};

use crate::respond::respond;
use crate::status::{DONE, IMPOSSIBLE};
use crate::texts::read_texts;
use racp_calendar::Calendar;
use racp_charts::{Corner, costs_svg};
use racp_curve::{CurveAnswer, Step, curve_alone, curve_text};
use racp_lexfix::answer_lines;
use racp_model::Network;
use racp_prices::Order;
use racp_streams::{StreamFault, read_whole};
use std::alloc::{AllocError, Global};
use std::io::{Read, Write};

/// What a curve is written as.
#[derive(Clone, Copy)]
pub enum CurveForm<'a> {
    /// A line for each step.
    Lines,
    /// A picture in SVG, whose deadlines are told by a calendar.
    Picture(Calendar<'a>),
}

/// Reads a network text and an order text, all of each before the next, and writes to `out` what each deadline up to
/// the order's costs, or a line that says why there is no plan. The plans are made on the calling thread, with records
/// of refuted nodes that take at most about this many mebibytes, up to 1,048,576. Returns the status that belongs to
/// what was written: 0 for the curve, as lines or as a picture in SVG, 3 if there is no plan, 5 if a text is refused, 6
/// if memory ran out.
///
/// # Errors
///
/// After these nothing was written: `Read`, a read failed; `TooLong`, a reader has more than 16,777,216 bytes;
/// `Memory`, memory for an input was refused. After `Write`, a write failed or took no byte, and what is out is a
/// beginning of the text.
pub fn curve_over<N: Read, O: Read, W: Write>(
    alloc: Global,
    net: &mut N,
    order: &mut O,
    mebibytes: usize,
    form: CurveForm<'_>,
    out: &mut W,
) -> Result<u8, StreamFault>
    requires { mebibytes ≤ 1048576 }
    ensures { IsCurveRun form.entry (record { unread = N.remaining net.old; left = N.remaining net.new })
        (record { unread = O.remaining order.old; left = O.remaining order.new })
        (W.contents out.old) (W.contents out.new) result }
{
    let net = read_whole(alloc, net)?;
    let order = read_whole(alloc, order)?;
    respond(answer(alloc, &net, &order, mebibytes, form), out)
}

/// The status and the text of the answer to the texts of a network and an order.
fn answer(
    alloc: Global,
    net: &[u8],
    order: &[u8],
    mebibytes: usize,
    form: CurveForm<'_>,
) -> Result<(u8, Vec<u8>), AllocError>
    requires { mebibytes ≤ 1048576 }
    ensures { IfOk result (λ answer. IsCurveAnswer form.entry net.now order.now answer.0 answer.1.items) }
{
    match read_texts(alloc, net, order) {
        Ok((net, order)) => told(alloc, &net, &order, mebibytes, form),
        Err(refused) => refused,
    }
}

/// The status and the text of the curve, or of the reason why there is no plan.
fn told(
    alloc: Global,
    net: &Network,
    order: &Order,
    mebibytes: usize,
    form: CurveForm<'_>,
) -> Result<(u8, Vec<u8>), AllocError>
    requires memory { mebibytes ≤ 1048576 }
    requires terms { AreTermsOf net.now order.now }
    ensures { IfOk result (λ answer. IsToldCurve form.entry net.now order.now answer.0 answer.1.items) }
{
    match curve_alone(alloc, net, order, mebibytes) {
        Ok(answer) => curve_answer(alloc, order, answer, form),
        // On one thread this ends early only if memory runs out.
        Err(_) => Err(AllocError),
    }
}

/// The status and the text of a curve for these terms, or of the reason why there is no plan.
pub(crate) fn curve_answer(
    alloc: Global,
    order: &Order,
    answer: CurveAnswer,
    form: CurveForm<'_>,
) -> Result<(u8, Vec<u8>), AllocError>
    ensures { (network : Project) → IsAnswerOfCurve network order.now answer →
        IfOk result (λ answer. IsToldCurve form.entry network order.now answer.0 answer.1.items) }
{
    match answer {
        CurveAnswer::Steps(steps) => {
            let text = text_of(alloc, &steps, order.deadline, form)?;
            Ok((DONE, text))
        }
        CurveAnswer::NoPlan(reason) => {
            Ok((IMPOSSIBLE, answer_lines(alloc, order.deadline, &reason)?))
        }
    }
}

/// The steps of a curve up to a last deadline as lines, or as a picture.
fn text_of(
    alloc: Global,
    steps: &[Step],
    last: u32,
    form: CurveForm<'_>,
) -> Result<Vec<u8>, AllocError>
    ensures { IfOk result (λ text. IsCurveText form.entry last steps.now text.items) }
{
    match form {
        CurveForm::Lines => curve_text(alloc, steps),
        CurveForm::Picture(calendar) => picture(alloc, steps, last, calendar),
    }
}

/// The picture of a curve up to a last deadline.
fn picture(
    alloc: Global,
    steps: &[Step],
    last: u32,
    calendar: Calendar<'_>,
) -> Result<Vec<u8>, AllocError>
    ensures { IfOk result (λ text. IsCostPicture calendar.entry (map corner_of steps.now) last text.items) }
{
    let corners = corners_of(alloc, steps)?;
    let picture = costs_svg(alloc, &corners, last, calendar)?;
    Ok(picture.into_bytes())
}

/// The corners of a curve.
fn corners_of(alloc: Global, steps: &[Step]) -> Result<Vec<Corner>, AllocError>
    ensures { IfOk result (λ corners. corners.items ≡ map corner_of steps.now) }
{
    let mut corners = Vec::new(alloc);
    for step in steps {
        corners.push(Corner {
            deadline: step.deadline as u64,
            cost: step.cost,
        })?;
    }
    Ok(corners)
}
