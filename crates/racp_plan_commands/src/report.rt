//! `report`: runs it.

ghost use Rattle.std.specs.Prelude.{IfOk};
ghost use Rattle.racp_plan_commands.specs.Statuses.{IsStatusOfPlan};

use racp_calendar::Calendar;
use racp_cli::{CHECK_FAILED, Page, report_over};
use racp_explain::{Input as Text, changes_cause, curve_cause, proof_cause, shown_cause};
use racp_host::answer::Answer;
use racp_host::dates::{calendar_of, workdays_of};
use racp_host::failure::Failure;
use racp_host::inputs::Inputs;
use racp_host::machine::Machine;
use racp_host::telling::{Manner, tell};
use racp_words::{PlanFiles, ReportWords};
use std::alloc::{AllocError, Global};

/// The texts of a page.
#[derive(Clone, Copy)]
struct Texts<'a> {
    net: Text<'a>,
    order: Text<'a>,
    plan: Text<'a>,
    names: Text<'a>,
    curve: Option<Text<'a>>,
    changes: Option<Text<'a>>,
    proof: Option<Text<'a>>,
}

/// Writes a page about the plan in these files.
pub fn run<R: Machine>(
    rt: &R,
    files: PlanFiles<'_>,
    options: ReportWords<'_>,
    manner: Manner,
) -> Result<u8, Failure>
    ensures { IfOk result IsStatusOfPlan }
{
    let workdays = workdays_of(rt, options.dates)?;
    let calendar = calendar_of(&workdays);
    let paths = [
        options.names,
        options.curve,
        options.changes,
        options.proof,
        Some(files.net),
        Some(files.order),
        Some(files.plan),
    ];
    let inputs = Inputs::read(rt, &paths)?;
    let texts = texts_of(&inputs);
    let status = report_of(rt, texts, calendar)?;
    if manner.tells(status) {
        tell(rt, manner, cause(rt.alloc(), texts, status));
    }
    Ok(status)
}

/// The texts of a page, of its files in the order in which they are opened.
fn texts_of<'a>(inputs: &'a Inputs<'_>) -> Texts<'a> {
    Texts {
        net: inputs.text(4),
        order: inputs.text(5),
        plan: inputs.text(6),
        names: inputs.text(0),
        curve: inputs.text_if(1),
        changes: inputs.text_if(2),
        proof: inputs.text_if(3),
    }
}

/// The bytes of a text, if there is one.
fn bytes_of<'a>(text: Option<Text<'a>>) -> Option<&'a [u8]> {
    match text {
        Some(text) => Some(text.bytes),
        None => None,
    }
}

/// Writes a page about the plan in these texts.
fn report_of<R: Print + AllocGlobal>(
    rt: &R,
    texts: Texts<'_>,
    calendar: Calendar<'_>,
) -> Result<u8, Failure>
    ensures { IfOk result IsStatusOfPlan }
{
    let (mut net, mut order) = (texts.net.bytes, texts.order.bytes);
    let mut plan = texts.plan.bytes;
    let page = Page {
        names: texts.names.bytes,
        curve: bytes_of(texts.curve),
        changes: bytes_of(texts.changes),
        proof: bytes_of(texts.proof),
        calendar,
    };
    let mut out = Answer::to(rt);
    let status = report_over(rt.alloc(), &mut net, &mut order, &mut plan, page, &mut out);
    out.ended(status)
}

/// What is wrong with the texts of a page, of which this is the status.
fn cause(alloc: Global, texts: Texts<'_>, status: u8) -> Result<String, AllocError> {
    let (net, order, plan) = (&texts.net, &texts.order, &texts.plan);
    match texts.proof {
        // The plan has a fault, or else the text shows nothing of it.
        Some(proof) if status == CHECK_FAILED => proof_cause(alloc, net, order, plan, proof.name),
        _ => of_page(alloc, texts),
    }
}

/// What is wrong with the texts of a page but for that of a certificate.
fn of_page(alloc: Global, texts: Texts<'_>) -> Result<String, AllocError> {
    let cause = shown_cause(alloc, &texts.net, &texts.order, &texts.plan, &texts.names)?;
    if cause.is_empty() {
        of_beside(alloc, texts)
    } else {
        Ok(cause)
    }
}

/// What is wrong with the texts that a page has beside a plan; nothing of a curve that is right.
fn of_beside(alloc: Global, texts: Texts<'_>) -> Result<String, AllocError> {
    if let Some(curve) = texts.curve {
        let cause = curve_cause(alloc, &texts.net, &curve)?;
        if !cause.is_empty() {
            return Ok(cause);
        }
    }
    match texts.changes {
        Some(changes) => changes_cause(alloc, &changes),
        None => Ok(String::new(alloc)),
    }
}
