//! `export`: runs it.

ghost use Rattle.std.specs.Prelude.{IfOk};
ghost use Rattle.racp_plan_commands.specs.Statuses.{IsStatusOfPlan};

use racp_calendar::Calendar;
use racp_cli::{Target, export_over};
use racp_explain::{Input as Text, shown_cause};
use racp_export::Format;
use racp_host::answer::Answer;
use racp_host::dates::{calendar_of, named_calendar};
use racp_host::failure::{Failure, OptionFault};
use racp_host::inputs::Inputs;
use racp_host::machine::Machine;
use racp_host::telling::{Manner, tell};
use racp_words::{ExportWords, PlanFiles};
use std::alloc::{AllocError, Global};

/// What is told if nothing is wrong with the texts, and no plan is written.
const NO_DAY: &str =
    "racp: the calendar has no date for the deadline or the day after it: they end with the year 9999";

/// The texts of an export.
#[derive(Clone, Copy)]
struct Texts<'a> {
    net: Text<'a>,
    order: Text<'a>,
    plan: Text<'a>,
    names: Text<'a>,
}

/// Writes the plan in these files for other programs.
pub fn run<R: Machine>(
    rt: &R,
    files: PlanFiles<'_>,
    options: ExportWords<'_>,
    manner: Manner,
) -> Result<u8, Failure>
    ensures { IfOk result IsStatusOfPlan }
{
    let format = format_of(options.to)?;
    let workdays = named_calendar(rt, Some(options.calendar))?;
    let calendar = calendar_of(&workdays);
    let paths = [
        options.names,
        Some(files.net),
        Some(files.order),
        Some(files.plan),
    ];
    let inputs = Inputs::read(rt, &paths)?;
    let texts = texts_of(&inputs);
    let status = export_of(rt, texts, format, calendar)?;
    if manner.tells(status) {
        tell(rt, manner, cause(rt.alloc(), texts));
    }
    Ok(status)
}

/// The format that a word names.
fn format_of(word: &str) -> Result<Format, OptionFault> {
    match word {
        "ics" => Ok(Format::Events),
        "csv" => Ok(Format::Csv),
        "md" => Ok(Format::Markdown),
        "mspdi" => Ok(Format::MsProject),
        "tjp" => Ok(Format::TaskJuggler),
        _ => Err(OptionFault::Export),
    }
}

/// The texts of an export, of its files in the order in which they are opened.
fn texts_of<'a>(inputs: &'a Inputs<'_>) -> Texts<'a> {
    Texts {
        net: inputs.text(1),
        order: inputs.text(2),
        plan: inputs.text(3),
        names: inputs.text(0),
    }
}

/// Writes the plan in these texts in a format.
fn export_of<R: Print + AllocGlobal>(
    rt: &R,
    texts: Texts<'_>,
    format: Format,
    calendar: Calendar<'_>,
) -> Result<u8, Failure>
    ensures { IfOk result IsStatusOfPlan }
{
    let (mut net, mut order) = (texts.net.bytes, texts.order.bytes);
    let mut plan = texts.plan.bytes;
    let target = Target {
        format,
        calendar,
        names: texts.names.bytes,
    };
    let mut out = Answer::to(rt);
    let status = export_over(
        rt.alloc(),
        &mut net,
        &mut order,
        &mut plan,
        target,
        &mut out,
    );
    out.ended(status)
}

/// What is wrong with the texts, or that days have no dates.
fn cause(alloc: Global, texts: Texts<'_>) -> Result<String, AllocError> {
    let cause = shown_cause(alloc, &texts.net, &texts.order, &texts.plan, &texts.names)?;
    if cause.is_empty() {
        String::from_str(alloc, NO_DAY)
    } else {
        Ok(cause)
    }
}
