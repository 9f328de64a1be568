//! `show`: runs it.

ghost use Rattle.std.specs.Prelude.{IfOk};
ghost use Rattle.racp_plan_commands.specs.Statuses.{IsStatusOfPlan};

use racp_calendar::Calendar;
use racp_cli::{Look, show_over};
use racp_explain::{Input as Text, shown_cause};
use racp_host::answer::Answer;
use racp_host::dates::{calendar_of, workdays_of};
use racp_host::failure::{Failure, OptionFault};
use racp_host::inputs::Inputs;
use racp_host::machine::Machine;
use racp_host::telling::{Manner, tell};
use racp_show::Form;
use racp_words::PlanFiles;
use std::alloc::{AllocError, Global};
use std::env;
use std::rt::Env;

/// The variable of the environment that says how wide the terminal is.
const VARIABLE: &str = "COLUMNS";

/// The texts of a picture.
#[derive(Clone, Copy)]
struct Texts<'a> {
    net: Text<'a>,
    order: Text<'a>,
    plan: Text<'a>,
    names: Text<'a>,
}

/// The form of a picture.
#[derive(Clone, Copy)]
struct Shape {
    /// How many columns a line has at most.
    width: usize,
    /// What is written.
    form: Form,
    /// Whether there are arrows.
    has_links: bool,
}

/// How many columns a line has if nothing says so.
const DEFAULT_WIDTH: usize = 80;

/// How many columns a line has at most: as an option says, or else the variable of the terminal's width, or 80.
fn width_of<R: Env + AllocGlobal>(rt: &R, asked: Option<u64>) -> usize {
    match asked {
        Some(width) => width as usize,
        None => match env::var(rt, VARIABLE) {
            Ok(text) => text.parse().unwrap_or(DEFAULT_WIDTH),
            Err(_) => DEFAULT_WIDTH,
        },
    }
}

/// Writes a picture of the plan in these files.
pub fn run<R: Machine>(
    rt: &R,
    files: PlanFiles<'_>,
    look: racp_words::Look<'_>,
    manner: Manner,
) -> Result<u8, Failure>
    ensures { IfOk result IsStatusOfPlan }
{
    test_idle(&look)?;
    let workdays = workdays_of(rt, look.dates)?;
    let calendar = calendar_of(&workdays);
    let paths = [
        look.names,
        Some(files.net),
        Some(files.order),
        Some(files.plan),
    ];
    let shape = Shape {
        width: width_of(rt, look.width),
        form: look.form,
        has_links: look.has_links,
    };
    let inputs = Inputs::read(rt, &paths)?;
    let texts = texts_of(&inputs);
    let status = show_of(rt, texts, shape, calendar)?;
    if manner.tells(status) {
        tell(rt, manner, cause(rt.alloc(), texts));
    }
    Ok(status)
}

/// Refuses options that would do nothing in this form.
fn test_idle(look: &racp_words::Look<'_>) -> Result<(), OptionFault> {
    if look.are_several {
        return Err(OptionFault::Forms);
    }
    match look.form {
        Form::Text | Form::Ascii | Form::Json | Form::Csv if look.has_links => {
            Err(OptionFault::Links)
        }
        Form::Svg | Form::Json | Form::Csv if look.width.is_some() => Err(OptionFault::Width),
        _ => Ok(()),
    }
}

/// The texts of a picture, of its files in the order in which they are opened.
fn texts_of<'a>(inputs: &'a Inputs<'_>) -> Texts<'a> {
    Texts {
        net: inputs.text(1),
        order: inputs.text(2),
        plan: inputs.text(3),
        names: inputs.text(0),
    }
}

/// Writes a picture of the plan in these texts.
fn show_of<R: Print + AllocGlobal>(
    rt: &R,
    texts: Texts<'_>,
    shape: Shape,
    calendar: Calendar<'_>,
) -> Result<u8, Failure>
    ensures { IfOk result IsStatusOfPlan }
{
    let (mut net, mut order) = (texts.net.bytes, texts.order.bytes);
    let mut plan = texts.plan.bytes;
    let look = Look {
        width: shape.width,
        form: shape.form,
        has_links: shape.has_links,
        calendar,
        names: texts.names.bytes,
    };
    let mut out = Answer::to(rt);
    let status = show_over(rt.alloc(), &mut net, &mut order, &mut plan, look, &mut out);
    out.ended(status)
}

/// What is wrong with the texts.
fn cause(alloc: Global, texts: Texts<'_>) -> Result<String, AllocError> {
    shown_cause(alloc, &texts.net, &texts.order, &texts.plan, &texts.names)
}
