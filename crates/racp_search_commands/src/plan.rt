//! `plan`: runs it, alone or by workers.

ghost use Rattle.std.specs.Prelude.{IfOk};
ghost use Rattle.racp_search_commands.specs.Statuses.{IsStatusOfSearch};

use crate::earlier::earlier_plan;
use crate::needed::cause_of;
use crate::plan_by_crew::{Made, plan_kept};
use racp_cli::{STOPPED, run_over_within};
use racp_explain::Input as Text;
use racp_host::answer::Answer;
use racp_host::best::begin_best;
use racp_host::failure::Failure;
use racp_host::inputs::{Inputs, STANDARD_INPUT};
use racp_host::machine::Crewed;
use racp_host::making::{Making, crew_of};
use racp_host::shown::Shown;
use racp_host::telling::end;
use racp_json::{Command, FileNames, Told};
use racp_words::{CrewOptions, Memory, OrderFiles};
use std::io::Read;

/// The plan of these files.
pub fn run<R: Crewed>(rt: &R, files: OrderFiles<'_>, making: Making<'_>) -> Result<u8, Failure>
    ensures { IfOk result IsStatusOfSearch }
{
    let paths = [Some(files.net), Some(files.order)];
    let inputs = Inputs::read(rt, &paths)?;
    let (net, order) = (inputs.text(0), inputs.text(1));
    let before = begin_best(rt, making.best(), &[files.net, files.order])?;
    let earlier = earlier_plan(rt.alloc(), net.bytes, order.bytes, &before);
    plan_told(rt, &net, &order, Making { earlier, ..making })
}

/// The plan of these texts: made by workers if there is a crew, and else on one thread.
fn plan_told<'a, R: Crewed>(
    rt: &R,
    net: &Text<'a>,
    order: &Text<'a>,
    making: Making<'a>,
) -> Result<u8, Failure>
    ensures { IfOk result IsStatusOfSearch }
{
    let (manner, calendar) = (making.manner, making.calendar);
    let word = word_to_prove(making.crew);
    let made = plan_of(rt, net.bytes, order.bytes, making)?;
    let status = made.status;
    if status == STOPPED && !manner.is_quiet() {
        tell_command(rt, net.name, order.name, word);
    }
    let cause = if manner.looks(status) {
        cause_of(rt, net, order)
    } else {
        Ok(String::new(rt.alloc()))
    };
    let told = Told {
        command: Command::Plan,
        status,
        text: &made.text,
        net: net.bytes,
        order: order.bytes,
        best: &made.best,
        files: FileNames {
            net: net.name,
            order: order.name,
            plan: "",
            proof: "",
        },
        work: made.work,
        calendar,
    };
    end(rt, manner, &told, cause)?;
    Ok(status)
}

/// The word for the time after which planning stops, if the best plan is kept, too.
fn word_to_prove<'a>(crew: Option<CrewOptions<'a>>) -> Option<&'a str> {
    match crew {
        Some(
            CrewOptions {
                best: Some(_),
                time_limit,
                ..
            },
        ) => time_limit,
        _ => None,
    }
}

/// Tells on standard error which command makes a certificate of what each plan of these files costs at least, in the time of a
/// word, if there is one.
fn tell_command<R: Eprint + AllocGlobal>(rt: &R, net: &str, order: &str, word: Option<&str>) {
    let Some(word) = word else {
        return;
    };
    if net == STANDARD_INPUT || order == STANDARD_INPUT {
        return;
    }
    if let Ok(words) = format!(in rt.alloc();
        "a certificate of a bound: racp prove {net} {order} --facts --time-limit {word}"
    ) {
        let _ = rt.eprintln(Shown::of(&words));
    }
}

/// Writes the plan for the texts of a network and an order, or why there is none: made by workers if there is a crew, and
/// else on one thread.
fn plan_of<'a, R: Crewed>(
    rt: &R,
    net: &'a [u8],
    order: &'a [u8],
    making: Making<'a>,
) -> Result<Made, Failure>
    ensures { IfOk result (λ made. IsStatusOfSearch made.status) }
{
    match crew_of(rt, making.crew, making.manner.is_json) {
        Some(crew) => plan_kept(rt, net, order, crew, making),
        None => {
            let (mut network, mut terms) = (net, order);
            let status = plan_alone(rt, &mut network, &mut terms, making.memory)?;
            Ok(Made::written(rt.alloc(), status))
        }
    }
}

/// Writes the plan for a network and an order that are read there, made on one thread, or why there is none.
fn plan_alone<R: Print + AllocGlobal, N: Read, O: Read>(
    rt: &R,
    net: &mut N,
    order: &mut O,
    memory: Memory,
) -> Result<u8, Failure>
    ensures { IfOk result IsStatusOfSearch }
{
    let mut out = Answer::to(rt);
    let status = run_over_within(rt.alloc(), net, order, &mut out, memory.mebibytes);
    out.ended(status)
}
