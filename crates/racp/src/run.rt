//! Runs what the command line asks for.

ghost use Rattle.std.specs.Prelude.{◌≡◌, ◌⊎◌, IfOk, IfErr};
ghost use Rattle.racp.specs.Statuses.{IsStatus, IsStatusOfAnswer};
ghost use Rattle.racp_host.specs.declared.failure.Failure.TheVariants as failures;
ghost use Rattle.racp_streams.specs.declared.fault.StreamFault.TheVariants as streams;

use crate::commands::answered;
use racp_cli::StreamFault;
use racp_host::failure::{Failure, refused_words, report};
use racp_host::inputs::told;
use racp_host::machine::Crewed;
use racp_host::telling::Manner;
use racp_words::{Request, Source, Task, asked, command_list};
use std::alloc::Global;
use std::env;
use std::io::ErrorKind;
use std::rt::Env;

/// What a network is read from if standard input is a terminal.
const HINT: &str = "racp: reading a network from the terminal; racp --help lists the commands";

/// What is told of words that ask `plan` for what an order says.
const OF_AN_ORDER: &str =
    "plan takes the deadline and the prices from an order; racp order NET --deadline 47 --prices 3,5 writes one";

/// Which standard streams are terminals.
#[derive(Clone, Copy)]
pub(crate) struct Terminals {
    /// Whether standard input is one.
    pub(crate) input: bool,
    /// Whether standard output is one.
    pub(crate) output: bool,
    /// Whether standard error is one.
    pub(crate) errors: bool,
}

/// Runs the program, and answers its status.
pub(crate) fn status<R: Crewed + Input>(rt: &R, terminals: Terminals) -> u8
    ensures { IsStatus result }
{
    match answer(rt, terminals) {
        Ok(status) => status,
        Err(failure) => report(rt, failure),
    }
}

/// Writes the answer to what the command line asks for.
fn answer<R: Crewed + Input>(rt: &R, terminals: Terminals) -> Result<u8, Failure>
    ensures { IfOk result IsStatusOfAnswer }
{
    let words = words(rt)?;
    let task = task_of(rt.alloc(), &words)?;
    if terminals.input && words.len() < 2 {
        list_commands(rt);
    }
    answer_to(rt, task, terminals)
}

/// What words ask for.
fn task_of<'a>(alloc: Global, words: &'a [String]) -> Result<Task<'a>, Failure> {
    match asked(alloc, words) {
        Ok(task) => Ok(task),
        Err(error) => {
            let hint = if are_of_an_order(words) {
                Some(OF_AN_ORDER)
            } else {
                None
            };
            Err(refused_words(alloc, error, hint))
        }
    }
}

/// Tells on standard error which commands there are; nothing if memory is refused for that.
fn list_commands<R: Eprint + AllocGlobal>(rt: &R) {
    if let Ok(list) = command_list(rt.alloc()) {
        let _ = rt.eprint(format_args!("Commands:\n{list}"));
    }
}

/// Whether words ask `plan` for what an order says.
fn are_of_an_order(words: &[String]) -> bool {
    match words.get(1) {
        Some(command) => command.as_str() == "plan" && words.iter().any(is_of_an_order),
        None => false,
    }
}

/// Whether a word is an option of `order` that says what an order says.
fn is_of_an_order(word: &String) -> bool {
    let name = word.as_str();
    name.starts_with("--deadline") || name.starts_with("--prices") || name.starts_with("--factor")
}

/// Writes the answer to a task, and a hint if a network is read from a terminal.
fn answer_to<R: Crewed + Input>(rt: &R, task: Task<'_>, terminals: Terminals) -> Result<u8, Failure>
    ensures { IfOk result IsStatusOfAnswer }
{
    let Task {
        request,
        telling,
        is_json,
        calendar,
    } = task;
    let manner = Manner {
        telling,
        on_terminal: terminals.errors,
        shows_answer: terminals.output,
        is_json,
    };
    if terminals.input && matches!(&request, Request::Cpm(Source::StandardInput)) {
        let _ = rt.eprintln(HINT);
    }
    match answered(rt, request, manner, calendar) {
        Ok(status) => Ok(status),
        Err(failure) => Err(failure_told(rt.alloc(), failure, manner)),
    }
}

/// A failure as it is told: with nothing of which file it is if nothing is told of that, and else also that standard
/// output takes no more.
fn failure_told(alloc: Global, failure: Failure, manner: Manner) -> Failure {
    match failure {
        Failure::Told(fault, _) if manner.is_quiet() => Failure::Stream(fault),
        Failure::Refused(_) if manner.is_quiet() => Failure::Refused(String::new(alloc)),
        Failure::Stream(StreamFault::Write) if !manner.is_quiet() => told(
            alloc,
            StreamFault::Write,
            "standard output",
            &"it takes no more: it is closed or full",
        ),
        failure => failure,
    }
}

/// The words of the command line, of which the first is the program's name.
fn words<R: Env + AllocGlobal>(rt: &R) -> Result<Vec<String>, Failure>
    ensures { IfErr result (λ failure. (failure ≡ failures.NotText) ⊎ (failure ≡ failures.Stream streams.Memory)) }
{
    match env::args(rt) {
        Ok(words) => Ok(words.collect(rt.alloc())?),
        Err(error) if error.kind() == ErrorKind::OutOfMemory => {
            Err(Failure::Stream(StreamFault::Memory))
        }
        Err(_) => Err(Failure::NotText),
    }
}
