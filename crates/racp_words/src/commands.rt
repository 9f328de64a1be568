//! The command that is built of the table of commands.

ghost use Rattle.std.specs.Prelude.{◌≡◌, IfOk, codes, false};
ghost use Rattle.clap.specs.Words.{App, app_of, new_app, rule_of, with_rule, with_subcommand};
ghost use Rattle.racp_words.specs.CommandLine.{racp, with_version};
ghost use Rattle.racp_words.specs.Commands.{IsCommandOf, app_of_line, rule_of_word, with_lines};
ghost use Rattle.racp_words.specs.Rules.{flag_rule, lettered, ranged_rule, text_rule};

use crate::table::{COMMANDS, Line, Word};
use crate::tools::{MAKERS, TOOLS};
use clap::builder::ValueParser;
use clap::{Arg, ArgAction, Command};
use std::alloc::{AllocError, Global};

/// The version, and what the program was proved with: the logic is named by its sum, which several kits of the
/// toolchain share.
const VERSION: &str = "0.1.0\nproved with Rattle, logic dac8208d650f15bf";

/// What stands after the list of commands.
const BEHIND_HELP: &str =
    "A network is a text as those of PSPLIB (.sm). An order is a text in TOML: \
deadline = 49, prices = [3, 5, 2, 7].

Examples:
  racp import tasks.csv --out net          a network of a table of tasks: net.sm and net.names
  racp cpm net.sm                          the critical length and the early starts
  racp order net.sm --factor 1.2 --prices 3,5 > order.toml
  racp plan net.sm order.toml > net.plan   the cheapest capacities, with the least starts
  racp show net.sm order.toml net.plan     a chart of the plan
  racp report net.sm order.toml net.plan > plan.html
  racp export net.sm order.toml net.plan --to ics --calendar work.toml > plan.ics
  racp curve net.sm order.toml             what each deadline costs
  racp soonest net.sm team.toml            how soon, with the units that there are
  racp whatif net.sm order.toml            what one unit fewer or more changes
  racp batch *.sm --factors 1.0,1.2        a table of what each network costs
  racp check net.sm order.toml net.plan    whether a plan is right
  racp prove net.sm order.toml > net.proof
  racp verify net.sm order.toml net.plan net.proof
  racp explain sm 12                       what a refusal means, and what helps

A file named - is standard input. What is wrong is told on standard error.

Exit status:
  0  done                       5  a text is refused
  2  the words are refused      6  no memory
  3  there is no plan           7  a file, a stream or a thread failed
  4  it was stopped             8  a plan is not right, or is not proved

Proved with Rattle, logic dac8208d650f15bf.";

/// The commands of the program, with their words.
pub(crate) fn command<'a>(alloc: Global) -> Result<Command<'a>, AllocError>
    ensures { IfOk result (λ command. app_of command ≡ racp) }
{
    let planning = with_commands(alloc, program(alloc), COMMANDS)?;
    let charting = with_commands(alloc, planning, TOOLS)?;
    with_commands(alloc, charting, MAKERS)
}

/// A line for each command: its name, and what help says of it.
///
/// # Errors
///
/// Memory was refused.
pub fn command_list(alloc: Global) -> Result<String, AllocError> {
    let mut list = String::new(alloc);
    push_lines(&mut list, COMMANDS)?;
    push_lines(&mut list, TOOLS)?;
    push_lines(&mut list, MAKERS)?;
    Ok(list)
}

/// Adds the lines of these commands.
fn push_lines(list: &mut String, lines: &[Line<'_>]) -> Result<(), AllocError> {
    for line in lines {
        let (name, about) = (line.name, line.about);
        write!(list, "  {name:<7}  {about}\n")?;
    }
    Ok(())
}

/// The program with a command for each line of a table.
fn with_commands<'a>(
    alloc: Global,
    program: Command<'a>,
    lines: &[Line<'a>],
) -> Result<Command<'a>, AllocError>
    ensures { (app : App) → app_of program.entry ≡ app
        → IfOk result (λ command. app_of command ≡ with_lines app lines.now) }
{
    let mut command = Ok(program);
    for line in lines {
        command = with_command(command, command_of(alloc, line));
    }
    command
}

/// The program, without its commands.
fn program<'a>(alloc: Global) -> Command<'a>
    ensures { app_of result ≡ with_version (new_app (codes "racp")) }
{
    Command::new(alloc, "racp")
        .about("Plans the capacities of a project. Without words: cpm, from standard input")
        .version("0.1.0")
        .long_version(VERSION)
        .after_long_help(BEHIND_HELP)
}

/// The command of a line of the table.
fn command_of<'a>(alloc: Global, line: &Line<'a>) -> Result<Command<'a>, AllocError>
    ensures { IfOk result (IsCommandOf (app_of_line line.now)) }
{
    let mut command = Ok(
        Command::new(alloc, line.name)
            .about(line.about)
            .after_help(line.example),
    );
    for word in line.words {
        command = with_argument(command, argument_of(alloc, word));
    }
    command
}

/// The command with another below it, if there are both.
fn with_command<'a>(
    command: Result<Command<'a>, AllocError>,
    below: Result<Command<'a>, AllocError>,
) -> Result<Command<'a>, AllocError>
    ensures { (app sub : App) → IfOk command.entry (λ command. app_of command ≡ app) → IfOk below.entry (IsCommandOf sub)
        → IfOk result (λ command. app_of command ≡ with_subcommand app sub.top) }
{
    command?.subcommand(below?)
}

/// The command with another argument, if there is one.
fn with_argument<'a>(
    command: Result<Command<'a>, AllocError>,
    argument: Arg<'a>,
) -> Result<Command<'a>, AllocError>
    ensures { (app : App) → argument.entry.global ≡ false → IfOk command.entry (IsCommandOf app)
        → IfOk result (IsCommandOf (with_rule app (rule_of argument.entry))) }
{
    command?.arg(argument)
}

/// The argument that a word of the table tells.
fn argument_of<'a>(alloc: Global, word: &Word<'a>) -> Arg<'a>
    ensures rule { rule_of result ≡ rule_of_word word.now }
    ensures own { result.global ≡ false }
{
    match *word {
        Word::File(id, help) => Arg::new(alloc, id).required(true).help(help),
        Word::Files(id, help) => Arg::new(alloc, id)
            .required(true)
            .num_args(1..)
            .action(ArgAction::Append)
            .help(help),
        Word::Optional(id, help) => Arg::new(alloc, id).help(help),
        Word::Number(id, name, most, help) => {
            grouped(number_option(alloc, id, name, 1, most).help(help), id)
        },
        Word::Lettered(letter, id, name, most, help) => {
            grouped(
                number_option(alloc, id, name, 0, most)
                    .short(letter)
                    .help(help),
                id,
            )
        },
        Word::Text(id, name, help) => grouped(text_option(alloc, id, name).help(help), id),
        Word::Needed(id, name, help) => text_option(alloc, id, name).required(true).help(help),
        Word::Flag(id, help) => grouped(flag(alloc, id).help(help), id),
        Word::Switch(letter, id, help) => grouped(flag(alloc, id).short(letter).help(help), id),
    }
}

/// An option of this name, in the group of options among which help shows it.
fn grouped<'a>(option: Arg<'a>, id: &str) -> Arg<'a>
    ensures rule { rule_of result ≡ rule_of option.entry }
    ensures own { result.global ≡ option.entry.global }
{
    match group_of(id) {
        Some(group) => option.help_heading(group),
        None => option,
    }
}

/// The group of options among which help shows the one of this name; `None` if that is the first.
fn group_of(id: &str) -> Option<&'static str> {
    match id {
        "workers" | "turns" | "memory" | "time-limit" | "jobs" | "facts" => Some("Search"),
        "svg" | "json" | "csv" | "ascii" | "width" | "links" => Some("Answer"),
        "stats" | "progress" | "explain" | "quiet" => Some("Standard error"),
        _ => None,
    }
}

/// An option whose word is a number from `least` to `most`; help shows it by this name.
fn number_option<'a>(alloc: Global, id: &'a str, name: &'a str, least: u64, most: u64) -> Arg<'a>
    ensures rule { rule_of result ≡ ranged_rule id.entry.now least most }
    ensures own { result.global ≡ false }
{
    let parser = ValueParser::unsigned(least, most);
    text_option(alloc, id, name).value_parser(parser)
}

/// An option whose word is any text; help shows it by this name.
fn text_option<'a>(alloc: Global, id: &'a str, name: &'a str) -> Arg<'a>
    ensures rule { rule_of result ≡ text_rule id.entry.now }
    ensures own { result.global ≡ false }
{
    Arg::new(alloc, id).long(id).value_name(name)
}

/// An option without a word.
fn flag<'a>(alloc: Global, id: &'a str) -> Arg<'a>
    ensures rule { rule_of result ≡ flag_rule id.entry.now }
    ensures own { result.global ≡ false }
{
    Arg::new(alloc, id).long(id).action(ArgAction::SetTrue)
}
