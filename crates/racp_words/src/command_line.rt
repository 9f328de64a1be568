//! The words of the command line, and what they ask for.

ghost use Rattle.std.specs.Prelude.{◌≡◌, ◌≢◌, ℕ, List, Option, Some, IfNone, IfOk, IfSome, MatchResult, map, option_map, string_bytes, codes};
ghost use Rattle.clap.specs.Words.{FailsBy, fault_of, first_value, found_of, kind_of, rows_of, subcommand_rows_of};
ghost use Rattle.clap.specs.declared.error.kind.ErrorKind.TheVariants.{OutOfMemory};
ghost use Rattle.racp_words.specs.CommandLine.{AskFor, IsTask, IsCheckLine, AsksForCheck, IsProveLine, AsksForProve, IsVerifyLine, AsksForVerify, IsVerifyBoundLine, AsksForVerifyBound, IsCpmLine, AsksForCpm, IsPlanLine, AsksForPlan, IsWorkersLine, AsksForWorkers, IsRequested, IsSource, calendar_of, is_json_of, racp, telling_by, telling_of};
ghost use Rattle.racp_words.specs.Rules.{AreOrderFiles, ArePlanFiles, number_in};
ghost use Rattle.racp_words.specs.Tools.{IsNoTool, IsToolOf};

use crate::batch_words::batch_of;
use crate::commands::command;
use crate::options::{crew_of, dates_of, is_set, memory_of, path_of, text_of};
use crate::request::{
    OrderFiles, PlanFiles, ReportWords, Request, Source, Task, Telling, Tool, WhatIfWords,
};
use crate::table_words::table_of;
use crate::tool_words::{export_of, look_of, named_net, terms_of};
use crate::verify_words::verify_of;
use clap::{ArgMatches, Error};
use std::alloc::{AllocError, Global};

/// What the words ask for. The first of them is the program's name.
///
/// # Errors
///
/// The words name no command, or ask for help or for the version; or memory ran out.
pub fn asked<'a>(alloc: Global, words: &'a [String]) -> Result<Task<'a>, Error>
    // Without words, with `cpm`, and with `cpm` and a word that is no option, only memory can fail.
    ensures cpm { (network : Option (List ℕ)) → IsCpmLine (map string_bytes words.entry.now) network
        → MatchResult result (λ task. AsksForCpm network task.request) (λ error. kind_of error ≡ OutOfMemory) }
    // With `plan` and two paths, too.
    ensures plan { (net order : List ℕ) → IsPlanLine (map string_bytes words.entry.now) net order
        → MatchResult result (λ task. AsksForPlan net order task.request) (λ error. kind_of error ≡ OutOfMemory) }
    // With `--workers` and a number from 0 to 64 after these, too.
    ensures workers { (net order number : List ℕ) → IsWorkersLine (map string_bytes words.entry.now) net order number
        → MatchResult result (λ task. AsksForWorkers net order (number_in number) task.request) (λ error. kind_of error ≡ OutOfMemory) }
    // With `prove` and two paths, too.
    ensures prove { (net order : List ℕ) → IsProveLine (map string_bytes words.entry.now) net order
        → MatchResult result (λ task. AsksForProve net order task.request) (λ error. kind_of error ≡ OutOfMemory) }
    // With `check` and three paths, too.
    ensures check { (net order plan_path : List ℕ) → IsCheckLine (map string_bytes words.entry.now) net order plan_path
        → MatchResult result (λ task. AsksForCheck net order plan_path task.request) (λ error. kind_of error ≡ OutOfMemory) }
    // With `verify` and four paths, too.
    ensures verify { (net order plan_path proof : List ℕ) → IsVerifyLine (map string_bytes words.entry.now) net order plan_path proof
        → MatchResult result (λ task. AsksForVerify net order plan_path proof task.request) (λ error. kind_of error ≡ OutOfMemory) }
    // With `verify` and three paths, too.
    ensures verify_bound { (net order proof : List ℕ) → IsVerifyBoundLine (map string_bytes words.entry.now) net order proof
        → MatchResult result (λ task. AsksForVerifyBound net order proof task.request) (λ error. kind_of error ≡ OutOfMemory) }
    // Whatever the words are, the parser's account of them says what they ask for, or why they are refused.
    ensures asked { IfOk result (AskFor (map string_bytes words.entry.now)) }
    ensures faults { FailsBy (fault_of racp (map string_bytes words.entry.now)) result }
{
    let matches = command(alloc)?.try_get_matches_from(words)?;
    let task = task_of(alloc, &matches)?;
    Ok(task)
}

/// What the matches of the words ask for, how much is told of faults, and whether JSON is written.
fn task_of<'a>(alloc: Global, matches: &ArgMatches<'a>) -> Result<Task<'a>, AllocError>
    ensures { IfOk result (IsTask (subcommand_rows_of matches.now)) }
{
    let request = request_of(alloc, matches)?;
    Ok(Task {
        request,
        telling: telling_of(matches),
        is_json: is_json_of(matches),
        calendar: calendar_of(matches),
    })
}

/// How much is told of faults.
fn telling_of(matches: &ArgMatches<'_>) -> Telling
    ensures { result ≡ telling_of (subcommand_rows_of matches.now) }
{
    match entered(matches) {
        Some((_, words)) => telling_by(words),
        None => Telling::Line,
    }
}

/// How much is told of faults by a command with these words.
fn telling_by(words: &ArgMatches<'_>) -> Telling
    ensures { result ≡ telling_by (rows_of (found_of words.now)) }
{
    if is_set(words, "quiet") {
        Telling::Quiet
    } else if is_set(words, "explain") {
        Telling::Whole
    } else {
        Telling::Line
    }
}

/// Whether the answer is written as JSON.
fn is_json_of(matches: &ArgMatches<'_>) -> bool
    ensures { result ≡ is_json_of (subcommand_rows_of matches.now) }
{
    match entered(matches) {
        Some((_, words)) => is_set(words, "json"),
        None => false,
    }
}

/// The path of the calendar that is named.
fn calendar_of<'a>(matches: &ArgMatches<'a>) -> Option<&'a str>
    ensures { option_map (λ word. word.now) result ≡ calendar_of (subcommand_rows_of matches.now) }
{
    match entered(matches) {
        Some((_, words)) => text_of(words, "calendar"),
        None => None,
    }
}

/// What the matches of the words ask for.
fn request_of<'a>(alloc: Global, matches: &ArgMatches<'a>) -> Result<Request<'a>, AllocError>
    ensures { IfOk result (IsRequested (subcommand_rows_of matches.now)) }
{
    match entered(matches) {
        Some((name, words)) => request_among(alloc, name, words),
        None => Ok(Request::Cpm(Source::StandardInput)),
    }
}

/// What a command with this name and these words asks for.
fn request_among<'a>(
    alloc: Global,
    name: &str,
    words: &ArgMatches<'a>,
) -> Result<Request<'a>, AllocError>
    ensures { IfOk result (IsRequested (Some (name.now, rows_of (found_of words.now)))) }
{
    if name == "batch" {
        let table = batch_of(alloc, words)?;
        Ok(Request::Tool(Tool::Batch(table, memory_of(words))))
    } else if name == "import" {
        let tables = table_of(alloc, words)?;
        Ok(Request::Tool(Tool::Import(tables)))
    } else {
        Ok(request_named(name, words))
    }
}

/// The same of a command other than `batch` and `import`.
fn request_named<'a>(name: &str, words: &ArgMatches<'a>) -> Request<'a>
    requires batch { name.now ≢ codes "batch" }
    requires import { name.now ≢ codes "import" }
    ensures { IsRequested (Some (name.now, rows_of (found_of words.now))) result }
{
    if name == "plan" {
        Request::Plan(order_files(words), memory_of(words), crew_of(words))
    } else if name == "prove" {
        let limit = text_of(words, "time-limit");
        Request::Prove(order_files(words), is_set(words, "facts"), limit)
    } else if name == "check" {
        Request::Check(plan_files(words))
    } else if name == "verify" {
        verify_of(words)
    } else {
        match tool_named(name, words) {
            Some(tool) => Request::Tool(tool),
            None => Request::Cpm(network_of(words)),
        }
    }
}

/// The tool with this name other than `batch` and `import` that these words ask for, if there is one of the name.
fn tool_named<'a>(name: &str, words: &ArgMatches<'a>) -> Option<Tool<'a>>
    requires batch { name.now ≢ codes "batch" }
    requires import { name.now ≢ codes "import" }
    ensures some { IfSome result (IsToolOf (name.now, rows_of (found_of words.now))) }
    ensures none { IfNone result (IsNoTool name.now) }
{
    if name == "show" {
        Some(Tool::Show(plan_files(words), look_of(words)))
    } else if name == "report" {
        let options = ReportWords {
            names: text_of(words, "names"),
            curve: text_of(words, "curve"),
            changes: text_of(words, "whatif"),
            proof: text_of(words, "proof"),
            dates: dates_of(words),
        };
        Some(Tool::Report(plan_files(words), options))
    } else if name == "export" {
        Some(Tool::Export(plan_files(words), export_of(words)))
    } else if name == "curve" {
        let files = order_files(words);
        let crew = crew_of(words);
        Some(Tool::Curve(files, memory_of(words), crew, is_set(words, "svg")))
    } else if name == "soonest" {
        Some(Tool::Soonest(order_files(words), memory_of(words), crew_of(words)))
    } else if name == "whatif" {
        let options = WhatIfWords {
            plan: text_of(words, "PLAN"),
            names: text_of(words, "names"),
        };
        let crew = crew_of(words);
        Some(Tool::WhatIf(order_files(words), options, memory_of(words), crew))
    } else if name == "order" {
        Some(Tool::Order(named_net(words), terms_of(words)))
    } else if name == "explain" {
        Some(Tool::Explain(text_of(words, "FORMAT"), text_of(words, "FAULT")))
    } else {
        None
    }
}

/// The files of a network and an order.
fn order_files<'a>(words: &ArgMatches<'a>) -> OrderFiles<'a>
    ensures { AreOrderFiles (rows_of (found_of words.now)) result }
{
    OrderFiles {
        net: path_of(words, "NET"),
        order: path_of(words, "ORDER"),
    }
}

/// The files of a network, an order and a plan.
fn plan_files<'a>(words: &ArgMatches<'a>) -> PlanFiles<'a>
    ensures { ArePlanFiles (rows_of (found_of words.now)) result }
{
    PlanFiles {
        net: path_of(words, "NET"),
        order: path_of(words, "ORDER"),
        plan: path_of(words, "PLAN"),
    }
}

/// The command that the words name, and its own words.
fn entered<'a, 'm>(matches: &'m ArgMatches<'a>) -> Option<(&'a str, &'m ArgMatches<'a>)>
    ensures { option_map (λ command. (command.0.now, rows_of (found_of command.1.now))) result ≡
        subcommand_rows_of matches.now }
{
    matches.subcommand()
}

/// Where the network is read from.
fn network_of<'a>(cpm: &ArgMatches<'a>) -> Source<'a>
    ensures { IsSource (first_value (found_of cpm.now) (codes "NET")) result }
{
    match cpm.get_str("NET") {
        None | Some("-") => Source::StandardInput,
        Some(path) => Source::File(path),
    }
}
