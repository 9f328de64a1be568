//! The command that a request names.

ghost use Rattle.std.specs.Prelude.{IfOk};
ghost use Rattle.racp.specs.Statuses.{IsStatusOfAnswer};
ghost use Rattle.racp_search_commands.specs.Statuses.{IsStatusOfSearch};
ghost use Rattle.racp_plan_commands.specs.Statuses.{IsStatusOfPlan};
ghost use Rattle.racp_input_commands.specs.Statuses.{IsStatusOfInput};

use crate::explain::explain;
use racp_host::dates::{calendar_for_json, calendar_of, named_calendar};
use racp_host::failure::{Failure, OptionFault};
use racp_host::machine::Crewed;
use racp_host::making::Making;
use racp_host::seconds::time_limit;
use racp_host::telling::Manner;
use racp_input_commands::{import, order};
use racp_plan_commands::verify::Verifying;
use racp_plan_commands::verify_bound::Bounding;
use racp_plan_commands::{check, cpm, export, report, show, verify, verify_bound};
use racp_search_commands::curve::Costing;
use racp_search_commands::prove::Proving;
use racp_search_commands::{batch, curve, plan, prove, soonest, whatif};
use racp_words::{Request, Tool};

/// Writes the answer to a request. What is wrong with the inputs is told in this manner. A path may name a calendar.
pub(crate) fn answered<R: Crewed + Input>(
    rt: &R,
    request: Request<'_>,
    manner: Manner,
    calendar: Option<&str>,
) -> Result<u8, Failure>
    ensures { IfOk result IsStatusOfAnswer }
{
    match request {
        Request::Cpm(network) => of_plan(cpm::run(rt, network, manner)),
        Request::Plan(files, memory, crew) => {
            let workdays = calendar_for_json(rt, calendar, manner.is_json)?;
            let making = Making::of(memory, crew, manner, calendar_of(&workdays))?;
            of_search(plan::run(rt, files, making))
        }
        Request::Prove(files, by_clauses, word) => {
            of_search(prove::run(rt, Proving::of(files, by_clauses, word, manner)?))
        }
        Request::Check(files) => of_plan(check::run(rt, files, manner)),
        Request::Verify(files, word) => {
            let limit = time_limit(word)?;
            let asked = Verifying {
                files,
                limit,
                manner,
            };
            of_plan(verify::run(rt, asked))
        }
        Request::VerifyBound(files, word) => {
            let limit = time_limit(word)?;
            let asked = Bounding {
                files,
                limit,
                manner,
            };
            of_plan(verify_bound::run(rt, asked))
        }
        Request::Tool(asked) => tool(rt, asked, manner, calendar),
    }
}

/// Writes the answer to what a command that goes with plans asks for, in the same way.
fn tool<R: Crewed>(
    rt: &R,
    tool: Tool<'_>,
    manner: Manner,
    calendar: Option<&str>,
) -> Result<u8, Failure>
    ensures { IfOk result IsStatusOfAnswer }
{
    match tool {
        Tool::Show(files, look) => of_plan(show::run(rt, files, look, manner)),
        Tool::Report(files, options) => of_plan(report::run(rt, files, options, manner)),
        Tool::Export(files, options) => of_plan(export::run(rt, files, options, manner)),
        Tool::Curve(_, _, _, true) if manner.is_json => {
            Err(Failure::Option(OptionFault::CurveForms))
        },
        Tool::Curve(files, memory, crew, is_drawn) => {
            let workdays = if is_drawn {
                named_calendar(rt, calendar)?
            } else {
                calendar_for_json(rt, calendar, manner.is_json)?
            };
            let costing = Costing {
                making: Making::of(memory, crew, manner, calendar_of(&workdays))?,
                is_drawn,
            };
            of_search(curve::run(rt, files, costing))
        }
        Tool::Soonest(files, memory, crew) => {
            let making = Making::of(memory, crew, manner, calendar_of(&None))?;
            of_search(soonest::run(rt, files, making))
        }
        Tool::WhatIf(files, options, memory, crew) => {
            let workdays = named_calendar(rt, calendar)?;
            let making = Making::of(memory, crew, manner, calendar_of(&workdays))?;
            of_search(whatif::run(rt, files, options, making))
        }
        Tool::Order(files, terms) => of_input(order::run(rt, files, &terms, manner)),
        Tool::Batch(words, memory) => {
            let workdays = named_calendar(rt, calendar)?;
            of_search(batch::run(rt, &words, memory, manner, calendar_of(&workdays)))
        }
        Tool::Import(words) => of_input(import::run(rt, &words, manner)),
        Tool::Explain(format, fault) => explain(rt, format, fault),
    }
}

/// What a command that searches came to.
fn of_search(ended: Result<u8, Failure>) -> Result<u8, Failure>
    requires { IfOk ended IsStatusOfSearch }
    ensures { IfOk result IsStatusOfAnswer }
{
    ended
}

/// What a command that tells of a network or a plan came to.
fn of_plan(ended: Result<u8, Failure>) -> Result<u8, Failure>
    requires { IfOk ended IsStatusOfPlan }
    ensures { IfOk result IsStatusOfAnswer }
{
    ended
}

/// What a command that writes a network or an order came to.
fn of_input(ended: Result<u8, Failure>) -> Result<u8, Failure>
    requires { IfOk ended IsStatusOfInput }
    ensures { IfOk result IsStatusOfAnswer }
{
    ended
}
