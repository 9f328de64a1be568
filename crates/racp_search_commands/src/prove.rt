//! `prove`: runs it.

ghost use Rattle.std.specs.Prelude.{IfOk};
ghost use Rattle.racp_search_commands.specs.Statuses.{IsStatusOfSearch};

use racp_cli::{CHECK_FAILED, STOPPED, prove_by_clauses_over, prove_over_until};
use racp_explain::{Input as Text, order_cause};
use racp_host::alone_limit::AloneLimit;
use racp_host::answer::Answer;
use racp_host::asks::Asks;
use racp_host::failure::{Failure, OptionFault};
use racp_host::inputs::Inputs;
use racp_host::machine::Machine;
use racp_host::seconds::time_limit;
use racp_host::telling::{Manner, tell};
use racp_model::Stop;
use racp_words::OrderFiles;
use std::io::Read;
use std::time::Duration;

/// Which certificate is made, and after what time that stops, if it does.
#[derive(Drop)]
pub struct Proving<'a> {
    files: OrderFiles<'a>,
    by_clauses: bool,
    word: Option<&'a str>,
    limit: Option<Duration>,
    manner: Manner,
}

impl<'a> Proving<'a> {
    /// Of these files, by clauses if that is said, and for the time of this word, if there is one.
    ///
    /// # Errors
    ///
    /// The word for the time is no number of seconds.
    pub fn of(
        files: OrderFiles<'a>,
        by_clauses: bool,
        word: Option<&'a str>,
        manner: Manner,
    ) -> Result<Self, OptionFault> {
        Ok(Proving {
            files,
            by_clauses,
            word,
            limit: time_limit(word)?,
            manner,
        })
    }
}

/// Writes a certificate for the plan of these files, by clauses if that is asked for, or why there is none.
pub fn run<R: Machine>(rt: &R, asked: Proving<'_>) -> Result<u8, Failure>
    ensures { IfOk result IsStatusOfSearch }
{
    let paths = [Some(asked.files.net), Some(asked.files.order)];
    let inputs = Inputs::read(rt, &paths)?;
    prove_told(rt, &asked, &inputs.text(0), &inputs.text(1))
}

/// Writes a certificate for the plan of these texts, and what is wrong with them.
fn prove_told<R: Machine>(
    rt: &R,
    asked: &Proving<'_>,
    net: &Text<'_>,
    order: &Text<'_>,
) -> Result<u8, Failure>
    ensures { IfOk result IsStatusOfSearch }
{
    let manner = asked.manner;
    let (mut network, mut terms) = (net.bytes, order.bytes);
    let status = prove_of(rt, asked, &mut network, &mut terms)?;
    if manner.tells(status) && status != CHECK_FAILED {
        tell(rt, manner, order_cause(rt.alloc(), net, order));
    }
    Ok(status)
}

/// Writes a certificate for the plan of a network and an order that are read there, or of a bound, or why there is none. If it
/// was stopped, after so much time or by the user, standard error says so.
fn prove_of<R: Machine, N: Read, O: Read>(
    rt: &R,
    asked: &Proving<'_>,
    net: &mut N,
    order: &mut O,
) -> Result<u8, Failure>
    ensures { IfOk result IsStatusOfSearch }
{
    let until = AloneLimit::of(rt, asked.limit, Asks::of(rt));
    let status = if asked.by_clauses {
        prove_by_clauses(rt, net, order, &until)
    } else {
        prove_by_trees(rt, net, order, &until)
    };
    if until.has_stopped() && !asked.manner.is_quiet() {
        tell_stop(rt, &status, asked.word, until.is_asked());
    }
    // Dropped here once, not at each way out.
    drop(until);
    status
}

/// Writes one by clauses, until a stop asks for an end.
fn prove_by_clauses<R: Print + AllocGlobal, N: Read, O: Read, S: Stop>(
    rt: &R,
    net: &mut N,
    order: &mut O,
    stop: &S,
) -> Result<u8, Failure>
    ensures { IfOk result IsStatusOfSearch }
{
    let mut out = Answer::to(rt);
    let status = prove_by_clauses_over(rt.alloc(), net, order, &mut out, stop);
    out.ended(status)
}

/// Writes one by trees, until a stop that may ask at any time asks for an end.
fn prove_by_trees<R: Print + AllocGlobal, N: Read, O: Read, S: Stop>(
    rt: &R,
    net: &mut N,
    order: &mut O,
    stop: &S,
) -> Result<u8, Failure>
    ensures { IfOk result IsStatusOfSearch }
{
    let mut out = Answer::to(rt);
    let status = prove_over_until(rt.alloc(), net, order, &mut out, stop);
    out.ended(status)
}

/// What was made by a run that was stopped, if it was no certificate of the plan.
fn made(status: &Result<u8, Failure>) -> Option<&'static str> {
    match status {
        Ok(CHECK_FAILED) => Some("no certificate was made"),
        Ok(STOPPED) => Some("the certificate is one of a bound"),
        _ => None,
    }
}

/// Tells on standard error what was made since the user asked for a stop, or the time of this word was over.
fn tell_stop<R: Eprint>(rt: &R, status: &Result<u8, Failure>, word: Option<&str>, is_asked: bool) {
    let Some(made) = made(status) else {
        return;
    };
    let _ = match word {
        Some(word) if !is_asked => rt.eprintln(format_args!(
            "racp: stopped after {word} s: {made}"
        )),
        _ => rt.eprintln(format_args!("racp: stopped as was asked: {made}")),
    };
}
