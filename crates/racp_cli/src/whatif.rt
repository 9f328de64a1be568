//! `whatif`: what becomes of an order if one term is changed, beside a plan.

ghost use Rattle.std.specs.Prelude.{IfOk, None, Some, option_map};
ghost use Rattle.racp_found.specs.Told.{HearsAll};
ghost use Rattle.racp_streams.specs.Streams.{IsAnswerWritten};
ghost use Rattle.racp_cli.specs.WhatIfAnswers.{IsWhatIfAnswer};

use crate::beside::named;
use crate::check::read_checked;
use crate::respond::respond;
use crate::texts::read_texts;
use racp_desk::Gate;
use racp_found::Observer;
use racp_lexfix::Crew;
use racp_model::Stop;
use racp_root::Task;
use racp_streams::StreamFault;
use std::alloc::{AllocError, Global};
use std::io::Write;
use std::sync::Wait;
use std::thread::Threads;

/// The texts of what is asked, and how it is told.
#[derive(Clone, Copy)]
pub struct WhatIfTexts<'a> {
    /// The network.
    pub net: &'a [u8],
    /// The order.
    pub order: &'a [u8],
    /// The plan beside which it is told; else that of the order is made.
    pub plan: Option<&'a [u8]>,
    /// The names of the jobs and then of the resources, one a line; there may be none.
    pub names: &'a [u8],
    /// Whether findings are told as JSON.
    pub is_json: bool,
}

/// Has such workers make the plan of each order with one term changed that is asked about an order and the capacities of a
/// plan, and writes to `out` a line for the plan, one for each change, and the line `end`; or an object of JSON. The changes
/// are: one unit fewer of each resource, one owned unit more of each, and the deadline one time unit earlier and later.
/// The plan is the one that is given, if nothing is wrong with it, and else what `check_over` writes stands in place of
/// the lines; if none is given, it is the plan of the order, and if that has none, the line that `run_over` writes stands
/// there. Returns the status that belongs to what was written: 0 if it is known what becomes of each changed order; 3 if
/// there is no plan; 4 if planning was stopped; 5 if a text is refused, or the names are as by `show_over`; 6 if memory ran
/// out; 7 if a worker could not be started; 8 if the plan that is given has a fault.
///
/// # Errors
///
/// `Write`: a write failed or took no byte, and what is out is a beginning of the text.
pub fn whatif_to<R: Threads + Wait + Sync, G: Gate + Sync, P: Stop + Sync, B: Observer, W: Write>(
    rt: &R,
    alloc: Global,
    texts: WhatIfTexts<'_>,
    crew: Crew<'_, G, P, B>,
    out: &mut W,
) -> Result<u8, StreamFault>
    requires heard { HearsAll B.may_hear }
    ensures { IsAnswerWritten
        (IsWhatIfAnswer crew.entry.turns (P.is_quiet crew.entry.stop.now) texts.entry.is_json texts.entry.net.now texts.entry.order.now
        (option_map (λ plan. plan.now) texts.entry.plan) texts.entry.names.now)
        (W.contents out.old) (W.contents out.new) result }
{
    respond(answer(rt, alloc, texts, &crew), out)
}

/// The status and the text of the answer to these texts.
fn answer<G: Gate + Sync, P: Stop + Sync, B: Observer, R: Threads + Wait + Sync>(
    rt: &R,
    alloc: Global,
    texts: WhatIfTexts<'_>,
    crew: &Crew<'_, G, P, B>,
) -> Result<(u8, Vec<u8>), AllocError>
    requires heard { HearsAll B.may_hear }
    ensures { IfOk result (λ answer.
        IsWhatIfAnswer crew.now.turns (P.is_quiet crew.now.stop.now) texts.entry.is_json texts.entry.net.now texts.entry.order.now
        (option_map (λ plan. plan.now) texts.entry.plan) texts.entry.names.now answer.0 answer.1.items) }
{
    match texts.plan {
        Some(plan) => beside_given(rt, alloc, texts, plan, crew),
        None => beside_own(rt, alloc, texts, crew),
    }
}

/// The status and the text of the answer beside the plan of this text.
fn beside_given<G: Gate + Sync, P: Stop + Sync, B: Observer, R: Threads + Wait + Sync>(
    rt: &R,
    alloc: Global,
    texts: WhatIfTexts<'_>,
    plan: &[u8],
    crew: &Crew<'_, G, P, B>,
) -> Result<(u8, Vec<u8>), AllocError>
    requires heard { HearsAll B.may_hear }
    ensures { IfOk result (λ answer.
        IsWhatIfAnswer crew.now.turns (P.is_quiet crew.now.stop.now) texts.entry.is_json texts.entry.net.now texts.entry.order.now (Some plan.now)
        texts.entry.names.now answer.0 answer.1.items) }
{
    match read_checked(alloc, texts.net, texts.order, plan) {
        Ok(found) => {
            let task = Task {
                alloc,
                net: &found.net,
                order: &found.order,
            };
            named(rt, &task, Some(&found.plan), texts, crew)
        }
        Err(fault) => {
            let line = fault.line(alloc)?;
            Ok((fault.status(), line))
        }
    }
}

/// The status and the text of the answer beside the plan of the order.
fn beside_own<G: Gate + Sync, P: Stop + Sync, B: Observer, R: Threads + Wait + Sync>(
    rt: &R,
    alloc: Global,
    texts: WhatIfTexts<'_>,
    crew: &Crew<'_, G, P, B>,
) -> Result<(u8, Vec<u8>), AllocError>
    requires heard { HearsAll B.may_hear }
    ensures { IfOk result (λ answer.
        IsWhatIfAnswer crew.now.turns (P.is_quiet crew.now.stop.now) texts.entry.is_json texts.entry.net.now texts.entry.order.now None
        texts.entry.names.now answer.0 answer.1.items) }
{
    match read_texts(alloc, texts.net, texts.order) {
        Ok((net, order)) => {
            let task = Task {
                alloc,
                net: &net,
                order: &order,
            };
            named(rt, &task, None, texts, crew)
        }
        Err(refused) => refused,
    }
}
