//! `show`: a plan to look at.

ghost use Rattle.std.specs.Prelude.{◌≡◌, IfOk, length};
ghost use Rattle.racp_model.specs.Terms.{AreTermsOf};
ghost use Rattle.racp_check.specs.PlanFaults.{IsFitting};
ghost use Rattle.racp_show.specs.Entries.{outlined};
ghost use Rattle.racp_show.specs.Outlines.{IsOutlineOf};
ghost use Rattle.racp_cli.specs.ShowAnswers.{IsCounted, IsDrawn, IsNamed, IsPicture, IsSheetTable, IsShowAnswer, IsShowRun};

use crate::check::{Checked, read_checked};
use crate::respond::respond;
use crate::status::{DONE, REFUSED};
use racp_calendar::Calendar;
use racp_charts::{drawing_of, plan_svg};
use racp_show::{Form, Lettering, Names, Outline, chart_text, csv_text, json_text, sheet_of};
use racp_streams::{StreamFault, read_whole};
use std::alloc::{AllocError, Global};
use std::io::{Read, Write};

/// How a plan is shown.
#[derive(Clone, Copy)]
pub struct Look<'a> {
    /// How many columns a line of a chart has at most; 40 if it is less, 1,000 if it is more.
    pub width: usize,
    /// What is written.
    pub form: Form,
    /// Whether a picture has an arrow from each task to each that comes right after it.
    pub has_links: bool,
    /// How times are told.
    pub calendar: Calendar<'a>,
    /// The text of the names of the jobs and then of the resources, one a line, or an empty one. Other lines tell which
    /// jobs are tasks, and which phases there are.
    pub names: &'a [u8],
}

/// Reads a network text, an order text and a plan text, all of each before the next, and writes to `out` the plan in
/// the form that is asked for; or, if something is wrong with the plan, what `check_over` writes. Returns the status
/// that belongs to what was written: 0 for a plan, 5 if the names are not UTF-8, or neither none nor one for each job
/// and resource, else that of `check_over`.
///
/// # Errors
///
/// After these nothing was written: `Read`, a read failed; `TooLong`, a reader has more than 16,777,216 bytes;
/// `Memory`, memory for an input was refused. After `Write`, a write failed or took no byte, and what is out is a
/// beginning of the text.
pub fn show_over<N: Read, O: Read, P: Read, W: Write>(
    alloc: Global,
    net: &mut N,
    order: &mut O,
    plan: &mut P,
    look: Look<'_>,
    out: &mut W,
) -> Result<u8, StreamFault>
    ensures { IsShowRun look.entry (record { unread = N.remaining net.old; left = N.remaining net.new })
        (record { unread = O.remaining order.old; left = O.remaining order.new })
        (record { unread = P.remaining plan.old; left = P.remaining plan.new }) (W.contents out.old)
        (W.contents out.new) result }
{
    let net = read_whole(alloc, net)?;
    let order = read_whole(alloc, order)?;
    let plan = read_whole(alloc, plan)?;
    respond(answer(alloc, &net, &order, &plan, look), out)
}

/// The status and the text of the answer to the texts of a network, an order and a plan.
fn answer(
    alloc: Global,
    net: &[u8],
    order: &[u8],
    plan: &[u8],
    look: Look<'_>,
) -> Result<(u8, Vec<u8>), AllocError>
    ensures { IfOk result (λ answer. IsShowAnswer look.entry net.now order.now plan.now answer.0 answer.1.items) }
{
    match read_checked(alloc, net, order, plan) {
        Ok(found) => named(alloc, &found, look),
        Err(fault) => {
            let line = fault.line(alloc)?;
            Ok((fault.status(), line))
        }
    }
}

/// The status and the text if nothing is wrong with a plan.
#[tactic(auto, unfolding(racp_plan::specs::Texts::line))]
fn named(alloc: Global, found: &Checked, look: Look<'_>) -> Result<(u8, Vec<u8>), AllocError>
    requires terms { AreTermsOf found.now.net found.now.order }
    requires capacities { length found.now.plan.capacities ≡ found.now.net.resources }
    requires fitting { IsFitting found.now.net found.now.order found.now.plan }
    ensures { IfOk result (λ answer. IsNamed look.entry found.now.net found.now.order found.now.plan look.entry.names.now answer.0 answer.1.items) }
{
    match std::str::from_utf8(look.names) {
        Ok(text) => counted(alloc, found, text, look),
        Err(_) => Ok((REFUSED, b"refused names 1 NotUtf8\n".to_vec(alloc)?)),
    }
}

/// The status and the text if nothing is wrong with a plan, for the text of its names.
#[tactic(auto, unfolding(racp_plan::specs::Texts::line))]
fn counted(
    alloc: Global,
    found: &Checked,
    text: &str,
    look: Look<'_>,
) -> Result<(u8, Vec<u8>), AllocError>
    requires terms { AreTermsOf found.now.net found.now.order }
    requires capacities { length found.now.plan.capacities ≡ found.now.net.resources }
    requires fitting { IsFitting found.now.net found.now.order found.now.plan }
    ensures { IfOk result (λ answer. IsCounted look.entry found.now.net found.now.order found.now.plan text.now answer.0 answer.1.items) }
{
    let names = Names::of_text(alloc, text)?;
    if !names.are_for(found.net.job_count() + found.net.resource_count()) {
        return Ok((REFUSED, b"refused names 2 Count\n".to_vec(alloc)?));
    }
    let outline = Outline::of_text(alloc, text, found.net.job_count())?;
    let text = picture(alloc, found, &names, &outline, look)?;
    Ok((DONE, text))
}

/// The plan in the form that is asked for.
fn picture(
    alloc: Global,
    found: &Checked,
    names: &Names,
    outline: &Outline,
    look: Look<'_>,
) -> Result<Vec<u8>, AllocError>
    requires terms { AreTermsOf found.now.net found.now.order }
    requires capacities { length found.now.plan.capacities ≡ found.now.net.resources }
    requires fitting { IsFitting found.now.net found.now.order found.now.plan }
    requires outline { IsOutlineOf found.now.net (outlined outline.now) }
    ensures { IfOk result (λ text. IsPicture look.entry found.now.net found.now.order found.now.plan names.now
        (outlined outline.now) text.items) }
{
    match look.form {
        Form::Text => chart(alloc, found, names, outline, look, false),
        Form::Ascii => chart(alloc, found, names, outline, look, true),
        Form::Svg => drawn(alloc, found, names, outline, look),
        Form::Json => sheet_json(alloc, found, names, look.calendar),
        Form::Csv => sheet_table(alloc, found, names, look.calendar),
    }
}

/// The chart of a plan.
fn chart(
    alloc: Global,
    found: &Checked,
    names: &Names,
    outline: &Outline,
    look: Look<'_>,
    is_ascii: bool,
) -> Result<Vec<u8>, AllocError>
    requires terms { AreTermsOf found.now.net found.now.order }
    requires capacities { length found.now.plan.capacities ≡ found.now.net.resources }
    requires fitting { IsFitting found.now.net found.now.order found.now.plan }
{
    let (net, order, plan) = (&found.net, &found.order, &found.plan);
    let lettering = Lettering {
        width: look.width,
        is_ascii,
        calendar: look.calendar,
        outline,
    };
    let text = chart_text(alloc, net, order, plan, names, lettering)?;
    Ok(text.into_bytes())
}

/// The picture of a plan.
fn drawn(
    alloc: Global,
    found: &Checked,
    names: &Names,
    outline: &Outline,
    look: Look<'_>,
) -> Result<Vec<u8>, AllocError>
    requires terms { AreTermsOf found.now.net found.now.order }
    requires capacities { length found.now.plan.capacities ≡ found.now.net.resources }
    requires fitting { IsFitting found.now.net found.now.order found.now.plan }
    requires outline { IsOutlineOf found.now.net (outlined outline.now) }
    ensures { IfOk result (λ text. IsDrawn look.entry found.now.net found.now.order found.now.plan names.now
        (outlined outline.now) text.items) }
{
    let (net, order, plan) = (&found.net, &found.order, &found.plan);
    let mut drawing = drawing_of(alloc, net, order, plan, names, outline)?;
    drawing.calendar = look.calendar;
    let picture = plan_svg(alloc, &drawing, look.has_links)?;
    Ok(picture.into_bytes())
}

/// The numbers of a plan as JSON.
fn sheet_json(
    alloc: Global,
    found: &Checked,
    names: &Names,
    calendar: Calendar<'_>,
) -> Result<Vec<u8>, AllocError>
    requires terms { AreTermsOf found.now.net found.now.order }
    requires capacities { length found.now.plan.capacities ≡ found.now.net.resources }
    requires fitting { IsFitting found.now.net found.now.order found.now.plan }
{
    let (net, order, plan) = (&found.net, &found.order, &found.plan);
    let sheet = sheet_of(alloc, net, order, plan, names, calendar)?;
    let text = json_text(alloc, &sheet)?;
    Ok(text.into_bytes())
}

/// The table of a plan.
fn sheet_table(
    alloc: Global,
    found: &Checked,
    names: &Names,
    calendar: Calendar<'_>,
) -> Result<Vec<u8>, AllocError>
    requires terms { AreTermsOf found.now.net found.now.order }
    requires capacities { length found.now.plan.capacities ≡ found.now.net.resources }
    requires fitting { IsFitting found.now.net found.now.order found.now.plan }
    ensures { IfOk result (λ text. IsSheetTable calendar.entry found.now.net found.now.order found.now.plan names.now
        text.items) }
{
    let (net, order, plan) = (&found.net, &found.order, &found.plan);
    let sheet = sheet_of(alloc, net, order, plan, names, calendar)?;
    csv_text(alloc, &sheet)
}
