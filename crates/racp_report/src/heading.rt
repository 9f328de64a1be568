//! The beginning of a page, and what it says before its tables and charts.

ghost use Rattle.std.specs.Prelude.{◌≡◌, ◌++◌, OnOk, string_bytes};
ghost use Rattle.racp_report.specs.Pages.{checking_element, cost_element, heading_element, lengths_element, opening_element, times_element, title_element};

use crate::claim::{Claim, push_claim};
use racp_calendar::push_last;
use racp_charts::{Drawing, push_plan};
use std::alloc::AllocError;

/// Adds the beginning of a page, up to its style.
pub(crate) fn push_opening(text: &mut String, plan: &Drawing<'_>) -> Result<(), AllocError>
    ensures { OnOk result (string_bytes text.new ≡ string_bytes text.old ++ opening_element plan.now) }
{
    text.push_str(
        "<!DOCTYPE html>\n<html lang=\"en\">\n<head>\n<meta charset=\"utf-8\">\n\
         <meta name=\"viewport\" content=\"width=device-width, initial-scale=1\">\n<title>",
    )?;
    push_plan(text, plan.cost, plan.deadline, plan.calendar)?;
    text.push_str("</title>\n")?;
    Ok(())
}

/// Adds the heading of a page: what the plan costs, and what is proved of it.
pub(crate) fn push_heading(
    text: &mut String,
    plan: &Drawing<'_>,
    claim: Claim,
) -> Result<(), AllocError>
    ensures { OnOk result (string_bytes text.new ≡ string_bytes text.old ++ heading_element plan.now claim) }
{
    push_title(text, plan)?;
    push_times(text, plan)?;
    push_lengths(text, plan.critical, plan.task_count)?;
    push_claim(text, plan.cost, claim)?;
    Ok(())
}

/// Adds the title of a page.
fn push_title(text: &mut String, plan: &Drawing<'_>) -> Result<(), AllocError>
    ensures { OnOk result (string_bytes text.new ≡ string_bytes text.old ++ title_element plan.now) }
{
    text.push_str("</head>\n<body>\n<main>\n<h1>")?;
    push_plan(text, plan.cost, plan.deadline, plan.calendar)?;
    text.push_str("</h1>\n")?;
    Ok(())
}

/// Adds the cost and the deadline.
fn push_times(text: &mut String, plan: &Drawing<'_>) -> Result<(), AllocError>
    ensures { OnOk result (string_bytes text.new ≡ string_bytes text.old ++ times_element plan.now) }
{
    push_cost(text, plan.cost)?;
    push_last(text, plan.calendar, plan.deadline as u128)?;
    text.push_str("</dd></div>")?;
    Ok(())
}

/// Adds the cost, and the beginning of the deadline.
#[tactic(auto, unfolding(crate::specs::Pages::cost_element))]
fn push_cost(text: &mut String, cost: u64) -> Result<(), AllocError>
    ensures { OnOk result (string_bytes text.new ≡ string_bytes text.old ++ cost_element cost) }
{
    write!(
        text,
        "<dl><div><dt>Cost</dt><dd>{cost}</dd></div><div><dt>Deadline</dt><dd>"
    )
}

/// Adds the critical length and the number of tasks.
#[tactic(auto, unfolding(crate::specs::Pages::lengths_element))]
fn push_lengths(text: &mut String, critical: u64, tasks: usize) -> Result<(), AllocError>
    ensures { OnOk result (string_bytes text.new ≡ string_bytes text.old ++ lengths_element critical tasks) }
{
    write!(
        text,
        "<div><dt>Critical length</dt><dd>{critical}</dd></div><div><dt>Tasks</dt><dd>{tasks}</dd></div></dl>\n"
    )
}

/// Adds how the plan is checked, and the end of the page.
#[tactic(auto, unfolding(crate::specs::Pages::checking_element))]
pub(crate) fn push_checking(text: &mut String) -> Result<(), AllocError>
    ensures { OnOk result (string_bytes text.new ≡ string_bytes text.old ++ checking_element) }
{
    text.push_str(
        "<h2>How to check it</h2>\n\
         <p>NET, ORDER and PLAN are the files that this page was made of. The first command says whether the plan \
         keeps the order; it prints <code>ok</code>. The second makes a certificate, which may take long, and the third \
         checks it: <code>verified</code> says that no cheaper choice keeps the deadline. The last one makes this page \
         anew, which then says so.</p>\n\
         <pre>racp check NET ORDER PLAN\nracp prove NET ORDER --facts &gt; PROOF\nracp verify NET ORDER PLAN PROOF\n\
         racp report NET ORDER PLAN --proof PROOF</pre>\n\
         </main>\n</body>\n</html>\n",
    )
}
