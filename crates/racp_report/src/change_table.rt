//! What changes of the order would cost, as a table.

ghost use Rattle.std.specs.Prelude.{◌≡◌, ◌++◌, OnOk, flat_map, string_bytes};
ghost use Rattle.std.specs.Str.Lines.{lines};
ghost use Rattle.racp_report.specs.Pages.{change_cells, change_row, change_section, change_table};

use racp_charts::push_name;
use std::alloc::AllocError;

/// Adds what changes would cost, if anything is known of it.
pub(crate) fn push_changes(text: &mut String, changes: &str) -> Result<(), AllocError>
    ensures { OnOk result (string_bytes text.new ≡ string_bytes text.old ++ change_section changes.now) }
{
    if changes.is_empty() {
        return Ok(());
    }
    push_change_table(text, changes)
}

/// Adds what changes would cost.
fn push_change_table(text: &mut String, changes: &str) -> Result<(), AllocError>
    ensures { OnOk result (string_bytes text.new ≡ string_bytes text.old ++ change_table changes.now) }
{
    text.push_str(
        "<h2>What changes would cost</h2>\n\
         <p>Each row has the cheapest plan with one term of the order changed, beside this one. Times are numbers of \
         time units.</p>\n\
         <div class=\"wide\"><table>\n<thead><tr><th class=\"left\">Change</th>\
         <th class=\"left\">What becomes of it</th></tr></thead>\n<tbody>\n",
    )?;
    push_rows(text, changes)?;
    text.push_str("</tbody></table></div>\n")?;
    Ok(())
}

/// Adds a row for each line that tells a change.
fn push_rows(text: &mut String, changes: &str) -> Result<(), AllocError>
    ensures { OnOk result (string_bytes text.new ≡ string_bytes text.old ++ flat_map change_row (lines changes.now)) }
{
    for line in changes.lines() {
        push_row(text, line)?;
    }
    Ok(())
}

/// Adds the row of a line, if it tells a change.
fn push_row(text: &mut String, line: &str) -> Result<(), AllocError>
    ensures { OnOk result (string_bytes text.new ≡ string_bytes text.old ++ change_row line.now) }
{
    match line.split_once(": ") {
        Some((change, outcome)) => push_cells(text, change, outcome),
        None => Ok(()),
    }
}

/// Adds the row of a change and of what becomes of it.
fn push_cells(text: &mut String, change: &str, outcome: &str) -> Result<(), AllocError>
    ensures { OnOk result (string_bytes text.new ≡ string_bytes text.old ++ change_cells change.now outcome.now) }
{
    text.push_str("<tr><th scope=\"row\">")?;
    push_name(text, Some(change), "", 0)?;
    text.push_str("</th><td class=\"left\">")?;
    push_name(text, Some(outcome), "", 0)?;
    text.push_str("</td></tr>\n")?;
    Ok(())
}
