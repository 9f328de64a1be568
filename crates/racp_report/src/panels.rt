//! The use of each resource over time.

ghost use Rattle.std.specs.Prelude.{◌≡◌, ◌++◌, OnOk, flat_map, string_bytes};
ghost use Rattle.racp_report.specs.Drawings.{panel_figure};

use crate::figure::push_drawing;
use racp_charts::{Choice, Span, push_panel};
use std::alloc::{AllocError, Global};

/// Adds a drawing for each resource.
pub(crate) fn push_panels(
    alloc: Global,
    text: &mut String,
    choices: &[Choice<'_>],
    span: Span<'_>,
) -> Result<(), AllocError>
    ensures { OnOk result (string_bytes text.new ≡ string_bytes text.old ++ flat_map (panel_figure span.entry) choices.now) }
{
    for choice in choices {
        push_figure(alloc, text, choice, span)?;
    }
    Ok(())
}

/// Adds the drawing of a resource.
fn push_figure(
    alloc: Global,
    text: &mut String,
    choice: &Choice<'_>,
    span: Span<'_>,
) -> Result<(), AllocError>
    ensures { OnOk result (string_bytes text.new ≡ string_bytes text.old ++ panel_figure span.entry choice.now) }
{
    push_drawing(text, "The use of a resource over time", 106)?;
    push_panel(alloc, text, choice, span)?;
    text.push_str("</svg></figure>\n")?;
    Ok(())
}
