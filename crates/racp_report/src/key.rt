//! What the shapes of the drawings mean.

ghost use Rattle.std.specs.Prelude.{◌≡◌, ◌++◌, OnOk, string_bytes};
ghost use Rattle.racp_report.specs.Drawings.{key_figure};

use crate::figure::push_drawing;
use racp_charts::push_key;
use std::alloc::AllocError;

/// Adds what the shapes of the drawings of tasks and resources mean.
pub(crate) fn push_key_figure(text: &mut String) -> Result<(), AllocError>
    ensures { OnOk result (string_bytes text.new ≡ string_bytes text.old ++ key_figure) }
{
    push_drawing(text, "What the shapes mean", 16)?;
    push_key(text)?;
    text.push_str("</svg></figure>\n")?;
    Ok(())
}
