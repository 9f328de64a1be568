//! What stands around the rows of tasks.

ghost use Rattle.std.specs.Prelude.{◌≡◌, ◌<◌, ◌^◌, ◌++◌, OnOk, string_bytes};
ghost use Rattle.racp_charts.specs.Drawings.{frame_element};

use crate::axis::{Span, push_above, push_axis, push_deadline, push_deadline_label};
use std::alloc::AllocError;

/// Adds what stands around the rows of tasks, which begin at 40 from above and go down to `bottom`: the axis of times
/// above and below them, and the line of the deadline. It is 24 higher than the rows.
///
/// # Errors
///
/// Memory was refused.
pub fn push_frame(text: &mut String, span: Span<'_>, bottom: u128) -> Result<(), AllocError>
    requires { bottom < 2 ^ 72 }
    ensures { OnOk result (string_bytes text.new ≡ string_bytes text.old ++ frame_element span.entry bottom) }
{
    push_above(text, span, 34)?;
    push_axis(text, span, 40, bottom)?;
    push_deadline_label(text, span)?;
    push_deadline(text, 40, bottom)?;
    Ok(())
}
