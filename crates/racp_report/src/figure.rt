//! Where a drawing of a page begins.

ghost use Rattle.std.specs.Prelude.{◌≡◌, ◌++◌, OnOk, string_bytes};
ghost use Rattle.racp_report.specs.Drawings.{drawing_begin};

use std::alloc::AllocError;

/// Adds the beginning of a drawing of this height, which is called so.
#[tactic(auto, unfolding(crate::specs::Drawings::drawing_begin))]
pub(crate) fn push_drawing(text: &mut String, label: &str, height: u128) -> Result<(), AllocError>
    ensures { OnOk result (string_bytes text.new ≡ string_bytes text.old ++ drawing_begin label.now height) }
{
    write!(
        text,
        "<figure><svg viewBox=\"0 0 1000 {height}\" role=\"img\" aria-label=\"{label}\">\n"
    )
}
