//! The costs beside the corners of a drawing of what deadlines cost.

ghost use Rattle.std.specs.Prelude.{◌≡◌, ◌<◌, ◌^◌, ◌++◌, ◌≤◌, OnOk, string_bytes};
ghost use Rattle.racp_charts.specs.CostDrawings.{cost_label, cost_labels, label_above, label_below};

use crate::axis::Span;
use crate::costs::{Corner, down};
use std::alloc::AllocError;
use std::cmp::min;

/// Adds the costs of corners, and leaves out each that would stand on the last that was written.
pub(crate) fn push_labels(
    text: &mut String,
    corners: &[Corner],
    span: Span<'_>,
    most: u64,
) -> Result<(), AllocError>
    requires { 1 ≤ most }
    ensures { OnOk result
        (string_bytes text.new ≡ string_bytes text.old ++ cost_labels span.entry most 0 0 corners.now) }
{
    let mut x = 0u128;
    let mut y = 0u128;
    for corner in corners {
        let right = span.across(corner.deadline as u128);
        let below = down(corner.cost, most);
        if x + 48 <= right || y + 14 <= below {
            push_label(text, right, below, corner.cost)?;
            x = right;
            y = below;
        }
    }
    Ok(())
}

/// Adds the cost of a corner beside it: above its step, or at the right end of the drawing below it.
fn push_label(text: &mut String, x: u128, y: u128, cost: u64) -> Result<(), AllocError>
    requires x { x < 2 ^ 32 }
    requires y { y < 2 ^ 32 }
    ensures { OnOk result (string_bytes text.new ≡ string_bytes text.old ++ cost_label x y cost) }
{
    if x <= 930 {
        push_above(text, x + 6, y.saturating_sub(6), cost)
    } else {
        push_below(text, min(y + 14, 246), cost)
    }
}

/// Adds a cost that begins at `x`.
#[tactic(auto, unfolding(crate::specs::CostDrawings::label_above))]
fn push_above(text: &mut String, x: u128, y: u128, cost: u64) -> Result<(), AllocError>
    ensures { OnOk result (string_bytes text.new ≡ string_bytes text.old ++ label_above x y cost) }
{
    write!(text, "<text x=\"{x}\" y=\"{y}\">{cost}</text>\n")
}

/// Adds a cost that ends at the right end of the drawing.
#[tactic(auto, unfolding(crate::specs::CostDrawings::label_below))]
fn push_below(text: &mut String, y: u128, cost: u64) -> Result<(), AllocError>
    ensures { OnOk result (string_bytes text.new ≡ string_bytes text.old ++ label_below y cost) }
{
    write!(
        text,
        "<text class=\"cost\" x=\"992\" y=\"{y}\">{cost}</text>\n"
    )
}
