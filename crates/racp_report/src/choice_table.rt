//! What there is to be of each resource, as a table.

ghost use Rattle.std.specs.Prelude.{◌≡◌, ◌++◌, OnOk, flat_map, option_map, string_bytes};
ghost use Rattle.racp_report.specs.Pages.{choice_cells, choice_row, total_row};

use racp_charts::{Choice, push_name};
use std::alloc::AllocError;

/// Adds a row for each resource.
pub(crate) fn push_choices(text: &mut String, choices: &[Choice<'_>]) -> Result<(), AllocError>
    ensures { OnOk result (string_bytes text.new ≡ string_bytes text.old ++ flat_map choice_row choices.now) }
{
    for choice in choices {
        push_choice(text, choice)?;
    }
    Ok(())
}

/// Adds the row of a resource.
fn push_choice(text: &mut String, choice: &Choice<'_>) -> Result<(), AllocError>
    ensures { OnOk result (string_bytes text.new ≡ string_bytes text.old ++ choice_row choice.now) }
{
    text.push_str("<tr><th scope=\"row\">")?;
    push_name(text, choice.name, "resource", choice.resource)?;
    push_cells(text, choice)?;
    Ok(())
}

/// Adds the cells of a resource's numbers: what it costs is the price of the units that are not owned.
#[tactic(auto, unfolding(crate::specs::Pages::choice_cells))]
fn push_cells(text: &mut String, choice: &Choice<'_>) -> Result<(), AllocError>
    ensures { OnOk result (string_bytes text.new ≡ string_bytes text.old ++ choice_cells choice.now) }
{
    let (units, owned) = (choice.units, choice.owned);
    let (price, busy) = (choice.price, choice.busy);
    let cost = price as u64 * units.saturating_sub(owned) as u64;
    write!(
        text,
        "</th><td>{units}</td><td>{owned}</td><td>{price}</td><td>{cost}</td><td>{busy}%</td></tr>\n"
    )
}

/// Adds the row of what all resources cost, and the end of the table.
#[tactic(auto, unfolding(crate::specs::Pages::total_row))]
pub(crate) fn push_total(text: &mut String, cost: u64) -> Result<(), AllocError>
    ensures { OnOk result (string_bytes text.new ≡ string_bytes text.old ++ total_row cost) }
{
    write!(
        text,
        "</tbody><tfoot><tr><th scope=\"row\">Together</th><td></td><td></td><td></td><td>{cost}</td><td></td></tr>\
         </tfoot></table></div>\n"
    )
}
