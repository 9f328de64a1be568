//! The text of an order that is to be written.

ghost use Rattle.std.specs.Prelude.{◌≡◌, ℕ, IfOk, Ok, Some, length, string_bytes};
ghost use Rattle.racp_model.specs.Project.{Project};
ghost use Rattle.racp_model.specs.Terms.{AreTermsOf};
ghost use Rattle.racp_prices.specs.Orders.{IsOrder, IsToml, order_of};
ghost use Rattle.toml.specs.View.{table_view};
ghost use Rattle.racp_prices.specs.WantedTables.{IsText};
ghost use Rattle.racp_prices.specs.Wishes.{read_terms, table_of, terms_of};

use crate::wanted::Wanted;
use crate::wanted_table::table_of;
use std::alloc::{AllocError, Global};
use toml::Table;

/// The text of an order that says just what is wanted, for `read_order`. With a deadline and prices alone it has no
/// version; else it is of version 2. There is a line for each key, in the order of the alphabet.
///
/// The text is read as the wanted terms if these are terms of the project: if there are as many prices as
/// resources, and as many owned units and ceilings, if any, as many release and due times as jobs, if any, and each
/// number is in its range. A due time above the deadline is read as the deadline. Nothing of that is tested here; if it
/// does not hold, `read_order` refuses the text.
///
/// # Errors
///
/// Memory was refused.
pub fn order_text(alloc: Global, wanted: &Wanted) -> Result<String, AllocError>
    ensures toml { IfOk result (λ text. IsToml (string_bytes text) (Some (table_of wanted.now))) }
    ensures read { IfOk result (λ text. (resources jobs : ℕ) →
        IsOrder resources jobs (string_bytes text) (order_of resources jobs (table_of wanted.now))) }
    ensures terms { IfOk result (λ text. (p : Project) → AreTermsOf p (terms_of p wanted.now) →
        IsOrder p.resources (length p.jobs) (string_bytes text) (Ok (read_terms p wanted.now))) }
{
    let table = table_of(alloc, wanted)?;
    text_of(alloc, &table)
}

/// The text of a table.
fn text_of(alloc: Global, table: &Table) -> Result<String, AllocError>
    ensures { IfOk result (λ text. IsText (table_view table.now) (string_bytes text)) }
{
    match toml::table_to_string(alloc, table) {
        Ok(text) => Ok(text),
        Err(_) => Err(AllocError),
    }
}
