//! What a batch asks: each file with each factor.

ghost use Rattle.std.specs.Prelude.{◌≡◌, ◌≤◌, ◌++◌, ◌∷◌, [], IfOk, OnOk, map};
ghost use Rattle.racp_batch.specs.Listing.{case_of, cases_of};

use racp_model::Network;
use racp_prices::Factor;
use std::alloc::{AllocError, Global};
use std::marker::Model;

/// What a file has.
#[derive(Drop)]
pub enum Input {
    /// This network.
    Network(Network),
    /// No network, and these words say why.
    Fault(String),
}

/// A file of a batch.
#[derive(Drop)]
pub struct File<'a> {
    /// Its name, as it is told in the table.
    pub name: &'a str,
    /// What it has.
    pub input: Input,
}

/// A factor, and the word that writes it.
#[derive(Drop)]
pub struct Multiple<'a> {
    /// The word.
    pub word: &'a str,
    /// The factor.
    pub factor: Factor,
}

/// A file with a factor, and the price of a unit of each resource. Contracts see a `Matter`.
#[derive(Drop)]
pub struct Case<'a> {
    /// The file.
    pub file: &'a File<'a>,
    /// The factor.
    pub multiple: &'a Multiple<'a>,
    /// The price, up to 1,000,000.
    pub price: u32,
}

impl<'a> Model for Case<'a> {
    ghost use Rattle.std.specs.Prelude.{◌≤◌};
    ghost use Rattle.racp_batch.specs.Cases.{Matter};

    ghost Value = { Matter };

    ghost invariant = { λ c. c.price ≤ 1000000 };

    ghost view = { λ c. record {
      name = c.file.now.name.now;
      input = c.file.now.input;
      word = c.multiple.now.word.now;
      factor = c.multiple.now.factor;
      price = c.price;
    } };
}

/// Each file with each factor: file by file, and for each the factors in their order.
///
/// # Errors
///
/// Memory was refused.
pub fn cases<'a>(
    alloc: Global,
    files: &'a [File<'a>],
    multiples: &'a [Multiple<'a>],
    price: u32,
) -> Result<Vec<Case<'a>>, AllocError>
    requires { price ≤ 1000000 }
    ensures { IfOk result (λ cases. cases.items ≡ cases_of files.now multiples.now price) }
{
    let mut cases = Vec::new(alloc);
    for file in files {
        push_file(&mut cases, file, multiples, price)?;
    }
    Ok(cases)
}

/// Adds a file with each factor.
fn push_file<'a>(
    cases: &mut Vec<Case<'a>>,
    file: &'a File<'a>,
    multiples: &'a [Multiple<'a>],
    price: u32,
) -> Result<(), AllocError>
    requires { price ≤ 1000000 }
    ensures { OnOk result (cases.new.items ≡ cases.old.items ++ map (case_of file.now price) multiples.now) }
{
    for multiple in multiples {
        push_case(cases, file, multiple, price)?;
    }
    Ok(())
}

/// Adds a file with a factor.
fn push_case<'a>(
    cases: &mut Vec<Case<'a>>,
    file: &'a File<'a>,
    multiple: &'a Multiple<'a>,
    price: u32,
) -> Result<(), AllocError>
    requires { price ≤ 1000000 }
    ensures { OnOk result (cases.new.items ≡ cases.old.items ++ case_of file.now price multiple.now ∷ []) }
{
    cases.push(Case {
        file,
        multiple,
        price,
    })?;
    Ok(())
}
