//! How a type names the cases that its values are about.

ghost use Rattle.std.specs.Prelude.{◌≡◌, false};

use std::marker::{Brand, PhantomData};

/// Names the cases that a row is about, whether the time for a row is without a limit, and whether the user never asks for
/// a stop. A call that makes such rows picks what `Brand` names.
pub trait OfCases {
    ghost use Rattle.std.specs.Prelude.{Bool, List};
    ghost use Rattle.racp_batch.specs.Cases.{Matter};

    ghost cases: { List Matter };

    ghost unlimited: { Bool };

    ghost quiet: { Bool };
}

/// Stands only if a call picks nothing: every call that makes rows picks all of it.
impl OfCases for Brand {
    ghost use Rattle.std.specs.Prelude.{[], true};

    ghost cases = { [] };

    ghost unlimited = { true };

    ghost quiet = { true };
}

/// The user has asked for a stop. So it is not one who never asks.
#[derive(Drop)]
pub(crate) struct UserAsked<T: OfCases> {
    pub(crate) of: PhantomData<T>,
    pub(crate) ghost unquiet: { T.quiet ≡ false },
}
