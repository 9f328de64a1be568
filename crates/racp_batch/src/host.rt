//! Who hears of the rows.

ghost use Rattle.std.specs.Prelude.{IsFalse, IsTrue};

use crate::case::Case;
use crate::row::Row;

/// Hears of the rows that are written, and tells whether the user wants a stop; both on the calling thread. A quiet one
/// never says so.
pub trait Host {
    ghost use Rattle.std.specs.Prelude.{Bool};

    ghost is_quiet: { Self → Bool };

    /// A row of the table was written: that of this case.
    fn hear(&self, case: &Case<'_>, row: &Row);

    /// Whether the user wants a stop.
    fn is_asked(&self) -> bool
        ensures { IsTrue (is_quiet self.now) → IsFalse result };
}
