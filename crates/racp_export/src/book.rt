//! Which units of a resource serve which jobs.

use std::marker::Model;

/// The places of the jobs that a unit serves, in the order in which it does. Contracts see a list.
#[derive(Drop)]
pub(crate) struct Turns {
    pub(crate) places: Vec<u32>,
}

impl Model for Turns {
    ghost use Rattle.std.specs.Prelude.{ℕ, List};

    ghost Value = { List ℕ };

    ghost view = { λ turns. turns.places.items };
}

/// The units of a resource. Contracts see a list.
#[derive(Drop)]
pub(crate) struct Book {
    pub(crate) units: Vec<Turns>,
}

impl Model for Book {
    ghost use Rattle.std.specs.Prelude.{ℕ, List};

    ghost Value = { List (List ℕ) };

    ghost view = { λ book. book.units.items };
}

impl Turns {
    ghost use Rattle.std.specs.Prelude.{◌≡◌};

    /// The places of the jobs.
    pub(crate) fn places(&self) -> &[u32]
        ensures { result.now ≡ self.now }
    {
        self.places.as_slice()
    }
}

impl Book {
    ghost use Rattle.std.specs.Prelude.{◌≡◌};

    /// The units.
    pub(crate) fn units(&self) -> &[Turns]
        ensures { result.now ≡ self.now }
    {
        self.units.as_slice()
    }
}
