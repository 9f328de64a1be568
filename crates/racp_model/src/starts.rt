//! Starts of jobs.

ghost use Rattle.std.specs.Prelude.{◌≡◌, ℕ, length};

use std::marker::Model;

/// The start of each job, by place from 0, in time units. Contracts see a list.
#[derive(Clone, Drop)]
pub struct Starts {
    items: Vec<u32>,
}

impl Model for Starts {
    ghost use Rattle.std.specs.Prelude.{ℕ, List};

    ghost Value = { List ℕ };

    ghost view = { λ starts. starts.items.items };
}

impl Starts {
    /// These starts. Takes no memory.
    pub fn new(items: Vec<u32>) -> Self
        ensures { result ≡ items.items }
    {
        Starts { items }
    }

    /// Gives the vector back. Takes no memory.
    pub fn into_vec(self) -> Vec<u32>
        ensures { result.items ≡ self }
    {
        self.items
    }

    /// The starts as a slice.
    pub fn as_slice(&self) -> &[u32]
        ensures { result.now ≡ self.now }
    {
        &self.items
    }
}
