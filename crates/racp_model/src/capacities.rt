//! Capacities: units of each resource.

ghost use Rattle.std.specs.Prelude.{◌≡◌, ◌<◌, IfOk, length, set};

use std::alloc::AllocError;
use std::marker::Model;

/// How many units there are of each resource, by place from 0. Contracts see a list.
#[derive(Debug, Clone, Drop)]
pub struct Capacities {
    items: Vec<u32>,
}

impl Model for Capacities {
    ghost use Rattle.std.specs.Prelude.{ℕ, List};

    ghost Value = { List ℕ };

    ghost view = { λ capacities. capacities.items.items };
}

impl Capacities {
    /// These capacities. Takes no memory.
    pub fn new(items: Vec<u32>) -> Self
        ensures { result ≡ items.items }
    {
        Capacities { items }
    }

    /// The capacities as a slice.
    pub fn as_slice(&self) -> &[u32]
        ensures { result.now ≡ self.now }
    {
        &self.items
    }

    /// Gives the vector back. Takes no memory.
    pub fn into_vec(self) -> Vec<u32>
        ensures { result.items ≡ self }
    {
        self.items
    }

    /// These capacities with other units of the resource at place `k`. Takes no memory.
    pub fn with_units(self, k: usize, units: u32) -> Self
        requires { k < length self }
        ensures { result ≡ set self k units }
    {
        let mut list = self.items;
        list[k] = units;
        Capacities::new(list)
    }

    /// A copy of the capacities. `Clone` makes one too, but does not promise that it is equal.
    ///
    /// # Errors
    ///
    /// Memory was refused.
    pub fn copy(&self) -> Result<Capacities, AllocError>
        ensures { IfOk result (λ copy. copy ≡ self.now) }
    {
        self.clone()
    }
}
