//! What an order is changed by.

ghost use Rattle.std.specs.Prelude.{IsTrue};
ghost use Rattle.racp_model.specs.Terms.{Terms};
ghost use Rattle.racp_lexfix.specs.Variants.{IsVariantOf};
ghost use Rattle.racp_whatif.specs.Changes.{changed};

/// One term of an order that is changed.
#[derive(Clone, Copy, PartialEq, Eq)]
pub enum Change {
    /// There may be this many units at most of the resource at this place, from 0.
    Ceiling {
        /// The place of the resource.
        place: u32,
        /// How many units.
        units: u32,
    },
    /// This many units are owned of the resource at this place, from 0.
    Owned {
        /// The place of the resource.
        place: u32,
        /// How many units.
        units: u32,
    },
    /// The project has to end by this time.
    Deadline {
        /// The time.
        deadline: u32,
    },
}

impl Change {
    /// Whether each unit costs as much as before, so that what is learned of the order holds for the changed one, too.
    pub(crate) fn keeps_costs(self) -> bool
        ensures { IsTrue result → (terms : Terms) → IsVariantOf terms (changed self terms) }
    {
        match self {
            Change::Ceiling { place: _, units: _ } => true,
            Change::Owned { place: _, units: _ } => false,
            Change::Deadline { deadline: _ } => true,
        }
    }
}
