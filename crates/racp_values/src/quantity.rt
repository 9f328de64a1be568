//! What is counted for each resource.

/// What a list has a number of for each resource.
#[derive(Clone, Copy)]
pub enum Quantity {
    /// What a unit costs.
    Price,
    /// How many units are owned, or may be used.
    Units,
}

impl Quantity {
    /// The greatest value that an order may have, in words.
    pub(crate) fn limit(self) -> &'static str {
        match self {
            Quantity::Price => "a price is at most 1,000,000",
            Quantity::Units => "a number of units is at most 10,000,000",
        }
    }
}
