//! Why a word gives no values.

use std::alloc::AllocError;
use thiserror::Error;

/// Why a word gives no values to the resources.
#[derive(Debug, Drop, Error)]
pub enum ValueFault {
    /// A name is that of no resource, but nearly that of one.
    #[error("no resource is called '{name}'; the nearest is '{near}'")]
    Misspelt {
        /// The name in the word.
        name: String,
        /// The nearest name of a resource.
        near: String,
    },
    /// A name is that of no resource.
    #[error("no resource is called '{name}'; there are {known}")]
    Unknown {
        /// The name in the word.
        name: String,
        /// The names of the resources.
        known: String,
    },
    /// A resource is not named.
    #[error("'{name}' has no value; each resource needs one")]
    Missing {
        /// The name of the resource.
        name: String,
    },
    /// A resource is named twice.
    #[error("'{name}' has two values")]
    Twice {
        /// The name in the word.
        name: String,
    },
    /// A part names no resource, and another does.
    #[error("'{part}' names no resource; either all values have names or none has")]
    NoName {
        /// The part of the word.
        part: String,
    },
    /// A value is no whole number.
    #[error("'{value}' is no whole number")]
    NotWhole {
        /// The value.
        value: String,
    },
    /// A price is a decimal, and whole in cents.
    #[error("'{value}' is no whole number; prices are whole numbers: count in cents, {cents}")]
    NotCents {
        /// The price.
        value: String,
        /// How many cents it is.
        cents: u64,
    },
    /// A value is too great for any order.
    #[error("{value} is too much: {limit}")]
    TooGreat {
        /// The value.
        value: String,
        /// The greatest value, in words.
        limit: &'static str,
    },
    /// Memory ran out.
    #[error("memory ran out")]
    Memory,
}

impl From<AllocError> for ValueFault {
    ghost use Rattle.std.specs.Prelude.{◌≡◌};
    ghost use Rattle.racp_values.specs.declared.fault.ValueFault.TheVariants.{Memory};

    ghost from_gives = { λ _ fault. fault ≡ Memory };

    fn from(_error: AllocError) -> ValueFault {
        ValueFault::Memory
    }
}
