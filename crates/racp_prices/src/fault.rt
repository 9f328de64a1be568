//! Why a text is no order.

ghost use Rattle.std.specs.Prelude.{◌≡◌};
ghost use Rattle.racp_prices.specs.Faults.{fault_name};

use std::alloc::{AllocError, AllocFailed};
use thiserror::Error;

/// Why a text is no order: the first rule that it breaks, in the order in which the rules are tested. The number that
/// is printed is that of the variant.
#[derive(Debug, Clone, Copy, PartialEq, Eq, Drop, Error)]
pub enum OrderFault {
    /// The text is not UTF-8, or not TOML.
    #[error("the text is not TOML")]
    NotToml = 1,
    /// `deadline` or `prices` is missing.
    #[error("the deadline or the prices are missing")]
    Missing = 2,
    /// There is a key that orders of this version do not have.
    #[error("there is an unknown key")]
    Unknown = 3,
    /// Something else stands where a whole number, or an array of whole numbers, has to.
    #[error("something is not a whole number, or not an array of them")]
    NotWhole = 4,
    /// A number is below 0 or above its limit.
    #[error("a number is out of range")]
    Range = 5,
    /// An array has another number of elements than there are resources, or jobs.
    #[error("an array has the wrong number of elements")]
    Count = 6,
    /// Memory ran out, or the values of the text could take more than 448 MiB.
    #[error("out of memory")]
    Memory = 7,
    /// The version is not 2.
    #[error("the version is unknown")]
    Version = 8,
}

impl OrderFault {
    /// The fault's name, as `NotToml`.
    pub fn name(self) -> &'static str
        ensures { result.now ≡ fault_name self }
    {
        match self {
            OrderFault::NotToml => "NotToml",
            OrderFault::Missing => "Missing",
            OrderFault::Unknown => "Unknown",
            OrderFault::NotWhole => "NotWhole",
            OrderFault::Range => "Range",
            OrderFault::Count => "Count",
            OrderFault::Memory => "Memory",
            OrderFault::Version => "Version",
        }
    }
}

impl From<AllocError> for OrderFault {
    ghost use Rattle.std.specs.Prelude.{◌≡◌};
    ghost use Rattle.racp_prices.specs.declared.fault.OrderFault.TheVariants.{Memory};

    ghost from_gives = { λ _ fault. fault ≡ Memory };

    fn from(_error: AllocError) -> OrderFault {
        OrderFault::Memory
    }
}

impl<T: Drop> From<AllocFailed<T>> for OrderFault {
    ghost use Rattle.std.specs.Prelude.{◌≡◌};
    ghost use Rattle.racp_prices.specs.declared.fault.OrderFault.TheVariants.{Memory};

    ghost from_gives = { λ _ fault. fault ≡ Memory };

    fn from(_error: AllocFailed<T>) -> OrderFault {
        OrderFault::Memory
    }
}
