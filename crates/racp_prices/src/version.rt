//! The versions of order texts, and their keys.

ghost use Rattle.std.specs.Prelude.{◌≡◌, option_map, bytes_eq};
ghost use Rattle.std.specs.List.{list_any};
ghost use Rattle.toml.specs.View.{view};
ghost use Rattle.racp_prices.specs.Orders.{keys_of, numbered_version, plain_keys, version_of};

use crate::fault::OrderFault;
use crate::numbers::whole;
use toml::Value;

/// A version of order texts.
#[derive(Clone, Copy, PartialEq, Eq, Drop)]
pub(crate) enum Version {
    /// A deadline and prices alone.
    First,
    /// Also owned units, ceilings, release and due times.
    Second,
}

impl Version {
    /// The version that the value of the key `version` says, if there is one.
    #[tactic(auto, unfolding(crate::specs::Orders::version_of))]
    pub(crate) fn read(value: Option<&Value>) -> Result<Version, OrderFault>
        ensures { result ≡ version_of (option_map (λ v. view v.now) value.entry) }
    {
        match value {
            None => Ok(Version::First),
            Some(value) => Version::numbered(whole(value)?),
        }
    }

    /// The version with this number.
    fn numbered(number: i64) -> Result<Version, OrderFault>
        ensures { result ≡ numbered_version number }
    {
        match number {
            2 => Ok(Version::Second),
            _ => Err(OrderFault::Version),
        }
    }

    /// Whether an order may have this key.
    pub(crate) fn has_key(self, key: &str) -> bool
        ensures { result ≡ list_any (bytes_eq key.now) (keys_of self) }
    {
        match self {
            Version::First => is_plain_key(key),
            Version::Second => {
                key == "version"
                    || key == "owned"
                    || key == "ceiling"
                    || key == "release"
                    || key == "due"
                    || is_plain_key(key)
            }
        }
    }
}

/// Whether every order has this key.
fn is_plain_key(key: &str) -> bool
    ensures { result ≡ list_any (bytes_eq key.now) plain_keys }
{
    key == "deadline" || key == "prices"
}
