//! The arrays and values of an order.

use std::alloc::AllocError;
use toml::Value;

/// The arrays of an order, in the order in which they are read; those of resources come first.
pub(crate) const ARRAYS: &[&str] = &["prices", "owned", "ceiling", "release", "due"];

/// The elements of a value, if it is an array.
pub(crate) fn items_of(value: Option<&Value>) -> Option<&[Value]> {
    let items = value?.as_array()?;
    Some(items.as_slice())
}

/// Adds a key and its value, if that is a number, or else the type of the value.
pub(crate) fn push_value(
    text: &mut String,
    key: &str,
    value: Option<&Value>,
) -> Result<(), AllocError> {
    let Some(value) = value else {
        return text.push_str("no such key");
    };
    match value.as_integer() {
        Some(number) => write!(text, "{key} = {number}"),
        None => {
            let kind = value.type_str();
            write!(text, "{key} of the type {kind}")
        }
    }
}
