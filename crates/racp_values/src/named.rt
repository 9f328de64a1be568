//! Values by the names of the resources.

ghost use Rattle.std.specs.Prelude.{◌≡◌, ◌<◌, [], ◌∷◌, ◌++◌, IfOk, IfSome, OnOk, length};

use crate::fault::ValueFault;
use crate::nearest::unknown;
use crate::number::{no_value, value_in};
use crate::quantity::Quantity;
use caseless::default_caseless_match_str;
use std::alloc::{AllocError, Global};

/// A part of a word that gives a value to a resource.
#[derive(Clone, Copy)]
struct Named<'a> {
    name: &'a str,
    value: u32,
}

/// The values that a word gives by name to resources with these names, in the order of the resources.
pub(crate) fn values_by_name(
    alloc: Global,
    word: &str,
    names: &[String],
    quantity: Quantity,
) -> Result<Vec<u32>, ValueFault>
    ensures { IfOk result (λ values. length values.items ≡ length names.now) }
{
    let mut found = vec![in alloc; None; names.len()]?;
    for part in word.split(',') {
        let named = named_in(alloc, part, quantity)?;
        put(alloc, &mut found, names, named)?;
    }
    all_of(alloc, &found, names)
}

/// The name and the value of a part of a word.
fn named_in(alloc: Global, part: &str, quantity: Quantity) -> Result<Named<'_>, ValueFault> {
    let Some((name, value)) = part.rsplit_once('=') else {
        let part = String::from_str(alloc, part.trim())?;
        return Err(ValueFault::NoName { part });
    };
    let (name, text) = (name.trim(), value.trim());
    match value_in(text) {
        Some(value) => Ok(Named { name, value }),
        None => Err(no_value(alloc, text, quantity)?),
    }
}

/// Notes the value of a resource.
fn put(
    alloc: Global,
    found: &mut [Option<u32>],
    names: &[String],
    named: Named<'_>,
) -> Result<(), ValueFault>
    requires { length found.old ≡ length names.now }
    ensures { length found.new ≡ length found.old }
{
    let Some(place) = place_of(names, named.name) else {
        return Err(unknown(alloc, names, named.name)?);
    };
    if found[place].is_some() {
        let name = String::from_str(alloc, named.name)?;
        return Err(ValueFault::Twice { name });
    }
    found[place] = Some(named.value);
    Ok(())
}

/// The place of the resource with this name, from 0: of the first that is spelled so, or else of the first that is the
/// same but for capitals.
fn place_of(names: &[String], name: &str) -> Option<usize>
    ensures { IfSome result (λ place. place < length names.now) }
{
    for place in 0..names.len() {
        if names[place].as_str() == name {
            return Some(place);
        }
    }
    for place in 0..names.len() {
        if default_caseless_match_str(names[place].as_str(), name) {
            return Some(place);
        }
    }
    None
}

/// The values, if each resource has one.
fn all_of(alloc: Global, found: &[Option<u32>], names: &[String]) -> Result<Vec<u32>, ValueFault>
    requires { length found.now ≡ length names.now }
    ensures { IfOk result (λ values. length values.items ≡ length names.now) }
{
    let mut values = Vec::new(alloc);
    for place in 0..names.len() {
        let Some(value) = found[place] else {
            let name = names[place].clone()?;
            return Err(ValueFault::Missing { name });
        };
        push(&mut values, value)?;
    }
    Ok(values)
}

/// Adds a value.
fn push(values: &mut Vec<u32>, value: u32) -> Result<(), AllocError>
    ensures { OnOk result (values.new.items ≡ values.old.items ++ value ∷ []) }
{
    values.push(value)?;
    Ok(())
}
