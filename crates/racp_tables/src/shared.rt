//! The names of the resources of several tables.

ghost use Rattle.std.specs.Prelude.{◌≡◌, [], map, string_bytes, IfOk, OnOk};
ghost use Rattle.racp_tables.specs.Joined.{all_names, own_names, place_of, with_name, with_names};

use crate::part::Part;
use std::alloc::{AllocError, Global};

/// The names of the resources of all tables, each once, where it first stands.
pub(crate) fn all_names(alloc: Global, parts: &[Part]) -> Result<Vec<String>, AllocError>
    ensures { IfOk result (λ names. map string_bytes names.items ≡ all_names parts.now) }
{
    let mut names = Vec::new(alloc);
    for part in parts {
        push_names(alloc, &mut names, &part.table.resources)?;
    }
    Ok(names)
}

/// Adds names that are not there yet.
fn push_names(alloc: Global, names: &mut Vec<String>, more: &[String]) -> Result<(), AllocError>
    ensures { OnOk result (map string_bytes names.new.items ≡
        with_names (map string_bytes names.old.items) (map string_bytes more.now)) }
{
    for i in 0..more.len() {
        push_name(alloc, names, more[i].as_str())?;
    }
    Ok(())
}

/// Adds a name if it is not there yet.
fn push_name(alloc: Global, names: &mut Vec<String>, name: &str) -> Result<(), AllocError>
    ensures { OnOk result (map string_bytes names.new.items ≡ with_name (map string_bytes names.old.items) name.now) }
{
    if place_of(names, name).is_some() {
        return Ok(());
    }
    names.push(String::from_str(alloc, name)?)?;
    Ok(())
}

/// The place of a name, where it first stands among others, if it does.
pub(crate) fn place_of(names: &[String], name: &str) -> Option<usize>
    ensures { result ≡ place_of (map string_bytes names.now) name.now }
{
    for i in 0..names.len() {
        if names[i].as_str() == name {
            return Some(i);
        }
    }
    None
}
