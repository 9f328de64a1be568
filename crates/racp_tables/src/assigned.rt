//! What tasks need of the resources that they name.

ghost use Rattle.std.specs.Prelude.{◌≡◌, ◌++◌, ◌∷◌, [], IfOk, OnOk, map, string_bytes};
ghost use Rattle.racp_tables.specs.Amounts.{capped};
ghost use Rattle.racp_tables.specs.Assigned.{assigned_said, mention_of, share, told, units_for, units_named, with_units};
ghost use Rattle.racp_tables.specs.Pieces.{without_last};

use crate::fault::TableFault;
use crate::mention::{Mention, mentions_of};
use crate::needs::{help_for, push_request, units_in};
use crate::pieces::without_last;
use racp_model::limits::MOST_REQUEST;
use std::alloc::{AllocError, Global};

/// One of the resources that a cell names, and how many units of it.
#[derive(Drop)]
pub(crate) struct Assigned {
    pub(crate) name: String,
    pub(crate) units: u32,
}

/// What a cell says of resources by their names.
pub(crate) fn assigned_in(alloc: Global, line: u64, cell: &str) -> Result<Vec<Assigned>, TableFault>
    ensures { IfOk result (λ assigned. assigned_said cell.now ≡ map told assigned.items) }
{
    let mentions = mentions_of(alloc, cell)?;
    all_assigned(alloc, line, &mentions)
}

/// What these words say.
fn all_assigned(alloc: Global, line: u64, mentions: &[Mention]) -> Result<Vec<Assigned>, TableFault>
    ensures { IfOk result (λ assigned. map with_units (map mention_of mentions.now) ≡ map told assigned.items) }
{
    let mut all = Vec::new(alloc);
    for mention in mentions {
        let assigned = assigned_of(alloc, line, mention)?;
        keep_assigned(&mut all, assigned)?;
    }
    Ok(all)
}

/// Adds a resource with its units.
fn keep_assigned(all: &mut Vec<Assigned>, assigned: Assigned) -> Result<(), AllocError>
    ensures { OnOk result (all.new.items ≡ all.old.items ++ assigned ∷ []) }
{
    all.push(assigned)?;
    Ok(())
}

/// A resource with its units. A number of units, or of hundredths of one, may stand in brackets behind a name.
fn assigned_of(alloc: Global, line: u64, mention: &Mention) -> Result<Assigned, TableFault>
    ensures { IfOk result (λ assigned. with_units (mention_of mention.now) ≡ told assigned) }
{
    let told = mention.units.as_str();
    match share(alloc, told)? {
        Some(units) => Ok(Assigned {
            name: String::from_str(alloc, mention.name.as_str())?,
            units,
        }),
        None => Err(TableFault::at(line, no_units(alloc, mention))),
    }
}

/// How many units are told, as a number or as a percentage of one.
fn share(alloc: Global, units: &str) -> Result<Option<u32>, AllocError>
    ensures { IfOk result (λ found. found ≡ share units.now (without_last 37 units.now)) }
{
    match without_last(units, b'%') {
        Some(percent) => units_in(alloc, percent.trim(), 10_000),
        None => units_in(alloc, units, 100),
    }
}

/// What is wrong with the units that are told of a resource.
fn no_units(alloc: Global, mention: &Mention) -> Result<String, AllocError> {
    let (name, units) = (mention.name.as_str(), mention.units.as_str());
    let (digits, one) = match without_last(units, b'%') {
        Some(percent) => (percent.trim(), 10_000u64),
        None => (units, 100),
    };
    let help = match help_for(alloc, digits, one)? {
        "" => "write units as in Masons[3] or Masons[300%]",
        help => help,
    };
    format!(in alloc; "{name} '{units}' is no whole number from 0 to {MOST_REQUEST}; {help}")
}

/// Adds the units of each resource of the roster to the requests of a task.
pub(crate) fn push_named(
    alloc: Global,
    requests: &mut Vec<u32>,
    line: u64,
    roster: &[String],
    assigned: &[Assigned],
) -> Result<(), TableFault>
    ensures { OnOk result (requests.new.items ≡ requests.old.items ++ map (units_named (map told assigned.now)) (map string_bytes roster.now)) }
{
    for name in roster {
        let units = units_named(assigned, name.as_str());
        if units > MOST_REQUEST as u64 {
            return Err(TableFault::at(line, too_many_units(alloc, name.as_str())));
        }
        push_request(requests, units as u32)?;
    }
    Ok(())
}

/// How many units of the resource of this name are told.
fn units_named(assigned: &[Assigned], name: &str) -> u64
    ensures { result ≡ capped (units_named (map told assigned.now) name.now) }
{
    let mut sum = 0u64;
    for other in assigned {
        sum = sum.saturating_add(units_for(other, name));
    }
    sum
}

/// How many units of the resource of this name are told by one word.
fn units_for(assigned: &Assigned, name: &str) -> u64
    ensures { result ≡ units_for name.now (told assigned.now) }
{
    if assigned.name.as_str() == name {
        assigned.units as u64
    } else {
        0
    }
}

/// What is wrong where a task names a resource several times.
fn too_many_units(alloc: Global, name: &str) -> Result<String, AllocError> {
    format!(in alloc; "the task needs more than {MOST_REQUEST} of {name}")
}
