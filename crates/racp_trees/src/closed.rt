//! The closed nodes that lines of a text name.

ghost use Rattle.std.specs.Prelude.{◌≡◌, ℕ, ◌<◌, IfOk, OnOk, MatchOption, None, Some, length, nat_eq};
ghost use Rattle.std.specs.HashMap.{Updates};
ghost use Rattle.racp_trees.specs.declared.record.Record.{Record};
ghost use Rattle.racp_trees.specs.Reading.{IsNamedAt};
ghost use Rattle.racp_trees.specs.Making.{IsThinned};
ghost use Rattle.racp_trees.specs.Records.{AreNamed, IsKept, record_at};

use crate::reading::read_step;
use crate::record::Record;
use crate::step::Step;
use std::alloc::{AllocError, Global};
use std::collections::HashMap;

/// The records of closed nodes, by their numbers. A node that no line names is not kept.
#[derive(Drop)]
pub(crate) struct Closed {
    records: HashMap<u64, Option<Record>>,
}

impl Closed {
    /// Places for the nodes that lines of a text name, and no records.
    pub(crate) fn for_text(alloc: Global, text: &[u8]) -> Result<Self, AllocError>
        ensures { IfOk result (AreNamed text.now) }
    {
        let mut records = HashMap::new(alloc);
        for at in 0..text.len() {
            if let Some(node) = named_at(text, at) {
                add_place(&mut records, node as u64)?;
            }
        }
        Ok(Closed { records })
    }

    /// No places.
    pub(crate) fn none(alloc: Global) -> Self
        ensures { (number : ℕ) → record_at result number ≡ None }
    {
        Closed {
            records: HashMap::new(alloc),
        }
    }

    /// Makes a place for the node with a number, which is not closed.
    pub(crate) fn expect(&mut self, number: u64) -> Result<(), AllocError>
        ensures { OnOk result (IsThinned self.old self.new number) }
    {
        add_place(&mut self.records, number)
    }

    /// Forgets the node with a number.
    pub(crate) fn forget(&mut self, number: u64)
        ensures { (next : ℕ) → IsThinned self.old self.new next }
    {
        let _ = self.records.remove(&number);
    }

    /// Keeps the record of a node that is closed, if some line names it.
    pub(crate) fn keep(&mut self, number: u64, kept: Record) -> Result<(), AllocError>
        ensures { OnOk result (IsKept self.old number kept self.new) }
    {
        if self.records.contains_key(&number) {
            self.records.insert(number, Some(kept))?;
        }
        Ok(())
    }

    /// The record of the closed node with a number, or `None` if no such node is closed or no line names it.
    pub(crate) fn record(&self, number: u64) -> Option<&Record>
        ensures { MatchOption result ((kept : Record) → record_at self.now number ≡ Some (Some kept) → ⊥) (λ kept. record_at self.now number ≡ Some (Some kept.now)) }
    {
        match self.records.get(&number) {
            Some(kept) => kept.as_ref(),
            None => None,
        }
    }
}

/// Makes a place for the node with a number.
fn add_place(records: &mut HashMap<u64, Option<Record>>, number: u64) -> Result<(), AllocError>
    ensures { OnOk result (Updates nat_eq records.old records.new number (Some None)) }
{
    records.insert(number, None)?;
    Ok(())
}

/// The node that is named by the line from this place on, or `None` if no line that names one begins there.
fn named_at(text: &[u8], at: usize) -> Option<u32>
    requires { at < length text.now }
    ensures { IsNamedAt text.now at result }
{
    if at > 0 && text[at - 1] != b'\n' {
        return None;
    }
    let (step, _) = read_step(&text[at..])?;
    match step {
        Step::C(node) => Some(node),
        _ => None,
    }
}
