//! Links between leaves, which are numbered anew.

ghost use Rattle.std.specs.Prelude.{◌≡◌, length, map, slice_index, All, IfOk};
ghost use Rattle.std.specs.List.{range_with_len};
ghost use Rattle.racp_model.specs.Project.{place, IsNumber};
ghost use Rattle.racp_links.specs.Phases.{IsOutline, leaf_number, numbered, numbered_links};
ghost use Rattle.racp_links.specs.PhaseFaults.{AreSpreadable, IsNumbered};

use crate::fault::PhaseFault;
use crate::link::Link;
use crate::outline::{check_outline, leaf_numbers, phases};
use crate::spreading::{check_links, spread};
use std::alloc::{AllocError, Global};

/// A link whose tasks are numbered as a list says, by places.
fn renumber(link: &Link, numbers: &[u32]) -> Link
    requires before { IsNumber (length numbers.now) link.now.before }
    requires after { IsNumber (length numbers.now) link.now.after }
    ensures { result ≡ record link.now {
      before = slice_index numbers.now (place link.now.before);
      after = slice_index numbers.now (place link.now.after);
    } }
{
    Link {
        before: numbers[link.before as usize - 1],
        after: numbers[link.after as usize - 1],
        kind: link.kind,
        lag: link.lag,
    }
}

/// Links whose tasks are numbered among the leaves alone, by the numbers of all tasks.
fn renumbered(
    alloc: Global,
    parents: &[u32],
    numbers: &[u32],
    links: &[Link],
) -> Result<Vec<Link>, AllocError>
    requires numbers { numbers.now ≡ map (leaf_number parents.now) (range_with_len 1 (length parents.now)) }
    requires before { All (λ link. IsNumber (length parents.now) link.before) links.now }
    requires after { All (λ link. IsNumber (length parents.now) link.after) links.now }
    ensures { IfOk result (λ made. made.items ≡ map (numbered parents.now) links.now) }
{
    let mut made = Vec::new(alloc);
    for link in links {
        made.push(renumber(link, numbers))?;
    }
    Ok(made)
}

/// The links between leaves that links stand for, numbered among the leaves alone.
fn spread_anew(alloc: Global, parents: &[u32], links: &[Link]) -> Result<Vec<Link>, AllocError>
    requires outline { IsOutline parents.now }
    requires spreadable { AreSpreadable parents.now links.now }
    ensures { IfOk result (λ made. made.items ≡ numbered_links parents.now links.now) }
{
    let marks = phases(alloc, parents)?;
    let numbers = leaf_numbers(alloc, parents, &marks)?;
    let spread = spread(alloc, parents, links)?;
    renumbered(alloc, parents, &numbers, &spread)
}

/// Spreads links of phases over their leaves, as `leaf_links` does, and numbers the leaves alone, from 1 in their order.
///
/// # Errors
///
/// As of `leaf_links`.
pub fn numbered_links(
    alloc: Global,
    parents: &[u32],
    links: &[Link],
) -> Result<Vec<Link>, PhaseFault>
    ensures { IsNumbered parents.now links.now result }
{
    check_outline(parents)?;
    check_links(parents, links)?;
    Ok(spread_anew(alloc, parents, links)?)
}
