//! How tasks go together, as the cells of their rows name them, and the links that this makes.

ghost use Rattle.std.specs.Prelude.{◌≡◌, ◌+◌, ◌++◌, ◌∷◌, [], IfOk, OnOk, map};
ghost use Rattle.racp_tables.specs.Rows.{link_from, link_to, links_at, links_behind};

use racp_links::{Link, LinkKind};
use std::alloc::{AllocError, Global};

/// The task at the other end of a link, by its place from 0, and how the two go together.
#[derive(Clone, Copy)]
pub(crate) struct Tie {
    pub(crate) place: usize,
    pub(crate) kind: LinkKind,
    pub(crate) lag: u32,
}

/// The tasks before and after the task of a row, as its cells name them.
#[derive(Drop)]
pub(crate) struct Ties {
    pub(crate) before: Vec<Tie>,
    pub(crate) after: Vec<Tie>,
}

/// The links of tasks with these ties, in their order, those of a task to the tasks before it first.
pub(crate) fn links_of(alloc: Global, all: &[Ties]) -> Result<Vec<Link>, AllocError>
    ensures { IfOk result (λ links. links.items ≡ links_behind 0 all.now) }
{
    let mut links = Vec::new(alloc);
    for i in 0..all.len() {
        push_links(&mut links, &all[i], i)?;
    }
    Ok(links)
}

/// Adds the links of the task at a place.
fn push_links(links: &mut Vec<Link>, ties: &Ties, place: usize) -> Result<(), AllocError>
    ensures { OnOk result (links.new.items ≡ links.old.items ++ links_at place ties.now) }
{
    push_from(links, &ties.before, place)?;
    push_to(links, &ties.after, place)
}

/// Adds the links from other tasks to the one at a place.
fn push_from(links: &mut Vec<Link>, ties: &[Tie], place: usize) -> Result<(), AllocError>
    ensures { OnOk result (links.new.items ≡ links.old.items ++ map (link_from place) ties.now) }
{
    for tie in ties {
        let (before, after) = (number_at(tie.place)?, number_at(place)?);
        push_link(links, tie, before, after)?;
    }
    Ok(())
}

/// Adds the links from the task at a place to other tasks.
fn push_to(links: &mut Vec<Link>, ties: &[Tie], place: usize) -> Result<(), AllocError>
    ensures { OnOk result (links.new.items ≡ links.old.items ++ map (link_to place) ties.now) }
{
    for tie in ties {
        let (before, after) = (number_at(place)?, number_at(tie.place)?);
        push_link(links, tie, before, after)?;
    }
    Ok(())
}

/// Adds the link of a tie between two tasks.
fn push_link(links: &mut Vec<Link>, tie: &Tie, before: u32, after: u32) -> Result<(), AllocError>
    ensures { OnOk result (links.new.items ≡ links.old.items ++
        record { before = before; after = after; kind = tie.now.kind; lag = tie.now.lag } ∷ []) }
{
    links.push(Link {
        before,
        after,
        kind: tie.kind,
        lag: tie.lag,
    })?;
    Ok(())
}

/// The number of the task at a place; there are far fewer tasks than numbers.
pub(crate) fn number_at(place: usize) -> Result<u32, AllocError>
    ensures { IfOk result (λ number. number ≡ place + 1) }
{
    let Ok(place) = u32::try_from(place) else {
        return Err(AllocError);
    };
    match place.checked_add(1) {
        Some(number) => Ok(number),
        None => Err(AllocError),
    }
}
