//! What is wrong with links, in words.

use crate::fault::TableFault;
use crate::links::{name_at, overlap};
use crate::made::MadeFault;
use crate::row::Row;
use crate::ties::{Ties, links_of};
use racp_links::{Link, LinkFault, PhaseFault, is_phase, leaf_links};
use std::alloc::{AllocError, Global};

/// Rows, how they go together, and of each the number of the one that it is a part of, or 0.
#[derive(Clone, Copy)]
pub(crate) struct Linked<'a> {
    pub(crate) rows: &'a [Row],
    pub(crate) ties: &'a [Ties],
    pub(crate) parents: &'a [u32],
}

/// What is wrong with a link.
#[derive(Clone, Copy)]
enum Wrong {
    /// It ties a task to itself.
    Itself,
    /// It ties a phase to a part of it.
    Inside,
    /// It ties a phase, and not its end to a start.
    Kind,
    /// With it tasks could overlap.
    Overlap,
    /// Its job that waits would take too long.
    TooLong,
}

/// What is wrong with linked rows.
pub(crate) fn made_fault(alloc: Global, linked: Linked<'_>, fault: MadeFault) -> TableFault {
    let found = match fault {
        MadeFault::Phase(PhaseFault::NoTask(place)) => (place, Wrong::Itself),
        MadeFault::Phase(PhaseFault::Inside(place)) => (place, Wrong::Inside),
        MadeFault::Phase(PhaseFault::Kind(place)) => (place, Wrong::Kind),
        MadeFault::Link(LinkFault::NoTask(place)) => (place, Wrong::Itself),
        MadeFault::Link(LinkFault::Overlap(place)) => (place, Wrong::Overlap),
        MadeFault::Link(LinkFault::TooLong(place)) => (place, Wrong::TooLong),
        _ => return TableFault::Memory,
    };
    match told(alloc, linked, found, matches!(fault, MadeFault::Link(_))) {
        Ok(fault) => fault,
        Err(_) => TableFault::Memory,
    }
}

/// What is wrong with the link at a place, of all or of those between leaves.
fn told(
    alloc: Global,
    linked: Linked<'_>,
    found: (usize, Wrong),
    is_of_leaves: bool,
) -> Result<TableFault, AllocError> {
    let (place, wrong) = found;
    let links = links_of(alloc, linked.ties)?;
    let place = if is_of_leaves {
        source_of(alloc, linked.parents, &links, place)
    } else {
        place
    };
    match links.get(place) {
        Some(link) => {
            let words = words_of(alloc, linked, link, wrong)?;
            Ok(TableFault::At(line_at(linked, place), words))
        }
        None => Err(AllocError),
    }
}

/// The place of the link that stands for the one at a place of those between leaves.
fn source_of(alloc: Global, parents: &[u32], links: &[Link], place: usize) -> usize {
    let mut behind = 0usize;
    for (source, link) in links.iter().enumerate() {
        let count = match leaf_links(alloc, parents, &[*link]) {
            Ok(links) => links.len(),
            Err(_) => 0,
        };
        behind = behind.saturating_add(count);
        if place < behind {
            return source;
        }
    }
    links.len()
}

/// What is wrong with a link, in words.
fn words_of(
    alloc: Global,
    linked: Linked<'_>,
    link: &Link,
    wrong: Wrong,
) -> Result<String, AllocError> {
    let before = name_of(linked, link.before);
    let after = name_of(linked, link.after);
    match wrong {
        Wrong::Itself => {
            format!(in alloc; "no task can wait for itself: '{after}' after '{before}'")
        }
        Wrong::Inside => {
            let (whole, part) = if link.before < link.after {
                (before, after)
            } else {
                (after, before)
            };
            format!(in alloc; "'{part}' is a part of '{whole}', so no link can tie them")
        }
        Wrong::Kind => {
            let phase = if is_phase(linked.parents, link.before) {
                before
            } else {
                after
            };
            format!(in alloc; "'{phase}' is a phase; link its tasks, or from its end to a start")
        }
        Wrong::Overlap => overlap(alloc, before, after),
        Wrong::TooLong => {
            format!(in alloc; "the link from '{before}' to '{after}' waits too long")
        }
    }
}

/// The name of the row with a number.
fn name_of<'a>(linked: Linked<'a>, number: u32) -> &'a str {
    name_at(linked.rows, (number as usize).saturating_sub(1))
}

/// The line of the row whose cells name the link at a place.
fn line_at(linked: Linked<'_>, place: usize) -> u64 {
    let mut behind = 0usize;
    for (row, ties) in linked.rows.iter().zip(linked.ties) {
        behind = behind
            .saturating_add(ties.before.len())
            .saturating_add(ties.after.len());
        if place < behind {
            return row.line;
        }
    }
    0
}
