//! The resources that cells name, as in `Masons[3];Crane`.

ghost use Rattle.std.specs.Prelude.{◌≡◌, ◌++◌, ◌<◌, IfOk, OnOk, map, option_map};
ghost use Rattle.racp_tables.specs.Assigned.{bracketed, mention_of, mentioned, mentions, mentions_in, name_and_units};
ghost use Rattle.racp_tables.specs.Pieces.{without_last};

use crate::cell::plain;
use crate::pieces::{between, parts_at_last, without_last};
use std::alloc::{AllocError, Global};

/// One of the resources that a cell names, and what stands in brackets behind it.
#[derive(Drop)]
pub(crate) struct Mention {
    pub(crate) name: String,
    pub(crate) units: String,
}

/// The same as parts of the cell.
#[derive(Clone, Copy)]
struct Named<'a> {
    name: &'a str,
    units: &'a str,
}

/// The resources that the words of a cell name.
pub(crate) fn mentions_of(alloc: Global, cell: &str) -> Result<Vec<Mention>, AllocError>
    ensures { IfOk result (λ found. map mention_of found.items ≡ mentions cell.now) }
{
    let parts = between(alloc, cell, ';')?;
    let mut found = Vec::new(alloc);
    for part in &parts {
        push_words(alloc, &mut found, part)?;
    }
    Ok(found)
}

/// Adds the resources that the words of a part of a cell name.
fn push_words(alloc: Global, found: &mut Vec<Mention>, part: &str) -> Result<(), AllocError>
    ensures { OnOk result (map mention_of found.new.items ≡ map mention_of found.old.items ++ mentions_in part.now) }
{
    let words = between(alloc, part, ',')?;
    for word in &words {
        push_word(alloc, found, word.trim())?;
    }
    Ok(())
}

/// Adds the resource that a word names, if it names one.
fn push_word(alloc: Global, found: &mut Vec<Mention>, word: &str) -> Result<(), AllocError>
    ensures { OnOk result (map mention_of found.new.items ≡ map mention_of found.old.items ++ mentioned (name_and_units word.now)) }
{
    let Named { name, units } = named_in(word);
    if name.is_empty() {
        return Ok(());
    }
    let name = plain(alloc, name)?;
    let units = String::from_str(alloc, units)?;
    found.push(Mention { name, units })?;
    Ok(())
}

/// The name that a word says, and what stands in brackets behind it.
fn named_in(word: &str) -> Named<'_>
    ensures { (result.name.now, result.units.now) ≡ name_and_units word.now }
{
    match bracketed(word) {
        Some((name, units)) => Named {
            name: name.trim(),
            units: units.trim(),
        },
        None => Named {
            name: word,
            units: "1",
        },
    }
}

/// What stands before brackets at the end of a word, and in them.
fn bracketed(word: &str) -> Option<(&str, &str)>
    ensures { option_map (λ parts. (parts.0.now, parts.1.now)) result ≡ bracketed (without_last 93 word.now) }
{
    match without_last(word, b']') {
        Some(front) => parts_at_last(front, b'['),
        None => None,
    }
}
