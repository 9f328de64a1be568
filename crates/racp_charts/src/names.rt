//! Names and numbers in a drawing or on a page.

ghost use Rattle.std.specs.Prelude.{◌≡◌, ◌++◌, OnOk, option_map, string_bytes};
ghost use Rattle.racp_charts.specs.Elements.{cut_text, listed_predecessor, name_text, numbered_text, predecessor_list, predecessor_text, short_text, text_within};

use crate::escape::push_escaped;
use racp_show::{Predecessor, label_within};
use std::alloc::{AllocError, Global};
use unicode_width::UnicodeWidthStr;

/// Adds a name as XML writes it; or a word and a number, if there is none.
pub fn push_name(
    text: &mut String,
    name: Option<&str>,
    word: &str,
    number: usize,
) -> Result<(), AllocError>
    ensures { OnOk result (string_bytes text.new ≡ string_bytes text.old ++
        name_text (option_map (λ name. name.now) name.entry) word.now number) }
{
    match name {
        Some(name) => push_escaped(text, name),
        None => push_numbered(text, word, number),
    }
}

/// Adds a word and a number.
#[tactic(auto, unfolding(crate::specs::Elements::numbered_text))]
fn push_numbered(text: &mut String, word: &str, number: usize) -> Result<(), AllocError>
    ensures { OnOk result (string_bytes text.new ≡ string_bytes text.old ++ numbered_text word.now number) }
{
    write!(text, "{word} {number}")
}

/// Adds a name, cut if it takes more than so many columns; or a word and a number, if there is none.
pub(crate) fn push_short(
    alloc: Global,
    text: &mut String,
    name: Option<&str>,
    word: &str,
    number: usize,
    most: usize,
) -> Result<(), AllocError>
    ensures { OnOk result (string_bytes text.new ≡ string_bytes text.old ++
        short_text most (option_map (λ name. name.now) name.entry) word.now number) }
{
    match name {
        Some(name) => push_within(alloc, text, name, most),
        None => push_numbered(text, word, number),
    }
}

/// Adds a name, cut if it takes more than so many columns.
pub(crate) fn push_within(
    alloc: Global,
    text: &mut String,
    name: &str,
    most: usize,
) -> Result<(), AllocError>
    ensures { OnOk result (string_bytes text.new ≡ string_bytes text.old ++ text_within most name.now) }
{
    if most < name.width() {
        push_cut(alloc, text, name, most)
    } else {
        push_escaped(text, name)
    }
}

/// Adds the beginning of a name, and an ellipsis, which take so many columns.
fn push_cut(alloc: Global, text: &mut String, name: &str, most: usize) -> Result<(), AllocError>
    ensures { OnOk result (string_bytes text.new ≡ string_bytes text.old ++ cut_text most name.now) }
{
    let beginning = label_within(alloc, Some(name), "", 0, most.saturating_sub(1))?;
    push_escaped(text, beginning.as_str())?;
    text.push('…')?;
    Ok(())
}

/// Adds what a task waits for: numbers of tasks, with `+` and a lag where there is one, and a comma between two of them.
///
/// # Errors
///
/// Memory was refused.
pub fn push_predecessors(text: &mut String, predecessors: &[Predecessor]) -> Result<(), AllocError>
    ensures { OnOk result (string_bytes text.new ≡ string_bytes text.old ++ predecessor_list 0 predecessors.now) }
{
    for (place, predecessor) in predecessors.iter().enumerate() {
        push_listed(text, place, *predecessor)?;
    }
    Ok(())
}

/// Adds the predecessor at this place of some, with a comma before it unless it is the first.
fn push_listed(text: &mut String, place: usize, predecessor: Predecessor) -> Result<(), AllocError>
    ensures { OnOk result (string_bytes text.new ≡ string_bytes text.old ++ listed_predecessor place predecessor) }
{
    if place == 0 {
        return push_predecessor(text, predecessor);
    }
    text.push_str(", ")?;
    push_predecessor(text, predecessor)?;
    Ok(())
}

/// Adds the number of a predecessor, and its lag if there is one.
fn push_predecessor(text: &mut String, predecessor: Predecessor) -> Result<(), AllocError>
    ensures { OnOk result (string_bytes text.new ≡ string_bytes text.old ++ predecessor_text predecessor) }
{
    let (job, lag) = (predecessor.job, predecessor.lag);
    if lag == 0 {
        write!(text, "{job}")
    } else {
        write!(text, "{job}+{lag}")
    }
}
