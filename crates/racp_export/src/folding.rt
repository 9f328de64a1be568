//! The lines of iCalendar, which have at most 75 octets each.

ghost use Rattle.std.specs.Prelude.{◌≡◌, ◌++◌, ◌≤◌, IfOk, OnOk, string_bytes};
ghost use Rattle.racp_export.specs.Events.{content_line, folded, folding, with_letter};

use std::alloc::{AllocError, Global};

/// The most octets of a line.
const MOST_OCTETS: usize = 75;

/// Adds a content line. One of more than 75 octets goes on in further lines, each of which begins with a blank.
pub(crate) fn push_content(alloc: Global, text: &mut String, line: &str) -> Result<(), AllocError>
    ensures { OnOk result (string_bytes text.new ≡ string_bytes text.old ++ content_line line.now) }
{
    let lines = folded(alloc, line)?;
    text.push_str(lines.as_str())?;
    text.push_str("\r\n")?;
    Ok(())
}

/// A line, cut into lines of at most 75 octets each between letters.
fn folded(alloc: Global, line: &str) -> Result<String, AllocError>
    ensures { IfOk result (λ text. string_bytes text ≡ folded line.now) }
{
    let mut text = String::new(alloc);
    let mut octets = 0usize;
    for letter in line.chars() {
        octets = push_letter(&mut text, octets, letter)?;
    }
    Ok(text)
}

/// Adds a letter behind so many octets of a line, to a line of its own if there is no room. Returns how many octets of its line
/// there are then.
fn push_letter(text: &mut String, octets: usize, letter: char) -> Result<usize, AllocError>
    requires { octets ≤ 75 }
    ensures line { IfOk result (λ behind. folding (string_bytes text.new) behind ≡ with_letter (folding (string_bytes text.old) octets) letter) }
    ensures few { IfOk result (λ behind. behind ≤ 75) }
{
    let more = letter.len_utf8();
    if MOST_OCTETS < octets + more {
        text.push_str("\r\n ")?;
        text.push(letter)?;
        return Ok(1 + more);
    }
    text.push(letter)?;
    Ok(octets + more)
}
