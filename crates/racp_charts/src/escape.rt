//! Texts as XML writes them.

ghost use Rattle.std.specs.Prelude.{◌≡◌, ◌++◌, OnOk, string_bytes};
ghost use Rattle.racp_charts.specs.Texts.{escape, escaped};

use std::alloc::AllocError;

/// Adds a text in which no character stands for itself that means something else in XML.
pub fn push_escaped(text: &mut String, plain: &str) -> Result<(), AllocError>
    ensures { OnOk result (string_bytes text.new ≡ string_bytes text.old ++ escaped plain.now) }
{
    for letter in plain.chars() {
        push_letter(text, letter)?;
    }
    Ok(())
}

/// Adds what stands for a character: nothing for one that no text in XML has.
fn push_letter(text: &mut String, letter: char) -> Result<(), AllocError>
    ensures { OnOk result (string_bytes text.new ≡ string_bytes text.old ++ escape letter) }
{
    match letter {
        '&' => text.push_str("&amp;"),
        '<' => text.push_str("&lt;"),
        '>' => text.push_str("&gt;"),
        '"' => text.push_str("&quot;"),
        '\u{fffe}' | '\u{ffff}' => Ok(()),
        _ => text.push(letter),
    }
}
