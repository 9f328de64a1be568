//! Texts as they are shown on a terminal.

use std::fmt;
use std::fmt::{Display, Formatter, Write};

/// A text without its control characters, which a path may have and a terminal obeys; line feeds stay.
#[derive(Drop)]
pub struct Shown<'a> {
    text: &'a str,
}

impl<'a> Shown<'a> {
    /// This text.
    pub fn of(text: &'a str) -> Self {
        Shown { text }
    }
}

impl<'a> Display for Shown<'a> {
    fn fmt<W: Write>(&self, f: &mut Formatter<W>) -> fmt::Result {
        for letter in self.text.chars() {
            if is_shown(letter) {
                f.write_char(letter)?;
            }
        }
        Ok(())
    }
}

/// Whether a letter is shown.
fn is_shown(letter: char) -> bool {
    letter == '\n' || !letter.is_control()
}
