//! The words of a line, and the numbers that they stand for.

ghost use Rattle.std.specs.Prelude.{◌≡◌, ◌<◌, ◌≤◌, IfOk};
ghost use Rattle.racp_sm.specs.Lines.{words_of};
ghost use Rattle.racp_sm.specs.Head.{number_within};
ghost use Rattle.racp_sm.specs.Parts.{left_over};
ghost use Rattle.racp_sm.specs.Steps.{Takes};

use crate::cut::first_word;
use crate::fault::{SmFault, SmFaultKind};
use racp_text::number;
use std::marker::Model;

/// A word of a text, and the number of its line, from 1. Contracts see the `Word` of specs/Lines.
#[derive(Drop)]
pub(crate) struct Word<'a> {
    line: usize,
    bytes: &'a [u8],
}

impl<'a> Model for Word<'a> {
    ghost use Rattle.racp_sm.specs.Lines as lines;

    ghost Value = { lines.Word };

    ghost view = { λ word. record { line = word.line; bytes = word.bytes.now } };
}

impl<'a> Word<'a> {
    /// The word of these bytes, at this line.
    pub(crate) fn new(line: usize, bytes: &'a [u8]) -> Self
        ensures { result ≡ record { line = line; bytes = bytes.now } }
    {
        Word { line, bytes }
    }

    /// The number that the word stands for, if it is from `low` to `high`.
    ///
    /// # Errors
    ///
    /// `BadNumber` if the word is no number, and this kind of fault if it is another one, at the word's line.
    pub(crate) fn number_within(
        &self,
        kind: SmFaultKind,
        low: u32,
        high: u32,
    ) -> Result<u32, SmFault>
        ensures number { result ≡ number_within kind low high self.now }
        ensures most { IfOk result (λ n. n ≤ high) }
    {
        match number(self.bytes) {
            Some(number) if low as u64 <= number && number <= high as u64 => Ok(number as u32),
            Some(_) => Err(self.fault(kind)),
            None => Err(self.fault(SmFaultKind::BadNumber)),
        }
    }

    /// What is wrong if the word is one too many.
    pub(crate) fn too_many(&self) -> SmFault
        ensures { result ≡ left_over self.now }
    {
        match number(self.bytes) {
            Some(_) => self.fault(SmFaultKind::TooMany),
            None => self.fault(SmFaultKind::BadNumber),
        }
    }

    /// A fault at the word's line.
    fn fault(&self, kind: SmFaultKind) -> SmFault
        ensures { result ≡ record { kind = kind; line = self.now.line } }
    {
        SmFault::at(kind, self.line)
    }
}

/// The words of a line that are still to come. Contracts see a list.
#[derive(Drop)]
pub(crate) struct Words<'a> {
    line: usize,
    rest: &'a [u8],
}

impl<'a> Model for Words<'a> {
    ghost use Rattle.std.specs.Prelude.{List};
    ghost use Rattle.racp_sm.specs.Lines as lines;

    ghost Value = { List lines.Word };

    ghost view = { λ words. lines.words_of (record { number = words.line; bytes = words.rest.now }) };
}

impl<'a> Words<'a> {
    /// The words in these bytes, which stand at this line.
    pub(crate) fn new(line: usize, bytes: &'a [u8]) -> Self
        ensures { result ≡ words_of (record { number = line; bytes = bytes.now }) }
    {
        Words { line, rest: bytes }
    }

    /// Takes the first word off.
    pub(crate) fn next_word(&mut self) -> Option<Word<'a>>
        ensures { Takes self.old result self.new }
    {
        let Some((bytes, rest)) = first_word(self.rest) else {
            self.rest = &self.rest[..0];
            return None;
        };
        self.rest = rest;
        Some(Word::new(self.line, bytes))
    }
}
