//! The words of a part of a network text, through all its lines.

ghost use Rattle.std.specs.Prelude.{◌≡◌, ◌<◌, []};
ghost use Rattle.racp_sm.specs.Parts.{next_number, nothing_left};
ghost use Rattle.racp_text.specs.Reading.{with_rest};
ghost use Rattle.racp_sm.specs.Steps.{Takes, IsSameStream, map_ok, stream_of};

use crate::fault::{SmFault, SmFaultKind};
use crate::line::Lines;
use crate::part::{Mark, Part};
use crate::word::{Word, Words};
use std::marker::Model;

/// The words of a part that are still to come, through all its lines. Contracts see them with the number of the part's
/// title line and the lines after the part.
#[derive(Drop)]
pub(crate) struct Stream<'a> {
    part: Part,
    title: usize,
    words: Words<'a>,
    lines: Lines<'a>,
}

impl<'a> Model for Stream<'a> {
    ghost use Rattle.racp_sm.specs.Steps as steps;

    ghost Value = { steps.Words };

    ghost view = { λ stream. steps.stream_of stream.part stream.title stream.words stream.lines };
}

impl<'a> Stream<'a> {
    /// The words of a part in these lines, whose title has this number.
    pub(crate) fn new(part: Part, title: usize, lines: Lines<'a>) -> Self
        ensures { result ≡ stream_of part title [] lines.entry }
    {
        Stream {
            part,
            title,
            words: Words::new(title, b""),
            lines,
        }
    }

    /// Takes the next word off.
    fn next_word(&mut self) -> Option<Word<'a>>
        ensures words { Takes self.old.words result self.new.words }
        ensures same { IsSameStream self.old self.new }
    {
        loop {
            if let Some(word) = self.words.next_word() {
                return Some(word);
            }
            let line = self.lines.next_before(Mark::End(self.part))?;
            if !self.part.skips(&line) {
                self.words = line.words();
            }
        }
    }

    /// Takes the next number off, which is to be from `low` to `high`.
    ///
    /// # Errors
    ///
    /// `TooFew` if there is none, at the part's title; `BadNumber` if the word is no number, and this kind of
    /// fault if it is another one, at the word's line.
    pub(crate) fn next_number(
        &mut self,
        kind: SmFaultKind,
        low: u32,
        high: u32,
    ) -> Result<u32, SmFault>
        ensures number { with_rest (λ x. x) result self.new.words
            ≡ next_number self.old.title kind low high self.old.words }
        ensures same { IsSameStream self.old self.new }
    {
        match self.next_word() {
            Some(word) => word.number_within(kind, low, high),
            None => Err(SmFault::at(SmFaultKind::TooFew, self.title)),
        }
    }

    /// Ends the part: gives the lines after it back.
    ///
    /// # Errors
    ///
    /// `TooMany` if a number is left, `BadNumber` if another word is, at its line.
    pub(crate) fn end(self) -> Result<Lines<'a>, SmFault>
        ensures { result ≡ map_ok self.entry.after (nothing_left self.entry.words) }
    {
        let mut rest = self;
        if let Some(word) = rest.next_word() {
            return Err(word.too_many());
        }
        let mut lines = rest.lines;
        lines.skip_to(Mark::End(rest.part));
        Ok(lines)
    }
}
