//! The lines of a text.

ghost use Rattle.std.specs.Prelude.{◌≡◌, ◌==◌};
ghost use Rattle.std.specs.List.{list_all};
ghost use Rattle.std.specs.Str.Lines.{strip_carriage_return};
ghost use Rattle.racp_sm.specs.Lines.{words_of, words_in, lines_of, has_words};
ghost use Rattle.racp_sm.specs.Reading.{has_star, is_rule, from_first};
ghost use Rattle.racp_sm.specs.Steps.{Takes, TakesPiece, TakesBefore, has_mark, texts};

use crate::cut::{are_words, first_word};
use crate::part::Mark;
use crate::word::Words;
use racp_text::cut_at;
use std::marker::Model;

/// The byte that ends a text.
const END: u8 = 0x1A;

/// A line of a text, and its number from 1. Contracts see the `Line` of specs/Lines.
#[derive(Drop)]
pub(crate) struct Line<'a> {
    number: usize,
    bytes: &'a [u8],
}

impl<'a> Model for Line<'a> {
    ghost use Rattle.racp_sm.specs.Lines as lines;

    ghost Value = { lines.Line };

    ghost view = { λ line. record { number = line.number; bytes = line.bytes.now } };
}

impl<'a> Line<'a> {
    /// The number of the line, from 1.
    pub(crate) fn number(&self) -> usize
        ensures { result ≡ self.now.number }
    {
        self.number
    }

    /// The line without its end.
    pub(crate) fn bytes(&self) -> &'a [u8]
        ensures { result.now ≡ self.now.bytes }
    {
        self.bytes
    }

    /// The words of the line.
    pub(crate) fn words(&self) -> Words<'a>
        ensures { result ≡ words_of self.now }
    {
        Words::new(self.number, self.bytes)
    }

    /// Whether the line's words are exactly these.
    fn has_words(&self, names: &[&str]) -> bool
        ensures { result ≡ has_words (texts names.now) self.now }
    {
        are_words(self.bytes, names)
    }

    /// Whether the first word begins with a star.
    fn has_star(&self) -> bool
        ensures { result ≡ has_star (words_in self.now.bytes) }
    {
        match first_word(self.bytes) {
            Some((word, _)) => word.starts_with(b"*"),
            None => false,
        }
    }

    /// Whether the line is a rule: one word, of dashes alone.
    pub(crate) fn is_rule(&self) -> bool
        ensures { result ≡ is_rule self.now }
    {
        match first_word(self.bytes) {
            Some((word, rest)) => is_of_dashes(word) && first_word(rest).is_none(),
            None => false,
        }
    }

    /// Whether the line has a mark.
    fn has_mark(&self, mark: Mark) -> bool
        ensures { result ≡ has_mark mark self.now }
    {
        match mark {
            Mark::Title(part) => self.has_words(part.title()),
            Mark::End(part) => self.has_star() || self.has_words(part.next_title()),
        }
    }
}

/// The lines of a text that are still to come. Contracts see a list.
#[derive(Drop)]
pub(crate) struct Lines<'a> {
    number: usize,
    rest: &'a [u8],
}

impl<'a> Model for Lines<'a> {
    ghost use Rattle.std.specs.Prelude.{List, length, ◌+◌, ◌<◌, ◌^◌};
    ghost use Rattle.std.specs.List.{slice_split};
    ghost use Rattle.racp_text.specs.Cuts.{is_line_feed};
    ghost use Rattle.racp_sm.specs.Lines as lines;

    ghost Value = { List lines.Line };

    ghost view = { λ text. lines.numbered text.number (lines.line_pieces (slice_split is_line_feed text.rest.now)) };

    ghost invariant = { λ text. text.number + length text.rest.now < 2 ^ 64 };
}

impl<'a> Lines<'a> {
    /// The lines of a text.
    pub(crate) fn new(text: &'a [u8]) -> Self
        ensures { result ≡ lines_of text.now }
    {
        let rest = match cut_at(text, END) {
            Some((front, _)) => front,
            None => text,
        };
        Lines { number: 1, rest }
    }

    /// A copy of the lines, to look ahead.
    fn ahead(&self) -> Self
        ensures { result ≡ self.now }
    {
        Lines {
            number: self.number,
            rest: self.rest,
        }
    }

    /// Takes the first line off.
    pub(crate) fn next_line(&mut self) -> Option<Line<'a>>
        ensures { Takes self.old result self.new }
    {
        let (piece, rest) = first_piece(self.rest)?;
        let line = Line {
            number: self.number,
            bytes: without_carriage_return(piece),
        };
        self.number += 1;
        self.rest = rest;
        Some(line)
    }

    /// Takes the first line off, unless it has the mark.
    pub(crate) fn next_before(&mut self, mark: Mark) -> Option<Line<'a>>
        ensures { TakesBefore (has_mark mark) self.old result self.new }
    {
        let mut ahead = self.ahead();
        let line = ahead.next_line()?;
        if line.has_mark(mark) {
            return None;
        }
        *self = ahead;
        Some(line)
    }

    /// Leaves the lines before the first that has the mark.
    pub(crate) fn skip_to(&mut self, mark: Mark)
        ensures { self.new ≡ from_first (has_mark mark) self.old }
    {
        while self.next_before(mark).is_some() {}
    }
}

/// What stands before the first line feed, and what after it, or `None` if there is no further line.
fn first_piece(text: &[u8]) -> Option<(&[u8], &[u8])>
    ensures { TakesPiece text.now result }
{
    if let Some((piece, rest)) = cut_at(text, b'\n') {
        return Some((piece, rest));
    }
    if text.is_empty() {
        return None;
    }
    Some((text, &text[..0]))
}

/// A line without the carriage return at its end.
fn without_carriage_return(line: &[u8]) -> &[u8]
    ensures { result.now ≡ strip_carriage_return line.now }
{
    match line.last() {
        Some(b'\r') => &line[..line.len() - 1],
        _ => line,
    }
}

/// Whether a word is made of dashes alone.
fn is_of_dashes(word: &[u8]) -> bool
    ensures { result ≡ list_all (λ letter. letter == 45) word.now }
{
    word.iter().all(|letter| *letter == b'-')
}
