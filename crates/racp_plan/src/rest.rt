//! What is left of the text of a plan while it is read line by line.

ghost use Rattle.std.specs.Prelude.{◌≡◌, ◌<◌, ◌≤◌, IfOk};
ghost use Rattle.racp_plan.specs.PlanReading.{most_number, words_for};
ghost use Rattle.racp_text.specs.Kept.{Keeps};
ghost use Rattle.racp_text.specs.Reading.{Gives, with_rest};
ghost use Rattle.racp_plan.specs.Steps.{after_words, contents, last_line, next_line, next_number, next_numbers, number_on};

use crate::number::{after_number, after_words, plain_number};
use crate::text_fault::{TextFault, TextFaultKind};
use racp_text::{cut_at, with_item};
use std::alloc::Global;
use std::marker::Model;

/// The greatest time, capacity or start that a text may say.
pub(crate) const MOST_NUMBER: u64 = 10_000_000;

/// What is left of a text, from a line on. Contracts see the `Rest` of specs/Steps.
#[derive(Drop)]
pub(crate) struct Rest<'a> {
    line: usize,
    bytes: &'a [u8],
}

impl<'a> Model for Rest<'a> {
    ghost use Rattle.std.specs.Prelude.{length, ◌+◌, ◌<◌, ◌^◌};
    ghost use Rattle.racp_plan.specs.Steps as steps;

    ghost Value = { steps.Rest };

    ghost view = { λ rest. record { line = rest.line; bytes = rest.bytes.now } };

    ghost invariant = { λ rest. rest.line + length rest.bytes.now < 2 ^ 64 };
}

impl<'a> Rest<'a> {
    /// All of a text.
    pub(crate) fn new(text: &'a [u8]) -> Self
        ensures { result ≡ record { line = 1; bytes = text.now } }
    {
        Rest {
            line: 1,
            bytes: text,
        }
    }

    /// Takes the next line off, without its line feed.
    fn next_line(&mut self) -> Result<&'a [u8], TextFault>
        ensures { with_rest (λ line. line.now) result self.new ≡ next_line self.old }
    {
        match cut_at(self.bytes, b'\n') {
            Some((line, bytes)) => {
                self.line += 1;
                self.bytes = bytes;
                Ok(line)
            }
            None => Err(TextFault::at(TextFaultKind::Syntax, self.line)),
        }
    }

    /// Takes the next line off, which is to be these words and a number up to `most`.
    #[tactic(auto, unfolding(crate::specs::Steps::next_number))]
    pub(crate) fn next_number(&mut self, words: &str, most: u64) -> Result<u64, TextFault>
        requires { most < 18446744073709551615 }
        ensures number { with_rest (λ x. x) result self.new ≡ next_number words.now most self.old }
        ensures most { IfOk result (λ n. n ≤ most) }
    {
        let number = self.line;
        let line = self.next_line()?;
        number_on(number, most, after_words(line, words))
    }

    /// Takes the next line off, which is to be that of a resource or a job: this word, the number, and a number up to
    /// `MOST_NUMBER`.
    #[tactic(auto, unfolding(crate::specs::Steps::next_number))]
    fn next_number_for(&mut self, word: &str, number: u32) -> Result<u32, TextFault>
        ensures { with_rest (λ x. x) result self.new ≡ next_number (words_for word.now number) most_number self.old }
    {
        let line_number = self.line;
        let line = self.next_line()?;
        let digits = after_words_for(line, word, number);
        Ok(number_on(line_number, MOST_NUMBER, digits)? as u32)
    }

    /// Takes this many lines off, which are to be those of the resources or jobs from 1 on. Answers their numbers, or
    /// `None` if memory ran out.
    pub(crate) fn next_numbers(
        &mut self,
        alloc: Global,
        word: &str,
        count: usize,
    ) -> Result<Option<Vec<u32>>, TextFault>
        requires { count ≤ 512 }
        ensures { Gives (Keeps (λ list. list.items)) result self.new (next_numbers word.now 1 count self.old) }
    {
        let mut numbers = Some(Vec::new(alloc));
        for place in 0..count as u32 {
            let number = self.next_number_for(word, place + 1)?;
            numbers = with_item(numbers, Some(number));
        }
        Ok(numbers)
    }

    /// Takes the last line off, after which nothing is to be left.
    #[tactic(auto, unfolding(crate::specs::Steps::last_line))]
    pub(crate) fn end(&mut self) -> Result<(), TextFault>
        ensures { result ≡ last_line self.old }
    {
        let number = self.line;
        let line = self.next_line()?;
        if line != b"end".as_slice() {
            return Err(TextFault::at(TextFaultKind::Syntax, number));
        }
        if !self.bytes.is_empty() {
            return Err(TextFault::at(TextFaultKind::Syntax, self.line));
        }
        Ok(())
    }
}

/// What stands after this word, this number and a blank, or `None` if the line begins otherwise.
#[tactic(auto, unfolding(crate::specs::PlanReading::words_for))]
fn after_words_for<'a>(line: &'a [u8], word: &str, number: u32) -> Option<&'a [u8]>
    ensures { contents result ≡ after_words (words_for word.now number) line.now }
{
    after_number(after_words(line, word)?, number)
}

/// The number of a line of which this stands after its words, if it is at most `most`; `line` is the number of the
/// line.
fn number_on(line: usize, most: u64, digits: Option<&[u8]>) -> Result<u64, TextFault>
    requires { most < 18446744073709551615 }
    ensures number { result ≡ number_on line most (contents digits.entry) }
    ensures most { IfOk result (λ n. n ≤ most) }
{
    match digits.and_then(plain_number) {
        Some(number) if number <= most => Ok(number),
        Some(_) => Err(TextFault::at(TextFaultKind::Range, line)),
        None => Err(TextFault::at(TextFaultKind::Syntax, line)),
    }
}
