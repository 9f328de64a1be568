//! The numbers of a text in Patterson's format.

use crate::fault::TableFault;
use racp_text::number;
use std::alloc::{AllocError, Global};

/// A number of a text, and its line from 1.
#[derive(Clone, Copy)]
struct Token {
    line: u64,
    number: u64,
}

/// The numbers of a text, of which some are taken.
#[derive(Drop)]
pub(crate) struct Tokens {
    tokens: Vec<Token>,
    taken: usize,
}

impl Tokens {
    /// The numbers of a text.
    pub(crate) fn of(alloc: Global, text: &str) -> Result<Tokens, TableFault> {
        let mut tokens = Vec::new(alloc);
        let mut line = 0u64;
        for words in text.lines() {
            line = line.saturating_add(1);
            push_line(alloc, &mut tokens, words, line)?;
        }
        Ok(Tokens { tokens, taken: 0 })
    }

    /// Takes the next number, which is to be from `low` to `high` and is called so.
    pub(crate) fn take(
        &mut self,
        alloc: Global,
        called: &str,
        low: u32,
        high: u32,
    ) -> Result<u32, TableFault> {
        let Some(token) = self.next() else {
            let words = format!(in alloc; "the text ends before {called}");
            return Err(TableFault::at(0, words));
        };
        let Token { line, number } = token;
        if low as u64 <= number && number <= high as u64 {
            Ok(number as u32)
        } else {
            let words = format!(in alloc; "{called} is {number}, and not from {low} to {high}");
            Err(TableFault::at(line, words))
        }
    }

    /// The next number, if there is one.
    fn next(&mut self) -> Option<Token> {
        let token = self.tokens.get(self.taken).copied()?;
        self.taken = self.taken.saturating_add(1);
        Some(token)
    }

    /// Tests that no number is left.
    pub(crate) fn end(&mut self, alloc: Global) -> Result<(), TableFault> {
        match self.next() {
            Some(token) => {
                let words = String::from_str(alloc, "a number stands after the last successor");
                Err(TableFault::at(token.line, words))
            }
            None => Ok(()),
        }
    }
}

/// Adds the numbers of a line.
fn push_line(
    alloc: Global,
    tokens: &mut Vec<Token>,
    words: &str,
    line: u64,
) -> Result<(), TableFault> {
    for word in words.split_whitespace() {
        let Some(number) = number(word.as_bytes()) else {
            let words = format!(in alloc; "'{word}' is no whole number");
            return Err(TableFault::at(line, words));
        };
        push_token(tokens, Token { line, number })?;
    }
    Ok(())
}

/// Adds a number.
fn push_token(tokens: &mut Vec<Token>, token: Token) -> Result<(), AllocError> {
    tokens.push(token)?;
    Ok(())
}
