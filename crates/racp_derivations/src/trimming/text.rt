//! The text of a certificate by clauses, in which each line is spelled out once.

use itoa::Buffer;
use std::alloc::{AllocError, Global};
use std::collections::HashMap;

/// A text that grows, and the numbers of the lines that were spelled out in it, by their words.
#[derive(Drop)]
pub(crate) struct Text {
    alloc: Global,
    bytes: Vec<u8>,
    numbers: HashMap<Vec<u8>, u64>,
}

impl Text {
    /// A text of these bytes.
    pub(crate) fn begun(alloc: Global, bytes: &[u8]) -> Result<Self, AllocError> {
        Ok(Text {
            alloc,
            bytes: bytes.to_vec(alloc)?,
            numbers: HashMap::new(alloc),
        })
    }

    /// How many bytes it has.
    pub(crate) fn len(&self) -> usize {
        self.bytes.len()
    }

    /// Its bytes.
    pub(crate) fn into_bytes(self) -> Vec<u8> {
        let Text { bytes, .. } = self;
        bytes
    }

    /// Adds bytes.
    pub(crate) fn push(&mut self, bytes: &[u8]) -> Result<(), AllocError> {
        self.bytes.extend_from_slice(bytes)
    }

    /// Adds a number.
    pub(crate) fn push_number(&mut self, number: u64) -> Result<(), AllocError> {
        let mut buffer = Buffer::new();
        self.push(buffer.format(number).as_bytes())
    }

    /// Ends the line that begins at a place. Where the same line was spelled out before, its number takes its place.
    pub(crate) fn end_line(&mut self, begin: usize) -> Result<(), AllocError> {
        match self.number_of(begin) {
            Some(number) => {
                self.bytes.truncate(begin);
                self.push_number(number)?;
            }
            None => self.number_line(begin)?,
        }
        self.push(b"\n")
    }

    /// The number of the line that begins at a place, if it was spelled out before.
    fn number_of(&self, begin: usize) -> Option<u64> {
        let words = self.bytes.get(begin..)?;
        self.numbers.get(words).copied()
    }

    /// Gives the line that begins at a place the next number.
    fn number_line(&mut self, begin: usize) -> Result<(), AllocError> {
        let words = self.bytes.get(begin..).unwrap_or(&[]).to_vec(self.alloc)?;
        let number = (self.numbers.len() as u64).saturating_add(1);
        self.numbers.insert(words, number)?;
        Ok(())
    }
}
