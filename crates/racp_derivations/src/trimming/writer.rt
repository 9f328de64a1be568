//! The lines of a certificate by clauses.

use crate::trimming::text::Text;
use racp_clauses::Literal;
use racp_learning::{Derivations, Step};
use racp_model::Network;
use racp_text::MOST_TEXT_BYTES;
use std::alloc::{AllocError, Global};

/// A text that is written, and the numbers of the clauses in it, by the derivation.
#[derive(Drop)]
pub(crate) struct Writer<'a> {
    net: &'a Network,
    text: Text,
    numbers: Vec<u32>,
    count: u32,
}

impl<'a> Writer<'a> {
    /// A text with its first line.
    fn begun(alloc: Global, net: &'a Network, needed: &[bool]) -> Result<Self, AllocError> {
        let text = Text::begun(alloc, b"proof 2\n")?;
        let numbers = Vec::from_elem(alloc, 0, needed.len())?;
        Ok(Writer {
            net,
            text,
            numbers,
            count: 0,
        })
    }

    /// The text with the lines of the derivations that are needed, and the last one.
    fn into_text(
        mut self,
        derivations: &Derivations,
        needed: &[bool],
    ) -> Result<Option<Vec<u8>>, AllocError> {
        for at in 0..needed.len() {
            if needed.get(at).copied().unwrap_or(false) {
                self.push_derivation(derivations, at)?;
            }
            if MOST_TEXT_BYTES < self.text.len() {
                return Ok(None);
            }
        }
        self.text.push(b"end\n")?;
        let Writer { text, .. } = self;
        let bytes = text.into_bytes();
        if bytes.len() <= MOST_TEXT_BYTES {
            Ok(Some(bytes))
        } else {
            Ok(None)
        }
    }

    /// The text of the derivations that are needed, or `None` if it would have more than 16,777,216 bytes.
    pub(crate) fn text_of(
        alloc: Global,
        net: &Network,
        derivations: &Derivations,
        needed: &[bool],
    ) -> Result<Option<Vec<u8>>, AllocError> {
        Writer::begun(alloc, net, needed)?.into_text(derivations, needed)
    }

    /// The same with the line of a bound.
    pub(crate) fn bound_text_of(
        alloc: Global,
        net: &Network,
        derivations: &Derivations,
        needed: &[bool],
        least: u64,
    ) -> Result<Option<Vec<u8>>, AllocError> {
        let mut writer = Writer::begun(alloc, net, needed)?;
        writer.text.push(b"at least ")?;
        writer.text.push_number(least)?;
        writer.text.push(b"\n")?;
        writer.into_text(derivations, needed)
    }

    /// Adds the lines of a derivation.
    fn push_derivation(&mut self, derivations: &Derivations, at: usize) -> Result<(), AllocError> {
        for &literal in derivations.literals(at) {
            let begin = self.text.len();
            self.push_literal(literal)?;
            self.text.end_line(begin)?;
        }
        for &step in derivations.steps(at) {
            self.push_line_of(step)?;
        }
        if derivations.is_ground(at) {
            return self.text.push(b"keep\n");
        }
        self.count = self.count.saturating_add(1);
        if let Some(number) = self.numbers.get_mut(at) {
            *number = self.count;
        }
        self.text.push(b"holds\n")
    }

    /// Adds the line of a step.
    fn push_line_of(&mut self, step: Step) -> Result<(), AllocError> {
        if let Step::Clause(of) = step {
            return self.push_clause(of as usize);
        }
        let begin = self.text.len();
        self.push_step(step)?;
        self.text.end_line(begin)
    }

    /// Adds the line of the clause of a derivation.
    fn push_clause(&mut self, of: usize) -> Result<(), AllocError> {
        let number = self.numbers.get(of).copied().unwrap_or(0);
        self.text.push(b"clause ")?;
        self.text.push_number(number as u64)?;
        self.text.push(b"\n")
    }

    /// Adds the words of a literal.
    fn push_literal(&mut self, literal: Literal) -> Result<(), AllocError> {
        match literal {
            Literal::AtLeast(x, least) => {
                self.push_variable(x as usize)?;
                self.push_bound(b" >= ", least)
            }
            Literal::AtMost(x, most) => {
                self.push_variable(x as usize)?;
                self.push_bound(b" <= ", most)
            }
        }
    }

    /// Adds the words for the variable at a place.
    fn push_variable(&mut self, x: usize) -> Result<(), AllocError> {
        let (jobs, resources) = (self.net.job_count(), self.net.resource_count());
        if x < jobs {
            self.text.push(b"start ")?;
            self.push_place(x)
        } else if x < jobs + resources {
            self.text.push(b"units ")?;
            self.push_place(x - jobs)
        } else {
            self.text.push(b"cost")
        }
    }

    /// Adds a sign and a number.
    fn push_bound(&mut self, sign: &[u8], value: u64) -> Result<(), AllocError> {
        self.text.push(sign)?;
        self.text.push_number(value)
    }

    /// Adds the words of a step, unless it is by a clause.
    fn push_step(&mut self, step: Step) -> Result<(), AllocError> {
        match step {
            Step::Pair(pair) => self.push_pair(pair as usize),
            Step::TimeTable(job, k, from, until) => {
                self.text.push(b"times ")?;
                self.push_place(job as usize)?;
                self.text.push(b" ")?;
                self.push_place(k as usize)?;
                self.push_times(from, until)
            }
            Step::Energy(k, from, until) => {
                self.text.push(b"energy ")?;
                self.push_place(k as usize)?;
                self.push_times(from, until)
            }
            Step::Request(job, k) => {
                self.text.push(b"request ")?;
                self.push_place(job as usize)?;
                self.text.push(b" ")?;
                self.push_place(k as usize)
            }
            Step::Prices => self.text.push(b"prices"),
            Step::Budget(k) => {
                self.text.push(b"budget ")?;
                self.push_place(k as usize)
            }
            Step::Clause(_) => Ok(()),
        }
    }

    /// Adds the words of a pair of the precedence relation.
    fn push_pair(&mut self, pair: usize) -> Result<(), AllocError> {
        let (before, after) = self.net.arcs().get(pair).copied().unwrap_or((0, 0));
        self.text.push(b"pair ")?;
        self.text.push_number(before as u64)?;
        self.text.push(b" ")?;
        self.text.push_number(after as u64)
    }

    /// Adds two times.
    fn push_times(&mut self, from: u32, until: u32) -> Result<(), AllocError> {
        self.text.push(b" ")?;
        self.text.push_number(from as u64)?;
        self.text.push(b" ")?;
        self.text.push_number(until as u64)
    }

    /// Adds the number of what stands at a place.
    fn push_place(&mut self, place: usize) -> Result<(), AllocError> {
        self.text.push_number((place as u64).saturating_add(1))
    }
}
