// Lists of numbers from a text, each with a 0 behind it: clauses, and behind a `?` the assumptions of a
// question.

use cnf_base::{Letter, Literal};
use std::alloc::{AllocError, Global};

/// A list as far as it was read.
#[derive(Drop)]
pub struct Reading {
    number: u32,
    negated: bool,
    inside: bool,
    pub question: bool,
    pub literals: Vec<Literal>,
}

impl Reading {
    pub(crate) fn new(alloc: Global) -> Self {
        Reading {
            number: 0,
            negated: false,
            inside: false,
            question: false,
            literals: Vec::new(alloc),
        }
    }

    /// Takes one byte, and tells whether a list has ended with it.
    pub(crate) fn take(&mut self, byte: u8) -> Result<bool, AllocError> {
        match byte {
            b'?' => self.question = true,
            b'-' => self.negated = true,
            b'0'..=b'9' => {
                self.inside = true;
                self.number = self
                    .number
                    .saturating_mul(10)
                    .saturating_add((byte - b'0') as u32);
            }
            _ => return self.end(),
        }
        Ok(false)
    }

    /// Ends a number, if there is one: a literal, or the end of the list.
    fn end(&mut self) -> Result<bool, AllocError> {
        if !self.inside {
            return Ok(false);
        }
        self.inside = false;
        if self.number == 0 {
            return Ok(true);
        }
        self.literals.push(Literal {
            letter: Letter(self.number),
            negated: self.negated,
        })?;
        self.number = 0;
        self.negated = false;
        Ok(false)
    }

    /// Begins the next list.
    pub(crate) fn begin(&mut self) {
        self.literals.truncate(0);
        self.question = false;
    }
}
