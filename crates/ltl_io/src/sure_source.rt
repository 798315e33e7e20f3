// A source over memory that never fails, for callers that have their bytes at hand.
ghost use Rattle.std.specs.Prelude.{◌≡◌, ◌<◌, ◌≤◌, Some, drop, length, min, IfOk, IsOk};
ghost use Rattle.ltl_io.specs.Outside.{Gives};

use crate::{Failed, Source};
use std::marker::Model;

/// Gives all its bytes and never fails.
#[derive(Drop)]
pub struct SureSource {
    content: Vec<u8>,
    at: usize,
}

impl Model for SureSource {
    ghost use Rattle.std.specs.Prelude.{◌≤◌, ℕ, List, drop, length};

    ghost Value = { List ℕ };

    ghost view = { λ s. drop s.at s.content.items };

    ghost invariant = { λ s. s.at ≤ length s.content.items };
}

impl SureSource {
    pub fn new(content: Vec<u8>) -> SureSource
        ensures { result ≡ content.items }
    {
        SureSource { content, at: 0 }
    }
}

impl Source for SureSource {
    ghost rest = { λ left. Some left };

    ghost faults = { λ _. 0 };

    fn read(&mut self, into: &mut [u8]) -> Result<usize, Failed>
        requires { 0 < length into.old }
        ensures length { IfOk result (λ n. n ≤ length into.new) }
        ensures given { IfOk result (λ n. Gives n into.new (Some self.old) (Some self.new)) }
        ensures sure { IsOk result }
        ensures amount { IfOk result (λ n. n ≡ min (length self.old) (length into.old)) }
    {
        let left = self.content.len() - self.at;
        let n = left.min(into.len());
        into[..n].copy_from_slice(&self.content[self.at..self.at + n]);
        self.at += n;
        Ok(n)
    }
}
