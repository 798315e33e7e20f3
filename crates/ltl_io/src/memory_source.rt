// A source over memory, whose reads can be short and be made to fail.
ghost use Rattle.std.specs.Prelude.{◌≡◌, ◌<◌, ◌≤◌, ◌↔◌, Some, drop, length, IfOk, OnOk, OnErr, IsErr, IsTrue};
ghost use Rattle.ltl_io.specs.Count.{next_count, Rose, Counts};
ghost use Rattle.ltl_io.specs.Outside.{Gives, Stays};
ghost use Rattle.ltl_io.specs.Memory.{MemoryInput, refuses_read, amount_given};

use crate::{Failed, Source};
use std::marker::Model;

/// Gives at most `step` bytes a call. The calls whose numbers (from 1) are in `failing` fail; a
/// failed call has a number too, and the call after it goes on where it stood.
#[derive(Drop)]
pub struct MemorySource {
    content: Vec<u8>,
    at: usize,
    step: usize,
    failing: Vec<u64>,
    calls: u64,
    faults: u64,
}

impl Model for MemorySource {
    ghost Value = { MemoryInput };

    ghost view = { λ s. record {
      rest = drop s.at s.content.items;
      step = s.step;
      failing = s.failing.items;
      calls = s.calls;
      faults = s.faults;
    } };

    ghost invariant = { λ s. (s.at ≤ length s.content.items) × (0 < s.step) };
}

impl MemorySource {
    pub fn new(content: Vec<u8>, step: usize, failing: Vec<u64>) -> MemorySource
        requires { 0 < step }
        ensures { result ≡ record {
          rest = content.items;
          step = step;
          failing = failing.items;
          calls = 0;
          faults = 0;
        } }
    {
        MemorySource {
            content,
            at: 0,
            step,
            failing,
            calls: 0,
            faults: 0,
        }
    }
}

impl Source for MemorySource {
    ghost rest = { λ s. Some s.rest };

    ghost faults = { λ s. s.faults };

    fn read(&mut self, into: &mut [u8]) -> Result<usize, Failed>
        requires { 0 < length into.old }
        // As every source.
        ensures length { IfOk result (λ n. n ≤ length into.new) }
        ensures given { IfOk result (λ n. Gives n into.new (Some self.old.rest) (Some self.new.rest)) }
        ensures err { OnErr result (Stays (Some self.old.rest) (Some self.new.rest)) }
        ensures cause { OnErr result (Rose self.old.faults self.new.faults) }
        ensures count { OnOk result (self.new.faults ≡ self.old.faults) }
        ensures counts { Counts self.old.faults self.new.faults }

        // Which calls fail, and how much the others give.
        ensures refused { IsErr result ↔ IsTrue (refuses_read self.old) }
        ensures amount { IfOk result (λ n. n ≡ amount_given self.old (length into.old)) }
        ensures fault { OnErr result (self.new.faults ≡ next_count self.old.faults) }
        ensures number { self.new.calls ≡ next_count self.old.calls }
        ensures same { (self.new.step ≡ self.old.step) × (self.new.failing ≡ self.old.failing) }
    {
        self.calls = self.calls.saturating_add(1);
        if self.calls < u64::MAX && self.failing.contains(&self.calls) {
            self.faults = self.faults.saturating_add(1);
            return Err(Failed);
        }
        let left = self.content.len() - self.at;
        let n = left.min(self.step).min(into.len());
        into[..n].copy_from_slice(&self.content[self.at..self.at + n]);
        self.at += n;
        Ok(n)
    }
}
