// A sink over memory, whose writes can be short, run out of room, and be made to fail.
ghost use Rattle.std.specs.Prelude.{◌≡◌, ◌<◌, ◌≤◌, ◌↔◌, Some, [], take, length, vec_capacity, IfOk, OnOk};
ghost use Rattle.std.specs.Prelude.{OnErr, IsErr, IsTrue};
ghost use Rattle.ltl_io.specs.Count.{next_count, Rose, Counts};
ghost use Rattle.ltl_io.specs.Outside.{Grows, GrowsByFront};
ghost use Rattle.ltl_io.specs.Memory.{MemoryOutput, refuses_write, amount_taken};

use crate::{Failed, Sink};
use std::alloc::{AllocError, Global};
use std::marker::Model;

/// Takes at most `step` bytes a call, and `room` bytes in all. The calls whose numbers (from 1)
/// are in `failing` fail, and so does each call with no room left; a failed call has a number too.
/// All its memory is taken when it is made.
#[derive(Drop)]
pub struct MemorySink {
    content: Vec<u8>,
    room: usize,
    step: usize,
    failing: Vec<u64>,
    calls: u64,
    faults: u64,
}

impl Model for MemorySink {
    ghost Value = { MemoryOutput };

    ghost view = { λ s. record {
      content = s.content.items;
      room = s.room;
      step = s.step;
      failing = s.failing.items;
      calls = s.calls;
      faults = s.faults;
    } };

    ghost invariant = { λ s. (length s.content.items ≤ s.room) × (s.room ≤ vec_capacity s.content)
        × (0 < s.step) };
}

impl MemorySink {
    pub fn new(
        alloc: Global,
        room: usize,
        step: usize,
        failing: Vec<u64>,
    ) -> Result<MemorySink, AllocError>
        requires { 0 < step }
        ensures { IfOk result (λ s. s ≡ record {
          content = [];
          room = room;
          step = step;
          failing = failing.items;
          calls = 0;
          faults = 0;
        }) }
    {
        let content = Vec::with_capacity(alloc, room)?;
        Ok(MemorySink {
            content,
            room,
            step,
            failing,
            calls: 0,
            faults: 0,
        })
    }

    /// What was taken so far, in order.
    pub fn content(&self) -> &[u8]
        ensures { result.now ≡ self.now.content }
    {
        &self.content
    }
}

impl Sink for MemorySink {
    ghost content = { λ s. Some s.content };

    ghost faults = { λ s. s.faults };

    #[tactic(auto, using(crate::proofs::Growth::stayed_front))]
    fn write(&mut self, piece: &[u8]) -> Result<usize, Failed>
        requires { 0 < length piece.now }
        // As every sink.
        ensures length { IfOk result (λ n. n ≤ length piece.now) }
        ensures progress { IfOk result (λ n. 1 ≤ n) }
        ensures taken { IfOk result (λ n. Grows (take n piece.now) (Some self.old.content)
            (Some self.new.content)) }
        ensures err { OnErr result (GrowsByFront piece.now (Some self.old.content) (Some self.new.content)) }
        ensures cause { OnErr result (Rose self.old.faults self.new.faults) }
        ensures count { OnOk result (self.new.faults ≡ self.old.faults) }
        ensures counts { Counts self.old.faults self.new.faults }

        // Which calls fail, and how much the others take. A call that fails takes nothing.
        ensures refused { IsErr result ↔ IsTrue (refuses_write self.old) }
        ensures stays { OnErr result (self.new.content ≡ self.old.content) }
        ensures amount { IfOk result (λ n. n ≡ amount_taken self.old (length piece.now)) }
        ensures fault { OnErr result (self.new.faults ≡ next_count self.old.faults) }
        ensures number { self.new.calls ≡ next_count self.old.calls }
        ensures same { (self.new.step ≡ self.old.step) × (self.new.room ≡ self.old.room)
            × (self.new.failing ≡ self.old.failing) }
    {
        self.calls = self.calls.saturating_add(1);
        let is_named = self.calls < u64::MAX && self.failing.contains(&self.calls);
        let left = self.room - self.content.len();
        if is_named || left == 0 {
            self.faults = self.faults.saturating_add(1);
            return Err(Failed);
        }
        let n = left.min(self.step).min(piece.len());
        self.content.extend_from_slice(&piece[..n]).unwrap();
        Ok(n)
    }
}
