// The last values of a formula.
//
// A bounded operator asks whether one of the values in a window has the value that it seeks. Between two
// steps the window moves by one place: one value enters it and one leaves it, so a count of those that are
// sought is kept in place of a look at each.
ghost use Rattle.std.specs.Prelude.{◌≡◌, ◌≤◌, IfOk, []};
ghost use Rattle.past_monitor.specs.Ring.{value_back, counted_at, shows, taken};

use std::alloc::{AllocError, Global};
use std::collections::VecDeque;
use std::marker::Model;

/// The last values of a formula, the last first, as many as there is room for, and how many of those from the
/// place `first` on have the value that is sought.
#[derive(Drop)]
pub struct Ring {
    values: VecDeque<bool>,
    room: usize,
    first: usize,
    sought: bool,
    found: usize,
}

impl Model for Ring {
    ghost use Rattle.past_monitor.specs.Ring.{RingValue, coded_ring, IsRing};
    ghost use Rattle.std.specs.VecDeque.{deque_capacity};

    ghost Value = { RingValue };

    ghost coded = { coded_ring };

    ghost view = { λ r. record {
      room = r.room;
      first = r.first;
      sought = r.sought;
      values = r.values.items;
    } };

    ghost invariant = { λ r.
        IsRing r.room r.first r.sought r.found r.values.items (deque_capacity r.values) };
}

impl Ring {
    /// A ring without values, with all the memory that it takes.
    pub fn new(alloc: Global, room: u8, first: u8, sought: bool) -> Result<Ring, AllocError>
        requires { first ≤ room }
        ensures { IfOk result (λ r. r ≡ record { room = room; first = first; sought = sought; values = [] }) }
    {
        let room = room as usize;
        Ok(Ring {
            values: VecDeque::with_capacity(alloc, room)?,
            room,
            first: first as usize,
            sought,
            found: 0,
        })
    }

    /// The value `age` positions back, where 0 is the position of the present value. One that is not there is
    /// not the one that is sought.
    pub fn back(&self, age: usize, present: bool) -> bool
        ensures { result ≡ value_back self.now age present }
    {
        if age == 0 {
            return present;
        }
        match self.values.get(age - 1) {
            Some(value) => *value,
            None => !self.sought,
        }
    }

    /// Whether the value that is sought is in the window, which begins at the place `first` and counts the
    /// present value as 0.
    pub fn shows(&self, present: bool) -> bool
        ensures { result ≡ shows self.now present }
    {
        self.found + self.counted(self.first, present) > 0
    }

    /// Takes the present value, and forgets the one for which there is no room.
    pub fn take(&mut self, present: bool)
        ensures { self.new ≡ taken self.old present }
    {
        if self.room == 0 {
            return;
        }
        let entering = self.counted(self.first, present);
        let leaving = self.counted(self.room, present);
        self.found = self.found + entering - leaving;
        self.values.truncate(self.room - 1);
        self.values.push_front_reserved(present);
    }

    // 1 where the value `age` positions back is the one that is sought, else 0.
    fn counted(&self, age: usize, present: bool) -> usize
        ensures { result ≡ counted_at self.now age present }
    {
        (self.back(age, present) == self.sought) as usize
    }
}
