// When the search begins anew: after as many conflicts as the next number of Luby's sequence says, times a
// fixed step, and at most a thousand times. That bound is the first part of the measure by which the search
// ends. After Luby, Sinclair and Zuckerman, Optimal speedup of Las Vegas algorithms (1993).
ghost use Rattle.std.specs.Prelude.{◌≡◌, ◌+◌, ◌⊎◌, true, false};

/// The number of conflicts that go by for each one that the sequence says.
const STEP: u64 = 120;

/// The conflicts of one question, as far as they decide when the search begins anew.
#[derive(Drop)]
pub struct Pace {
    /// How many times it may still begin anew.
    pub left: u32,
    /// How many conflicts came since it began.
    conflicts: u64,
}

impl Pace {
    /// A thousand times, and no conflict.
    pub fn new() -> Self
        ensures { result ≡ record { left = 1000; conflicts = 0 } }
    {
        Pace {
            left: 1000,
            conflicts: 0,
        }
    }

    /// Counts a conflict, and says whether the search begins anew.
    pub fn count(&mut self) -> bool
        ensures { ((result ≡ false) × (self.new.left ≡ self.old.left))
            ⊎ ((result ≡ true) × (self.old.left ≡ self.new.left + 1)) }
    {
        self.conflicts = self.conflicts.saturating_add(1);
        if self.left == 0 {
            return false;
        }
        if self.conflicts < luby(1000_u32.saturating_sub(self.left)).saturating_mul(STEP) {
            return false;
        }
        self.conflicts = 0;
        self.left -= 1;
        true
    }
}

/// The number of a place of Luby's sequence: 1, 1, 2, 1, 1, 2, 4, ..
fn luby(place: u32) -> u64 {
    let mut at = place as u64 + 1;
    for _ in 0..64 {
        let size = enclosing(at);
        if size == at {
            return size / 2 + 1;
        }
        at = at.saturating_sub(size / 2).max(1);
    }
    1
}

/// The least of 1, 3, 7, 15, .. that is not less.
fn enclosing(at: u64) -> u64 {
    let mut size: u64 = 1;
    for _ in 0..40 {
        if size >= at {
            return size;
        }
        size = size.saturating_mul(2).saturating_add(1);
    }
    size
}
