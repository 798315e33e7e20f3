// Gates that see what a parallel phase does: one that two pieces are at work at once, and one which
// numbers its pieces tell.
use ltl_io::Gate;
use std::alloc::{AllocError, Global};
use std::sync::atomic::{AtomicU64, Ordering};

/// Holds piece 0 until piece 1 has begun, and notes whether it came to that.
#[derive(Drop)]
pub struct Meeting {
    begun: AtomicU64,
    met: AtomicU64,
}

impl Meeting {
    pub(crate) fn new() -> Meeting {
        Meeting {
            begun: AtomicU64::new(0),
            met: AtomicU64::new(0),
        }
    }

    pub(crate) fn met(&self) -> bool {
        self.met.load(Ordering::SeqCst) == 1
    }
}

impl Gate for Meeting {
    fn begin(&self, piece: u32) {
        if piece == 1 {
            self.begun.store(1, Ordering::SeqCst);
        }
        if piece != 0 {
            return;
        }
        for _turn in 0..1_000_000_000u32 {
            if self.begun.load(Ordering::SeqCst) == 1 {
                self.met.store(1, Ordering::SeqCst);
                return;
            }
        }
    }
}

/// How many numbers have a count of their own: more than any test has pieces.
const COUNTED: usize = 64;

/// Counts how often each piece number is told. Those from 64 on are counted together.
#[derive(Drop)]
pub struct Roll {
    told: Vec<AtomicU64>,
    beyond: AtomicU64,
}

impl Roll {
    pub(crate) fn new(alloc: Global) -> Result<Roll, AllocError> {
        let mut told = Vec::new(alloc);
        for _ in 0..COUNTED {
            told.push(AtomicU64::new(0))?;
        }
        Ok(Roll {
            told,
            beyond: AtomicU64::new(0),
        })
    }

    /// How often this number was told, or any from 64 on.
    pub(crate) fn count(&self, piece: u32) -> u64 {
        match self.told.get(piece as usize) {
            Some(count) => count.load(Ordering::SeqCst),
            None => self.beyond.load(Ordering::SeqCst),
        }
    }

    /// Whether each number below this one was told once, and no other was told.
    pub(crate) fn each_once(&self, pieces: u32) -> bool {
        for piece in 0..COUNTED as u32 + 1 {
            let wanted = if piece < pieces { 1 } else { 0 };
            if self.count(piece) != wanted {
                return false;
            }
        }
        true
    }
}

impl Gate for Roll {
    fn begin(&self, piece: u32) {
        let count = self.told.get(piece as usize).unwrap_or(&self.beyond);
        let _ = count.fetch_add(1, Ordering::SeqCst);
    }
}
